//! How bytes from outside are shown in a picture: the one place that escapes them.
ghost use Rattle.std.specs.Prelude.{◌≡◌, ◌<◌, ◌++◌, OnOk};
ghost use Rattle.mr_drawing.specs.Escape.{hex_digit, coded, plain, shown_byte, shown};

use std::alloc::AllocError;

/// The digit of base 16, in lower case.
fn hex_digit(value: u8) -> u8
    requires { value < 16 }
    ensures { result ≡ hex_digit value }
{
    if value < 10 { 48 + value } else { 87 + value }
}

/// Adds a byte by its two digits.
fn push_coded(text: &mut Vec<u8>, byte: u8) -> Result<(), AllocError>
    ensures { OnOk result (text.new.items ≡ text.old.items ++ coded byte) }
{
    text.extend_from_slice(&[b'\\', b'x', hex_digit(byte / 16), hex_digit(byte % 16)])
}

/// Adds a byte that means nothing to XML.
fn push_plain(text: &mut Vec<u8>, byte: u8) -> Result<(), AllocError>
    ensures { OnOk result (text.new.items ≡ text.old.items ++ plain byte) }
{
    if byte == b'\\' {
        text.extend_from_slice(b"\\\\")
    } else if 32 <= byte && byte <= 126 {
        text.extend_from_slice(&[byte])
    } else {
        push_coded(text, byte)
    }
}

/// Adds a byte as it is shown.
fn push_shown_byte(text: &mut Vec<u8>, byte: u8) -> Result<(), AllocError>
    ensures { OnOk result (text.new.items ≡ text.old.items ++ shown_byte byte) }
{
    match byte {
        b'&' => text.extend_from_slice(b"&amp;"),
        b'<' => text.extend_from_slice(b"&lt;"),
        b'>' => text.extend_from_slice(b"&gt;"),
        b'"' => text.extend_from_slice(b"&quot;"),
        b'\'' => text.extend_from_slice(b"&apos;"),
        _ => push_plain(text, byte),
    }
}

/// Adds bytes as they are shown: the five characters of XML as entities, a backslash doubled, each other byte that isn't
/// printable ASCII as a backslash, an `x` and its two digits of base 16, and all else as it stands.
pub fn push_shown(text: &mut Vec<u8>, bytes: &[u8]) -> Result<(), AllocError>
    ensures { OnOk result (text.new.items ≡ text.old.items ++ shown bytes.now) }
{
    for byte in bytes {
        push_shown_byte(text, *byte)?;
    }
    Ok(())
}
