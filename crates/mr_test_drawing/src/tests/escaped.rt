//! What is shown of bytes.
use super::holds;
use mr_drawing::push_shown;
use std::alloc::Global;
use std::process::Abort;

/// Bytes, and what is shown of them.
static ROWS: [(&[u8], &[u8]); 9] = [
    (b"", b""),
    (b"user:1 ~", b"user:1 ~"),
    (b"<&>", b"&lt;&amp;&gt;"),
    (b"\"'", b"&quot;&apos;"),
    (b"a\\b", b"a\\\\b"),
    (b"\x00\x1f", b"\\x00\\x1f"),
    (b"\x7f\xff", b"\\x7f\\xff"),
    (b"\\x41", b"\\\\x41"),
    (b"&lt;", b"&amp;lt;"),
];

/// Asserts what is shown of bytes, behind what is there.
fn shows(rt: &impl Abort, alloc: Global, bytes: &[u8], wanted: &[u8]) {
    let mut text = Vec::new(alloc);
    holds(rt, push_shown(&mut text, bytes).is_ok(), "there is room");
    holds(rt, text.as_slice() == wanted, "what is shown");
}

#[test]
fn bytes_are_shown(rt: HostRuntime) {
    for (bytes, wanted) in &ROWS {
        shows(&rt, rt.alloc(), bytes, wanted);
    }
}
