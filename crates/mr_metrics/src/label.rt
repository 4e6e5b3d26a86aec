//! Labels, which tell the samples of a family apart.
ghost use Rattle.std.specs.Prelude.{◌≡◌, ◌++◌, OnOk};
ghost use Rattle.mr_metrics.specs.Exposition.{escaped_byte, escaped, shown_label, more_labels, shown_labels};

use std::alloc::AllocError;

/// A name, with what stands under it here.
#[derive(Clone, Copy, Debug)]
pub(crate) struct Label<'a> {
    /// The name: letters, digits and underscores.
    pub(crate) name: &'a str,
    /// What stands under it: any text.
    pub(crate) value: &'a str,
}

/// Adds a byte of a label's value, escaped where it has to be.
fn push_escaped_byte(text: &mut Vec<u8>, byte: u8) -> Result<(), AllocError>
    ensures { OnOk result (text.new.items ≡ text.old.items ++ escaped_byte byte) }
{
    match byte {
        b'\\' => text.extend_from_slice(b"\\\\")?,
        b'"' => text.extend_from_slice(b"\\\"")?,
        b'\n' => text.extend_from_slice(b"\\n")?,
        other => text.push(other)?,
    }
    Ok(())
}

/// Adds a label's value, in which backslashes, quotes and line ends are escaped.
fn push_escaped(text: &mut Vec<u8>, value: &str) -> Result<(), AllocError>
    ensures { OnOk result (text.new.items ≡ text.old.items ++ escaped value.now) }
{
    for byte in value.as_bytes() {
        push_escaped_byte(text, *byte)?;
    }
    Ok(())
}

/// Adds a label.
fn push_label(text: &mut Vec<u8>, label: &Label<'_>) -> Result<(), AllocError>
    ensures { OnOk result (text.new.items ≡ text.old.items ++ shown_label label.now) }
{
    text.extend_from_slice(label.name.as_bytes())?;
    text.extend_from_slice(b"=\"")?;
    push_escaped(text, label.value)?;
    text.extend_from_slice(b"\"")?;
    Ok(())
}

/// Adds labels behind the first.
fn push_more_labels(text: &mut Vec<u8>, labels: &[Label<'_>]) -> Result<(), AllocError>
    ensures { OnOk result (text.new.items ≡ text.old.items ++ more_labels labels.now) }
{
    for label in labels {
        text.extend_from_slice(b",")?;
        push_label(text, label)?;
    }
    Ok(())
}

/// Adds the labels of a sample: nothing where it has none.
pub(crate) fn push_labels(text: &mut Vec<u8>, labels: &[Label<'_>]) -> Result<(), AllocError>
    ensures { OnOk result (text.new.items ≡ text.old.items ++ shown_labels labels.now) }
{
    let Some((first, others)) = labels.split_first() else {
        return Ok(());
    };
    text.extend_from_slice(b"{")?;
    push_label(text, first)?;
    push_more_labels(text, others)?;
    text.extend_from_slice(b"}")?;
    Ok(())
}
