//! Families of samples, in the text that is scraped.
ghost use Rattle.std.specs.Prelude.{◌≡◌, ◌++◌, OnOk};
ghost use Rattle.mr_metrics.specs.Exposition.{kind_text, help_line, type_line, family_head, rest_of_sample, shown_sample};

use crate::label::{Label, push_labels};
use crate::number::{Number, push_number};
use std::alloc::AllocError;

/// What the numbers of a family are.
#[derive(Clone, Copy, Debug, PartialEq, Eq)]
pub(crate) enum Kind {
    /// They only rise, from 0 at the start of the service.
    Counter,
    /// They rise and fall.
    Gauge,
    /// They count what was measured by how large it was.
    Histogram,
}

impl Kind {
    /// Its word.
    fn as_str(self) -> &'static str
        ensures { result.now ≡ kind_text self }
    {
        match self {
            Kind::Counter => "counter",
            Kind::Gauge => "gauge",
            Kind::Histogram => "histogram",
        }
    }
}

/// Adds the line that says what a family tells.
fn push_help(text: &mut Vec<u8>, name: &str, help: &str) -> Result<(), AllocError>
    ensures { OnOk result (text.new.items ≡ text.old.items ++ help_line name.now help.now) }
{
    text.extend_from_slice(b"# HELP ")?;
    text.extend_from_slice(name.as_bytes())?;
    text.extend_from_slice(b" ")?;
    text.extend_from_slice(help.as_bytes())?;
    text.extend_from_slice(b"\n")?;
    Ok(())
}

/// Adds the line of a family's type.
fn push_type(text: &mut Vec<u8>, name: &str, kind: Kind) -> Result<(), AllocError>
    ensures { OnOk result (text.new.items ≡ text.old.items ++ type_line name.now kind) }
{
    text.extend_from_slice(b"# TYPE ")?;
    text.extend_from_slice(name.as_bytes())?;
    text.extend_from_slice(b" ")?;
    text.extend_from_slice(kind.as_str().as_bytes())?;
    text.extend_from_slice(b"\n")?;
    Ok(())
}

/// Begins a family: what it tells, in which there is no backslash and no line end, and its type.
pub(crate) fn push_family(
    text: &mut Vec<u8>,
    name: &str,
    help: &str,
    kind: Kind,
) -> Result<(), AllocError>
    ensures { OnOk result (text.new.items ≡ text.old.items ++ family_head name.now help.now kind) }
{
    push_help(text, name, help)?;
    push_type(text, name, kind)
}

/// Adds what follows a sample's name: its labels and its number.
fn push_rest(text: &mut Vec<u8>, labels: &[Label<'_>], number: Number) -> Result<(), AllocError>
    ensures { OnOk result (text.new.items ≡ text.old.items ++ rest_of_sample labels.now number) }
{
    push_labels(text, labels)?;
    text.extend_from_slice(b" ")?;
    push_number(text, number)?;
    text.extend_from_slice(b"\n")?;
    Ok(())
}

/// Adds a sample: its name, its labels and its number, in a line.
pub(crate) fn push_sample(
    text: &mut Vec<u8>,
    name: &str,
    labels: &[Label<'_>],
    number: Number,
) -> Result<(), AllocError>
    ensures { OnOk result (text.new.items ≡ text.old.items ++ shown_sample name.now labels.now number) }
{
    text.extend_from_slice(name.as_bytes())?;
    push_rest(text, labels, number)
}

/// Adds a sample of a family that has several, each with an ending of its name.
pub(crate) fn push_part(
    text: &mut Vec<u8>,
    name: &str,
    ending: &str,
    labels: &[Label<'_>],
    number: Number,
) -> Result<(), AllocError>
    ensures { OnOk result (text.new.items ≡ text.old.items ++ shown_sample (name.now ++ ending.now) labels.now number) }
{
    text.extend_from_slice(name.as_bytes())?;
    text.extend_from_slice(ending.as_bytes())?;
    push_rest(text, labels, number)
}
