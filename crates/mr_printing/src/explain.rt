//! What a fault's line means.
ghost use Rattle.std.specs.Prelude.{◌≡◌, ◌++◌, IfOk, OnOk, IsErrOf};
ghost use Rattle.mr_words.specs.Explain.{told_by, heading_line};
ghost use Rattle.mr_printing.specs.ExplainText.{explanation_text};
ghost use Rattle.mr_words.specs.Printing.{WritesAtOnce};

use crate::line::push_number;
use mr_text::Sink;
use mr_words::{Explanation, PrintFault, write_at_once};
use std::alloc::{AllocError, Global};

/// Adds the line that names a refusal, as the fault's line does.
fn push_heading_line(text: &mut Vec<u8>, explanation: &Explanation) -> Result<(), AllocError>
    ensures { OnOk result (text.new.items ≡ text.old.items ++ heading_line (told_by explanation.now)) }
{
    text.extend_from_slice(explanation.layer.as_bytes())?;
    text.extend_from_slice(b" ")?;
    push_number(text, explanation.number)?;
    text.extend_from_slice(b" ")?;
    text.extend_from_slice(explanation.name.as_bytes())?;
    text.extend_from_slice(b"\n")?;
    Ok(())
}

/// The text of an explanation, whole.
fn text_of_explanation(alloc: Global, explanation: &Explanation) -> Result<Vec<u8>, AllocError>
    ensures { IfOk result (λ text. text.items ≡ explanation_text (told_by explanation.now)) }
{
    let mut text = Vec::new(alloc);
    push_heading_line(&mut text, explanation)?;
    text.extend_from_slice(explanation.meaning.as_bytes())?;
    text.extend_from_slice(b"\n")?;
    Ok(text)
}

/// Writes the line that names a refusal, and below it what it means. The text is whole before the one call that writes
/// it.
pub fn write_explanation<W: Sink>(
    alloc: Global,
    explanation: &Explanation,
    writer: &mut W,
) -> Result<(), PrintFault>
    ensures text { WritesAtOnce (explanation_text (told_by explanation.now)) (W.told writer.old) result (W.told writer.new) }

    // The writer is not even touched where memory is refused.
    ensures memory { IsErrOf result PrintFault.Memory → writer.new ≡ writer.old }
{
    let text = text_of_explanation(alloc, explanation)?;
    write_at_once(text.as_slice(), writer)
}
