//! The text that a check prints.
ghost use Rattle.std.specs.Prelude.{◌≡◌, ◌++◌, IfOk, OnOk, IsErrOf};
ghost use Rattle.mr_printing.specs.CheckText.{premise_text, premises_line, op_text, stale_line, invented_line, verdict_line, refused_line, outcome_line, check_text};
ghost use Rattle.mr_words.specs.Printing.{WritesAtOnce};

use crate::line::push_number;
use mr_history::OpId;
use mr_shown::KeptVerdict;
use mr_text::Sink;
use mr_transcripts::{Checked, Outcome};
use mr_words::{PrintFault, write_at_once};
use mr_world::Premises;
use std::alloc::{AllocError, Global};

/// Adds a name, and whether what it names holds.
fn push_premise(text: &mut Vec<u8>, name: &[u8], holds: bool) -> Result<(), AllocError>
    ensures { OnOk result (text.new.items ≡ text.old.items ++ premise_text name.now holds) }
{
    text.extend_from_slice(name)?;
    let word: &[u8] = if holds { b"true" } else { b"false" };
    text.extend_from_slice(word)?;
    Ok(())
}

/// Adds the line of the premises.
pub(crate) fn push_premises_line(text: &mut Vec<u8>, premises: Premises) -> Result<(), AllocError>
    ensures { OnOk result (text.new.items ≡ text.old.items ++ premises_line premises) }
{
    push_premise(text, b"premises same ", premises.same)?;
    push_premise(text, b" new_empty ", premises.new_empty)?;
    push_premise(text, b" forward ", premises.forward)?;
    push_premise(text, b" near ", premises.near)?;
    text.extend_from_slice(b"\n")?;
    Ok(())
}

/// Adds the name of a request.
fn push_op(text: &mut Vec<u8>, op: OpId) -> Result<(), AllocError>
    ensures { OnOk result (text.new.items ≡ text.old.items ++ op_text op) }
{
    push_number(text, u64::from(op.proxy))?;
    text.extend_from_slice(b".")?;
    push_number(text, op.incarnation)?;
    text.extend_from_slice(b".")?;
    push_number(text, op.number)?;
    Ok(())
}

/// Adds the line of a get that hits what a delete should have removed.
fn push_stale_line(text: &mut Vec<u8>, get: OpId, delete: OpId) -> Result<(), AllocError>
    ensures { OnOk result (text.new.items ≡ text.old.items ++ stale_line get delete) }
{
    text.extend_from_slice(b"verdict stale get ")?;
    push_op(text, get)?;
    text.extend_from_slice(b" delete ")?;
    push_op(text, delete)?;
    text.extend_from_slice(b"\n")?;
    Ok(())
}

/// Adds the line of a get that hits what nothing had stored.
fn push_invented_line(text: &mut Vec<u8>, get: OpId) -> Result<(), AllocError>
    ensures { OnOk result (text.new.items ≡ text.old.items ++ invented_line get) }
{
    text.extend_from_slice(b"verdict invented get ")?;
    push_op(text, get)?;
    text.extend_from_slice(b"\n")?;
    Ok(())
}

/// Adds the line of the verdict.
pub(crate) fn push_verdict_line(text: &mut Vec<u8>, verdict: &KeptVerdict) -> Result<(), AllocError>
    ensures { OnOk result (text.new.items ≡ text.old.items ++ verdict_line verdict.now) }
{
    match verdict {
        KeptVerdict::Safe => text.extend_from_slice(b"verdict safe\n"),
        KeptVerdict::Stale { get, delete, .. } => push_stale_line(text, *get, *delete),
        KeptVerdict::Invented { get, .. } => push_invented_line(text, *get),
    }
}

/// Adds the line of an event that is refused.
fn push_refused_line(text: &mut Vec<u8>, index: usize) -> Result<(), AllocError>
    ensures { OnOk result (text.new.items ≡ text.old.items ++ refused_line index) }
{
    text.extend_from_slice(b"not accepted: event ")?;
    push_number(text, index as u64)?;
    text.extend_from_slice(b" refused\n")?;
    Ok(())
}

/// Adds the line of the outcome.
pub(crate) fn push_outcome_line(text: &mut Vec<u8>, outcome: Outcome) -> Result<(), AllocError>
    ensures { OnOk result (text.new.items ≡ text.old.items ++ outcome_line outcome) }
{
    match outcome {
        Outcome::EventRefused(index) => push_refused_line(text, index),
        Outcome::NotesDiffer => text.extend_from_slice(b"not accepted: notes differ\n"),
        Outcome::HistoryDiffers => text.extend_from_slice(b"not accepted: history differs\n"),
        Outcome::PremisesDiffer => text.extend_from_slice(b"not accepted: premises differ\n"),
        Outcome::VerdictDiffers => text.extend_from_slice(b"not accepted: verdict differs\n"),
        Outcome::PremiseFalse => text.extend_from_slice(b"not accepted: premise false\n"),
        Outcome::NotSafe => text.extend_from_slice(b"not accepted: not safe\n"),
        Outcome::Accepted => text.extend_from_slice(b"accepted\n"),
    }
}

/// The text of a check, whole.
fn text_of_check(alloc: Global, checked: &Checked) -> Result<Vec<u8>, AllocError>
    ensures { IfOk result (λ text. text.items ≡ check_text checked.now) }
{
    let mut text = Vec::new(alloc);
    push_premises_line(&mut text, checked.premises)?;
    push_verdict_line(&mut text, &checked.verdict)?;
    push_outcome_line(&mut text, checked.outcome)?;
    Ok(text)
}

/// Writes what a check found, in three lines: which premises hold, the verdict, and the outcome. The text is whole before
/// the one call that writes it.
pub fn write_check<W: Sink>(
    alloc: Global,
    checked: &Checked,
    writer: &mut W,
) -> Result<(), PrintFault>
    ensures check { WritesAtOnce (check_text checked.now) (W.told writer.old) result (W.told writer.new) }

    // The writer is not even touched where memory is refused.
    ensures memory { IsErrOf result PrintFault.Memory → writer.new ≡ writer.old }
{
    let text = text_of_check(alloc, checked)?;
    write_at_once(text.as_slice(), writer)
}
