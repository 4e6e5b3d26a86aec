//! Transcripts of format 2, in which data is hexadecimal digits.
use super::transcripts::{SCRIPT, TRANSCRIPT, transcript};
use super::*;
use crate::tests::must;
use crate::tests::plan::replace_part;
use mr_transcripts::{Outcome, check_transcript};

/// Parts of the worked script and of its transcript, each with what stands in its place in format 2, where the node that is
/// asked holds the key.
static HELD: [(&str, &str); 2] = [
    ("\"format\":1", "\"format\":2"),
    (
        "\"held\":[]",
        "\"held\":[{\"data\":\"76\",\"flags\":0,\"key\":\"k\",\"node\":\"7002\"}]",
    ),
];

/// Parts of the transcript, each with what stands in its place where the key is held.
static SHOWN: [(&str, &str); 2] = [
    (
        "\"history\":[",
        "\"history\":[{\"by\":\"beginning\",\"data\":\"76\",\"entry\":\"stored\",\"flags\":0,\"key\":\"k\"},",
    ),
    (
        "\"items\":[]",
        "\"items\":[{\"data\":\"76\",\"flags\":0,\"key\":\"k\"}]",
    ),
];

/// The text with other parts.
fn with_parts(rt: &impl Abort, alloc: Global, text: &str, parts: &[(&str, &str)]) -> String {
    let mut changed = must(rt, text.to_string(alloc));
    for part in parts {
        changed = must(rt, replace_part(rt, alloc, &changed, *part));
    }
    changed
}

/// The worked script in format 2, where the node that is asked holds the key.
pub(super) fn script_of_held(rt: &impl Abort, alloc: Global) -> String {
    with_parts(rt, alloc, SCRIPT, &HELD)
}

/// Its transcript.
pub(super) fn transcript_of_held(rt: &impl Abort, alloc: Global) -> String {
    let held = with_parts(rt, alloc, TRANSCRIPT, &HELD);
    with_parts(rt, alloc, &held, &SHOWN)
}

#[test]
fn a_transcript_keeps_the_format_of_its_script(rt: HostRuntime) {
    let script = script_of_held(&rt, rt.alloc());
    let wanted = transcript_of_held(&rt, rt.alloc());
    match transcript(rt.alloc(), &script) {
        Ok(text) => is(&rt, text.as_slice() == wanted.as_bytes(), true),
        Err(refusal) => is(&rt, refusal, PlanError::NotJson),
    }
}

/// What a transcript's history says of the held byte, whose digits are `4A` in its setup, and what a check finds.
static DIGITS: [(&str, Outcome); 3] = [
    ("\"4a\"", Outcome::Accepted),
    ("\"4A\"", Outcome::HistoryDiffers),
    ("\"J\"", Outcome::HistoryDiffers),
];

/// The transcript in which the held byte has the digits `4A` in the setup, and these in the history.
fn with_digits(rt: &impl Abort, alloc: Global, digits: &str) -> String {
    let text = transcript_of_held(rt, alloc);
    let setup = (
        "{\"data\":\"76\",\"flags\":0,\"key\":\"k\",\"node\"",
        "{\"data\":\"4A\",\"flags\":0,\"key\":\"k\",\"node\"",
    );
    let text = must(rt, replace_part(rt, alloc, &text, setup));
    must(rt, text.replace(alloc, "\"76\"", digits))
}

#[test]
fn digits_of_a_history_are_in_lower_case(rt: HostRuntime) {
    for (digits, outcome) in &DIGITS {
        let text = with_digits(&rt, rt.alloc(), digits);
        match check_transcript(rt.alloc(), text.as_bytes()) {
            Ok(checked) => is(&rt, checked.outcome == *outcome, true),
            Err(refusal) => is(&rt, refusal, PlanError::NotJson),
        }
    }
}
