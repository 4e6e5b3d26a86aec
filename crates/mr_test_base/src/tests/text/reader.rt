//! Worked streams of requests and replies, and readers that are refused memory.
mod held;
mod memory;
mod replies;
mod requests;
mod streams;

use super::{Rule, are, bytes_of_rule, count_is, holds, is};
use crate::tests::must;
use mr_test_support::{Texts, answers_in_two, first_cell};
use std::alloc::Global;
use std::process::Abort;

/// Asserts what a reader answers to a text in two pieces, and perhaps the end of the input then.
fn gives(
    rt: &impl Abort,
    alloc: Global,
    row: usize,
    texts: Texts,
    pieces: (&[u8], &[u8]),
    ends: bool,
    wanted: &[u8],
) {
    let answers = must(rt, answers_in_two(alloc, texts, pieces, ends));
    are(rt, row, &answers, wanted);
}

/// Asserts a table of texts and answers, with a `|` behind each: an answer is what is read as it is written, a mark for
/// each refusal, and `;` where the reader waits.
fn gives_all(rt: &impl Abort, alloc: Global, texts: Texts, table: &[u8]) {
    let mut rest = table;
    for row in 0..table.len() {
        if rest.is_empty() {
            break;
        }
        let (text, behind) = first_cell(rest);
        let (wanted, behind) = first_cell(behind);
        gives(rt, alloc, row, texts, (text, b""), false, wanted);
        rest = behind;
    }
}

/// A long text by a rule, a second piece that may follow it, whether the input ends then, and the answers, by a rule too.
type LongRow = (Rule, &'static [u8], bool, Rule);

/// Asserts what a reader answers to a long text.
fn gives_long(rt: &impl Abort, alloc: Global, row: usize, texts: Texts, it: &LongRow) {
    let text = bytes_of_rule(rt, alloc, it.0);
    let wanted = bytes_of_rule(rt, alloc, it.3);
    gives(rt, alloc, row, texts, (&text, it.1), it.2, &wanted);
}
