//! What requests and replies are written as, in how many calls, and what is left where one of them fails.
mod told;

use super::{Rule, bytes_of_rule, count_is, equal_bytes, item, leaves};
use crate::tests::must;
use mr_test_support::TakesHalf;
use mr_text::{FixedBuffer, OverWriter};
use std::alloc::Global;
use std::process::Abort;
use told::{Told, Written, written_of};

/// Asserts that a text takes so many calls, and what each of them leaves where it fails. What a fault leaves in the buffer is
/// forgotten by the next.
fn takes(rt: &impl Abort, alloc: Global, row: usize, written: &Written, text: &[u8], calls: usize) {
    let mut buffer = FixedBuffer::new();
    for call in 1..calls.saturating_add(2) {
        let mut sink = OverWriter::new(TakesHalf::new(alloc, call));
        let has_failed = written.write(&mut buffer, &mut sink).is_err();
        leaves(rt, row, has_failed, &sink.into_inner(), text, calls);
    }
}

/// Asserts the text of what is written, of a copy too, and how many calls it takes.
fn is_written(rt: &impl Abort, alloc: Global, row: usize, told: Told, text: &[u8], calls: usize) {
    let written = written_of(rt, alloc, told);
    takes(rt, alloc, row, &written, text, calls);
    takes(rt, alloc, row, &written.copy(rt), text, calls);
}

/// What is written, and its text, which takes one call.
type Row = (Told, &'static [u8]);

static REQUESTS: [Row; 12] = [
    (Told::GetTwo, b"get k b\r\n"),
    (Told::Delete(false), b"delete k\r\n"),
    (Told::Delete(true), b"delete k noreply\r\n"),
    (Told::Quit, b"quit\r\n"),
    (Told::SetLines, b"set k 0 10 4 noreply\r\na\r\nb\r\n"),
    (Told::Set(0, -1, 1, false), b"set k 0 -1 1\r\nx\r\n"),
    (
        Told::Set(0, i64::MIN, 1, false),
        b"set k 0 -9223372036854775808 1\r\nx\r\n",
    ),
    (
        Told::Set(0, i64::MAX, 1, false),
        b"set k 0 9223372036854775807 1\r\nx\r\n",
    ),
    (
        Told::Set(u32::MAX, 0, 0, true),
        b"set k 4294967295 0 0 noreply\r\n\r\n",
    ),
    (Told::OneGet, b"get k\r\n"),
    (Told::OneSet, b"set k 7 -1 1\r\nv\r\n"),
    (Told::OneDelete, b"delete k\r\n"),
];

#[test]
fn requests_are_written(rt: HostRuntime) {
    for (row, it) in REQUESTS.iter().enumerate() {
        is_written(&rt, rt.alloc(), row, it.0, it.1, 1);
    }
}

static REPLIES: [Row; 13] = [
    (Told::Stored, b"STORED\r\n"),
    (Told::Deleted, b"DELETED\r\n"),
    (Told::NotFound, b"NOT_FOUND\r\n"),
    (Told::Error, b"ERROR\r\n"),
    (Told::BadKey, b"CLIENT_ERROR bad key\r\n"),
    (Told::LegLost, b"SERVER_ERROR leg lost\r\n"),
    (Told::Other(0), b"SERVER_ERROR \r\n"),
    (Told::OtherSpaced, b"SERVER_ERROR  a\r\r\n"),
    (Told::Items(0, &[]), b"END\r\n"),
    (Told::Items(0, &[1]), b"VALUE k 0 1\r\nx\r\nEND\r\n"),
    (
        Told::Items(u32::MAX, &[0]),
        b"VALUE k 4294967295 0\r\n\r\nEND\r\n",
    ),
    (
        Told::Items(0, &[1, 0, 7]),
        b"VALUE k 0 1\r\nx\r\nVALUE k 0 0\r\n\r\nVALUE k 0 7\r\nxxxxxxx\r\nEND\r\n",
    ),
    (Told::OneError, b"SERVER_ERROR busy\r\n"),
];

#[test]
fn replies_are_written(rt: HostRuntime) {
    for (row, it) in REPLIES.iter().enumerate() {
        is_written(&rt, rt.alloc(), row, it.0, it.1, 1);
    }
}

/// What is written, its text by a rule, and how many calls it takes.
static LONG: [(Told, Rule, usize); 6] = [
    // 8,193 bytes: twice the buffer, and what is left.
    (Told::Gets(4094), (b"get", b" k", 4094, b"\r\n"), 3),
    // The line, the block by itself, and its line end.
    (
        Told::Set(0, 0, 8192, true),
        (b"set k 0 0 8192 noreply\r\n", b"x", 8192, b"\r\n"),
        3,
    ),
    // The word, the text by itself, and its line end.
    (
        Told::Other(8179),
        (b"SERVER_ERROR ", b"x", 8179, b"\r\n"),
        3,
    ),
    // Beside the data there are 23 bytes: 4,096 take one call.
    (
        Told::Items(0, &[4073]),
        (b"VALUE k 0 4073\r\n", b"x", 4073, b"\r\nEND\r\n"),
        1,
    ),
    (
        Told::Items(0, &[4074]),
        (b"VALUE k 0 4074\r\n", b"x", 4074, b"\r\nEND\r\n"),
        2,
    ),
    // The line, the block by itself, and its line end with `END`.
    (
        Told::Items(0, &[8192]),
        (b"VALUE k 0 8192\r\n", b"x", 8192, b"\r\nEND\r\n"),
        3,
    ),
];

#[test]
fn long_texts_take_few_calls(rt: HostRuntime) {
    for (row, (told, rule, calls)) in LONG.iter().enumerate() {
        let text = bytes_of_rule(&rt, rt.alloc(), *rule);
        is_written(&rt, rt.alloc(), row, *told, &text, *calls);
    }
}

/// Items, how many bytes they are written in, and how many calls they take.
static MANY: [(Told, usize, usize); 2] = [
    // The line of the second item goes out with the line end of the first.
    (Told::Items(0, &[8192, 8192]), 16_425, 5),
    // Small ones are gathered.
    (Told::Items(0, &[1000, 1000, 1000, 1000, 1000]), 5_095, 2),
];

/// What a device takes that doesn't fail.
fn text_of(rt: &impl Abort, alloc: Global, written: &Written) -> Vec<u8> {
    let mut sink = OverWriter::new(TakesHalf::new(alloc, 0));
    must(rt, written.write(&mut FixedBuffer::new(), &mut sink));
    let TakesHalf { kept, .. } = sink.into_inner();
    kept
}

#[test]
fn many_items_take_few_calls(rt: HostRuntime) {
    for (row, (told, length, calls)) in MANY.iter().enumerate() {
        let text = text_of(&rt, rt.alloc(), &written_of(&rt, rt.alloc(), *told));
        count_is(&rt, row, text.len(), *length);
        is_written(&rt, rt.alloc(), row, *told, &text, *calls);
    }
}
