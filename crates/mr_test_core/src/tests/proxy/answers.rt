//! What a client reads of an answer, in how many calls it goes out, and what is left where one of them fails.
use super::{Asked, Came, Rule, answer_to, are, bytes_of_rule, holds};
use crate::tests::must;
use mr_proxy::Answer;
use mr_test_support::{TakesHalf, reply_text};
use mr_text::{FixedBuffer, OverWriter};
use std::alloc::Global;
use std::process::Abort;

/// Asserts that an answer is this text, goes out in so many calls, and stops at each of them that fails, through a buffer of
/// its own and through one that is lent.
fn is_written(
    rt: &impl Abort,
    alloc: Global,
    row: usize,
    answer: &Answer,
    text: &[u8],
    calls: usize,
) {
    let mut buffer = FixedBuffer::new();
    for call in 1..calls.saturating_add(2) {
        let mut sink = OverWriter::new(TakesHalf::new(alloc, call));
        let has_failed = answer.write(&mut sink).is_err();
        let has_left = sink.into_inner().has_left(has_failed, text, calls);
        holds(rt, row, has_left, true);
        let mut sink = OverWriter::new(TakesHalf::new(alloc, call));
        let has_failed = answer.send(&mut buffer, &mut sink).is_err();
        let has_left = sink.into_inner().has_left(has_failed, text, calls);
        holds(rt, row, has_left, true);
    }
}

/// A reading, a request, replies to its legs, by place, the text of its answer then, and in how many calls it goes out.
type Row = (u64, Asked, &'static [(u32, Came)], Rule, usize);

/// Asserts what a row says, and that the reply that is built of the answer is written alike.
fn is_row(rt: &impl Abort, alloc: Global, row: usize, it: &Row) {
    let text = bytes_of_rule(rt, alloc, it.3);
    let answer = answer_to(rt, alloc, it.0, it.1, it.2);
    is_written(rt, alloc, row, &answer, &text, it.4);
    let reply = must(rt, reply_text(alloc, &answer.into_reply()));
    are(rt, row, &reply, &text);
}

static ROWS: [Row; 12] = [
    // Gets are answered in order of their keys.
    (
        999,
        Asked::Get(b"kkb"),
        &[
            (2, Came::Miss),
            (1, Came::Found(b'v', 1)),
            (0, Came::Found(b'w', 1)),
        ],
        (
            b"VALUE k 0 1\r\nw\r\nVALUE k 0 1\r\nv\r\nEND\r\n",
            b"",
            0,
            b"",
        ),
        1,
    ),
    (
        999,
        Asked::Get(b"kkb"),
        &[
            (0, Came::Found(b'v', 1)),
            (1, Came::Found(b'v', 1)),
            (2, Came::Miss),
        ],
        (
            b"VALUE k 0 1\r\nv\r\nVALUE k 0 1\r\nv\r\nEND\r\n",
            b"",
            0,
            b"",
        ),
        1,
    ),
    (
        999,
        Asked::Get(b"kkb"),
        &[
            (0, Came::Found(b'v', 1)),
            (1, Came::Found(b'x', 0)),
            (2, Came::Found(b'x', 2)),
        ],
        (
            b"VALUE k 0 1\r\nv\r\nVALUE k 0 0\r\n\r\nVALUE b 0 2\r\nxx\r\nEND\r\n",
            b"",
            0,
            b"",
        ),
        1,
    ),
    (
        999,
        Asked::Get(b"kkb"),
        &[
            (0, Came::Found(b'v', 1)),
            (1, Came::Found(b'v', 1)),
            (2, Came::Lost),
        ],
        (b"SERVER_ERROR leg lost\r\n", b"", 0, b""),
        1,
    ),
    (
        999,
        Asked::Get(b"kkb"),
        &[],
        (b"SERVER_ERROR leg lost\r\n", b"", 0, b""),
        1,
    ),
    // A long block goes out by itself.
    (
        999,
        Asked::Get(b"kkb"),
        &[
            (0, Came::Found(b'x', 1)),
            (1, Came::Found(b'x', 8192)),
            (2, Came::Found(b'x', 2)),
        ],
        (
            b"VALUE k 0 1\r\nx\r\nVALUE k 0 8192\r\n",
            b"x",
            8192,
            b"\r\nVALUE b 0 2\r\nxx\r\nEND\r\n",
        ),
        3,
    ),
    (
        999,
        Asked::Set(b'a'),
        &[(0, Came::Stored)],
        (b"STORED\r\n", b"", 0, b""),
        1,
    ),
    // The worse leg of a delete is told.
    (
        1000,
        Asked::Delete(b'k'),
        &[(1, Came::NotFound), (0, Came::Deleted)],
        (b"NOT_FOUND\r\n", b"", 0, b""),
        1,
    ),
    (
        1000,
        Asked::Delete(b'k'),
        &[(0, Came::NotFound), (1, Came::Deleted)],
        (b"NOT_FOUND\r\n", b"", 0, b""),
        1,
    ),
    (
        1000,
        Asked::Delete(b'k'),
        &[(0, Came::Deleted), (1, Came::Deleted)],
        (b"DELETED\r\n", b"", 0, b""),
        1,
    ),
    // The leg that is given up counts as lost.
    (
        1000,
        Asked::Delete(b'k'),
        &[(0, Came::Deleted)],
        (b"SERVER_ERROR leg lost\r\n", b"", 0, b""),
        1,
    ),
    // Of two failures the old side's is told.
    (
        1000,
        Asked::Delete(b'k'),
        &[(1, Came::Lost), (0, Came::Busy)],
        (b"SERVER_ERROR busy\r\n", b"", 0, b""),
        1,
    ),
];

#[test]
fn answers_are_what_the_legs_came_to(rt: HostRuntime) {
    for (row, it) in ROWS.iter().enumerate() {
        is_row(&rt, rt.alloc(), row, it);
    }
}
