//! How many bytes a reader holds: those that came after the last whole line or block that it has read.
use super::{Rule, bytes_of_rule, count_is, holds};
use crate::tests::must;
use mr_text::{ReplyReader, RequestReader, TextError};

/// A set that comes byte by byte, and how many bytes are held behind each.
static SLOW: [(&[u8], usize); 8] = [
    (b"s", 1),
    (b"et k 5 0 4\r", 12),
    (b"\n", 0),
    (b"a\r\n", 3),
    (b"b", 4),
    (b"\r", 5),
    (b"\n", 0),
    (b"get", 3),
];

/// How many bytes a reader holds once it waits behind a piece, which ends one request at most.
fn held_behind(reader: &mut RequestReader, piece: &[u8]) -> Result<usize, TextError> {
    reader.feed(piece)?;
    if reader.next()?.is_some() {
        let _none = reader.next()?;
    }
    Ok(reader.held())
}

#[test]
fn readers_hold_what_comes_after_lines_and_blocks(rt: HostRuntime) {
    let mut reader = RequestReader::new(rt.alloc());
    for (row, (piece, wanted)) in SLOW.iter().enumerate() {
        count_is(
            &rt,
            row,
            must(&rt, held_behind(&mut reader, piece)),
            *wanted,
        );
    }
}

/// Texts that are as long as they may be while nothing is whole, and how many bytes are held behind each.
static LONG: [(Rule, usize); 3] = [
    ((b"get k", b" ", 8187, b"\r"), 8193),
    (
        (b"set k 0 0 1048576\r\n", b"v", 1_048_576, b"\r"),
        1_048_577,
    ),
    ((b"set k 0 0 1048576\r\n", b"v", 1_048_575, b""), 1_048_575),
];

#[test]
fn readers_hold_one_line_or_block_at_most(rt: HostRuntime) {
    for (row, (rule, wanted)) in LONG.iter().enumerate() {
        let text = bytes_of_rule(&rt, rt.alloc(), *rule);
        let mut reader = RequestReader::new(rt.alloc());
        count_is(
            &rt,
            row,
            must(&rt, held_behind(&mut reader, &text)),
            *wanted,
        );
    }
}

/// Eight megabytes come on in small pieces behind a large block that nobody asks for. Were all that is held moved for each piece, this
/// would take minutes.
#[test]
fn what_comes_on_behind_a_large_block_is_moved_a_few_times(rt: HostRuntime) {
    let mut reader = RequestReader::new(rt.alloc());
    let line = b"set k 5 0 16384\r\n";
    count_is(&rt, 0, must(&rt, held_behind(&mut reader, line)), 0);
    for _ in 0..131_072 {
        must(&rt, reader.feed(&[b'v'; 64]));
    }
    count_is(&rt, 1, reader.held(), 8_388_608);
}

#[test]
fn bytes_are_held_until_they_are_read(rt: HostRuntime) {
    let mut reader = RequestReader::new(rt.alloc());
    must(&rt, reader.feed(b"get a\r\nget b\r\n"));
    count_is(&rt, 0, reader.held(), 14);
    holds(&rt, 1, must(&rt, reader.next()).is_some(), true);
    count_is(&rt, 2, reader.held(), 7);
}

/// A reply that comes in pieces, and how many bytes are held behind each.
static SLOW_REPLY: [(&[u8], usize); 8] = [
    (b"VALUE k 5 4\r", 12),
    (b"\n", 0),
    (b"a\r\n", 3),
    (b"b\r", 5),
    (b"\nVALUE b", 7),
    (b" 6 0\r\n\r\nVALUE c 7 1\r\nv", 1),
    (b"\r\nEND\r", 4),
    (b"\nVALUE", 5),
];

/// How many bytes a reader of replies holds once it waits behind a piece, which ends one reply at most.
fn held_of_reply(reader: &mut ReplyReader, piece: &[u8]) -> Result<usize, TextError> {
    reader.feed(piece)?;
    if reader.next()?.is_some() {
        let _none = reader.next()?;
    }
    Ok(reader.held())
}

#[test]
fn items_that_were_read_are_not_held(rt: HostRuntime) {
    let mut reader = ReplyReader::new(rt.alloc());
    for (row, (piece, wanted)) in SLOW_REPLY.iter().enumerate() {
        count_is(
            &rt,
            row,
            must(&rt, held_of_reply(&mut reader, piece)),
            *wanted,
        );
    }
}
