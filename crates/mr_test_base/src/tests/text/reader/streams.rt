//! Texts in any pieces, the end of the input, and closed readers.
use super::{are, gives, holds, is};
use crate::tests::must;
use mr_test_support::{Reader, Texts, add_answers};
use mr_text::{RequestReader, TextError};
use std::alloc::Global;
use std::process::Abort;

/// Texts with a block that holds a line end, each the canonical one of what it says.
static WHOLE: [(Texts, &[u8], &[u8]); 3] = [
    (
        Texts::Requests,
        b"set k 5 0 4\r\na\r\nb\r\n",
        b"set k 5 0 4\r\na\r\nb\r\n;",
    ),
    (
        Texts::Replies,
        b"VALUE k 5 4\r\na\r\nb\r\nEND\r\n",
        b"VALUE k 5 4\r\na\r\nb\r\nEND\r\n;",
    ),
    // Several items, of which one is empty and one holds an end.
    (
        Texts::Replies,
        b"VALUE k 5 1\r\nv\r\nVALUE k 6 0\r\n\r\nVALUE b 7 5\r\nEND\r\n\r\nEND\r\n",
        b"VALUE k 5 1\r\nv\r\nVALUE k 6 0\r\n\r\nVALUE b 7 5\r\nEND\r\n\r\nEND\r\n;",
    ),
];

/// Asserts what a reader answers to a text in any two pieces, and that the text cut anywhere is truncated. Where it is
/// cut is told as the row.
fn is_cut(rt: &impl Abort, alloc: Global, texts: Texts, text: &[u8], wanted: &[u8]) {
    for place in 1..text.len() {
        let pieces = text.split_at(place);
        gives(rt, alloc, place, texts, pieces, false, wanted);
        gives(rt, alloc, place, texts, (pieces.0, b""), true, b"<8><9>");
    }
}

/// Feeds a text byte by byte, and adds the answers; the reader has to wait behind each byte.
fn feed_bytes(
    rt: &impl Abort,
    alloc: Global,
    reader: &mut Reader,
    text: &[u8],
    answers: &mut Vec<u8>,
) {
    for (place, byte) in text.iter().enumerate() {
        must(rt, reader.feed(&[*byte]));
        holds(
            rt,
            place,
            must(rt, add_answers(alloc, reader, answers)),
            true,
        );
    }
}

/// Asserts what a reader answers to a text that comes byte by byte.
fn comes_slowly(rt: &impl Abort, alloc: Global, row: usize, texts: Texts, text: &[u8]) {
    let mut answers = Vec::new(alloc);
    feed_bytes(
        rt,
        alloc,
        &mut Reader::new(alloc, texts),
        text,
        &mut answers,
    );
    are(rt, row, &answers, text);
}

#[test]
fn texts_are_read_in_any_pieces(rt: HostRuntime) {
    for (row, (texts, text, wanted)) in WHOLE.iter().enumerate() {
        gives(&rt, rt.alloc(), row, *texts, (text, b""), false, wanted);
        is_cut(&rt, rt.alloc(), *texts, text, wanted);
        comes_slowly(&rt, rt.alloc(), row, *texts, text);
    }
}

/// What is read, in two pieces, whether the input ends then, and the answers.
static PIECES: [(Texts, (&[u8], &[u8]), bool, &[u8]); 4] = [
    (Texts::Requests, (b"", b""), true, b";"),
    (Texts::Replies, (b"", b""), true, b";"),
    (
        Texts::Requests,
        (b"set k 0 0 3\r\nab", b""),
        true,
        b"<8><9>",
    ),
    (
        Texts::Requests,
        (b"set k 0 0 1\r\nv\r", b"X"),
        false,
        b"<6><9>",
    ),
];

#[test]
fn ends_and_pieces_are_answered(rt: HostRuntime) {
    for (row, it) in PIECES.iter().enumerate() {
        gives(&rt, rt.alloc(), row, it.0, it.1, it.2, it.3);
    }
}

/// Pieces that come so many times, whether the input ends then, and the answers of the reader, which closes with the last.
type Row = (&'static [&'static [u8]], usize, bool, &'static [u8]);

static CLOSING: [Row; 3] = [
    (&[b"quit\r\nget k\r\n"], 1, false, b"quit\r\n<9>"),
    (&[b"xxxxxxxxxx"], 1000, true, b"<1><9>"),
    // An ended reader goes on reading.
    (
        &[b"get a\r\n", b"", b"\r\nget b\r\nge"],
        1,
        true,
        b"get a\r\n<7>get b\r\n<8><9>",
    ),
];

/// Feeds the pieces of a row, and ends the input where it does: it takes nothing more then.
fn feed(rt: &impl Abort, row: usize, reader: &mut RequestReader, it: &Row) {
    for _ in 0..it.1 {
        for piece in it.0 {
            must(rt, reader.feed(piece));
        }
    }
    if it.2 {
        reader.end();
        is(
            rt,
            row,
            reader.feed(b"t c\r\n").err(),
            Some(TextError::Closed),
        );
    }
}

/// Why a reader gives nothing.
fn refusal(reader: &mut RequestReader) -> Option<TextError> {
    reader.next().err()
}

/// Asserts that a reader takes and gives nothing more.
fn is_closed(rt: &impl Abort, row: usize, reader: &mut RequestReader) {
    is(rt, row, refusal(reader), Some(TextError::Closed));
    is(
        rt,
        row,
        reader.feed(b"get k\r\n").err(),
        Some(TextError::Closed),
    );
    reader.end();
    is(rt, row, refusal(reader), Some(TextError::Closed));
}

/// Asserts the answers of a reader that is closed then.
fn closes(rt: &impl Abort, alloc: Global, row: usize, mut reader: Reader, wanted: &[u8]) {
    let mut answers = Vec::new(alloc);
    holds(
        rt,
        row,
        must(rt, add_answers(alloc, &mut reader, &mut answers)),
        false,
    );
    are(rt, row, &answers, wanted);
    if let Reader::OfRequests(reader) = &mut reader {
        is_closed(rt, row, reader);
    }
}

#[test]
fn closed_readers_take_and_give_nothing(rt: HostRuntime) {
    for (row, it) in CLOSING.iter().enumerate() {
        let mut reader = RequestReader::new(rt.alloc());
        feed(&rt, row, &mut reader, it);
        closes(&rt, rt.alloc(), row, Reader::OfRequests(reader), it.3);
    }
}
