//! Readers that are refused memory: the same call made again gives what it gives with ample memory.
use super::are;
use crate::tests::{bytes_of_rule, is, must};
use mr_test_support::{Rule, Texts, at_last, reply_text, request_text};
use mr_text::{Reply, ReplyReader, Request, RequestReader, TextError};
use std::alloc::Global;
use std::env::Env;
use std::process::Abort;

/// What a reader is fed, and what it gives then: as it is written, nothing where it waits, or a refusal.
type Row = (Texts, Rule, Result<&'static [u8], TextError>);

static ROWS: [Row; 11] = [
    (
        Texts::Requests,
        (b"set k 5 0 4\r\na\r\nb\r\n", b"", 0, b""),
        Ok(b"set k 5 0 4\r\na\r\nb\r\n"),
    ),
    (
        Texts::Requests,
        (b"get k b k\r\n", b"", 0, b""),
        Ok(b"get k b k\r\n"),
    ),
    (
        Texts::Requests,
        (b"delete k\r\n", b"", 0, b""),
        Ok(b"delete k\r\n"),
    ),
    (
        Texts::Requests,
        (b"get ", b"x", 251, b"\r\n"),
        Err(TextError::BadKey),
    ),
    // A line of 8,192 bytes, and one of a byte more.
    (
        Texts::Requests,
        (b"get k", b" ", 8187, b"\n"),
        Ok(b"get k\r\n"),
    ),
    (
        Texts::Requests,
        (b"get k", b" ", 8188, b"\n"),
        Err(TextError::LineTooLong),
    ),
    // The longest line may end with the next byte, which one of a byte more may not.
    (Texts::Requests, (b"", b"x", 8193, b""), Ok(b"")),
    (
        Texts::Requests,
        (b"", b"x", 8194, b""),
        Err(TextError::LineTooLong),
    ),
    (
        Texts::Replies,
        (
            b"VALUE k 5 1\r\nv\r\nVALUE b 6 1\r\nw\r\nEND\r\n",
            b"",
            0,
            b"",
        ),
        Ok(b"VALUE k 5 1\r\nv\r\nVALUE b 6 1\r\nw\r\nEND\r\n"),
    ),
    (
        Texts::Replies,
        (b"SERVER_ERROR later\r\n", b"", 0, b""),
        Ok(b"SERVER_ERROR later\r\n"),
    ),
    (
        Texts::Replies,
        (b"VALUE k 5 1\r\nvw\r\n", b"", 0, b""),
        Err(TextError::BadDataEnd),
    ),
];

/// The request that a reader gives of a text; likewise below.
fn request_of(rt: &impl Env, alloc: Global, text: &[u8]) -> Result<Option<Request>, TextError> {
    let mut reader = RequestReader::new(alloc);
    at_last!(rt, reader.feed(text), Err(TextError::OutOfMemory))?;
    at_last!(rt, reader.next(), Err(TextError::OutOfMemory))
}

fn reply_of(rt: &impl Env, alloc: Global, text: &[u8]) -> Result<Option<Reply>, TextError> {
    let mut reader = ReplyReader::new(alloc);
    at_last!(rt, reader.feed(text), Err(TextError::OutOfMemory))?;
    at_last!(rt, reader.next(), Err(TextError::OutOfMemory))
}

/// The text of a request, if there is one; likewise below.
fn requested_text(rt: &impl Abort, alloc: Global, request: Option<Request>) -> Vec<u8> {
    match request {
        Some(request) => must(rt, request_text(alloc, &request)),
        None => Vec::new(alloc),
    }
}

fn replied_text(rt: &impl Abort, alloc: Global, reply: Option<Reply>) -> Vec<u8> {
    match reply {
        Some(reply) => must(rt, reply_text(alloc, &reply)),
        None => Vec::new(alloc),
    }
}

/// The text of what a reader of requests gives.
fn requested(rt: &(impl Abort + Env), alloc: Global, text: &[u8]) -> Result<Vec<u8>, TextError> {
    let request = request_of(rt, alloc, text)?;
    Ok(requested_text(rt, alloc, request))
}

fn replied(rt: &(impl Abort + Env), alloc: Global, text: &[u8]) -> Result<Vec<u8>, TextError> {
    let reply = reply_of(rt, alloc, text)?;
    Ok(replied_text(rt, alloc, reply))
}

/// Asserts what a reader gives.
fn gives(rt: &(impl Abort + Env), alloc: Global, row: usize, text: &[u8], it: &Row) {
    let given = match it.0 {
        Texts::Requests => requested(rt, alloc, text),
        Texts::Replies => replied(rt, alloc, text),
    };
    is(rt, row, given.as_ref().err().copied(), it.2.err());
    if let (Ok(found), Ok(wanted)) = (&given, it.2) {
        are(rt, row, found, wanted);
    }
}

#[test]
fn refused_memory_leaves_readers_as_they_were(rt: HostRuntime) {
    for (row, it) in ROWS.iter().enumerate() {
        let text = bytes_of_rule(&rt, rt.alloc(), it.1);
        gives(&rt, rt.alloc(), row, &text, it);
    }
}

/// The line of a text with a large block, what comes behind it, and the two texts that a reader gives of both.
static LARGE: [(Texts, &[u8], Rule, Rule, &[u8]); 2] = [
    (
        Texts::Requests,
        b"set k 5 0 5000\r\n",
        (b"", b"v", 5000, b"\r\nget k\r\n"),
        (b"set k 5 0 5000\r\n", b"v", 5000, b"\r\n"),
        b"get k\r\n",
    ),
    (
        Texts::Replies,
        b"VALUE k 5 5000\r\n",
        (b"", b"v", 5000, b"\r\nEND\r\nSTORED\r\n"),
        (b"VALUE k 5 5000\r\n", b"v", 5000, b"\r\nEND\r\n"),
        b"STORED\r\n",
    ),
];

/// The two requests that a reader gives of a text whose first line comes by itself; likewise below.
fn requests_behind(
    rt: &(impl Abort + Env),
    alloc: Global,
    line: &[u8],
    rest: &[u8],
) -> Result<(Vec<u8>, Vec<u8>), TextError> {
    let mut reader = RequestReader::new(alloc);
    at_last!(rt, reader.feed(line), Err(TextError::OutOfMemory))?;
    let _ = at_last!(rt, reader.next(), Err(TextError::OutOfMemory))?;
    at_last!(rt, reader.feed(rest), Err(TextError::OutOfMemory))?;
    let first = at_last!(rt, reader.next(), Err(TextError::OutOfMemory))?;
    let second = at_last!(rt, reader.next(), Err(TextError::OutOfMemory))?;
    Ok((
        requested_text(rt, alloc, first),
        requested_text(rt, alloc, second),
    ))
}

fn replies_behind(
    rt: &(impl Abort + Env),
    alloc: Global,
    line: &[u8],
    rest: &[u8],
) -> Result<(Vec<u8>, Vec<u8>), TextError> {
    let mut reader = ReplyReader::new(alloc);
    at_last!(rt, reader.feed(line), Err(TextError::OutOfMemory))?;
    let _ = at_last!(rt, reader.next(), Err(TextError::OutOfMemory))?;
    at_last!(rt, reader.feed(rest), Err(TextError::OutOfMemory))?;
    let first = at_last!(rt, reader.next(), Err(TextError::OutOfMemory))?;
    let second = at_last!(rt, reader.next(), Err(TextError::OutOfMemory))?;
    Ok((
        replied_text(rt, alloc, first),
        replied_text(rt, alloc, second),
    ))
}

#[test]
fn refused_memory_leaves_large_blocks_as_they_came(rt: HostRuntime) {
    for (row, (texts, line, behind, first, second)) in LARGE.iter().enumerate() {
        let rest = bytes_of_rule(&rt, rt.alloc(), *behind);
        let given = match texts {
            Texts::Requests => requests_behind(&rt, rt.alloc(), line, &rest),
            Texts::Replies => replies_behind(&rt, rt.alloc(), line, &rest),
        };
        let (one, other) = must(&rt, given);
        are(&rt, row, &one, &bytes_of_rule(&rt, rt.alloc(), *first));
        are(&rt, row, &other, second);
    }
}

/// The replies of several items that are read in pieces, so that memory may be refused inside one.
static REPLIES: [&[u8]; 2] = [
    b"VALUE k 5 1\r\nv\r\nVALUE b 6 1\r\nw\r\nEND\r\n",
    b"VALUE k 5 4\r\na\r\nb\r\nVALUE b 6 0\r\n\r\nVALUE b 7 1\r\nw\r\nEND\r\n",
];

/// The reply that a reader gives of a text that comes in pieces of five bytes; it is asked behind each.
fn reply_in_pieces(rt: &impl Env, alloc: Global, text: &[u8]) -> Result<Option<Reply>, TextError> {
    let mut reader = ReplyReader::new(alloc);
    let mut given = None;
    for piece in text.chunks(5) {
        at_last!(rt, reader.feed(piece), Err(TextError::OutOfMemory))?;
        given = at_last!(rt, reader.next(), Err(TextError::OutOfMemory))?;
    }
    Ok(given)
}

/// Asserts that this is the reply that the text spells.
fn is_spelled(rt: &impl Abort, alloc: Global, row: usize, reply: Option<Reply>, text: &[u8]) {
    match reply {
        Some(reply) => are(rt, row, &must(rt, reply_text(alloc, &reply)), text),
        None => is(rt, row, false, true),
    }
}

/// Where memory is refused inside a reply, the same call made again goes on, and the whole reply is given.
#[test]
fn refused_memory_inside_a_reply_loses_nothing(rt: HostRuntime) {
    for (row, text) in REPLIES.iter().enumerate() {
        let reply = must(&rt, reply_in_pieces(&rt, rt.alloc(), text));
        is_spelled(&rt, rt.alloc(), row, reply, text);
    }
}
