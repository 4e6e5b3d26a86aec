//! The readers beside the slow ones, to which each has to answer alike.
use super::slow::add_slow_answers;
use crate::tests::must;
use mr_test_support::{Texts, add_repeated, answers_in_two};
use std::alloc::Global;
use std::process::Abort;

/// Asserts which answers there are to a text in two pieces; the pieces are told too where they are others.
fn are_answers(rt: &impl Abort, answers: &[u8], wanted: &[u8], pieces: (&[u8], &[u8])) {
    assert_eq!(rt; answers, wanted, "at {pieces:?}");
}

/// Asserts that the real reader answers to these pieces, and then the end of the input, as the slow one does to the text.
fn agree(rt: &impl Abort, alloc: Global, texts: Texts, pieces: (&[u8], &[u8])) {
    let mut text = must(rt, Vec::from_slice(alloc, pieces.0));
    must(rt, text.extend_from_slice(pieces.1));
    let mut slow = Vec::new(alloc);
    add_slow_answers(texts, &text, &mut slow);
    let given = must(rt, answers_in_two(alloc, texts, pieces, true));
    are_answers(rt, &given, &slow, pieces);
}

/// The same for each prefix of a text, and for the text in each two pieces.
fn agree_on_pieces(rt: &impl Abort, alloc: Global, texts: Texts, text: &[u8]) {
    for place in 0..text.len() {
        let pieces = text.split_at(place);
        agree(rt, alloc, texts, (pieces.0, b""));
        agree(rt, alloc, texts, pieces);
    }
    agree(rt, alloc, texts, (text, b""));
}

fn set_byte(text: &mut [u8], place: usize, byte: u8) {
    if let Some(changed) = text.get_mut(place) {
        *changed = byte;
    }
}

/// The same for the text with its byte at this place changed to any other.
fn agree_on_change(rt: &impl Abort, alloc: Global, texts: Texts, text: &mut [u8], place: usize) {
    for byte in 0..=u8::MAX {
        set_byte(text, place, byte);
        agree(rt, alloc, texts, (text, b""));
    }
}

/// The same for each prefix, cut and change of one byte.
fn agree_on_changes(rt: &impl Abort, alloc: Global, texts: Texts, text: &[u8]) {
    agree_on_pieces(rt, alloc, texts, text);
    let mut changed = must(rt, Vec::from_slice(alloc, text));
    for (place, byte) in text.iter().enumerate() {
        agree_on_change(rt, alloc, texts, &mut changed, place);
        set_byte(&mut changed, place, *byte);
    }
}

static REQUEST_LINES: [&[u8]; 8] = [
    b"get k\r\n",
    b" get  k b\r\r\nquit\n",
    b"get k 0 noreply\nget\n",
    b"delete k 0 noreply\r\n",
    b"delete noreply\r\n\r\nget k\r\n",
    b"delete k 0\nquit\nget k\n",
    b"cas k 0 0 1 5\r\n",
    b"append k\r\nadds k\nquit\r\n",
];

#[test]
fn readers_agree_on_lines(rt: HostRuntime) {
    for text in &REQUEST_LINES {
        agree_on_changes(&rt, rt.alloc(), Texts::Requests, text);
    }
}

static BLOCKS: [&[u8]; 6] = [
    b"set k 5 0 4\r\na\r\nb\r\n",
    b"set k 4294967295 -0 1 noreply\nv\r\n",
    b"set k 0 0 0\r\n\r\nget k\r\n",
    b"set k 00 -9223372036854775808 01\n\n\r\n",
    b"set 0 0 9223372036854775807 1048576\n",
    b"set k 0 0 18446744073709551615\r\n",
];

#[test]
fn readers_agree_on_blocks(rt: HostRuntime) {
    for text in &BLOCKS {
        agree_on_changes(&rt, rt.alloc(), Texts::Requests, text);
    }
}

static REPLY_LINES: [&[u8]; 10] = [
    b"STORED\r\n",
    b"DELETED\nNOT_FOUND\r\n",
    b" ERROR \r\r\n",
    b"END\r\n END \nERROR\n",
    b"CLIENT_ERROR bad key\r\nEND\n",
    b" SERVER_ERROR  busy \r\r\n",
    b"SERVER_ERROR\nCLIENT_ERROR \r\nSTORED\r\n",
    b"SERVER_ERROR later\nNOT_STORED\r\n",
    b"\r\nSTORED\r\n",
    b"STORED 0\r\n",
];

#[test]
fn readers_agree_on_reply_lines(rt: HostRuntime) {
    for text in &REPLY_LINES {
        agree_on_changes(&rt, rt.alloc(), Texts::Replies, text);
    }
}

static ITEMS: [&[u8]; 7] = [
    b"VALUE k 5 4\r\na\r\nb\r\nEND\r\n",
    b"VALUE k 4294967295 0\n\r\nVALUE  b 00 01\r\n\n\r\nEND\nSTORED\n",
    b"VALUE k 0 1\nv\r\nSTORED\r\n",
    b"VALUE k 0 1\nv\r\n\r\nEND\r\n",
    b"VALUE 0 0 1048576\n",
    b"VALUE k 0 18446744073709551615\r\n",
    b"VALUE k 0 1 7\r\nv\r\nEND\r\n",
];

#[test]
fn readers_agree_on_items(rt: HostRuntime) {
    for text in &ITEMS {
        agree_on_changes(&rt, rt.alloc(), Texts::Replies, text);
    }
}

/// What lines begin with that end with spaces, and how many at least.
static LONG_LINES: [(Texts, &[u8], usize); 3] = [
    (Texts::Requests, b"get k", 8185),
    (Texts::Replies, b"SERVER_ERROR ", 8177),
    (Texts::Replies, b"END", 8187),
];

/// Asserts that both readers answer alike to a line that begins so, with so many spaces at its end, however it ends.
fn agree_on_spaces(rt: &impl Abort, alloc: Global, texts: Texts, start: &[u8], spaces: usize) {
    let mut line = must(rt, Vec::from_slice(alloc, start));
    must(rt, add_repeated(&mut line, b' ', spaces));
    for end in [b"".as_slice(), b"\r", b"\n", b"\r\n", b"xx"] {
        agree(rt, alloc, texts, (&line, end));
    }
}

#[test]
fn readers_agree_on_long_lines(rt: HostRuntime) {
    for (texts, start, least) in &LONG_LINES {
        for more in 0..6 {
            agree_on_spaces(&rt, rt.alloc(), *texts, start, least.saturating_add(more));
        }
    }
}
