//! Which replies lines and blocks say, and how others are refused.
use super::{LongRow, gives_all, gives_long, is};
use crate::tests::{must, says};
use mr_test_support::Texts;
use mr_text::{Cause, Reply, ReplyReader};
use std::process::Abort;

#[test]
fn lines_say_replies(rt: HostRuntime) {
    let table = b"STORED\r\n|STORED\r\n;|\
        DELETED\r\n|DELETED\r\n;|\
        NOT_FOUND\n|NOT_FOUND\r\n;|\
        ERROR\r\n|ERROR\r\n;|\
        END\r\nSTORED\r\n|END\r\nSTORED\r\n;|\
        \x20 STORED \r\n|STORED\r\n;|\
        SERVER_ERROR later\n|SERVER_ERROR later\r\n;|\
        CLIENT_ERROR bad key\n|CLIENT_ERROR bad key\r\n;|\
        SERVER_ERROR busy \r\n|SERVER_ERROR busy \r\n;|\
        SERVER_ERROR  busy\r\n|SERVER_ERROR  busy\r\n;|\
        \x20SERVER_ERROR busy\r\n|SERVER_ERROR busy\r\n;|\
        SERVER_ERROR\r\n|SERVER_ERROR \r\n;|\
        CLIENT_ERROR \r\n|CLIENT_ERROR \r\n;|\
        SERVER_ERROR a\r\r\n|SERVER_ERROR a\r\r\n;|";
    gives_all(&rt, rt.alloc(), Texts::Replies, table);
}

#[test]
fn items_come_before_the_end(rt: HostRuntime) {
    let table = b"VALUE k 0 1\r\nv\r\nEND\r\n|VALUE k 0 1\r\nv\r\nEND\r\n;|\
        VALUE k 007 04\na\r\nb\r\nVALUE k 1 0\r\n\r\n END \nEND\n|VALUE k 7 4\r\na\r\nb\r\nVALUE k 1 0\r\n\r\nEND\r\nEND\r\n;|\
        VALUE k 4294967295 1\r\nv\r\nEND\r\n|VALUE k 4294967295 1\r\nv\r\nEND\r\n;|\
        VALUE k 0 5\r\nEND\r\n\r\n|;|";
    gives_all(&rt, rt.alloc(), Texts::Replies, table);
}

#[test]
fn other_lines_are_refused_in_order(rt: HostRuntime) {
    let table = b"\r\nSTORED\r\n|<7 closes><9>|\
        stored\r\n|<7 closes><9>|\
        HELLO 1\r\n|<7 closes><9>|\
        SERVER_ERROR\t\r\n|<7 closes><9>|\
        STORED x\r\n|<4><9>|\
        DELETED 0\r\n|<4><9>|\
        NOT_FOUND noreply\r\n|<4><9>|\
        ERROR busy\r\n|<4><9>|\
        END END\r\n|<4><9>|\
        VALUE\r\n|<4><9>|\
        VALUE k 0\r\n|<4><9>|\
        VALUE \x01 x y 1\r\n|<4><9>|\
        VALUE \x01 x 1048577\r\n|<2><9>|\
        VALUE k x 1048577\r\n|<3><9>|\
        VALUE k -0 1\r\n|<3><9>|\
        VALUE k 4294967296 1\r\n|<3><9>|\
        VALUE k 0 18446744073709551616\r\n|<3><9>|\
        VALUE k 0 18446744073709551615\r\n|<5><9>|\
        VALUE k 0 1048577\r\n|<5><9>|\
        VALUE k 0 1\r\nv\nEND\r\n|<6><9>|\
        VALUE k 0 1\r\nvX|<6><9>|\
        VALUE k 0 1\r\nv\r\nSTORED\r\n|<4><9>|\
        VALUE k 0 1\r\nv\r\n\r\n|<4><9>|\
        VALUE k 0 1\r\nv\r\nHELLO\r\n|<4><9>|\
        VALUE k 0 1\r\nv\r\nSERVER_ERROR busy\r\n|<4><9>|\
        VALUE k 0 1\r\nv\r\nEND x\r\n|<4><9>|";
    gives_all(&rt, rt.alloc(), Texts::Replies, table);
}

static LONG_TEXTS: [LongRow; 8] = [
    // The text of an error has up to 8,179 bytes.
    (
        (b"SERVER_ERROR ", b"x", 8179, b"\r\n"),
        b"",
        false,
        (b"SERVER_ERROR ", b"x", 8179, b"\r\n;"),
    ),
    (
        (b"SERVER_ERROR ", b"x", 8180, b"\n"),
        b"",
        false,
        (b"<1><9>", b"", 0, b""),
    ),
    (
        (b"SERVER_ERROR ", b"x", 8180, b""),
        b"",
        false,
        (b";", b"", 0, b""),
    ),
    (
        (b"SERVER_ERROR ", b"x", 8181, b""),
        b"",
        false,
        (b"<1><9>", b"", 0, b""),
    ),
    // A reply has up to 4,094 items.
    (
        (b"", b"VALUE k 0 0\r\n\r\n", 4094, b"END\r\n"),
        b"",
        false,
        (b"", b"VALUE k 0 0\r\n\r\n", 4094, b"END\r\n;"),
    ),
    (
        (b"", b"VALUE k 0 0\r\n\r\n", 4094, b"VALUE k 0 0\r\n"),
        b"",
        false,
        (b"<4><9>", b"", 0, b""),
    ),
    (
        (b"", b"VALUE k 0 0\r\n\r\n", 4094, b"VALUE \x01 x y\r\n"),
        b"",
        false,
        (b"<4><9>", b"", 0, b""),
    ),
    (
        (b"", b"VALUE k 0 0\r\n\r\n", 4094, b"VALUE k 0 0"),
        b"",
        false,
        (b";", b"", 0, b""),
    ),
];

#[test]
fn long_texts_are_read_or_refused(rt: HostRuntime) {
    for (row, it) in LONG_TEXTS.iter().enumerate() {
        gives_long(&rt, rt.alloc(), row, Texts::Replies, it);
    }
}

/// A word for an error of a client, or of a server, with its cause.
fn word_of(is_client: bool, cause: &Cause) -> &'static str {
    match (is_client, cause) {
        (true, Cause::BadKey) => "ClientError BadKey",
        (false, Cause::BadKey) => "ServerError BadKey",
        (true, Cause::Busy) => "ClientError Busy",
        (false, Cause::Other(_)) => "ServerError Other",
        _ => "another error",
    }
}

/// A word for a reply.
fn reply_word(reply: &Option<Reply>) -> &'static str {
    match reply {
        Some(Reply::ClientError(cause)) => word_of(true, cause),
        Some(Reply::ServerError(cause)) => word_of(false, cause),
        _ => "no error",
    }
}

/// Errors whose texts are those of causes or aren't.
static ERRORS: [&str; 5] = [
    "ClientError BadKey",
    "ServerError BadKey",
    "ClientError Busy",
    "ServerError Other",
    "no error",
];

#[test]
fn named_texts_are_causes(rt: HostRuntime) {
    let mut reader = ReplyReader::new(rt.alloc());
    let text =
        b"CLIENT_ERROR bad key\nSERVER_ERROR bad key\nCLIENT_ERROR busy\nSERVER_ERROR later\n";
    is(&rt, 0, reader.feed(text).err(), None);
    for (row, it) in ERRORS.iter().enumerate() {
        says(&rt, row, reply_word(&must(&rt, reader.next())), it);
    }
}
