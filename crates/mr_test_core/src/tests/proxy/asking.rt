//! What a node is asked for a leg, and what its replies say of the leg.
use super::{holds, is, key_of};
use crate::tests::leg_replies::word_of;
use crate::tests::must;
use mr_node::NodeCommand;
use mr_proxy::{leg_reply_of, write_command};
use mr_test_support::TakesHalf;
use mr_text::{Block, FixedBuffer, OverWriter, Reply, ReplyReader};
use std::alloc::Global;
use std::process::Abort;

/// What a node is told to do with the key `k`.
#[derive(Clone, Copy)]
enum Told {
    Get,
    /// A set of the flags 5 and the data `v`, which is expired at once.
    Set,
    Delete,
}

fn command_of(rt: &impl Abort, alloc: Global, told: Told) -> NodeCommand {
    let key = key_of(rt, alloc, b'k');
    match told {
        Told::Get => NodeCommand::Get(key),
        Told::Set => NodeCommand::Set {
            key,
            flags: 5,
            exptime: -1,
            block: must(rt, Block::new(alloc, b"v")),
        },
        Told::Delete => NodeCommand::Delete(key),
    }
}

/// Asserts that the request of a command is this text, goes out in one call, and is cut where that fails.
fn is_written(rt: &impl Abort, alloc: Global, row: usize, command: &NodeCommand, text: &[u8]) {
    let mut buffer = FixedBuffer::new();
    for call in 1..3 {
        let mut sink = OverWriter::new(TakesHalf::new(alloc, call));
        let has_failed = write_command(command, &mut buffer, &mut sink).is_err();
        let has_left = sink.into_inner().has_left(has_failed, text, 1);
        holds(rt, row, has_left, true);
    }
}

static REQUESTS: [(Told, &[u8]); 3] = [
    (Told::Get, b"get k\r\n"),
    (Told::Set, b"set k 5 -1 1\r\nv\r\n"),
    (Told::Delete, b"delete k\r\n"),
];

#[test]
fn commands_are_written_as_requests(rt: HostRuntime) {
    for (row, it) in REQUESTS.iter().enumerate() {
        let command = command_of(&rt, rt.alloc(), it.0);
        is_written(&rt, rt.alloc(), row, &command, it.1);
    }
}

/// The reply that a node's text is.
fn reply_in(rt: &impl Abort, alloc: Global, text: &[u8]) -> Reply {
    let mut reader = ReplyReader::new(alloc);
    must(rt, reader.feed(text));
    match must(rt, reader.next()) {
        Some(reply) => reply,
        None => rt.panic("no reply is whole"),
    }
}

/// What a node's text says of a leg; None where it is no answer to that.
fn said(rt: &impl Abort, alloc: Global, told: Told, text: &[u8]) -> Option<&'static str> {
    let reply = reply_in(rt, alloc, text);
    match leg_reply_of(&command_of(rt, alloc, told), reply) {
        Some(leg) => Some(word_of(&leg)),
        None => None,
    }
}

/// What a node is told, its reply, and what that says of the leg.
type Row = (Told, &'static [u8], Option<&'static str>);

static REPLIES: [Row; 13] = [
    (Told::Get, b"END\r\n", Some("miss")),
    (Told::Get, b"VALUE k 5 1\r\nv\r\nEND\r\n", Some("hit")),
    (Told::Set, b"STORED\r\n", Some("STORED")),
    (Told::Delete, b"DELETED\r\n", Some("DELETED")),
    (Told::Delete, b"NOT_FOUND\r\n", Some("NOT_FOUND")),
    // Any command may fail.
    (
        Told::Get,
        b"SERVER_ERROR busy\r\n",
        Some("SERVER_ERROR busy"),
    ),
    (
        Told::Set,
        b"CLIENT_ERROR busy\r\n",
        Some("SERVER_ERROR busy"),
    ),
    (Told::Delete, b"ERROR\r\n", Some("another failure")),
    // An item of another key, and two items, are no answer to a get of one key.
    (Told::Get, b"VALUE b 5 1\r\nv\r\nEND\r\n", None),
    (
        Told::Get,
        b"VALUE k 5 1\r\nv\r\nVALUE k 5 1\r\nv\r\nEND\r\n",
        None,
    ),
    (Told::Get, b"STORED\r\n", None),
    (Told::Set, b"DELETED\r\n", None),
    (Told::Delete, b"STORED\r\n", None),
];

#[test]
fn replies_say_what_became_of_legs(rt: HostRuntime) {
    for (row, it) in REPLIES.iter().enumerate() {
        is(&rt, row, said(&rt, rt.alloc(), it.0, it.1), it.2);
    }
}
