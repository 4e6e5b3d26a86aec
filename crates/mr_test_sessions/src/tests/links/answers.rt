//! What a link says of a node's replies.
use super::{AMPLE, BY_BYTES, Came, DELETE, GET, Row, SET, Told, are_rows};
use crate::tests::devices::Given;

/// Each reply that answers its leg.
static ANSWERS: [Row; 11] = [
    Row {
        legs: &[(Told::Get, Came::Miss)],
        answered: b"END\r\n",
        ..GET
    },
    Row {
        legs: &[(Told::Get, Came::Hit)],
        answered: b"VALUE k 5 1\r\nv\r\nEND\r\n",
        ..GET
    },
    Row {
        legs: &[(Told::Set(0), Came::Stored)],
        answered: b"STORED\r\n",
        ..SET
    },
    Row {
        legs: &[(Told::Set(-1), Came::Stored)],
        answered: b"STORED\r\n",
        written: "set k 5 -1 1\r\nv\r\n",
        ..SET
    },
    Row {
        legs: &[(Told::Set(2_592_001), Came::Stored)],
        answered: b"STORED\r\n",
        written: "set k 5 2592001 1\r\nv\r\n",
        ..SET
    },
    Row {
        legs: &[(Told::Delete, Came::Deleted)],
        answered: b"DELETED\r\n",
        ..DELETE
    },
    Row {
        legs: &[(Told::Delete, Came::NotFound)],
        answered: b"NOT_FOUND\r\n",
        ..DELETE
    },
    Row {
        legs: &[(Told::Get, Came::NoMemory)],
        answered: b"SERVER_ERROR out of memory\r\n",
        ..GET
    },
    Row {
        legs: &[(Told::Set(0), Came::Unnamed)],
        answered: b"CLIENT_ERROR no room\r\n",
        ..SET
    },
    Row {
        legs: &[(Told::Delete, Came::Refused)],
        answered: b"ERROR\r\n",
        ..DELETE
    },
    // a reply that comes a byte at a time, in just so many reads
    Row {
        legs: &[(Told::Get, Came::Hit)],
        answered: b"VALUE k 5 1\r\nv\r\nEND\r\n",
        given: Given {
            turns: 21,
            ..BY_BYTES
        },
        ..GET
    },
];

/// Replies that stand one behind the other.
static ROWS: [Row; 3] = [
    // both come in one read, and the second leg needs none
    Row {
        legs: &[(Told::Get, Came::Miss), (Told::Delete, Came::Deleted)],
        answered: b"END\r\nDELETED\r\n",
        given: Given {
            read_fails: 2,
            turns: 1,
            ..AMPLE
        },
        written: "get k\r\ndelete k\r\n",
        calls: 2,
        unread: 0,
    },
    // the reads of each leg are counted by themselves, and none goes beyond its reply
    Row {
        legs: &[(Told::Get, Came::Miss), (Told::Get, Came::Miss)],
        answered: b"END\r\nEND\r\nEND\r\n",
        given: Given {
            turns: 5,
            ..BY_BYTES
        },
        written: "get k\r\nget k\r\n",
        calls: 2,
        unread: 5,
    },
    // a node's failure breaks nothing
    Row {
        legs: &[
            (Told::Get, Came::NoMemory),
            (Told::Get, Came::Refused),
            (Told::Set(0), Came::Stored),
        ],
        answered: b"SERVER_ERROR out of memory\r\nERROR\r\nSTORED\r\n",
        given: AMPLE,
        written: "get k\r\nget k\r\nset k 5 0 1\r\nv\r\n",
        calls: 3,
        unread: 0,
    },
];

#[test]
fn each_reply_answers_its_leg(rt: HostRuntime) {
    are_rows(&rt, rt.alloc(), &ANSWERS);
}

#[test]
fn what_comes_behind_a_reply_is_kept(rt: HostRuntime) {
    are_rows(&rt, rt.alloc(), &ROWS);
}
