//! Links over memory: what they write, what they say of what comes back, and what breaks them.
mod answers;
mod breaks;
mod memory;

use super::devices::{Given, Pieces, Reads, reader, writer};
use crate::tests::{is_at, must};
use mr_desks::{Carrier, WorkerError};
use mr_join::LegReply;
use mr_node::NodeCommand;
use mr_phases::Side;
use mr_proxy::{LegId, LegSheet};
use mr_sessions::NodeLink;
use mr_test_support::{FIRST, TakesHalf};
use mr_text::{Block, Cause, FailsAt, Key, OverReader, OverWriter, TextError};
use std::alloc::Global;
use std::process::Abort;
use std::test::Fail;

/// What a leg tells its node to do with the key `k`.
#[derive(Clone, Copy)]
enum Told {
    Get,
    /// A set of the flags 5 and the data `v`, with this exptime.
    Set(i64),
    Delete,
}

impl Told {
    fn sheet(self, alloc: Global) -> Result<LegSheet, TextError> {
        let key = Key::new(alloc, b"k")?;
        let command = match self {
            Told::Get => NodeCommand::Get(key),
            Told::Set(exptime) => NodeCommand::Set {
                key,
                flags: 5,
                exptime,
                block: Block::new(alloc, b"v")?,
            },
            Told::Delete => NodeCommand::Delete(key),
        };
        Ok(LegSheet {
            id: LegId {
                op: FIRST,
                place: 0,
            },
            hop: 0,
            side: Side::Old,
            node: 0,
            command,
        })
    }
}

/// What came of a leg.
#[derive(Clone, Copy, Debug, PartialEq, Eq)]
enum Came {
    /// The flags 5 and the data `v`.
    Hit,
    Miss,
    Stored,
    Deleted,
    NotFound,
    /// The node answered `ERROR`.
    Refused,
    /// The node lacked memory.
    NoMemory,
    /// The node failed with a cause that has no name.
    Unnamed,
    /// Anything else that isn't a fault.
    Else,
    /// The leg wasn't carried.
    Fault(WorkerError),
}

impl Came {
    fn of(carried: &Result<LegReply, WorkerError>) -> Came {
        match carried {
            Ok(reply) => Came::of_reply(reply),
            Err(fault) => Came::Fault(*fault),
        }
    }

    fn of_reply(reply: &LegReply) -> Came {
        match reply {
            LegReply::Hit { flags, block } if *flags == 5 && block.as_bytes() == b"v".as_slice() =>
                Came::Hit,
            LegReply::Miss => Came::Miss,
            LegReply::Stored => Came::Stored,
            LegReply::Deleted => Came::Deleted,
            LegReply::NotFound => Came::NotFound,
            LegReply::Failed(Cause::NodeRefused) => Came::Refused,
            LegReply::Failed(Cause::OutOfMemory) => Came::NoMemory,
            LegReply::Failed(Cause::Other(_)) => Came::Unnamed,
            _ => Came::Else,
        }
    }
}

/// A link over memory.
type Link<'a> = NodeLink<FailsAt<OverReader<Pieces<'a>>>, FailsAt<OverWriter<TakesHalf>>>;

/// Devices that never fail, and reads enough.
const AMPLE: Given = Given {
    read_fails: 0,
    write_fails: 0,
    half_at: 0,
    length: 4096,
    turns: 10,
};

/// The same, with bytes that come one at a time.
const BY_BYTES: Given = Given {
    length: 1,
    turns: 99,
    ..AMPLE
};

/// A link to a node that answers this, over devices that are given so. What is written is put behind what is kept.
fn link<'a>(
    alloc: Global,
    bytes: &'a [u8],
    reads: &'a Reads,
    kept: Vec<u8>,
    given: Given,
) -> Link<'a> {
    NodeLink::new(
        alloc,
        reader(bytes, reads, given),
        writer(kept, given),
        given.turns,
    )
}

/// What comes of a leg that a carrier of any kind carries.
fn carry_leg<C: Carrier>(rt: &impl Abort, alloc: Global, carrier: &mut C, told: Told) -> Came {
    let sheet = must(rt, told.sheet(alloc));
    Came::of(&carrier.carry(&sheet))
}

/// Legs that a link carries one after another, each with what has to come of it; what the node answers, over which devices;
/// and what the link has to leave: what it wrote, in how many calls, and how many bytes it left unread.
#[derive(Clone, Copy)]
struct Row {
    legs: &'static [(Told, Came)],
    answered: &'static [u8],
    given: Given,
    written: &'static str,
    calls: usize,
    unread: usize,
}

/// A get whose node answers nothing yet.
const GET: Row = Row {
    legs: &[],
    answered: b"",
    given: AMPLE,
    written: "get k\r\n",
    calls: 1,
    unread: 0,
};

const SET: Row = Row {
    written: "set k 5 0 1\r\nv\r\n",
    ..GET
};

const DELETE: Row = Row {
    written: "delete k\r\n",
    ..GET
};

/// What a link left.
#[derive(Clone, Copy, Debug, PartialEq, Eq)]
struct Left<'a> {
    written: &'a str,
    calls: usize,
    unread: usize,
}

/// Asserts what comes of the legs of a row. A link is broken where its last leg is a fault.
fn come_so(rt: &impl Abort, alloc: Global, link: &mut Link, number: usize, row: &Row) {
    let mut broken = false;
    for (told, came) in row.legs {
        is_at(rt, number, "leg", &carry_leg(rt, alloc, link, *told), came);
        broken = matches!(came, Came::Fault(_));
    }
    is_at(rt, number, "broken", &link.is_broken(), &broken);
}

/// Asserts what the link of a row left.
fn left_so(rt: &impl Abort, link: Link, unread: usize, number: usize, row: &Row) {
    let (_, writer) = link.into_parts();
    let writer = writer.into_inner().into_inner();
    let left = Left {
        written: must(rt, str::from_utf8(&writer.kept)),
        calls: writer.calls,
        unread,
    };
    let wanted = Left {
        written: row.written,
        calls: row.calls,
        unread: row.unread,
    };
    is_at(rt, number, "link", &left, &wanted);
}

/// Asserts what comes of the legs of a row, and what their link leaves.
fn is_row(rt: &impl Abort, alloc: Global, number: usize, row: &Row) {
    let reads = Reads::of(row.answered.len());
    let mut link = link(alloc, row.answered, &reads, Vec::new(alloc), row.given);
    come_so(rt, alloc, &mut link, number, row);
    left_so(rt, link, reads.left.get(), number, row);
}

/// Asserts the same of each row.
fn are_rows(rt: &impl Abort, alloc: Global, rows: &[Row]) {
    for (number, row) in rows.iter().enumerate() {
        is_row(rt, alloc, number, row);
    }
}
