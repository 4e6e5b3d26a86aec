//! What nodes answer, in few words.
use super::must;
use mr_join::LegReply;
use mr_test_support::equal_bytes;
use mr_text::{Block, Cause};
use std::alloc::Global;
use std::process::Abort;

/// What comes back for a leg.
#[derive(Clone, Copy)]
pub enum Came {
    /// Data of so many equal bytes, with the flags 0.
    Found(u8, usize),
    Miss,
    Stored,
    Deleted,
    NotFound,
    Busy,
    Lost,
}

/// Data of so many equal bytes.
fn block(rt: &impl Abort, alloc: Global, byte: u8, count: usize) -> Block {
    let bytes = must(rt, equal_bytes(alloc, byte, count));
    must(rt, Block::new(alloc, &bytes))
}

/// The reply that this is.
pub fn reply_of(rt: &impl Abort, alloc: Global, came: Came) -> LegReply {
    match came {
        Came::Found(byte, count) => LegReply::Hit {
            flags: 0,
            block: block(rt, alloc, byte, count),
        },
        Came::Miss => LegReply::Miss,
        Came::Stored => LegReply::Stored,
        Came::Deleted => LegReply::Deleted,
        Came::NotFound => LegReply::NotFound,
        Came::Busy => LegReply::Failed(Cause::Busy),
        Came::Lost => LegReply::Failed(Cause::LegLost),
    }
}

/// What a reply is: of hits only those of the flags 5 and the data `v` are told apart, of failures those above.
pub fn word_of(reply: &LegReply) -> &'static str {
    match reply {
        LegReply::Hit { flags: 5, block } if block.as_bytes() == b"v".as_slice() => "hit",
        LegReply::Hit { .. } => "another hit",
        LegReply::Miss => "miss",
        LegReply::Stored => "STORED",
        LegReply::Deleted => "DELETED",
        LegReply::NotFound => "NOT_FOUND",
        LegReply::Failed(Cause::LegLost) => "SERVER_ERROR leg lost",
        LegReply::Failed(Cause::Busy) => "SERVER_ERROR busy",
        LegReply::Failed(_) => "another failure",
    }
}
