//! Replies joined in either order, and the worse of two.
mod memory;

use super::leg_replies::{Came, reply_of, word_of};
use super::{holds, is, says};
use crate::tests::must;
use mr_join::{Joining, LegReply, worse};
use mr_phases::Side;
use std::alloc::Global;
use std::process::Abort;

/// What the old and the new node answered, what a client is told of both, how bad the old one's is, and whether both are
/// the same.
type Row = (Came, Came, &'static str, u8, bool);

static PAIRS: [Row; 10] = [
    (Came::Deleted, Came::NotFound, "NOT_FOUND", 0, false),
    (Came::NotFound, Came::Deleted, "NOT_FOUND", 1, false),
    (Came::Deleted, Came::Lost, "SERVER_ERROR leg lost", 0, false),
    // Of two failures the old side's is told.
    (Came::Busy, Came::Lost, "SERVER_ERROR busy", 2, false),
    (Came::Lost, Came::Busy, "SERVER_ERROR leg lost", 2, false),
    (Came::Busy, Came::Busy, "SERVER_ERROR busy", 2, true),
    (Came::Stored, Came::Stored, "STORED", 0, true),
    (
        Came::Found(b'a', 1),
        Came::Found(b'a', 1),
        "another hit",
        0,
        true,
    ),
    (
        Came::Found(b'a', 1),
        Came::Found(b'a', 2),
        "another hit",
        0,
        false,
    ),
    (Came::Found(b'a', 1), Came::Miss, "another hit", 0, false),
];

/// What a client is told where the old node's reply comes first.
fn old_first(rt: &impl Abort, alloc: Global, it: &Row) -> &'static str {
    let joining = Joining::two().take(Side::Old, reply_of(rt, alloc, it.0));
    word_of(must(rt, joining.take(Side::New, reply_of(rt, alloc, it.1))).worst())
}

/// The same of a copy, where the new node's reply comes first.
fn new_first(rt: &impl Abort, alloc: Global, it: &Row) -> &'static str {
    let joining = Joining::two().take(Side::New, reply_of(rt, alloc, it.1));
    let joined = must(rt, joining.take(Side::Old, reply_of(rt, alloc, it.0)));
    word_of(&must(rt, joined.copy()).into_worst())
}

/// What a client is told of a reply that is awaited alone.
fn alone(rt: &impl Abort, reply: LegReply) -> &'static str {
    word_of(&must(rt, Joining::one(Side::New).take(Side::New, reply)).into_worst())
}

/// Asserts what is said of two replies.
fn compare(rt: &impl Abort, row: usize, old: LegReply, new: LegReply, it: &Row) {
    is(rt, row, old.badness(), it.3);
    holds(rt, row, old.same_as(&new), it.4);
    says(rt, row, word_of(&worse(old, new)), it.2);
}

/// Asserts that a reply is the same as its copy, and told alike where it is awaited alone.
fn is_copied(rt: &impl Abort, row: usize, reply: &LegReply) {
    let copy = must(rt, reply.copy());
    holds(rt, row, reply.same_as(&copy), true);
    says(rt, row, alone(rt, copy), word_of(reply));
}

/// Asserts what a row says.
fn joins(rt: &impl Abort, alloc: Global, row: usize, it: &Row) {
    says(rt, row, old_first(rt, alloc, it), it.2);
    says(rt, row, new_first(rt, alloc, it), it.2);
    let old = reply_of(rt, alloc, it.0);
    is_copied(rt, row, &old);
    compare(rt, row, old, reply_of(rt, alloc, it.1), it);
}

#[test]
fn both_sides_are_joined_in_either_order(rt: HostRuntime) {
    for (row, it) in PAIRS.iter().enumerate() {
        joins(&rt, rt.alloc(), row, it);
    }
}

/// The reply that is handed back where another of the same side came before.
fn reply_handed_back() -> Option<LegReply> {
    let joining = Joining::two().take(Side::Old, LegReply::Deleted);
    match joining.take(Side::Old, LegReply::NotFound) {
        Ok(_) => None,
        Err((_, reply)) => Some(reply),
    }
}

#[test]
fn a_side_that_is_not_awaited_is_handed_back(rt: HostRuntime) {
    says(
        &rt,
        0,
        reply_handed_back().as_ref().map_or("taken twice", word_of),
        "NOT_FOUND",
    );
}

/// What a client is told where a join is copied before each of its replies.
fn told_by_copies(rt: &impl Abort) -> &'static str {
    let both = must(rt, Joining::two().copy());
    let one = must(rt, both.take(Side::Old, LegReply::NotFound).copy());
    word_of(must(rt, one.take(Side::New, LegReply::Deleted)).worst())
}

#[test]
fn a_copied_join_awaits_the_same(rt: HostRuntime) {
    says(&rt, 0, told_by_copies(&rt), "NOT_FOUND");
}
