//! What a cache answers and keeps.
use super::{Came, Told, count_is, expiry, is, says, word_of};
use crate::tests::must;
use mr_join::LegReply;
use mr_node::{CacheNode, NodeCommand, NodeError, Perform};
use mr_text::Key;
use std::alloc::{AllocError, Global};
use std::hash::RandomState;
use std::process::Abort;
use std::test::Fail;

/// What a copy of a command comes to, through the bound.
fn perform<P: Perform>(
    node: &mut P,
    now: u64,
    command: &NodeCommand,
) -> Result<LegReply, AllocError> {
    node.perform(now, command.copy()?)
}

/// A command at a moment, what it has to come to, and how many items have to be kept then.
type Step = (u64, Told, u8, Came, usize);

/// Asserts what a command comes to and how many items it leaves.
fn is_step(rt: &impl Abort, alloc: Global, row: usize, node: &mut CacheNode, step: &Step) {
    let command = must(rt, step.1.of(alloc, step.2));
    let reply = must(rt, perform(node, step.0, &command));
    says(rt, row, word_of(&reply), step.3.word());
    count_is(rt, row, node.len(), step.4);
}

/// Asserts what each step comes to.
fn are_steps(rt: &impl Abort, alloc: Global, node: &mut CacheNode, steps: &[Step]) {
    for (row, step) in steps.iter().enumerate() {
        is_step(rt, alloc, row, node, step);
    }
}

/// The capacity of a cache, commands, and when the item of a name has to expire after them, if it is kept.
type Row = (usize, &'static [Step], u8, Option<Option<u64>>);

/// Asserts what a row says of an empty node of its capacity. Its name is looked at before each of its commands too, which is
/// no use of the item.
fn is_row(rt: &impl Abort, alloc: Global, row: usize, it: &Row, mut node: CacheNode) {
    let name = must(rt, Key::new(alloc, &[it.2]));
    for step in it.1 {
        let _ = node.peek(&name);
        is_step(rt, alloc, row, &mut node, step);
    }
    is(rt, row, expiry(&node, &name), it.3);
}

const FIRST: Step = (100, Told::Set(0), b'a', Came::Stored, 1);

const SECOND: Step = (100, Told::Set(0), b'b', Came::Stored, 2);

const SECOND_OF_ONE: Step = (100, Told::Set(0), b'b', Came::Stored, 1);

const BRIEF_FIRST: Step = (100, Told::Set(10), b'a', Came::Stored, 1);

const BRIEF_SECOND: Step = (100, Told::Set(10), b'b', Came::Stored, 2);

const FIRST_AGAIN: Step = (200, Told::Set(0), b'a', Came::Stored, 2);

const THIRD: Step = (200, Told::Set(0), b'c', Came::Stored, 2);

const NOTHING: Step = (100, Told::Set(-1), b'c', Came::Stored, 2);

const USE: Step = (100, Told::Get, b'a', Came::Hit, 2);

static ROWS: [Row; 20] = [
    // A new item drops the one that wasn't used for the longest.
    (1, &[FIRST, SECOND_OF_ONE], b'a', None),
    (
        1,
        &[FIRST, SECOND_OF_ONE, (100, Told::Get, b'a', Came::Miss, 1)],
        b'b',
        Some(None),
    ),
    (
        1,
        &[FIRST, SECOND_OF_ONE, (100, Told::Get, b'b', Came::Hit, 1)],
        b'b',
        Some(None),
    ),
    (2, &[FIRST, SECOND, THIRD], b'a', None),
    (2, &[FIRST, SECOND, THIRD], b'b', Some(None)),
    // A hit is a use.
    (2, &[FIRST, SECOND, USE, THIRD], b'a', Some(None)),
    (2, &[FIRST, SECOND, USE, THIRD], b'b', None),
    // A set that keeps nothing drops nothing.
    (2, &[FIRST, SECOND, NOTHING], b'a', Some(None)),
    (2, &[FIRST, SECOND, NOTHING], b'b', Some(None)),
    (2, &[FIRST, SECOND, NOTHING], b'c', None),
    // A set of a key that is there drops nothing, though its item is expired.
    (2, &[BRIEF_FIRST, SECOND, FIRST_AGAIN], b'a', Some(None)),
    (2, &[BRIEF_FIRST, SECOND, FIRST_AGAIN], b'b', Some(None)),
    // The last item in order of use is dropped, though another is expired.
    (2, &[FIRST, BRIEF_SECOND, THIRD], b'a', None),
    (2, &[FIRST, BRIEF_SECOND, THIRD], b'b', Some(Some(110))),
    // Up to thirty days count from the set; what is above is a moment.
    (
        2,
        &[(100, Told::Set(10), b'k', Came::Stored, 1)],
        b'k',
        Some(Some(110)),
    ),
    (
        2,
        &[(100, Told::Set(2_592_000), b'k', Came::Stored, 1)],
        b'k',
        Some(Some(2_592_100)),
    ),
    (
        2,
        &[(100, Told::Set(2_592_001), b'k', Came::Stored, 1)],
        b'k',
        Some(Some(2_592_001)),
    ),
    (
        2,
        &[(u64::MAX - 1, Told::Set(10), b'k', Came::Stored, 1)],
        b'k',
        Some(Some(u64::MAX)),
    ),
    (
        2,
        &[(u64::MAX, Told::Set(10), b'k', Came::Stored, 0)],
        b'k',
        None,
    ),
    // An item expires at its moment.
    (
        4,
        &[
            (100, Told::Set(10), b'k', Came::Stored, 1),
            (109, Told::Get, b'k', Came::Hit, 1),
            (110, Told::Delete, b'k', Came::NotFound, 0),
            (105, Told::Get, b'k', Came::Miss, 0),
            (100, Told::Set(-1), b'k', Came::Stored, 0),
            (100, Told::Get, b'k', Came::Miss, 0),
            (100, Told::Set(2_592_001), b'k', Came::Stored, 1),
            (2_592_000, Told::Get, b'k', Came::Hit, 1),
            (2_592_001, Told::Get, b'k', Came::Miss, 0),
        ],
        b'k',
        None,
    ),
];

#[test]
fn commands_come_to_what_their_rows_say(rt: HostRuntime) {
    for (row, it) in ROWS.iter().enumerate() {
        let node = must(&rt, CacheNode::new(rt.alloc(), it.0));
        is_row(&rt, rt.alloc(), row, it, node);
    }
}

#[test]
fn a_seeded_cache_answers_alike(rt: HostRuntime) -> Result<(), Fail> {
    let seed = RandomState::new(&rt)?;
    for (row, it) in ROWS.iter().enumerate() {
        let node = must(&rt, CacheNode::seeded(rt.alloc(), it.0, seed));
        is_row(&rt, rt.alloc(), row, it, node);
    }
    Ok(())
}

#[test]
fn a_restart_drops_all(rt: HostRuntime) {
    let mut node = must(&rt, CacheNode::new(rt.alloc(), usize::MAX));
    is_step(&rt, rt.alloc(), 0, &mut node, &FIRST);
    node.restart();
    is(&rt, 1, node.is_empty(), true);
    let get = (100, Told::Get, b'a', Came::Miss, 0);
    is_step(&rt, rt.alloc(), 2, &mut node, &get);
}

/// Steps of a cache that keeps one item.
static LAST_SET: [Step; 4] = [
    FIRST,
    SECOND_OF_ONE,
    (100, Told::Get, b'a', Came::Miss, 1),
    (100, Told::Get, b'b', Came::Hit, 1),
];

#[test]
fn the_one_item_is_the_last_one_set_until_a_restart(rt: HostRuntime) {
    let mut node = must(&rt, CacheNode::new(rt.alloc(), 1));
    are_steps(&rt, rt.alloc(), &mut node, &LAST_SET);
    node.restart();
    let get = (100, Told::Get, b'b', Came::Miss, 0);
    is_step(&rt, rt.alloc(), 4, &mut node, &get);
}

#[test]
fn a_cache_holds_something(rt: HostRuntime) {
    let refusal = CacheNode::new(rt.alloc(), 0).err();
    is(&rt, 0, refusal, Some(NodeError::ZeroCapacity));
}
