//! Refused memory: a node stays as it was, and a service answers or ends.
use super::devices::{AMPLE, Left, Pieces, serve_input};
use super::{Came, Told, are, is, word_of};
use crate::tests::must;
use mr_clock::FixedClock;
use mr_join::LegReply;
use mr_node::{CacheNode, Ended, NodeCommand, NodeError, Perform};
use mr_test_support::{TakesHalf, at_last, grant_memory, refuse_memory};
use mr_text::Key;
use std::alloc::{AllocError, Global};
use std::cell::Cell;
use std::env::Env;
use std::hash::RandomState;
use std::process::Abort;
use std::test::Fail;

/// What a command comes to and how many items it leaves, or nothing where memory was refused for it.
type Outcome = Option<(&'static str, usize)>;

/// Commands over a cache of two items, what they come to, and how many items are kept then.
static ROW: [(Told, u8, Came, usize); 11] = [
    (Told::Set(0), b'a', Came::Stored, 1),
    (Told::Set(0), b'b', Came::Stored, 2),
    (Told::Get, b'a', Came::Hit, 2),
    (Told::Set(0), b'c', Came::Stored, 2),
    (Told::Get, b'b', Came::Miss, 2),
    (Told::Get, b'a', Came::Hit, 2),
    (Told::Set(0), b'd', Came::Stored, 2),
    (Told::Get, b'c', Came::Miss, 2),
    (Told::Delete, b'd', Came::Deleted, 1),
    (Told::Get, b'd', Came::Miss, 1),
    (Told::Get, b'a', Came::Hit, 1),
];

/// What a command comes to and how many items it leaves, or nothing where memory was refused for it.
fn attempt(
    rt: &(impl Abort + Env),
    alloc: Global,
    node: &mut CacheNode,
    command: Told,
    name: u8,
) -> Outcome {
    let command = must(rt, command.of(alloc, name));
    refuse_memory(rt);
    let performed = node.perform(100, command);
    grant_memory(rt);
    Some((word_of(&performed.ok()?), node.len()))
}

/// What each command of the row comes to but for the one at a place, which is left out, of a new cache.
fn all_but(rt: &(impl Abort + Env), alloc: Global, left_out: usize) -> [Outcome; 11] {
    let mut node = must(rt, CacheNode::new(alloc, 2));
    let mut came = [None; 11];
    for (place, (command, name, ..)) in ROW.iter().enumerate() {
        if left_out != place {
            came[place] = attempt(rt, alloc, &mut node, *command, *name);
        }
    }
    came
}

/// Where the first command stands that doesn't come to what the row says; behind them all where each does.
fn first_other(came: &[Outcome; 11]) -> usize {
    for (place, (_, _, wanted, kept)) in ROW.iter().enumerate() {
        if came[place] != Some((wanted.word(), *kept)) {
            return place;
        }
    }
    ROW.len()
}

/// Asserts that each command came to the same twice.
fn are_same(rt: &impl Abort, found: &[Outcome; 11], wanted: &[Outcome; 11]) {
    for (place, outcome) in found.iter().enumerate() {
        is(rt, place, *outcome, wanted[place]);
    }
}

/// A command for which memory was refused leaves no trace in what the later ones come to: they come to what they come to
/// where it is left out.
#[test]
fn refused_memory_changes_nothing(rt: HostRuntime) {
    let came = all_but(&rt, rt.alloc(), ROW.len());
    let other = first_other(&came);
    if other < ROW.len() {
        are_same(&rt, &all_but(&rt, rt.alloc(), other), &came);
    }
}

/// A command, the name that it is made with, what it comes to, and how many items are kept then.
type Row = (Told, u8, Came, usize);

/// Asserts what a command comes to, which is performed again where memory for it was refused.
fn comes_to(rt: &(impl Abort + Env), alloc: Global, node: &mut CacheNode, place: usize, row: &Row) {
    let (told, name, wanted, kept) = *row;
    let mut came = attempt(rt, alloc, node, told, name);
    if came.is_none() {
        came = attempt(rt, alloc, node, told, name);
    }
    is(rt, place, came, Some((wanted.word(), kept)));
}

/// Asserts what each command of the row comes to, of a new cache.
fn come_to(rt: &(impl Abort + Env), alloc: Global, mut node: CacheNode) {
    for (place, row) in ROW.iter().enumerate() {
        comes_to(rt, alloc, &mut node, place, row);
    }
}

#[test]
fn refused_memory_performs_later(rt: HostRuntime) {
    let made = at_last!(
        &rt,
        CacheNode::new(rt.alloc(), 2),
        Err(NodeError::OutOfMemory)
    );
    come_to(&rt, rt.alloc(), must(&rt, made));
}

#[test]
fn refused_memory_makes_a_seeded_cache_later(rt: HostRuntime) -> Result<(), Fail> {
    let seed = RandomState::new(&rt)?;
    let made = at_last!(
        &rt,
        CacheNode::seeded(rt.alloc(), 2, seed),
        Err(NodeError::OutOfMemory)
    );
    come_to(&rt, rt.alloc(), must(&rt, made));
    Ok(())
}

/// Asserts that a copy of a command is the same, also where memory for it was refused once.
fn is_copied(rt: &(impl Abort + Env), row: usize, command: &NodeCommand) {
    let copy = must(rt, at_last!(rt, command.copy(), Err(AllocError)));
    is(rt, row, copy.same_as(command), true);
}

#[test]
fn refused_memory_copies_commands_later(rt: HostRuntime) {
    for (row, told) in [Told::Get, Told::Set(10), Told::Delete].iter().enumerate() {
        is_copied(&rt, row, &must(&rt, told.of(rt.alloc(), b'k')));
    }
}

/// A node that is always refused memory.
#[derive(Drop)]
struct Full;

impl Perform for Full {
    ghost did = { λ _ _ _ _ _. ⊥ };

    ghost refused = { λ _ _ _ _. Unit {0} };

    ghost of_kind = { λ _ _ _ _ _ never. absurd never };

    fn perform(&mut self, _now: u64, _command: NodeCommand) -> Result<LegReply, AllocError> {
        Err(AllocError)
    }

    fn get(&mut self, _now: u64, _key: &Key) -> Result<LegReply, AllocError> {
        Err(AllocError)
    }
}

/// Serves this input over a writer that keeps what it takes behind these bytes.
fn serve_in_room<P: Perform>(alloc: Global, node: &mut P, input: &[u8], kept: Vec<u8>) -> Left {
    let pieces = Pieces {
        bytes: input,
        length: AMPLE.length,
        seconds: &Cell::new(0),
    };
    let device = TakesHalf {
        kept,
        calls: 0,
        fails_at: 0,
    };
    serve_input(alloc, node, &mut FixedClock(999), pieces, AMPLE, device)
}

#[test]
fn answers_want_of_memory_in_a_command_and_goes_on(rt: HostRuntime) {
    let input = b"set k 0 0 1 noreply\r\nv\r\nget k\r\ndelete k\r\nquit\r\n";
    let left = serve_in_room(rt.alloc(), &mut Full, input, Vec::new(rt.alloc()));
    let wanted = b"SERVER_ERROR out of memory\r\nSERVER_ERROR out of memory\r\n";
    is(&rt, 0, left.how, Ok(Ended::Quit));
    are(&rt, 1, &left.writer.kept, wanted);
}

/// How a service of a set and a get may end, what it writes and how many items it keeps then. The first is where no
/// memory is refused.
static OUTCOMES: [(Result<Ended, NodeError>, &[u8], usize); 5] = [
    (
        Ok(Ended::Ended),
        b"STORED\r\nVALUE k 5 1\r\nv\r\nEND\r\n",
        1,
    ),
    (
        Ok(Ended::Ended),
        b"SERVER_ERROR out of memory\r\nEND\r\n",
        0,
    ),
    (
        Ok(Ended::Ended),
        b"STORED\r\nSERVER_ERROR out of memory\r\n",
        1,
    ),
    (Err(NodeError::OutOfMemory), b"", 0),
    (Err(NodeError::OutOfMemory), b"STORED\r\n", 1),
];

/// Which of the outcomes this is.
fn place_of(left: &Left, items: usize) -> Option<usize> {
    for (place, (how, output, kept)) in OUTCOMES.iter().enumerate() {
        if left.how == *how && left.writer.kept.as_slice() == *output && items == *kept {
            return Some(place);
        }
    }
    None
}

/// Which of the outcomes a service comes to.
fn outcome(rt: &(impl Abort + Env), alloc: Global) -> Option<usize> {
    let kept = must(rt, Vec::with_capacity(alloc, 256));
    let mut node = must(rt, CacheNode::new(alloc, 2));
    refuse_memory(rt);
    let left = serve_in_room(alloc, &mut node, b"set k 5 0 1\r\nv\r\nget k\r\n", kept);
    grant_memory(rt);
    place_of(&left, node.len())
}

#[test]
fn refused_memory_is_answered_or_ends_the_service(rt: HostRuntime) {
    let first = outcome(&rt, rt.alloc());
    is(&rt, 0, first.is_some(), true);
    if first != Some(0) {
        is(&rt, 1, outcome(&rt, rt.alloc()), Some(0));
    }
}

/// What a service of no input may come to: how it ends, how often it reads, and how often it writes. The input is read to its
/// end; or memory for the buffer was refused, and nothing is read.
static IDLE: [(Result<Ended, NodeError>, u64, usize); 2] = [
    (Ok(Ended::Ended), 1, 0),
    (Err(NodeError::OutOfMemory), 0, 0),
];

/// What it comes to.
fn idle(rt: &(impl Abort + Env), alloc: Global) -> (Result<Ended, NodeError>, u64, usize) {
    let mut node = must(rt, CacheNode::new(alloc, 2));
    let reads = Cell::new(0);
    let pieces = Pieces {
        bytes: b"",
        length: AMPLE.length,
        seconds: &reads,
    };
    let device = TakesHalf {
        kept: Vec::new(alloc),
        calls: 0,
        fails_at: 0,
    };
    let clock = &mut FixedClock(999);
    refuse_memory(rt);
    let left = serve_input(alloc, &mut node, clock, pieces, AMPLE, device);
    grant_memory(rt);
    (left.how, reads.get(), left.writer.calls)
}

#[test]
fn refused_memory_for_the_buffer_ends_before_the_first_read(rt: HostRuntime) {
    let first = idle(&rt, rt.alloc());
    if first != IDLE[0] {
        is(&rt, 0, first, IDLE[1]);
        is(&rt, 1, idle(&rt, rt.alloc()), IDLE[0]);
    }
}
