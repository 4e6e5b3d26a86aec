//! Refused memory: a history stays as it was, and the same call made again gives what it gives with ample memory.
use super::told::*;
use super::*;
use crate::tests::must;
use mr_test_support::{FIRST, SECOND, at_last};
use std::alloc::AllocError;
use std::env::Env;

/// What comes into the history of the tests below: its hit is stale.
static ENTRIES: [Told; 6] = [
    Told::Stored(Author::Beginning, b'k', b'v'),
    Told::Delete(FIRST, b'k'),
    Told::Removed(FIRST, Side::Old, b'k'),
    Told::NotFound(FIRST),
    Told::Get(SECOND, b'k'),
    Told::Items(SECOND, &[(b'k', b'v')]),
];

/// What is said of it.
const STALE: Said = ("stale", Some(SECOND), Some(b'k'), Some(FIRST));

/// The history of these entries.
fn stale_history(rt: &impl Abort, alloc: Global) -> History {
    let mut history = must(rt, History::new(alloc));
    for told in &ENTRIES {
        holds(
            rt,
            0,
            push_where_it_fits(rt, alloc, &mut history, *told),
            true,
        );
    }
    history
}

/// Asserts that there is room for three more entries, also where memory for it was refused once: then nothing changed.
fn makes_room(rt: &(impl Abort + Env), history: &mut History) {
    let (kept, spare) = (history.entries().len(), history.spare());
    mr_test_support::refuse_memory(rt);
    let first = history.reserve(3);
    mr_test_support::grant_memory(rt);
    if first == Err(HistoryError::OutOfMemory) {
        count_is(rt, 1, history.spare(), spare);
        must(rt, history.reserve(3));
    }
    count_is(rt, 2, history.entries().len(), kept);
    holds(rt, 3, history.spare() >= 3, true);
}

#[test]
fn refused_memory_makes_room_later(rt: HostRuntime) {
    let new = at_last!(
        &rt,
        History::new(rt.alloc()),
        Err(HistoryError::OutOfMemory)
    );
    makes_room(&rt, &mut must(&rt, new));
    makes_room(&rt, &mut stale_history(&rt, rt.alloc()));
}

#[test]
fn refused_memory_copies_a_history_later(rt: HostRuntime) {
    let history = stale_history(&rt, rt.alloc());
    let copy = must(&rt, at_last!(&rt, history.copy(), Err(AllocError)));
    count_is(&rt, 4, copy.entries().len(), 6);
    is_said(&rt, 5, &words_of_verdict(judge_history(&copy)), &STALE);
}

/// What is said of a history by way of an index.
fn words_judged(alloc: Global, history: &History) -> Result<Said, HistoryError> {
    Ok(words_of_verdict(judge_indexed(alloc, history)?))
}

#[test]
fn refused_memory_judges_later(rt: HostRuntime) {
    let history = stale_history(&rt, rt.alloc());
    let words = at_last!(
        &rt,
        words_judged(rt.alloc(), &history),
        Err(HistoryError::OutOfMemory)
    );
    is_said(&rt, 6, &must(&rt, words), &STALE);
}
