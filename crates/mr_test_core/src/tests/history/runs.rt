//! Histories written by hand: which entries fit, and what is said of them then; room and copies.
use super::told::*;
use super::*;
use crate::tests::must;
use mr_test_support::{FIRST, FOURTH, OTHER_FIRST, OTHER_SECOND, SECOND, THIRD};

/// A history as it is written, and what is said of it.
struct Run {
    /// What is to come next, and whether it fits.
    entries: &'static [(Told, bool)],
    /// How many entries there are then.
    length: usize,
    verdict: Said,
}

/// Each is of the key `k` and the data `v`, but for bad items.
static RUNS: [Run; 12] = [
    // A hit alone: nothing stored it.
    Run {
        entries: &[
            (Told::Get(FIRST, b'k'), true),
            (Told::Items(FIRST, &[(b'k', b'v')]), true),
        ],
        length: 2,
        verdict: ("invented", Some(FIRST), Some(b'k'), None),
    },
    // A set, a delete on both sides, and a get that finds nothing.
    Run {
        entries: &[
            (Told::Set(OTHER_FIRST, b'k', b'v'), true),
            (Told::Stored(Author::By(OTHER_FIRST), b'k', b'v'), true),
            (Told::IsStored(OTHER_FIRST), true),
            (Told::Delete(FIRST, b'k'), true),
            (Told::Removed(FIRST, Side::Old, b'k'), true),
            (Told::Removed(FIRST, Side::New, b'k'), true),
            (Told::NotFound(FIRST), true),
            (Told::Get(OTHER_SECOND, b'k'), true),
            (Told::Items(OTHER_SECOND, &[]), true),
        ],
        length: 9,
        verdict: SAFE,
    },
    // A set, a delete on one side alone, and a get that finds the item.
    Run {
        entries: &[
            (Told::Set(OTHER_FIRST, b'k', b'v'), true),
            (Told::Stored(Author::By(OTHER_FIRST), b'k', b'v'), true),
            (Told::IsStored(OTHER_FIRST), true),
            (Told::Delete(FIRST, b'k'), true),
            (Told::Removed(FIRST, Side::Old, b'k'), true),
            (Told::NotFound(FIRST), true),
            (Told::Get(OTHER_SECOND, b'k'), true),
            (Told::Items(OTHER_SECOND, &[(b'k', b'v')]), true),
        ],
        length: 8,
        verdict: ("stale", Some(OTHER_SECOND), Some(b'k'), Some(FIRST)),
    },
    // The set is delivered again behind the delete, which makes the hit of a get fresh.
    Run {
        entries: &[
            (Told::Set(FIRST, b'k', b'v'), true),
            (Told::Stored(Author::By(FIRST), b'k', b'v'), true),
            (Told::IsStored(FIRST), true),
            (Told::Delete(SECOND, b'k'), true),
            (Told::Removed(SECOND, Side::Old, b'k'), true),
            (Told::IsDeleted(SECOND), true),
            (Told::Stored(Author::By(FIRST), b'k', b'v'), true),
            (Told::Get(THIRD, b'k'), true),
            (Told::Items(THIRD, &[(b'k', b'v')]), true),
        ],
        length: 9,
        verdict: SAFE,
    },
    // An item that is held from the beginning, a delete, and a get that finds the item.
    Run {
        entries: &[
            (Told::Stored(Author::Beginning, b'k', b'v'), true),
            (Told::Delete(FIRST, b'k'), true),
            (Told::Removed(FIRST, Side::Old, b'k'), true),
            (Told::NotFound(FIRST), true),
            (Told::Get(SECOND, b'k'), true),
            (Told::Items(SECOND, &[(b'k', b'v')]), true),
        ],
        length: 6,
        verdict: ("stale", Some(SECOND), Some(b'k'), Some(FIRST)),
    },
    // A delete before the item is stored, and three behind it, of which the last is answered first and the first last, once
    // the get was issued: of those that convict the hit the one that was issued first is named.
    Run {
        entries: &[
            (Told::Delete(FIRST, b'k'), true),
            (Told::Removed(FIRST, Side::Old, b'k'), true),
            (Told::IsDeleted(FIRST), true),
            (Told::Stored(Author::Beginning, b'k', b'v'), true),
            (Told::Delete(SECOND, b'k'), true),
            (Told::Removed(SECOND, Side::Old, b'k'), true),
            (Told::Delete(THIRD, b'k'), true),
            (Told::Removed(THIRD, Side::Old, b'k'), true),
            (Told::Delete(FOURTH, b'k'), true),
            (Told::Removed(FOURTH, Side::Old, b'k'), true),
            (Told::NotFound(FOURTH), true),
            (Told::IsDeleted(THIRD), true),
            (Told::Get(OTHER_FIRST, b'k'), true),
            (Told::IsDeleted(SECOND), true),
            (Told::Items(OTHER_FIRST, &[(b'k', b'v')]), true),
        ],
        length: 15,
        verdict: ("stale", Some(OTHER_FIRST), Some(b'k'), Some(THIRD)),
    },
    // A delete before the item is stored and one behind it, which is answered first.
    Run {
        entries: &[
            (Told::Delete(FIRST, b'k'), true),
            (Told::Stored(Author::Beginning, b'k', b'v'), true),
            (Told::Delete(SECOND, b'k'), true),
            (Told::IsDeleted(SECOND), true),
            (Told::NotFound(FIRST), true),
            (Told::Get(THIRD, b'k'), true),
            (Told::Items(THIRD, &[(b'k', b'v')]), true),
        ],
        length: 7,
        verdict: ("stale", Some(THIRD), Some(b'k'), Some(SECOND)),
    },
    // A delete that is acknowledged once the get was issued, and then a get that finds nothing.
    Run {
        entries: &[
            (Told::Stored(Author::Beginning, b'k', b'v'), true),
            (Told::Get(FIRST, b'k'), true),
            (Told::Delete(SECOND, b'k'), true),
            (Told::IsDeleted(SECOND), true),
            (Told::Items(FIRST, &[(b'k', b'v')]), true),
            (Told::Get(THIRD, b'k'), true),
            (Told::Items(THIRD, &[]), true),
        ],
        length: 7,
        verdict: SAFE,
    },
    // An answer with an item that was stored and two that weren't, and then another bad answer: the first bad item of the
    // first bad answer is named.
    Run {
        entries: &[
            (Told::Stored(Author::Beginning, b'k', b'v'), true),
            (Told::Get(FIRST, b'k'), true),
            (Told::Get(SECOND, b'd'), true),
            (
                Told::Items(SECOND, &[(b'k', b'v'), (b'b', b'w'), (b'c', b'w')]),
                true,
            ),
            (Told::Items(FIRST, &[(b'd', b'w')]), true),
        ],
        length: 5,
        verdict: ("invented", Some(SECOND), Some(b'b'), None),
    },
    // Entries of an op that was never issued, an item that is held from the beginning, and a request of another proxy.
    Run {
        entries: &[
            (Told::Items(FIRST, &[]), false),
            (Told::Removed(FIRST, Side::New, b'k'), false),
            (Told::Stored(Author::By(FIRST), b'k', b'v'), false),
            (Told::Stored(Author::Beginning, b'k', b'v'), true),
            (Told::Quit(FIRST, 1), false),
        ],
        length: 1,
        verdict: SAFE,
    },
    // A request that is issued and answered twice, and what its legs do then.
    Run {
        entries: &[
            (Told::Get(FIRST, b'k'), true),
            (Told::Get(FIRST, b'k'), false),
            (Told::Items(FIRST, &[]), true),
            (Told::Items(FIRST, &[]), false),
            (Told::Stored(Author::By(FIRST), b'k', b'v'), true),
            (Told::Removed(FIRST, Side::New, b'k'), true),
        ],
        length: 4,
        verdict: SAFE,
    },
    // A set, a delete, and a hit with other data.
    Run {
        entries: &[
            (Told::Set(FIRST, b'k', b'w'), true),
            (Told::Stored(Author::By(FIRST), b'k', b'w'), true),
            (Told::Removed(FIRST, Side::Old, b'k'), true),
            (Told::Get(SECOND, b'k'), true),
            (Told::Items(SECOND, &[(b'k', b'v')]), true),
        ],
        length: 5,
        verdict: ("invented", Some(SECOND), Some(b'k'), None),
    },
];

/// Writes a history, and asserts which entries fit: where one does against its row, its place is told as the row.
fn write(rt: &impl Abort, alloc: Global, history: &mut History, entries: &[(Told, bool)]) {
    for (place, (told, fits)) in entries.iter().enumerate() {
        holds(
            rt,
            place,
            push_where_it_fits(rt, alloc, history, *told),
            *fits,
        );
    }
}

/// Asserts what is said of a history, without and with an index.
fn shows(rt: &impl Abort, alloc: Global, row: usize, history: &History, run: &Run) {
    count_is(rt, row, history.entries().len(), run.length);
    for verdict in [
        judge_history(history),
        must(rt, judge_indexed(alloc, history)),
    ] {
        is_said(rt, row, &words_of_verdict(verdict), &run.verdict);
    }
}

/// Asserts which entries of a run fit, and what is said of the history then, and of its copy.
fn goes(rt: &impl Abort, alloc: Global, row: usize, run: &Run) {
    let mut history = must(rt, History::new(alloc));
    write(rt, alloc, &mut history, run.entries);
    shows(rt, alloc, row, &history, run);
    shows(rt, alloc, row, &must(rt, history.copy()), run);
}

#[test]
fn histories_fit_and_are_judged(rt: HostRuntime) {
    for (row, run) in RUNS.iter().enumerate() {
        goes(&rt, rt.alloc(), row, run);
    }
}

/// Asserts the room of a history that is empty, then with room for three, and then behind an entry.
fn has_room(rt: &impl Abort, alloc: Global, history: &mut History) {
    count_is(rt, 0, history.spare(), 0);
    must(rt, history.reserve(3));
    let made = history.spare();
    holds(rt, 1, made >= 3, true);
    holds(
        rt,
        2,
        push_where_it_fits(rt, alloc, history, Told::Get(FIRST, b'k')),
        true,
    );
    count_is(rt, 3, history.spare().saturating_add(1), made);
}

#[test]
fn room_is_made_before_entries_come(rt: HostRuntime) {
    has_room(&rt, rt.alloc(), &mut must(&rt, History::new(rt.alloc())));
    is(&rt, 4, HistoryError::OutOfMemory.number(), 1);
}
