//! Worked rows: notes of clients at two proxies (client 0 at one, client 1 at the other), and what the last one comes to.
use super::holds;
use super::playing::Step::{Delete, Get, Set, Told};
use super::playing::{Found, Played, Step};
use mr_canary::Answer::{Deleted, Hit, Miss, NotFound, Stored, Unanswered};
use std::alloc::Global;
use std::process::Abort;

/// What happens, the notes, and what the last of them comes to. No other one convicts.
struct Row {
    name: &'static str,
    steps: &'static [Step],
    found: Found,
}

const ZERO: mr_canary::Answer = Hit { value: 0 };

const ONE: mr_canary::Answer = Hit { value: 1 };

static ROWS: [Row; 18] = [
    Row {
        name: "what was deleted comes back by the other proxy",
        steps: &[
            Set(0, 3),
            Told(0, Stored),
            Delete(0, 3),
            Told(1, Deleted),
            Get(1, 3),
            Told(2, ZERO),
        ],
        found: Some((0, 1, 2)),
    },
    Row {
        name: "NOT_FOUND acknowledges too",
        steps: &[
            Set(0, 3),
            Told(0, Stored),
            Delete(1, 3),
            Told(1, NotFound),
            Get(0, 3),
            Told(2, ZERO),
        ],
        found: Some((0, 1, 2)),
    },
    Row {
        name: "a miss is as it has to be",
        steps: &[
            Set(0, 3),
            Told(0, Stored),
            Delete(0, 3),
            Told(1, Deleted),
            Get(1, 3),
            Told(2, Miss),
        ],
        found: None,
    },
    Row {
        name: "a set that was answered after the delete was issued may be done after it",
        steps: &[
            Set(0, 3),
            Delete(1, 3),
            Told(0, Stored),
            Told(1, Deleted),
            Get(0, 3),
            Told(2, ZERO),
        ],
        found: None,
    },
    Row {
        name: "a get that was issued before the acknowledgement may be answered before the delete",
        steps: &[
            Set(0, 3),
            Told(0, Stored),
            Delete(0, 3),
            Get(1, 3),
            Told(1, Deleted),
            Told(2, ZERO),
        ],
        found: None,
    },
    Row {
        name: "a set without an answer may be done at any time",
        steps: &[
            Set(0, 3),
            Told(0, Unanswered),
            Delete(0, 3),
            Told(1, Deleted),
            Get(1, 3),
            Told(2, ZERO),
        ],
        found: None,
    },
    Row {
        name: "a set that still waits may be done at any time",
        steps: &[
            Set(0, 3),
            Delete(1, 3),
            Told(1, NotFound),
            Get(1, 3),
            Told(2, ZERO),
        ],
        found: None,
    },
    Row {
        name: "a delete without an answer isn't acknowledged",
        steps: &[
            Set(0, 3),
            Told(0, Stored),
            Delete(0, 3),
            Told(1, Unanswered),
            Get(1, 3),
            Told(2, ZERO),
        ],
        found: None,
    },
    Row {
        name: "a delete of another key takes nothing away",
        steps: &[
            Set(0, 3),
            Told(0, Stored),
            Delete(0, 4),
            Told(1, Deleted),
            Get(1, 3),
            Told(2, ZERO),
        ],
        found: None,
    },
    Row {
        name: "a value that was set anew is another one",
        steps: &[
            Set(0, 3),
            Told(0, Stored),
            Delete(0, 3),
            Told(1, Deleted),
            Set(1, 3),
            Told(2, Stored),
            Get(0, 3),
            Told(3, ONE),
        ],
        found: None,
    },
    Row {
        name: "the value before it comes back",
        steps: &[
            Set(0, 3),
            Told(0, Stored),
            Delete(0, 3),
            Told(1, Deleted),
            Set(1, 3),
            Told(2, Stored),
            Get(0, 3),
            Told(3, ZERO),
        ],
        found: Some((0, 1, 3)),
    },
    Row {
        name: "of two deletes the one that was issued last convicts, though it was acknowledged first",
        steps: &[
            Set(0, 3),
            Told(0, Stored),
            Delete(0, 3),
            Delete(1, 3),
            Told(2, Deleted),
            Told(1, NotFound),
            Get(0, 3),
            Told(3, ZERO),
        ],
        found: Some((0, 2, 3)),
    },
    Row {
        name: "a later delete that isn't acknowledged leaves the earlier one",
        steps: &[
            Set(0, 3),
            Told(0, Stored),
            Delete(0, 3),
            Told(1, Deleted),
            Delete(1, 3),
            Get(0, 3),
            Told(2, Unanswered),
            Told(3, ZERO),
        ],
        found: Some((0, 1, 3)),
    },
    Row {
        name: "a delete that is acknowledged while the get is under way convicts only a later get",
        steps: &[
            Set(0, 3),
            Told(0, Stored),
            Get(1, 3),
            Delete(0, 3),
            Told(2, Deleted),
            Told(1, ZERO),
            Get(1, 3),
            Told(3, ZERO),
        ],
        found: Some((0, 2, 3)),
    },
    Row {
        name: "two sets under way: the one that was answered first is convicted",
        steps: &[
            Set(0, 3),
            Set(1, 3),
            Told(1, Stored),
            Delete(0, 3),
            Told(0, Stored),
            Told(2, Deleted),
            Get(0, 3),
            Told(3, ONE),
        ],
        found: Some((1, 2, 3)),
    },
    Row {
        name: "and the other isn't",
        steps: &[
            Set(0, 3),
            Set(1, 3),
            Told(1, Stored),
            Delete(0, 3),
            Told(0, Stored),
            Told(2, Deleted),
            Get(0, 3),
            Told(3, ZERO),
        ],
        found: None,
    },
    Row {
        name: "a value that nobody set is no conviction",
        steps: &[
            Set(0, 3),
            Told(0, Stored),
            Delete(0, 3),
            Told(1, Deleted),
            Get(0, 3),
            Told(2, ONE),
        ],
        found: None,
    },
    Row {
        name: "an answer of another kind is none",
        steps: &[
            Set(0, 3),
            Told(0, Stored),
            Delete(0, 3),
            Told(1, Stored),
            Get(0, 3),
            Told(2, ZERO),
        ],
        found: None,
    },
];

/// Plays the steps of a row, and compares what each comes to.
fn plays(rt: &impl Abort, alloc: Global, row: &Row) {
    let mut played = Played::new(rt, alloc, 5, 8);
    let mut left = row.steps.len();
    for step in row.steps {
        left = left.saturating_sub(1);
        let found = played.step(rt, *step);
        let wanted = if left == 0 { row.found } else { None };
        holds(rt, found == wanted, row.name);
    }
}

#[test]
fn rows_come_to_what_they_say(rt: HostRuntime) {
    for row in &ROWS {
        plays(&rt, rt.alloc(), row);
    }
}
