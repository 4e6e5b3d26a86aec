//! What a session does with the readings of its clock, and with a book that is full.
use super::{IN_TIME, Kept, Row, SILENT, are_rows};
use mr_node::Ended;

static FAILS_ONCE: [Row; 1] = [Row {
    clock: &[None, Some(999)],
    sends: b"get k\r\nget k\r\n",
    told: "SERVER_ERROR clock fault\r\nEND\r\n",
    reads: 2,
    kept: &[IN_TIME],
    ..SILENT
}];

#[test]
fn a_clock_fault_is_answered_and_the_session_goes_on(rt: HostRuntime) {
    are_rows(&rt, rt.alloc(), &FAILS_ONCE);
}

/// A delete goes to the old pool alone before the start of the migration, and to both from then on.
static MOVES: [Row; 1] = [Row {
    clock: &[Some(999), Some(1000)],
    sends: b"delete k\r\ndelete k\r\n",
    told: "NOT_FOUND\r\nNOT_FOUND\r\n",
    reads: 2,
    kept: &[
        IN_TIME,
        Kept {
            reading: 1000,
            legs: 2,
            given_up: false,
        },
    ],
    ..SILENT
}];

#[test]
fn each_request_takes_one_reading(rt: HostRuntime) {
    are_rows(&rt, rt.alloc(), &MOVES);
}

static FULL: [Row; 1] = [Row {
    limit: 2,
    sends: b"get k\r\nget k\r\nquit\r\n",
    ended: Ok(Ended::Quit),
    told: "END\r\nSERVER_ERROR book full\r\n",
    kept: &[IN_TIME],
    ..SILENT
}];

#[test]
fn a_full_book_is_answered(rt: HostRuntime) {
    are_rows(&rt, rt.alloc(), &FULL);
}
