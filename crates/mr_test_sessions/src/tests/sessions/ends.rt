//! How a session ends.
use super::{IN_TIME, Row, SILENT, WHOLE, are_rows};
use crate::tests::devices::Given;
use mr_desks::WorkerError;
use mr_node::Ended;

/// Clients that quit, and input that ends.
static ENDS: [Row; 4] = [
    SILENT,
    Row {
        sends: b"quit\r\n",
        ended: Ok(Ended::Quit),
        ..SILENT
    },
    Row {
        sends: b"get k\r\nquit\r\ndelete k\r\n",
        ended: Ok(Ended::Quit),
        told: "END\r\n",
        kept: &[IN_TIME],
        ..SILENT
    },
    Row {
        sends: b"get k\r\n",
        told: "END\r\n",
        reads: 2,
        kept: &[IN_TIME],
        ..SILENT
    },
];

#[test]
fn a_session_ends_where_the_client_or_the_input_does(rt: HostRuntime) {
    are_rows(&rt, rt.alloc(), &ENDS);
}

/// What is no request. Behind a command whose lines of data aren't known nothing can be read.
static REFUSALS: [Row; 5] = [
    Row {
        sends: b"get k\r\ndelete k 5\r\nget k\r\n",
        ended: Ok(Ended::Refused(4)),
        told: "END\r\nCLIENT_ERROR wrong words\r\n",
        kept: &[IN_TIME],
        ..SILENT
    },
    Row {
        sends: b"set k 0 0 1\r\nv\nget k\r\n",
        ended: Ok(Ended::Refused(6)),
        told: "CLIENT_ERROR bad data end\r\n",
        ..SILENT
    },
    Row {
        sends: b"cas k 0 0 1 5\r\nget k\r\n",
        ended: Ok(Ended::Refused(7)),
        told: "ERROR\r\n",
        ..SILENT
    },
    Row {
        sends: b"gets k\r\nget k\r\n",
        told: "ERROR\r\nEND\r\n",
        reads: 2,
        kept: &[IN_TIME],
        ..SILENT
    },
    Row {
        sends: b"get k\r\nset k 0 0 3\r\nab",
        ended: Ok(Ended::Refused(8)),
        told: "END\r\n",
        reads: 2,
        kept: &[IN_TIME],
        ..SILENT
    },
];

#[test]
fn a_refusal_is_told_and_ends_the_session_or_not(rt: HostRuntime) {
    are_rows(&rt, rt.alloc(), &REFUSALS);
}

/// A get that comes a byte at a time, with so many reads that there may be.
static TURNS: [Row; 4] = [
    Row {
        given: Given {
            length: 1,
            turns: 0,
            ..WHOLE
        },
        sends: b"get k\r\n",
        ended: Err(WorkerError::TurnsSpent),
        reads: 0,
        ..SILENT
    },
    Row {
        given: Given {
            length: 1,
            turns: 3,
            ..WHOLE
        },
        sends: b"get k\r\n",
        ended: Err(WorkerError::TurnsSpent),
        reads: 3,
        ..SILENT
    },
    Row {
        given: Given {
            length: 1,
            turns: 7,
            ..WHOLE
        },
        sends: b"get k\r\n",
        ended: Err(WorkerError::TurnsSpent),
        told: "END\r\n",
        reads: 7,
        kept: &[IN_TIME],
        ..SILENT
    },
    Row {
        given: Given {
            length: 1,
            turns: 8,
            ..WHOLE
        },
        sends: b"get k\r\n",
        told: "END\r\n",
        reads: 8,
        kept: &[IN_TIME],
        ..SILENT
    },
];

#[test]
fn no_more_reads_are_made_than_may_be(rt: HostRuntime) {
    are_rows(&rt, rt.alloc(), &TURNS);
}
