//! Devices that fail.
use super::{IN_TIME, Kept, Row, SILENT, WHOLE, are_rows};
use crate::tests::devices::Given;
use mr_desks::WorkerError;
use mr_node::Ended;

/// Two sets, the second without an answer, a line that is no request, and a get.
const CLIENT: Row = Row {
    sends: b"set k 0 0 1\r\nv\r\nset b 0 0 1 noreply\r\nw\r\ngets k\r\nget k b\r\nquit\r\n",
    ..SILENT
};

/// The answer to its get of two keys.
const OF_TWO_KEYS: Kept = Kept { legs: 2, ..IN_TIME };

/// Where the first read fails, the second, and so on, of 16 bytes each. The read that fails doesn't come to the device.
static READS: [Row; 5] = [
    Row {
        given: Given {
            length: 16,
            read_fails: 1,
            ..WHOLE
        },
        ended: Err(WorkerError::ReadFault),
        reads: 0,
        ..CLIENT
    },
    Row {
        given: Given {
            length: 16,
            read_fails: 2,
            ..WHOLE
        },
        ended: Err(WorkerError::ReadFault),
        told: "STORED\r\n",
        reads: 1,
        kept: &[IN_TIME],
        ..CLIENT
    },
    Row {
        given: Given {
            length: 16,
            read_fails: 3,
            ..WHOLE
        },
        ended: Err(WorkerError::ReadFault),
        told: "STORED\r\n",
        reads: 2,
        kept: &[IN_TIME],
        ..CLIENT
    },
    Row {
        given: Given {
            length: 16,
            read_fails: 4,
            ..WHOLE
        },
        ended: Err(WorkerError::ReadFault),
        told: "STORED\r\nERROR\r\n",
        reads: 3,
        kept: &[IN_TIME, IN_TIME],
        ..CLIENT
    },
    // The client quits in the fourth, so there is no fifth.
    Row {
        given: Given {
            length: 16,
            read_fails: 5,
            ..WHOLE
        },
        ended: Ok(Ended::Quit),
        told: "STORED\r\nERROR\r\nVALUE k 0 1\r\nv\r\nVALUE b 0 1\r\nw\r\nEND\r\n",
        reads: 4,
        kept: &[IN_TIME, IN_TIME, OF_TWO_KEYS],
        ..CLIENT
    },
];

#[test]
fn a_failed_read_ends_the_session(rt: HostRuntime) {
    are_rows(&rt, rt.alloc(), &READS);
}

/// Where the first write fails, the second, and so on. A request whose answer can't be written was issued, and its answer is
/// kept. Nothing is read or issued behind it.
static WRITES: [Row; 3] = [
    Row {
        given: Given {
            write_fails: 1,
            ..WHOLE
        },
        ended: Err(WorkerError::WriteFault),
        kept: &[IN_TIME],
        ..CLIENT
    },
    Row {
        given: Given {
            write_fails: 2,
            ..WHOLE
        },
        ended: Err(WorkerError::WriteFault),
        told: "STORED\r\n",
        kept: &[IN_TIME, IN_TIME],
        ..CLIENT
    },
    Row {
        given: Given {
            write_fails: 3,
            ..WHOLE
        },
        ended: Err(WorkerError::WriteFault),
        told: "STORED\r\nERROR\r\n",
        kept: &[IN_TIME, IN_TIME, OF_TWO_KEYS],
        ..CLIENT
    },
];

#[test]
fn a_failed_write_ends_the_session(rt: HostRuntime) {
    are_rows(&rt, rt.alloc(), &WRITES);
}

/// Where the first write takes half of its piece, the second, and so on.
static HALVES: [Row; 3] = [
    Row {
        given: Given {
            half_at: 1,
            ..WHOLE
        },
        ended: Err(WorkerError::WriteFault),
        told: "STOR",
        kept: &[IN_TIME],
        ..CLIENT
    },
    Row {
        given: Given {
            half_at: 2,
            ..WHOLE
        },
        ended: Err(WorkerError::WriteFault),
        told: "STORED\r\nERR",
        kept: &[IN_TIME, IN_TIME],
        ..CLIENT
    },
    Row {
        given: Given {
            half_at: 3,
            ..WHOLE
        },
        ended: Err(WorkerError::WriteFault),
        told: "STORED\r\nERROR\r\nVALUE k 0 1\r\nv\r\nVA",
        kept: &[IN_TIME, IN_TIME, OF_TWO_KEYS],
        ..CLIENT
    },
];

#[test]
fn a_beginning_of_an_answer_may_be_written(rt: HostRuntime) {
    are_rows(&rt, rt.alloc(), &HALVES);
}

/// The client isn't told why its issue was refused either.
static REFUSED: [Row; 1] = [Row {
    limit: 0,
    given: Given {
        write_fails: 1,
        ..WHOLE
    },
    sends: b"get k\r\nget k\r\n",
    ended: Err(WorkerError::WriteFault),
    ..SILENT
}];

#[test]
fn the_answer_to_a_refused_issue_may_not_be_written(rt: HostRuntime) {
    are_rows(&rt, rt.alloc(), &REFUSED);
}
