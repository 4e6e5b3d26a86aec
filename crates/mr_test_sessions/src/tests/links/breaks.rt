//! What breaks a link, which carries nothing more then.
use super::{AMPLE, BY_BYTES, Came, DELETE, GET, Row, SET, Told, are_rows};
use crate::tests::devices::Given;
use crate::tests::is_at;
use mr_desks::WorkerError;

/// What comes of the first leg where its answer is none, and of each leg of a broken link.
const MISMATCH: Came = Came::Fault(WorkerError::Mismatch);

const BROKEN: Came = Came::Fault(WorkerError::LinkBroken);

/// Two legs of one kind, of which the first gets no answer. Nothing is written for the second.
const GETS: Row = Row {
    legs: &[(Told::Get, MISMATCH), (Told::Get, BROKEN)],
    ..GET
};

const SETS: Row = Row {
    legs: &[(Told::Set(0), MISMATCH), (Told::Set(0), BROKEN)],
    ..SET
};

const DELETES: Row = Row {
    legs: &[(Told::Delete, MISMATCH), (Told::Delete, BROKEN)],
    ..DELETE
};

/// Replies that are no answer, and what is no reply.
static WRONG: [Row; 17] = [
    Row {
        answered: b"STORED\r\n",
        ..GETS
    },
    Row {
        answered: b"DELETED\r\n",
        ..GETS
    },
    Row {
        answered: b"NOT_FOUND\r\n",
        ..GETS
    },
    Row {
        answered: b"END\r\n",
        ..SETS
    },
    Row {
        answered: b"DELETED\r\n",
        ..SETS
    },
    Row {
        answered: b"NOT_FOUND\r\n",
        ..SETS
    },
    Row {
        answered: b"END\r\n",
        ..DELETES
    },
    Row {
        answered: b"STORED\r\n",
        ..DELETES
    },
    Row {
        answered: b"VALUE k 5 1\r\nv\r\nEND\r\n",
        ..DELETES
    },
    // an item of another key, and two items
    Row {
        answered: b"VALUE b 5 1\r\nv\r\nEND\r\n",
        ..GETS
    },
    Row {
        answered: b"VALUE k 5 1\r\nv\r\nVALUE k 5 1\r\nv\r\nEND\r\n",
        ..GETS
    },
    // wrong words, a bad key, a bad number, a long block, a bad end of a block, an unknown word
    Row {
        answered: b"END END\r\n",
        ..GETS
    },
    Row {
        answered: b"VALUE \x7f 5 1\r\nv\r\nEND\r\n",
        ..GETS
    },
    Row {
        answered: b"VALUE k five 1\r\nv\r\nEND\r\n",
        ..GETS
    },
    Row {
        answered: b"VALUE k 5 1048577\r\n",
        ..GETS
    },
    Row {
        answered: b"VALUE k 5 1\r\nvv\r\nEND\r\n",
        ..GETS
    },
    Row {
        answered: b"VERSION\r\n",
        ..GETS
    },
];

#[test]
fn what_is_no_answer_breaks_a_link(rt: HostRuntime) {
    are_rows(&rt, rt.alloc(), &WRONG);
}

/// Two gets of which the first meets the end of the input, a device that fails, or the end of its turns.
const ENDED: &[(Told, Came)] = &[(Told::Get, BROKEN), (Told::Get, BROKEN)];

const FAILS_TO_READ: &[(Told, Came)] = &[
    (Told::Get, Came::Fault(WorkerError::ReadFault)),
    (Told::Get, BROKEN),
];

const FAILS_TO_WRITE: &[(Told, Came)] = &[
    (Told::Get, Came::Fault(WorkerError::WriteFault)),
    (Told::Get, BROKEN),
];

const SPENT: &[(Told, Came)] = &[
    (Told::Get, Came::Fault(WorkerError::TurnsSpent)),
    (Told::Get, BROKEN),
];

static FAULTS: [Row; 11] = [
    Row {
        legs: ENDED,
        answered: b"",
        ..GET
    },
    Row {
        legs: ENDED,
        answered: b"VALUE k 0 5\r\nab",
        ..GET
    },
    Row {
        legs: ENDED,
        answered: b"EN",
        ..GET
    },
    Row {
        legs: ENDED,
        answered: b"VALUE k 5 1\r\nv\r\nEND\r",
        given: BY_BYTES,
        ..GET
    },
    Row {
        legs: FAILS_TO_READ,
        answered: b"END\r\n",
        given: Given {
            read_fails: 1,
            ..AMPLE
        },
        unread: 5,
        ..GET
    },
    Row {
        legs: FAILS_TO_READ,
        answered: b"END\r\nEND\r\n",
        given: Given {
            read_fails: 5,
            ..BY_BYTES
        },
        unread: 6,
        ..GET
    },
    Row {
        legs: FAILS_TO_WRITE,
        answered: b"END\r\n",
        given: Given {
            write_fails: 1,
            ..AMPLE
        },
        written: "",
        calls: 0,
        unread: 5,
    },
    // a write that fails in the middle of the request: the writer of std is called again for the other half, and fails
    Row {
        legs: FAILS_TO_WRITE,
        answered: b"END\r\n",
        given: Given {
            half_at: 1,
            ..AMPLE
        },
        written: "get",
        calls: 2,
        unread: 5,
    },
    Row {
        legs: SPENT,
        answered: b"END\r\nEND\r\n",
        given: Given {
            turns: 4,
            ..BY_BYTES
        },
        unread: 6,
        ..GET
    },
    Row {
        legs: SPENT,
        answered: b"END\r\n",
        given: Given { turns: 0, ..AMPLE },
        unread: 5,
        ..GET
    },
    // a link that carried a leg breaks at the next
    Row {
        legs: &[(Told::Get, Came::Miss), (Told::Get, MISMATCH)],
        answered: b"END\r\nSTORED\r\n",
        written: "get k\r\nget k\r\n",
        calls: 2,
        ..GET
    },
];

#[test]
fn each_fault_breaks_a_link(rt: HostRuntime) {
    are_rows(&rt, rt.alloc(), &FAULTS);
}

/// A hit whose bytes come one at a time.
const HIT: &[u8] = b"VALUE k 5 1\r\nv\r\nEND\r\n";

#[test]
fn each_read_of_a_reply_fails(rt: HostRuntime) {
    for taken in 0..HIT.len() {
        let row = Row {
            legs: FAILS_TO_READ,
            answered: HIT,
            given: Given {
                read_fails: (taken as u64).wrapping_add(1),
                ..BY_BYTES
            },
            unread: HIT.len().wrapping_sub(taken),
            ..GET
        };
        are_rows(&rt, rt.alloc(), &[row]);
    }
}

/// Each error of a link or a session, with its number; 3 is that of a desk's full book.
static NUMBERS: [(WorkerError, u8); 8] = [
    (WorkerError::LinkBroken, 1),
    (WorkerError::Mismatch, 2),
    (WorkerError::BookDiffers, 4),
    (WorkerError::ReadFault, 5),
    (WorkerError::WriteFault, 6),
    (WorkerError::TurnsSpent, 7),
    (WorkerError::OutOfMemory, 8),
    (WorkerError::NoThread, 9),
];

#[test]
fn worker_errors_have_numbers(rt: HostRuntime) {
    for (row, (error, number)) in NUMBERS.iter().enumerate() {
        is_at(&rt, row, "number", &WorkerError::number(*error), number);
    }
}
