//! What a service answers to texts, and what it leaves where a device fails.
use super::devices::{AMPLE, Given, Left, Pieces, Shown, serve_input};
use super::{are, count_is, expiry, is};
use crate::tests::{bytes_of_rule, must};
use mr_clock::{Clock, ListClock};
use mr_node::{CacheNode, Ended, NodeError};
use mr_test_support::{Rule, TakesHalf};
use mr_text::Key;
use std::alloc::Global;
use std::cell::Cell;
use std::process::Abort;

/// A text and what it is served with. How the service has to end, what it writes, in how many calls of the device, and
/// how many items are kept then.
type Row = (
    &'static [u8],
    Given,
    Result<Ended, NodeError>,
    &'static [u8],
    usize,
    usize,
);

/// Asserts how a service ended, what it wrote and in how many calls.
fn has_left(rt: &impl Abort, row: usize, left: &Left, it: &Row) {
    is(rt, row, left.how, it.2);
    are(rt, row, &left.writer.kept, it.3);
    count_is(rt, row, left.writer.calls, it.4);
}

/// Serves a text over a cache.
fn serve_pieces<C: Clock>(
    alloc: Global,
    node: &mut CacheNode,
    clock: &mut C,
    seconds: &Cell<u64>,
    input: &[u8],
    given: Given,
) -> Left {
    let pieces = Pieces {
        bytes: input,
        length: given.length,
        seconds,
    };
    let device = TakesHalf::new(alloc, given.half_at);
    serve_input(alloc, node, clock, pieces, given, device)
}

/// Asserts what the service of a text comes to over a new cache of four items, by a clock that shows these readings.
fn is_row(
    rt: &impl Abort,
    alloc: Global,
    row: usize,
    readings: &[Option<u64>],
    input: &[u8],
    it: &Row,
) {
    let mut node = must(rt, CacheNode::new(alloc, 4));
    let mut clock = ListClock::new(must(rt, Vec::from_slice(alloc, readings)));
    let left = serve_pieces(alloc, &mut node, &mut clock, &Cell::new(0), input, it.1);
    has_left(rt, row, &left, it);
    count_is(rt, row, node.len(), it.5);
}

/// The reading of a clock that stands still.
const STILL: &[Option<u64>] = &[Some(999)];

const ENDED: Result<Ended, NodeError> = Ok(Ended::Ended);

const QUIT: Result<Ended, NodeError> = Ok(Ended::Quit);

static ANSWERS: [Row; 14] = [
    (
        b"set k 0 0 0\r\n\r\nget k\r\n",
        AMPLE,
        ENDED,
        b"STORED\r\nVALUE k 0 0\r\n\r\nEND\r\n",
        2,
        1,
    ),
    (
        b"set k 5 0 1 noreply\r\nv\r\nset b 6 0 1\r\nw\r\nget k x b k\r\n",
        AMPLE,
        ENDED,
        b"STORED\r\nVALUE k 5 1\r\nv\r\nVALUE b 6 1\r\nw\r\nVALUE k 5 1\r\nv\r\nEND\r\n",
        2,
        2,
    ),
    (b"delete k 0 noreply\r\n", AMPLE, ENDED, b"", 0, 0),
    (
        b"gets k\r\n\r\nget k\r\n",
        AMPLE,
        ENDED,
        b"ERROR\r\nERROR\r\nEND\r\n",
        3,
        0,
    ),
    (
        b"delete k\r\nset k 0 0 1\r\nv\r\ndelete k\r\nquit\r\nget k\r\n",
        AMPLE,
        QUIT,
        b"NOT_FOUND\r\nSTORED\r\nDELETED\r\n",
        3,
        0,
    ),
    // What gets no answer makes no call of the writer.
    (
        b"set a 0 0 1 noreply\r\nv\r\ndelete b noreply\r\nquit\r\n",
        AMPLE,
        QUIT,
        b"",
        0,
        1,
    ),
    (b"", AMPLE, ENDED, b"", 0, 0),
    // Refusals are answered.
    (
        b"set k 4294967296 0 1\r\n",
        AMPLE,
        Ok(Ended::Refused(3)),
        b"CLIENT_ERROR bad number\r\n",
        1,
        0,
    ),
    (
        b"delete k 5\r\n",
        AMPLE,
        Ok(Ended::Refused(4)),
        b"CLIENT_ERROR wrong words\r\n",
        1,
        0,
    ),
    (
        b"set k 0 0 1048577\r\n",
        AMPLE,
        Ok(Ended::Refused(5)),
        b"CLIENT_ERROR data too long\r\n",
        1,
        0,
    ),
    (
        b"set k 0 0 1048577 noreply\r\n",
        AMPLE,
        Ok(Ended::Refused(5)),
        b"CLIENT_ERROR data too long\r\n",
        1,
        0,
    ),
    (
        b"set k 0 0 1\r\nv\nget k\r\n",
        AMPLE,
        Ok(Ended::Refused(6)),
        b"CLIENT_ERROR bad data end\r\n",
        1,
        0,
    ),
    (
        b"cas k 0 0 1 5\r\nget k\r\n",
        AMPLE,
        Ok(Ended::Refused(7)),
        b"ERROR\r\n",
        1,
        0,
    ),
    (
        b"set k 0 0 3\r\nab",
        AMPLE,
        Ok(Ended::Refused(8)),
        b"",
        0,
        0,
    ),
];

#[test]
fn answers_each_request_and_refusal(rt: HostRuntime) {
    for (row, it) in ANSWERS.iter().enumerate() {
        is_row(&rt, rt.alloc(), row, STILL, it.0, it);
    }
}

/// Texts with a key and with a line that are too long, and what comes of their services.
static LONG_TEXTS: [(Rule, Row); 2] = [
    (
        (b"get ", b"x", 251, b"\r\n"),
        (
            b"",
            AMPLE,
            Ok(Ended::Refused(2)),
            b"CLIENT_ERROR bad key\r\n",
            1,
            0,
        ),
    ),
    (
        (b"get k", b" ", 8188, b"\n"),
        (
            b"",
            AMPLE,
            Ok(Ended::Refused(1)),
            b"CLIENT_ERROR line too long\r\n",
            1,
            0,
        ),
    ),
];

#[test]
fn refuses_long_keys_and_lines(rt: HostRuntime) {
    for (row, (rule, it)) in LONG_TEXTS.iter().enumerate() {
        let input = bytes_of_rule(&rt, rt.alloc(), *rule);
        is_row(&rt, rt.alloc(), row, STILL, &input, it);
    }
}

const READ_FAULT: Result<Ended, NodeError> = Err(NodeError::ReadFault);

const WRITE_FAULT: Result<Ended, NodeError> = Err(NodeError::WriteFault);

const SPENT: Result<Ended, NodeError> = Err(NodeError::TurnsSpent);

const TWO_SETS: &[u8] = b"set a 0 0 1\r\nv\r\nset b 0 0 1\r\nw\r\nset c";

const THREE_ANSWERS: &[u8] = b"set a 0 0 1\r\nv\r\nset b 0 0 1\r\nw\r\nget a b\r\n";

const SIX_REQUESTS: &[u8] =
    b"set a 0 0 1\r\nv\r\nset b 0 0 1 noreply\r\nw\r\nget a\r\ngets a\r\ndelete a\r\nquit\r\n";

static FAULTS: [Row; 16] = [
    (
        TWO_SETS,
        Given {
            read_fails: 1,
            ..AMPLE
        },
        READ_FAULT,
        b"",
        0,
        0,
    ),
    (
        TWO_SETS,
        Given {
            read_fails: 2,
            ..AMPLE
        },
        READ_FAULT,
        b"STORED\r\nSTORED\r\n",
        2,
        2,
    ),
    (
        TWO_SETS,
        Given {
            read_fails: 3,
            ..AMPLE
        },
        Ok(Ended::Refused(8)),
        b"STORED\r\nSTORED\r\n",
        2,
        2,
    ),
    // An answer takes one call.
    (
        THREE_ANSWERS,
        Given {
            write_fails: 1,
            ..AMPLE
        },
        WRITE_FAULT,
        b"",
        0,
        1,
    ),
    (
        THREE_ANSWERS,
        Given {
            write_fails: 2,
            ..AMPLE
        },
        WRITE_FAULT,
        b"STORED\r\n",
        1,
        2,
    ),
    (
        THREE_ANSWERS,
        Given {
            write_fails: 3,
            ..AMPLE
        },
        WRITE_FAULT,
        b"STORED\r\nSTORED\r\n",
        2,
        2,
    ),
    (
        THREE_ANSWERS,
        Given {
            write_fails: 4,
            ..AMPLE
        },
        ENDED,
        b"STORED\r\nSTORED\r\nVALUE a 0 1\r\nv\r\nVALUE b 0 1\r\nw\r\nEND\r\n",
        3,
        2,
    ),
    // A beginning of one answer goes out, and the call that failed is the last.
    (
        SIX_REQUESTS,
        Given {
            half_at: 1,
            ..AMPLE
        },
        WRITE_FAULT,
        b"STOR",
        2,
        1,
    ),
    (
        SIX_REQUESTS,
        Given {
            half_at: 2,
            ..AMPLE
        },
        WRITE_FAULT,
        b"STORED\r\nVALUE a 0 ",
        3,
        2,
    ),
    (
        SIX_REQUESTS,
        Given {
            half_at: 3,
            ..AMPLE
        },
        WRITE_FAULT,
        b"STORED\r\nVALUE a 0 1\r\nv\r\nEND\r\nERR",
        4,
        2,
    ),
    (
        SIX_REQUESTS,
        Given {
            half_at: 4,
            ..AMPLE
        },
        WRITE_FAULT,
        b"STORED\r\nVALUE a 0 1\r\nv\r\nEND\r\nERROR\r\nDELE",
        5,
        1,
    ),
    (
        SIX_REQUESTS,
        Given {
            half_at: 5,
            ..AMPLE
        },
        QUIT,
        b"STORED\r\nVALUE a 0 1\r\nv\r\nEND\r\nERROR\r\nDELETED\r\n",
        4,
        1,
    ),
    // No more reads are made than may be, and the one of the end is one of them.
    (
        b"get k\r\n",
        Given {
            length: 1,
            turns: 0,
            ..AMPLE
        },
        SPENT,
        b"",
        0,
        0,
    ),
    (
        b"get k\r\n",
        Given {
            length: 1,
            turns: 3,
            ..AMPLE
        },
        SPENT,
        b"",
        0,
        0,
    ),
    (
        b"get k\r\n",
        Given {
            length: 1,
            turns: 7,
            ..AMPLE
        },
        SPENT,
        b"END\r\n",
        1,
        0,
    ),
    (
        b"get k\r\n",
        Given {
            length: 1,
            turns: 8,
            ..AMPLE
        },
        ENDED,
        b"END\r\n",
        1,
        0,
    ),
];

#[test]
fn faults_leave_what_was_done(rt: HostRuntime) {
    for (row, it) in FAULTS.iter().enumerate() {
        is_row(&rt, rt.alloc(), row, STILL, it.0, it);
    }
}

/// A clock that fails once.
const CLOCK_FAULT: &[Option<u64>] = &[None, Some(999)];

/// What a clock shows, and the service of a text with it.
static READINGS: [(&[Option<u64>], Row); 4] = [
    (
        CLOCK_FAULT,
        (
            b"get k\r\nget k\r\n",
            AMPLE,
            ENDED,
            b"SERVER_ERROR clock fault\r\nEND\r\n",
            2,
            0,
        ),
    ),
    (
        CLOCK_FAULT,
        (
            b"set k 0 0 1\r\nv\r\nget k\r\n",
            AMPLE,
            ENDED,
            b"SERVER_ERROR clock fault\r\nEND\r\n",
            2,
            0,
        ),
    ),
    (
        CLOCK_FAULT,
        (
            b"set k 0 0 1 noreply\r\nv\r\nget k\r\n",
            AMPLE,
            ENDED,
            b"END\r\n",
            1,
            0,
        ),
    ),
    // Each request takes one reading.
    (
        &[Some(100), Some(109), Some(110)],
        (
            b"set k 0 10 1\r\nv\r\nget k k\r\nget k\r\n",
            AMPLE,
            ENDED,
            b"STORED\r\nVALUE k 0 1\r\nv\r\nVALUE k 0 1\r\nv\r\nEND\r\nEND\r\n",
            3,
            0,
        ),
    ),
];

#[test]
fn takes_one_reading_for_each_request(rt: HostRuntime) {
    for (row, (readings, it)) in READINGS.iter().enumerate() {
        is_row(&rt, rt.alloc(), row, readings, it.0, it);
    }
}

/// A set of sixteen bytes is served, one at a time, by a clock that shows a second more for each.
const SLOWLY: Given = Given {
    length: 1,
    turns: 20,
    ..AMPLE
};

/// The first byte of the request comes at 101. So it has arrived at 116.
#[test]
fn reads_the_clock_once_a_request_has_arrived(rt: HostRuntime) {
    let mut node = must(&rt, CacheNode::new(rt.alloc(), 1));
    let seconds = Cell::new(100);
    let mut clock = Shown(&seconds);
    let input = b"set k 0 5 1\r\nv\r\n";
    let left = serve_pieces(rt.alloc(), &mut node, &mut clock, &seconds, input, SLOWLY);
    is(&rt, 0, left.how, ENDED);
    let key = must(&rt, Key::new(rt.alloc(), b"k"));
    is(&rt, 1, expiry(&node, &key), Some(Some(121)));
}
