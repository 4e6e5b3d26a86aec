//! Requests that are answered.
use super::{IN_TIME, Kept, NEW, Row, SILENT, WHOLE, are_rows, direct, goes_so};
use crate::tests::devices::Given;
use crate::tests::must;
use mr_desks::SharedProxy;
use mr_node::Ended;
use mr_test_nodes::{Nodes, ToNode, core_of, make_nodes};
use std::alloc::Global;
use std::process::Abort;
use std::sync::Wait;

/// A client that sets, gets and deletes, and then quits; nothing is served behind that.
const CLIENT: Row = Row {
    sends: b"set k 0 0 1\r\nv\r\nget k\r\ndelete k\r\nget k\r\nquit\r\nget k\r\n",
    ended: Ok(Ended::Quit),
    told: "STORED\r\nVALUE k 0 1\r\nv\r\nEND\r\nDELETED\r\nEND\r\n",
    kept: &[IN_TIME, IN_TIME, IN_TIME, IN_TIME],
    ..SILENT
};

static RECORDED: [Row; 1] = [CLIENT];

#[test]
fn each_request_of_a_session_has_its_answer(rt: HostRuntime) {
    are_rows(&rt, rt.alloc(), &RECORDED);
}

static UNRECORDED: Row = Row {
    kept: &[],
    unkept: 4,
    ..CLIENT
};

/// Asserts how the session of that client goes at a proxy without a book, over these caches.
fn goes_unrecorded<'x, R: Wait + Abort>(rt: &'x R, alloc: Global, nodes: &'x Nodes) {
    let desk: SharedProxy<ToNode<'x, R>> = SharedProxy::new(must(rt, core_of(alloc, 0, &NEW)));
    let mut carriers = must(rt, direct(rt, alloc, nodes));
    let _ = goes_so(rt, alloc, &desk, &mut carriers, 0, &UNRECORDED);
}

#[test]
fn a_proxy_without_a_book_keeps_no_answers(rt: HostRuntime) {
    let nodes = must(&rt, make_nodes(rt.alloc(), 3));
    goes_unrecorded(&rt, rt.alloc(), &nodes);
}

/// Keys of three caches.
const THREE: Row = Row {
    sends: b"set k 1 0 5\r\nfirst\r\nset b 2 0 6\r\nsecond\r\nset a 3 0 0\r\n\r\nget b k a\r\nget k x k\r\n",
    told: "STORED\r\nSTORED\r\nSTORED\r\nVALUE b 2 6\r\nsecond\r\nVALUE k 1 5\r\nfirst\r\nVALUE a 3 0\r\n\r\nEND\r\n\
        VALUE k 1 5\r\nfirst\r\nVALUE k 1 5\r\nfirst\r\nEND\r\n",
    kept: &[IN_TIME, IN_TIME, IN_TIME, OF_THREE_KEYS, OF_THREE_KEYS],
    ..SILENT
};

const OF_THREE_KEYS: Kept = Kept { legs: 3, ..IN_TIME };

/// These 78 bytes in one piece, and in pieces that end in a line, in a block, and within an end of line.
static PIECES: [Row; 6] = [
    Row { reads: 2, ..THREE },
    Row {
        given: Given {
            length: 1,
            turns: 200,
            ..WHOLE
        },
        reads: 79,
        ..THREE
    },
    Row {
        given: Given { length: 7, ..WHOLE },
        reads: 13,
        ..THREE
    },
    Row {
        given: Given {
            length: 12,
            ..WHOLE
        },
        reads: 8,
        ..THREE
    },
    Row {
        given: Given {
            length: 15,
            ..WHOLE
        },
        reads: 7,
        ..THREE
    },
    Row {
        given: Given {
            length: 20,
            ..WHOLE
        },
        reads: 5,
        ..THREE
    },
];

#[test]
fn requests_are_answered_in_order_however_they_come(rt: HostRuntime) {
    are_rows(&rt, rt.alloc(), &PIECES);
}
