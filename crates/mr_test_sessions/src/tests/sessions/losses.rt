//! Legs that don't come back.
use super::{Kept, NEW, Row, SILENT, direct, goes_so};
use crate::tests::broken::broken_carriers;
use crate::tests::must;
use mr_desks::{DirectCarriers, RecordedProxy};
use mr_node::Ended;
use mr_test_nodes::{Nodes, ToNode, carriers_to, make_nodes, recorded_proxy};
use std::alloc::Global;
use std::process::Abort;
use std::sync::Wait;

/// A client of the phase in which deletes go to both sides and gets to the old one.
const DURING: Row = Row {
    clock: &[Some(1000); 4],
    ..SILENT
};

/// Answers of that phase in time: to a get or a set, and to a delete.
const ONE: Kept = Kept {
    reading: 1000,
    legs: 1,
    given_up: false,
};

const BOTH: Kept = Kept { legs: 2, ..ONE };

/// The same, given up.
const LOST_ONE: Kept = Kept {
    given_up: true,
    ..ONE
};

const LOST_BOTH: Kept = Kept {
    given_up: true,
    ..BOTH
};

/// Asserts how the session of a row goes whose legs reach no node: there are so many carriers for each pool.
fn goes_without(rt: &(impl Wait + Abort), alloc: Global, counts: &[usize], row: &Row) {
    let desk = must(rt, recorded_proxy(alloc, 0, &NEW, row.limit));
    let mut carriers = broken_carriers(rt, alloc, counts);
    let _ = goes_so(rt, alloc, &desk, &mut carriers, 0, row);
}

static LOST: Row = Row {
    sends: b"get k\r\ndelete k\r\ndelete k noreply\r\nquit\r\n",
    ended: Ok(Ended::Quit),
    told: "SERVER_ERROR leg lost\r\nSERVER_ERROR leg lost\r\n",
    kept: &[ONE, BOTH, BOTH],
    ..DURING
};

#[test]
fn a_leg_that_is_lost_on_its_way_is_told(rt: HostRuntime) {
    goes_without(&rt, rt.alloc(), &[2, 3], &LOST);
}

static UNSENT: Row = Row {
    sends: b"get k\r\ndelete k noreply\r\ndelete a\r\n",
    told: "SERVER_ERROR leg lost\r\nSERVER_ERROR leg lost\r\n",
    reads: 2,
    kept: &[LOST_ONE, LOST_BOTH, LOST_BOTH],
    ..DURING
};

#[test]
fn a_request_whose_legs_find_no_carrier_is_given_up(rt: HostRuntime) {
    goes_without(&rt, rt.alloc(), &[], &UNSENT);
}

/// A client whose legs reach all nodes, and then one whose legs reach the old pool alone.
static SETS: Row = Row {
    sends: b"set k 5 0 1\r\nv\r\nset b 6 0 1\r\nw\r\n",
    told: "STORED\r\nSTORED\r\n",
    reads: 2,
    kept: &[ONE, ONE],
    ..DURING
};

static DELETES: Row = Row {
    sends: b"delete k\r\nget b\r\ndelete b\r\nget k b\r\nquit\r\n",
    ended: Ok(Ended::Quit),
    told: "SERVER_ERROR leg lost\r\nVALUE b 6 1\r\nw\r\nEND\r\nSERVER_ERROR leg lost\r\nEND\r\n",
    kept: &[LOST_BOTH, ONE, LOST_BOTH, BOTH],
    ..DURING
};

/// Carriers to the caches of the old pool alone.
fn to_old<'x, R: Wait + Abort>(
    rt: &'x R,
    alloc: Global,
    nodes: &'x Nodes,
) -> DirectCarriers<ToNode<'x, R>> {
    let mut pools = Vec::new(alloc);
    must(rt, pools.push(must(rt, carriers_to(rt, alloc, &nodes.old))));
    DirectCarriers::new(alloc, pools)
}

/// Asserts how both sessions go at one proxy, over these caches.
fn play<'x, R: Wait + Abort>(rt: &'x R, alloc: Global, nodes: &'x Nodes) {
    let desk: RecordedProxy<ToNode<'x, R>> = must(rt, recorded_proxy(alloc, 0, &NEW, 40));
    let mut all = must(rt, direct(rt, alloc, nodes));
    let _ = goes_so(rt, alloc, &desk, &mut all, 0, &SETS);
    let mut old = to_old(rt, alloc, nodes);
    let _ = goes_so(rt, alloc, &desk, &mut old, 1, &DELETES);
}

/// A delete has a leg to each pool. The one to the old pool was performed; when it comes back, to the next request, no request
/// awaits it. The next request gets its own answer.
#[test]
fn a_leg_of_a_request_given_up_answers_no_other(rt: HostRuntime) {
    let nodes = must(&rt, make_nodes(rt.alloc(), 3));
    play(&rt, rt.alloc(), &nodes);
}
