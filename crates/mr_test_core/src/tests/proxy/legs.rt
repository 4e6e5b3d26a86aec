//! Which nodes the legs of a request go to.
use super::{Asked, core_of, count_is, is, issue, number_is, request_of, says};
use crate::tests::must;
use mr_join::LegReply;
use mr_phases::Side;
use mr_proxy::{Leg, LegBack, ProxyCore, Taken, legs_of};
use std::alloc::Global;
use std::process::Abort;

/// A side, and the index of a node in its pool.
type Node = (Side, u32);

/// Asserts which nodes the legs go to, in order of place.
fn are_sent_to(rt: &impl Abort, row: usize, legs: &[Leg], wanted: &[Node]) {
    count_is(rt, row, legs.len(), wanted.len());
    for (leg, node) in legs.iter().zip(wanted) {
        let sheet = leg.sheet();
        is(rt, row, (sheet.side, sheet.node), *node);
    }
}

/// A reading, a request, and the nodes that its legs go to.
type Row = (u64, Asked, &'static [Node]);

/// Asserts which nodes a request goes to, and that so many legs were foreseen.
fn goes_to(rt: &impl Abort, alloc: Global, row: usize, core: &mut ProxyCore, it: &Row) {
    let count = core.would_issue(it.0, &request_of(rt, alloc, it.1));
    number_is(rt, row, must(rt, count), it.2.len() as u64);
    let issued = issue(rt, alloc, core, it.0, it.1);
    are_sent_to(rt, row, issued.legs.as_slice(), it.2);
}

static ROWS: [Row; 6] = [
    // A get has a leg for each key, a key that it repeats included.
    (
        999,
        Asked::Get(b"kkb"),
        &[(Side::Old, 1), (Side::Old, 1), (Side::Old, 0)],
    ),
    (999, Asked::SilentDelete(b'k'), &[(Side::Old, 1)]),
    (1000, Asked::Delete(b'k'), &[(Side::Old, 1), (Side::New, 2)]),
    (
        1000,
        Asked::SilentDelete(b'k'),
        &[(Side::Old, 1), (Side::New, 2)],
    ),
    // An earlier reading is not used.
    (999, Asked::Delete(b'k'), &[(Side::Old, 1), (Side::New, 2)]),
    (1200, Asked::Set(b'a'), &[(Side::New, 1)]),
];

#[test]
fn legs_go_where_the_reading_says(rt: HostRuntime) {
    let mut core = core_of(&rt, rt.alloc(), 0, 8);
    for (row, it) in ROWS.iter().enumerate() {
        goes_to(&rt, rt.alloc(), row, &mut core, it);
    }
}

/// A request, the sides that a delete goes to, and how many legs it has.
static COUNTS: [(Asked, usize, usize); 4] = [
    (Asked::Get(b"kkb"), 2, 3),
    (Asked::Set(b'a'), 2, 1),
    (Asked::Delete(b'k'), 1, 1),
    (Asked::SilentDelete(b'k'), 2, 2),
];

#[test]
fn a_delete_has_a_leg_for_each_side(rt: HostRuntime) {
    for (row, it) in COUNTS.iter().enumerate() {
        let request = request_of(&rt, rt.alloc(), it.0);
        count_is(&rt, row, legs_of(&request, it.1), it.2);
    }
}

/// What becomes of what comes back of a leg.
fn become_of(core: &mut ProxyCore, back: LegBack) -> &'static str {
    let LegBack { sheet, reply } = back;
    match core.take_reply(sheet.id, reply) {
        Taken::Answered(_) => "answered",
        _ => "not answered",
    }
}

/// Asserts that a copy of what comes back of each leg of a set answers it.
fn come_back(rt: &impl Abort, alloc: Global, core: &mut ProxyCore) {
    for leg in issue(rt, alloc, core, 1200, Asked::Set(b'a')).legs {
        let back = must(rt, leg.returned(LegReply::Stored).copy());
        says(rt, 0, become_of(core, back), "answered");
    }
    count_is(rt, 1, core.outstanding(), 0);
}

#[test]
fn a_leg_comes_back_with_its_sheet(rt: HostRuntime) {
    come_back(&rt, rt.alloc(), &mut core_of(&rt, rt.alloc(), 0, 4));
}

/// Asserts that what a get has left changes nothing of the requests behind it, which have other legs.
fn serve_anew(rt: &impl Abort, alloc: Global, core: &mut ProxyCore) {
    for (row, it) in ROWS.iter().enumerate() {
        let issued = issue(rt, alloc, core, it.0, it.1);
        are_sent_to(rt, row, issued.legs.as_slice(), it.2);
        core.give_legs_back(issued.legs);
        let answer = must(rt, core.give_up(issued.op));
        count_is(rt, row, answer.slots().len(), it.2.len());
        core.give_answer_back(answer);
    }
    count_is(rt, 6, core.outstanding(), 0);
}

#[test]
fn lists_that_came_back_are_used_again(rt: HostRuntime) {
    serve_anew(&rt, rt.alloc(), &mut core_of(&rt, rt.alloc(), 0, 1));
}
