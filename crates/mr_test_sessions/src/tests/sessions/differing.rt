//! Desks and carriers that mix up what belongs to different requests. A session ends where a request that was issued has no
//! answer of its own. The answers of those before it are kept.
ghost use Rattle.std.specs.Prelude.{true};

use super::{IN_TIME, NEW, Row, SILENT, direct, goes_so};
use crate::tests::{get_of, is, must};
use mr_clock::{Clock, FixedClock};
use mr_desks::{Carried, Carrier, Carriers, Desk, DeskError, RecordedProxy, Share, WorkerError};
use mr_history::OpId;
use mr_proxy::{Answer, Issued, Taken};
use mr_test_nodes::{Nodes, ToNode, make_nodes, recorded_proxy};
use mr_text::Request;
use std::alloc::Global;
use std::process::Abort;
use std::sync::Wait;

/// A desk that issues at one proxy, and takes legs and gives requests up at another.
struct Torn<C: Carrier> {
    issues: RecordedProxy<C>,
    takes: RecordedProxy<C>,
}

impl<C: Carrier> Drop for Torn<C> {
    fn drop(self) {
        let Self {
            issues: _,
            takes: _,
        } = self;
    }
}

impl<C: Carrier> Desk<C> for Torn<C> {
    ghost recorded = { true };

    fn is_recorded(&self) -> bool {
        true
    }

    fn share(&self) -> Share {
        self.issues.share()
    }

    fn issue<R: Wait, K: Clock>(
        &self,
        rt: &R,
        share: &mut Share,
        clock: &mut K,
        request: &Request,
    ) -> Result<Issued, DeskError> {
        self.issues.issue(rt, share, clock, request)
    }

    fn take<R: Wait>(&self, rt: &R, carried: &mut Carried<C>) -> Result<Taken, DeskError> {
        self.takes.take(rt, carried)
    }

    fn give_up<R: Wait>(&self, rt: &R, op: OpId) -> Result<Answer, DeskError> {
        self.takes.give_up(rt, op)
    }
}

/// A desk over two fresh proxies.
fn two_proxies<C: Carrier>(rt: &impl Abort, alloc: Global) -> Torn<C> {
    Torn {
        issues: must(rt, recorded_proxy(alloc, 0, &NEW, 20)),
        takes: must(rt, recorded_proxy(alloc, 0, &NEW, 20)),
    }
}

/// Issues the get of these keys at a reading.
fn issue_at<C: Carrier, D: Desk<C>, R: Wait + Abort>(
    rt: &R,
    alloc: Global,
    desk: &D,
    names: &[&[u8]],
    reading: u64,
) -> Issued {
    let request = get_of(rt, alloc, names);
    must(
        rt,
        desk.issue(rt, &mut desk.share(), &mut FixedClock(reading), &request),
    )
}

/// The same before the migration.
fn issue<C: Carrier, D: Desk<C>, R: Wait + Abort>(
    rt: &R,
    alloc: Global,
    desk: &D,
    names: &[&[u8]],
) -> Issued {
    issue_at(rt, alloc, desk, names, 999)
}

/// A client whose first request has no answer of its own. It sends a second, which isn't issued.
const GETS: Row = Row {
    sends: b"get k\r\nget k\r\n",
    ended: Err(WorkerError::BookDiffers),
    unkept: 1,
    ..SILENT
};

static NONE: Row = GETS;

/// What was answered before stays told and kept.
static SECOND: Row = Row {
    sends: b"get k\r\nset k 0 0 1 noreply\r\nv\r\nget k\r\n",
    told: "END\r\n",
    kept: &[IN_TIME],
    ..GETS
};

/// Asserts how the session of a row goes at two proxies, over these caches, where the one that takes legs has issued the
/// gets of these keys before.
fn goes_torn<'x, R: Wait + Abort>(
    rt: &'x R,
    alloc: Global,
    nodes: &'x Nodes,
    before: &[&[&[u8]]],
    row: &Row,
) {
    let desk: Torn<ToNode<'x, R>> = two_proxies(rt, alloc);
    for names in before {
        let _ = issue(rt, alloc, &desk.takes, names);
    }
    let mut carriers = must(rt, direct(rt, alloc, nodes));
    let _ = goes_so(rt, alloc, &desk, &mut carriers, 0, row);
}

#[test]
fn a_request_that_is_not_under_way_differs(rt: HostRuntime) {
    let nodes = must(&rt, make_nodes(rt.alloc(), 3));
    goes_torn(&rt, rt.alloc(), &nodes, &[], &NONE);
}

/// At the other proxy a get of another key has the request's name.
#[test]
fn the_answer_of_another_request_that_is_given_up_differs(rt: HostRuntime) {
    let nodes = must(&rt, make_nodes(rt.alloc(), 3));
    goes_torn(&rt, rt.alloc(), &nodes, &[&[b"b"]], &NONE);
}

#[test]
fn what_was_answered_before_is_kept(rt: HostRuntime) {
    let nodes = must(&rt, make_nodes(rt.alloc(), 3));
    goes_torn(&rt, rt.alloc(), &nodes, &[&[b"k"]], &SECOND);
}

/// Asserts the same where the same get was issued at the other proxy after the migration.
fn goes_later<'x, R: Wait + Abort>(rt: &'x R, alloc: Global, nodes: &'x Nodes) {
    let desk: Torn<ToNode<'x, R>> = two_proxies(rt, alloc);
    let _ = issue_at(rt, alloc, &desk.takes, &[b"k"], 2000);
    let mut carriers = must(rt, direct(rt, alloc, nodes));
    let _ = goes_so(rt, alloc, &desk, &mut carriers, 0, &NONE);
}

/// At the other proxy the same get has the request's name, but its leg goes to the new pool.
#[test]
fn the_answer_made_of_another_leg_differs(rt: HostRuntime) {
    let nodes = must(&rt, make_nodes(rt.alloc(), 3));
    goes_later(&rt, rt.alloc(), &nodes);
}

/// Carries the last leg of what was issued, and hands what came back to the proxy, which awaits another leg.
fn take_last<C: Carrier, L: Carriers<C>, R: Wait + Abort>(
    rt: &R,
    proxy: &RecordedProxy<C>,
    carriers: &mut L,
    mut issued: Issued,
) {
    let Some(leg) = issued.legs.pop() else {
        rt.panic("no leg");
    };
    is(rt, "unsent", &carriers.send(leg).is_some(), &false);
    let Some(mut carried) = carriers.receive() else {
        rt.panic("no leg came back");
    };
    let taken = must(rt, proxy.take(rt, &mut carried));
    is(rt, "waiting", &matches!(taken, Taken::Waiting), &true);
}

/// Asserts the same where one leg of that other get was taken before.
fn goes_taken<'x, R: Wait + Abort>(rt: &'x R, alloc: Global, nodes: &'x Nodes) {
    let desk: Torn<ToNode<'x, R>> = two_proxies(rt, alloc);
    let mut carriers = must(rt, direct(rt, alloc, nodes));
    let issued = issue(rt, alloc, &desk.takes, &[b"k", b"b"]);
    take_last(rt, &desk.takes, &mut carriers, issued);
    let _ = goes_so(rt, alloc, &desk, &mut carriers, 0, &NONE);
}

/// At the other proxy a get of two keys has the request's name. One of its legs is the request's own, and it is the last one.
#[test]
fn the_answer_of_another_request_that_is_taken_differs(rt: HostRuntime) {
    let nodes = must(&rt, make_nodes(rt.alloc(), 3));
    goes_taken(&rt, rt.alloc(), &nodes);
}

/// Sends all legs of what was issued.
fn send_all<C: Carrier, L: Carriers<C>>(rt: &impl Abort, carriers: &mut L, issued: Issued) {
    for leg in issued.legs {
        is(rt, "unsent", &carriers.send(leg).is_some(), &false);
    }
}

/// Asserts the same at one proxy, whose carriers bring a leg that was sent before.
fn goes_behind<'x, R: Wait + Abort>(rt: &'x R, alloc: Global, nodes: &'x Nodes) {
    let desk: RecordedProxy<ToNode<'x, R>> = must(rt, recorded_proxy(alloc, 0, &NEW, 20));
    let mut carriers = must(rt, direct(rt, alloc, nodes));
    let issued = issue(rt, alloc, &desk, &[b"k"]);
    send_all(rt, &mut carriers, issued);
    let _ = goes_so(rt, alloc, &desk, &mut carriers, 0, &NONE);
}

/// A leg that was sent before the session began comes back in it, and answers its own request, which isn't the session's.
#[test]
fn the_answer_of_a_leg_that_the_session_did_not_send_differs(rt: HostRuntime) {
    let nodes = must(&rt, make_nodes(rt.alloc(), 3));
    goes_behind(&rt, rt.alloc(), &nodes);
}
