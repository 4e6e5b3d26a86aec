//! What a proxy and an answer tell of themselves.
use super::{Asked, answer_to, core_of, count_is, holds, is, is_asked, issue, number_is};
use crate::tests::must;
use mr_proxy::{Answer, ProxyCore, ProxyError};
use std::alloc::Global;
use std::process::Abort;

fn tells(rt: &impl Abort, core: &ProxyCore) {
    is(rt, 0, core.number(), 0);
    number_is(rt, 1, core.incarnation(), 3);
    number_is(rt, 2, core.room(), 4);
    let schedule = core.schedule();
    is(rt, 3, schedule.hops(), 1);
    number_is(rt, 3, schedule.start(0), 1000);
    count_is(rt, 4, core.routing().pools().len(), 2);
}

#[test]
fn a_proxy_tells_what_it_was_made_of(rt: HostRuntime) {
    tells(&rt, &core_of(&rt, rt.alloc(), 3, 4));
    is(&rt, 5, ProxyError::NumbersSpent.number(), 3);
}

/// Asserts what the answer to a get of `k` tells that was given up.
fn is_of_get(rt: &impl Abort, alloc: Global, answer: &Answer) {
    number_is(rt, 0, answer.op().number, 0);
    number_is(rt, 1, answer.reading(), 1001);
    holds(rt, 2, answer.given_up(), true);
    count_is(rt, 3, answer.slots().len(), 1);
    let asked = is_asked(rt, alloc, answer.request(), Asked::Get(b"k"));
    holds(rt, 4, asked, true);
}

#[test]
fn an_answer_tells_what_was_asked(rt: HostRuntime) {
    let answer = answer_to(&rt, rt.alloc(), 1001, Asked::Get(b"k"), &[]);
    let copy = must(&rt, answer.copy());
    holds(&rt, 5, copy.same_as(&answer), true);
    is_of_get(&rt, rt.alloc(), &copy);
}

/// Asserts that a proxy that issued one request isn't fresh, and that its opening is.
fn opens(rt: &impl Abort, alloc: Global, core: &ProxyCore) {
    holds(rt, 0, core.is_fresh(), false);
    number_is(rt, 1, core.next(), 1);
    is(rt, 2, core.last(), Some(999));
    let opening = must(rt, core.opening(alloc));
    holds(rt, 3, opening.is_fresh(), true);
    holds(rt, 4, opening.alike(core), true);
}

#[test]
fn an_opening_is_fresh(rt: HostRuntime) {
    let mut core = core_of(&rt, rt.alloc(), 0, 1);
    let _issued = issue(&rt, rt.alloc(), &mut core, 999, Asked::Get(b"k"));
    opens(&rt, rt.alloc(), &core);
}
