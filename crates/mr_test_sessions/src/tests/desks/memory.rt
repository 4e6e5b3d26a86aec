//! Desks and carriers that are refused memory: the same call made again gives what it gives with ample memory.
ghost use Rattle.std.specs.Prelude.{◌≢◌};
ghost use Rattle.mr_text.specs.declared.request.Request.{Request};

use super::books::{Told, told_of};
use super::{NEW, desk_of, issue};
use crate::tests::broken::{Broken, broken_carriers};
use crate::tests::{delete_of, first_leg, get_of, is, is_at, must};
use mr_clock::FixedClock;
use mr_desks::{
    Carried, Carrier, Carriers, Desk, DeskError, LocalCarrier, RecordedProxy, RecordedState, Share,
    SharedNode, SharedProxy, Step,
};
use mr_history::OpId;
use mr_join::LegReply;
use mr_node::{CacheNode, NodeCommand, Perform};
use mr_proxy::{Answer, Issued, Leg, LegSheet, Taken};
use mr_test_nodes::{ToNode, core_of};
use mr_test_support::{FIRST, SECOND, at_last, grant_memory, refuse_memory, reply_text};
use mr_text::{Block, Cause, Key, Request};
use std::alloc::{AllocError, Global};
use std::env::Env;
use std::process::Abort;
use std::sync::Wait;

/// The core comes back where memory for the proxy is refused.
#[test]
fn refused_memory_makes_a_recorded_proxy_later(rt: HostRuntime) {
    let core = must(&rt, core_of(rt.alloc(), 0, &NEW));
    refuse_memory(&rt);
    let first: Result<RecordedProxy<Broken>, _> = RecordedProxy::new(rt.alloc(), core, 4);
    grant_memory(&rt);
    let desk = match first {
        Err(core) => must(&rt, RecordedProxy::new(rt.alloc(), core, 4)),
        Ok(desk) => desk,
    };
    let issued = must(
        &rt,
        issue(
            &rt,
            &desk,
            &mut desk.share(),
            &get_of(&rt, rt.alloc(), &[b"k"]),
        ),
    );
    is(&rt, "request", &issued.op, &FIRST);
}

/// What an issue gives, which is made again where memory for it was refused: then the share stands as it was.
fn issue_at_last<D: Desk<Broken>>(
    rt: &(impl Wait + Abort + Env),
    desk: &D,
    share: &mut Share,
    request: &Request,
) -> Issued
    requires { request.now ≢ Request.Quit }
{
    refuse_memory(rt);
    let first = desk.issue(rt, share, &mut FixedClock(1000), request);
    grant_memory(rt);
    match first {
        Err(DeskError::OutOfMemory) => {
            is(rt, "share", &share.count(), &0);
            must(rt, desk.issue(rt, share, &mut FixedClock(1000), request))
        }
        issued => must(rt, issued),
    }
}

/// What is taken of a leg, again where memory for it was refused.
fn take_at_last<D: Desk<Broken>>(
    rt: &(impl Wait + Abort + Env),
    desk: &D,
    carried: &mut Carried<Broken>,
) -> Taken {
    refuse_memory(rt);
    let first = desk.take(rt, carried);
    grant_memory(rt);
    match first {
        Err(DeskError::OutOfMemory) => must(rt, desk.take(rt, carried)),
        taken => must(rt, taken),
    }
}

/// Asserts that the two legs of a delete are issued, and taken as the request's own.
fn is_answered<D: Desk<Broken>>(rt: &(impl Wait + Abort + Env), alloc: Global, desk: &D) {
    let issued = issue_at_last(rt, desk, &mut desk.share(), &delete_of(rt, alloc, b"k"));
    is(rt, "request", &issued.op, &FIRST);
    is(rt, "legs", &issued.legs.len(), &2);
    let mut answered = 0_u64;
    for leg in issued.legs {
        let mut carried = Carried::of(&mut Broken::new(), leg);
        if let Taken::Answered(answer) = take_at_last(rt, desk, &mut carried) {
            is(rt, "given up", &answer.given_up(), &false);
            answered = answered.wrapping_add(1);
        }
    }
    is(rt, "answers", &answered, &1);
}

#[test]
fn refused_memory_issues_and_takes_later_over_a_book(rt: HostRuntime) {
    is_answered(&rt, rt.alloc(), &desk_of(&rt, rt.alloc(), 3));
}

#[test]
fn refused_memory_issues_later_without_a_book(rt: HostRuntime) {
    let core = must(&rt, core_of(rt.alloc(), 0, &NEW));
    let desk: SharedProxy<Broken> = SharedProxy::new(core);
    is_answered(&rt, rt.alloc(), &desk);
}

/// The one leg of a get of a key.
fn leg_of(rt: &(impl Wait + Abort), alloc: Global, key: &'static [u8]) -> Leg {
    let desk = desk_of(rt, alloc, 9);
    let get = get_of(rt, alloc, &[key]);
    first_leg(rt, must(rt, issue(rt, &desk, &mut desk.share(), &get)).legs)
}

/// The one leg of a get of `k`.
fn one_leg(rt: &(impl Wait + Abort), alloc: Global) -> Leg {
    leg_of(rt, alloc, b"k")
}

/// A key whose copies take memory.
static LONG: &[u8] = b"a-key-of-more-than-forty-bytes-takes-memory";

/// A cache that holds `k` with the flags 7 and the data `v`.
fn holder(rt: &impl Abort, alloc: Global) -> SharedNode {
    let mut node = must(rt, CacheNode::new(alloc, 4));
    let set = NodeCommand::Set {
        key: must(rt, Key::new(alloc, b"k")),
        flags: 7,
        exptime: 0,
        block: must(rt, Block::new(alloc, b"v")),
    };
    let _ = must(rt, node.perform(0, set));
    SharedNode::new(node)
}

/// What a carrier to a cache says of a leg, again where memory for it was refused: then it says that, and fails no more.
fn carry_at_last<'x, R: Wait + Abort + Env>(
    rt: &'x R,
    node: &'x SharedNode,
    sheet: &LegSheet,
) -> LegReply {
    let mut carrier = LocalCarrier::new(rt, node, FixedClock(999));
    refuse_memory(rt);
    let first = carrier.carry(sheet);
    grant_memory(rt);
    match must(rt, first) {
        LegReply::Failed(Cause::OutOfMemory) => must(rt, carrier.carry(sheet)),
        reply => reply,
    }
}

#[test]
fn refused_memory_carries_later(rt: HostRuntime) {
    let leg = one_leg(&rt, rt.alloc());
    let node = holder(&rt, rt.alloc());
    let reply = carry_at_last(&rt, &node, leg.sheet());
    is(
        &rt,
        "a hit",
        &matches!(reply, LegReply::Hit { flags: 7, .. }),
        &true,
    );
}

/// A leg for which there is no room is handed back, and can be sent again.
#[test]
fn refused_memory_hands_a_leg_back(rt: HostRuntime) {
    let leg = one_leg(&rt, rt.alloc());
    let mut carriers = broken_carriers(&rt, rt.alloc(), &[2, 1]);
    refuse_memory(&rt);
    let back = carriers.send(leg);
    grant_memory(&rt);
    if let Some(leg) = back {
        is(&rt, "nothing came", &carriers.receive().is_none(), &true);
        is(&rt, "sent", &carriers.send(leg).is_none(), &true);
    }
    is(&rt, "came", &carriers.receive().is_some(), &true);
}

#[test]
fn refused_memory_copies_what_was_carried_later(rt: HostRuntime) {
    let carried = Carried::of(&mut Broken::new(), leg_of(&rt, rt.alloc(), LONG));
    let mut copy = must(&rt, at_last!(&rt, carried.copy(), Err(AllocError)));
    let desk = desk_of(&rt, rt.alloc(), 9);
    let taken = must(&rt, desk.take(&rt, &mut copy));
    is(
        &rt,
        "a stranger",
        &matches!(taken, Taken::Stranger(_)),
        &true,
    );
}

/// Issues a request over a book, carries its first leg to a cache, and takes what comes of it: whether that answers it.
fn ask<'x, R: Wait + Abort>(
    rt: &'x R,
    node: &'x SharedNode,
    state: &mut RecordedState<ToNode<'x, R>>,
    share: &mut Share,
    request: &Request,
) -> bool
    requires { request.now ≢ Request.Quit }
{
    let issued = must(rt, state.issue(share, &mut FixedClock(1000), request));
    let mut carrier = LocalCarrier::new(rt, node, FixedClock(999));
    let carried = Carried::of(&mut carrier, first_leg(rt, issued.legs));
    matches!(must(rt, state.take(&carried)), Taken::Answered(_))
}

/// A proxy with the book of a get of `k`, which finds it, and of a delete that is given up once its first leg came back.
fn played<'x, R: Wait + Abort>(
    rt: &'x R,
    alloc: Global,
    node: &'x SharedNode,
) -> RecordedState<ToNode<'x, R>> {
    let mut state = RecordedState::new(alloc, must(rt, core_of(alloc, 0, &NEW)), 5);
    let mut share = desk_of(rt, alloc, 5).share();
    let get = ask(
        rt,
        node,
        &mut state,
        &mut share,
        &get_of(rt, alloc, &[b"k"]),
    );
    let delete = ask(
        rt,
        node,
        &mut state,
        &mut share,
        &delete_of(rt, alloc, b"k"),
    );
    is(rt, "answered", &(get, delete), &(true, false));
    is(rt, "given up", &state.give_up(SECOND).is_ok(), &true);
    state
}

/// The steps of that book.
static STEPS: [Told; 5] = [
    Told::Issue(1000),
    Told::Take(FIRST),
    Told::Issue(1000),
    Told::Take(SECOND),
    Told::GiveUp(SECOND),
];

/// Whether two steps are equal.
fn same_step(step: &Step, other: &Step) -> bool {
    match (step, other) {
        (Step::Issue { request, .. }, Step::Issue { request: again, .. }) => request.same_as(again),
        (Step::Take(back), Step::Take(again)) => {
            back.sheet.same_as(&again.sheet) && back.reply.same_as(&again.reply)
        }
        (Step::GiveUp(op), Step::GiveUp(again)) => op == again,
        _ => false,
    }
}

/// Asserts that the copy of a step is equal, also where memory for it was refused once, and what it tells.
fn is_copied(rt: &(impl Abort + Env), number: usize, step: &Step, wanted: &Told) {
    let copy = must(rt, at_last!(rt, step.copy(), Err(AllocError)));
    is_at(rt, number, "equal", &same_step(&copy, step), &true);
    is_at(rt, number, "step", &told_of(&copy), wanted);
}

#[test]
fn refused_memory_copies_steps_later(rt: HostRuntime) {
    let node = holder(&rt, rt.alloc());
    let state = played(&rt, rt.alloc(), &node);
    is(&rt, "steps", &state.steps().len(), &STEPS.len());
    for (number, (step, wanted)) in state.steps().iter().zip(&STEPS).enumerate() {
        is_copied(&rt, number, step, wanted);
    }
}

/// The answers of that book: to which request, whether it was given up, and what its client is told.
static ANSWERS: [(OpId, bool, &[u8]); 2] = [
    (FIRST, false, b"VALUE k 7 1\r\nv\r\nEND\r\n"),
    (SECOND, true, b"SERVER_ERROR leg lost\r\n"),
];

/// Asserts which answer this is.
fn is_answer(rt: &impl Abort, alloc: Global, number: usize, answer: Answer) {
    let there = (answer.op(), answer.given_up());
    let text = must(rt, reply_text(alloc, &answer.into_reply()));
    let found = Some(&(there.0, there.1, text.as_slice()));
    is_at(rt, number, "answer", &found, &ANSWERS.get(number));
}

#[test]
fn refused_memory_gives_the_answers_of_a_book_later(rt: HostRuntime) {
    let node = holder(&rt, rt.alloc());
    let state = played(&rt, rt.alloc(), &node);
    let answers = must(
        &rt,
        at_last!(&rt, state.answers(rt.alloc()), Err(AllocError)),
    );
    is(&rt, "answers", &answers.len(), &ANSWERS.len());
    for (number, answer) in answers.into_iter().enumerate() {
        is_answer(&rt, rt.alloc(), number, answer);
    }
}
