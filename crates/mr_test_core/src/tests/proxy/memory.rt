//! Refused memory: a proxy stays as it was, and the same call made again gives what it gives with ample memory.
ghost use Rattle.std.specs.Prelude.{◌≢◌};
ghost use Rattle.mr_text.specs.declared.request.Request.{Request};

use super::{Asked, answer_to, core_of, count_is, holds, is, number_is, request_of};
use crate::tests::leg_replies::Came;
use crate::tests::must;
use mr_history::OpId;
use mr_join::LegReply;
use mr_proxy::{Issued, ProxyCore, ProxyError, Taken};
use mr_test_support::{FIRST, SECOND, at_last, grant_memory, refuse_memory};
use mr_text::Request;
use std::alloc::{AllocError, Global};
use std::env::Env;
use std::process::Abort;

/// What a proxy shows: how many requests and legs are under way, its next number, its last reading, and the oldest request.
type Shown = (usize, u128, u64, Option<u64>, Option<OpId>);

fn shown(core: &ProxyCore) -> Shown {
    (
        core.outstanding(),
        core.open_legs(),
        core.next(),
        core.last(),
        core.oldest(),
    )
}

/// What an issue gives, which is made again where memory for it was refused: then nothing had changed.
fn issue_at_last(
    rt: &(impl Abort + Env),
    core: &mut ProxyCore,
    reading: u64,
    request: Request,
) -> Result<Issued, ProxyError>
    requires { request ≢ Request.Quit }
{
    let before = shown(core);
    refuse_memory(rt);
    let first = core.issue(reading, request);
    grant_memory(rt);
    match first {
        Ok(issued) => Ok(issued),
        Err((ProxyError::OutOfMemory, back)) => {
            is(rt, 0, shown(core), before);
            match core.issue(reading, back) {
                Ok(issued) => Ok(issued),
                Err((refusal, _)) => Err(refusal),
            }
        }
        Err((refusal, _)) => Err(refusal),
    }
}

/// Asserts which request is issued, with so many legs.
fn is_issued(
    rt: &(impl Abort + Env),
    alloc: Global,
    core: &mut ProxyCore,
    asked: Asked,
    wanted: (OpId, usize),
) {
    let request = request_of(rt, alloc, asked);
    let issued = must(rt, issue_at_last(rt, core, 1000, request));
    is(rt, 1, (issued.op, issued.legs.len()), wanted);
}

/// Asserts that a proxy without room refuses a request, whose memory isn't asked for then.
fn has_no_room(rt: &(impl Abort + Env), alloc: Global, core: &mut ProxyCore) {
    let request = request_of(rt, alloc, Asked::Get(b"k"));
    let refused = issue_at_last(rt, core, 1000, request).err();
    is(rt, 2, refused, Some(ProxyError::NoRoom));
}

#[test]
fn refused_memory_issues_later(rt: HostRuntime) {
    let mut core = core_of(&rt, rt.alloc(), 0, 1);
    is_issued(&rt, rt.alloc(), &mut core, Asked::Get(b"kab"), (FIRST, 3));
    has_no_room(&rt, rt.alloc(), &mut core);
    must(&rt, core.give_up(FIRST));
    is_issued(&rt, rt.alloc(), &mut core, Asked::Delete(b'k'), (SECOND, 2));
}

#[test]
fn refused_memory_opens_later(rt: HostRuntime) {
    let core = core_of(&rt, rt.alloc(), 0, 1);
    let opening = must(
        &rt,
        at_last!(&rt, core.opening(rt.alloc()), Err(AllocError)),
    );
    holds(&rt, 0, opening.is_fresh(), true);
    holds(&rt, 1, opening.alike(&core), true);
}

#[test]
fn refused_memory_copies_an_answer_later(rt: HostRuntime) {
    let came = [(0, Came::Found(b'a', 3)), (1, Came::Miss)];
    let answer = answer_to(&rt, rt.alloc(), 999, Asked::Get(b"kb"), &came);
    let copy = must(&rt, at_last!(&rt, answer.copy(), Err(AllocError)));
    holds(&rt, 0, copy.same_as(&answer), true);
    let taken = Taken::Answered(answer);
    let copied = must(&rt, at_last!(&rt, taken.copy(), Err(AllocError)));
    holds(&rt, 1, matches!(copied, Taken::Answered(_)), true);
}

#[test]
fn refused_memory_copies_what_came_back_later(rt: HostRuntime) {
    let mut core = core_of(&rt, rt.alloc(), 0, 1);
    let request = request_of(&rt, rt.alloc(), Asked::Set(b'k'));
    let mut legs = must(&rt, core.issue(999, request)).legs;
    count_is(&rt, 0, legs.len(), 1);
    if let Some(leg) = legs.pop() {
        let back = leg.returned(LegReply::Stored);
        let copy = must(&rt, at_last!(&rt, back.copy(), Err(AllocError)));
        holds(&rt, 1, copy.sheet.same_as(&back.sheet), true);
        number_is(&rt, 2, u64::from(copy.sheet.node), 1);
    }
}
