//! What becomes of requests and replies, one after the other.
use super::{Asked, Came, core_of, holds, is, is_asked, issue, reply_of, request_of, says};
use crate::tests::must;
use mr_history::OpId;
use mr_join::LegReply;
use mr_proxy::{LegId, ProxyCore, ProxyError, Taken};
use mr_text::{Cause, Reply};
use std::alloc::Global;
use std::process::Abort;

/// The incarnation and the number of a request.
type Name = (u64, u64);

/// One step, and what it has to come to.
#[derive(Clone, Copy)]
enum Step {
    /// A request is accepted at a reading, under this name.
    Issues(u64, Asked, Name),
    /// A request is refused, and comes back.
    Refuses(u64, Asked, ProxyError),
    /// The reply of the leg of this place becomes this: of an answer what the client is told.
    Takes(Name, u32, Came, &'static str),
    /// A request is given up, and the client told this, or it is refused to be.
    GivesUp(Name, Result<&'static str, ProxyError>),
    /// The proxy is restarted, or refuses to be.
    Restarts(Option<ProxyError>),
    /// So many requests are under way, and so many of their legs may answer yet.
    Leaves(usize, u128),
    /// Of those under way this request was issued first, if there is one.
    Begins(Option<Name>),
    /// Whether the sheet of the leg of this place is lent.
    Lends(Name, u32, bool),
}

fn op(name: Name) -> OpId {
    OpId {
        proxy: 0,
        incarnation: name.0,
        number: name.1,
    }
}

fn leg(name: Name, place: u32) -> LegId {
    LegId {
        op: op(name),
        place,
    }
}

/// Why a request is refused, which has to come back as it was.
fn refusal_of(
    rt: &impl Abort,
    alloc: Global,
    row: usize,
    core: &mut ProxyCore,
    reading: u64,
    asked: Asked,
) -> Option<ProxyError> {
    match core.issue(reading, request_of(rt, alloc, asked)) {
        Ok(_) => None,
        Err((refusal, back)) => {
            holds(rt, row, is_asked(rt, alloc, &back, asked), true);
            Some(refusal)
        }
    }
}

/// What a client is told.
fn word_of(reply: &Reply) -> &'static str {
    match reply {
        Reply::NotFound => "NOT_FOUND",
        Reply::ServerError(Cause::LegLost) => "SERVER_ERROR leg lost",
        _ => "another answer",
    }
}

/// What a client is told of a request that is given up.
fn given_up(core: &mut ProxyCore, op: OpId) -> Result<&'static str, ProxyError> {
    let answer = core.give_up(op)?;
    Ok(word_of(&answer.into_reply()))
}

/// What becomes of a reply, by a copy of that.
fn become_of(rt: &impl Abort, core: &mut ProxyCore, id: LegId, reply: LegReply) -> &'static str {
    match must(rt, core.take_reply(id, reply).copy()) {
        Taken::Waiting => "waiting",
        Taken::Answered(answer) => word_of(&answer.into_reply()),
        Taken::Stranger(_) => "stranger",
    }
}

/// Asserts that a step comes to what it has to.
fn is_done(rt: &impl Abort, alloc: Global, row: usize, core: &mut ProxyCore, step: &Step) {
    match step {
        Step::Issues(reading, asked, name) => {
            let issued = issue(rt, alloc, core, *reading, *asked);
            is(rt, row, issued.op, op(*name));
        }
        Step::Refuses(reading, asked, refusal) => {
            let found = refusal_of(rt, alloc, row, core, *reading, *asked);
            is(rt, row, found, Some(*refusal));
        }
        Step::Takes(name, place, came, wanted) => {
            let reply = reply_of(rt, alloc, *came);
            let became = become_of(rt, core, leg(*name, *place), reply);
            says(rt, row, became, wanted);
        }
        Step::GivesUp(name, told) => is(rt, row, given_up(core, op(*name)), *told),
        Step::Restarts(refusal) => is(rt, row, core.restart().err(), *refusal),
        Step::Leaves(outstanding, open) => {
            is(
                rt,
                row,
                (core.outstanding(), core.open_legs()),
                (*outstanding, *open),
            );
        }
        Step::Begins(name) => is(rt, row, core.oldest(), (*name).map(op)),
        Step::Lends(name, place, lent) => {
            holds(rt, row, core.sheet_of(leg(*name, *place)).is_some(), *lent);
        }
    }
}

/// A script: the incarnation of a proxy, its room, and its steps.
type Script = (u64, u64, &'static [Step]);

/// Asserts that each step of a script comes to what it has to: where one doesn't, a hundred times the script's number and
/// the step's place are told as the row.
fn runs(rt: &impl Abort, alloc: Global, script: usize, it: &Script) {
    let mut core = core_of(rt, alloc, it.0, it.1);
    let first = script.saturating_mul(100);
    for (place, step) in it.2.iter().enumerate() {
        is_done(rt, alloc, first.saturating_add(place), &mut core, step);
    }
}

static SCRIPTS: [Script; 5] = [
    // A delete waits for both legs.
    (
        0,
        4,
        &[
            Step::Issues(1000, Asked::Delete(b'k'), (0, 0)),
            Step::Lends((0, 0), 1, true),
            Step::Lends((0, 0), 2, false),
            Step::Takes((0, 0), 0, Came::Deleted, "waiting"),
            Step::Lends((0, 0), 0, false),
            Step::Takes((0, 0), 0, Came::Deleted, "stranger"),
            Step::Takes((0, 0), 1, Came::Found(b'v', 1), "stranger"),
            Step::Takes((0, 0), 2, Came::NotFound, "stranger"),
            Step::Leaves(1, 1),
            Step::Takes((0, 0), 1, Came::NotFound, "NOT_FOUND"),
            Step::Leaves(0, 0),
            Step::Takes((0, 0), 1, Came::NotFound, "stranger"),
        ],
    ),
    // A restarted proxy knows no reply.
    (
        0,
        4,
        &[
            Step::Issues(1000, Asked::Delete(b'k'), (0, 0)),
            Step::Restarts(None),
            Step::Issues(1000, Asked::Delete(b'k'), (1, 0)),
            Step::Takes((0, 0), 0, Came::NotFound, "stranger"),
            Step::Takes((0, 0), 1, Came::NotFound, "stranger"),
            Step::Leaves(1, 2),
        ],
    ),
    // A full proxy refuses.
    (
        0,
        1,
        &[
            Step::Begins(None),
            Step::Issues(999, Asked::Get(b"k"), (0, 0)),
            Step::Begins(Some((0, 0))),
            Step::Refuses(999, Asked::Get(b"b"), ProxyError::NoRoom),
            Step::GivesUp((0, 0), Ok("SERVER_ERROR leg lost")),
            Step::Begins(None),
            Step::GivesUp((0, 0), Err(ProxyError::NoSuchOp)),
            Step::Issues(999, Asked::Get(b"k"), (0, 1)),
        ],
    ),
    // Requests leave in any order, and none is known after a restart.
    (
        0,
        4,
        &[
            Step::Issues(999, Asked::Get(b"k"), (0, 0)),
            Step::Issues(999, Asked::Delete(b'k'), (0, 1)),
            Step::Issues(999, Asked::Get(b"b"), (0, 2)),
            Step::Takes((0, 1), 0, Came::NotFound, "NOT_FOUND"),
            Step::Begins(Some((0, 0))),
            Step::Takes((0, 1), 0, Came::NotFound, "stranger"),
            Step::Takes((0, 0), 0, Came::Lost, "SERVER_ERROR leg lost"),
            Step::Begins(Some((0, 2))),
            Step::Leaves(1, 1),
            Step::Lends((0, 2), 0, true),
            Step::Restarts(None),
            Step::Begins(None),
            Step::Leaves(0, 0),
            Step::Takes((0, 2), 0, Came::Lost, "stranger"),
            Step::GivesUp((0, 2), Err(ProxyError::NoSuchOp)),
            Step::Issues(999, Asked::Get(b"k"), (1, 0)),
            Step::Begins(Some((1, 0))),
        ],
    ),
    // The last incarnation can't restart.
    (
        u64::MAX,
        1,
        &[
            Step::Restarts(Some(ProxyError::NumbersSpent)),
            Step::Issues(999, Asked::Get(b"k"), (u64::MAX, 0)),
        ],
    ),
];

#[test]
fn requests_and_replies_become_what_scripts_say(rt: HostRuntime) {
    for (script, it) in SCRIPTS.iter().enumerate() {
        runs(&rt, rt.alloc(), script, it);
    }
}
