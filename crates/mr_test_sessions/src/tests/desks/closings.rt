//! When a book stands with what its sessions did.
ghost use Rattle.std.specs.Prelude.{◌≢◌};
ghost use Rattle.mr_text.specs.declared.request.Request.{Request};

use super::{desk_of, issue};
use crate::tests::broken::Broken;
use crate::tests::{delete_of, get_of, is, must};
use mr_desks::{Book, Carried, CloseError, Desk, RecordedProxy, Share, close};
use mr_proxy::{Answer, Leg, Taken};
use mr_test_support::{grant_memory, refuse_memory};
use mr_text::Request;
use std::alloc::Global;
use std::process::Abort;
use std::sync::Wait;

/// A proxy, and what its sessions did: their shares, and the answers that they took.
#[derive(Drop)]
struct Sessions {
    desk: RecordedProxy<Broken>,
    shares: Vec<Share>,
    answers: Vec<Vec<Answer>>,
}

/// What a session of a proxy did.
#[derive(Drop)]
pub(super) struct Session {
    pub(super) share: Share,
    pub(super) answers: Vec<Answer>,
}

/// Loses a leg, and keeps the answer.
fn lose(
    rt: &(impl Wait + Abort),
    desk: &RecordedProxy<Broken>,
    leg: Leg,
    answers: &mut Vec<Answer>,
) {
    let mut carried = Carried::of(&mut Broken::new(), leg);
    if let Taken::Answered(answer) = must(rt, desk.take(rt, &mut carried)) {
        must(rt, answers.push(answer));
    }
}

/// Issues a request, and loses its legs.
pub(super) fn ask(
    rt: &(impl Wait + Abort),
    desk: &RecordedProxy<Broken>,
    session: &mut Session,
    request: &Request,
)
    requires { request.now ≢ Request.Quit }
{
    for leg in must(rt, issue(rt, desk, &mut session.share, request)).legs {
        lose(rt, desk, leg, &mut session.answers);
    }
}

/// Issues a request, and gives it up.
pub(super) fn give_up(
    rt: &(impl Wait + Abort),
    desk: &RecordedProxy<Broken>,
    session: &mut Session,
    request: &Request,
)
    requires { request.now ≢ Request.Quit }
{
    let op = must(rt, issue(rt, desk, &mut session.share, request)).op;
    must(rt, session.answers.push(must(rt, desk.give_up(rt, op))));
}

/// A session that gets a key, whose leg is lost, and gives the delete of a key up.
fn play_session(rt: &(impl Wait + Abort), alloc: Global, desk: &RecordedProxy<Broken>) -> Session {
    let mut session = Session {
        share: desk.share(),
        answers: Vec::new(alloc),
    };
    ask(rt, desk, &mut session, &get_of(rt, alloc, &[b"k"]));
    give_up(rt, desk, &mut session, &delete_of(rt, alloc, b"k"));
    session
}

/// What a proxy's book came to: its steps, or the number of the error.
fn came_to(closed: Result<Book, CloseError<Broken>>) -> Result<usize, u8> {
    match closed {
        Ok(book) => Ok(book.steps.len()),
        Err(error) => Err(error.number()),
    }
}

/// Asserts whether the book of a proxy stands with what its sessions did: then it has so many steps.
fn closes_so(rt: &impl Abort, alloc: Global, sessions: Sessions, wanted: Result<usize, u8>) {
    let Sessions {
        desk,
        shares,
        answers,
    } = sessions;
    let closed = close(alloc, desk, &shares, &answers);
    is(rt, "steps", &came_to(closed), &wanted);
}

/// That a book differs has this number.
const DIFFERS: Result<usize, u8> = Err(4);

/// Adds what a session did, and asserts how many answers it took.
fn add(rt: &impl Abort, sessions: &mut Sessions, session: Session, answers: usize) {
    is(rt, "answers", &session.answers.len(), &answers);
    must(rt, sessions.shares.push(session.share));
    must(rt, sessions.answers.push(session.answers));
}

#[test]
fn close_errors_have_numbers(rt: HostRuntime) {
    let no_memory = CloseError::OutOfMemory(desk_of(&rt, rt.alloc(), 4));
    is(&rt, "number", &no_memory.number(), &8);
}

/// Two sessions of one proxy, of four steps each.
fn two_sessions(rt: &(impl Wait + Abort), alloc: Global) -> Sessions {
    let mut sessions = Sessions {
        desk: desk_of(rt, alloc, 20),
        shares: Vec::new(alloc),
        answers: Vec::new(alloc),
    };
    for _ in 0..2 {
        let session = play_session(rt, alloc, &sessions.desk);
        add(rt, &mut sessions, session, 2);
    }
    sessions
}

#[test]
fn a_book_stands_with_its_sessions(rt: HostRuntime) {
    let sessions = two_sessions(&rt, rt.alloc());
    closes_so(&rt, rt.alloc(), sessions, Ok(8));
}

/// The share of a session of another proxy, which issued two requests.
fn foreign_share(rt: &(impl Wait + Abort), alloc: Global) -> Share {
    play_session(rt, alloc, &desk_of(rt, alloc, 20)).share
}

#[test]
fn a_share_of_another_proxy_differs(rt: HostRuntime) {
    let mut sessions = two_sessions(&rt, rt.alloc());
    must(&rt, sessions.shares.push(foreign_share(&rt, rt.alloc())));
    closes_so(&rt, rt.alloc(), sessions, DIFFERS);
}

#[test]
fn a_share_that_is_missing_differs(rt: HostRuntime) {
    let mut sessions = two_sessions(&rt, rt.alloc());
    is(&rt, "a share", &sessions.shares.pop().is_some(), &true);
    closes_so(&rt, rt.alloc(), sessions, DIFFERS);
}

/// A copy of the first answer of each session.
fn copies(rt: &impl Abort, alloc: Global, sessions: &[Vec<Answer>]) -> Vec<Answer> {
    let mut copies = Vec::new(alloc);
    for session in sessions {
        if let Some(answer) = session.first() {
            must(rt, copies.push(must(rt, answer.copy())));
        }
    }
    copies
}

#[test]
fn an_answer_and_its_copy_differ(rt: HostRuntime) {
    let mut sessions = two_sessions(&rt, rt.alloc());
    let copies = copies(&rt, rt.alloc(), &sessions.answers);
    must(&rt, sessions.answers.push(copies));
    closes_so(&rt, rt.alloc(), sessions, DIFFERS);
}

/// The answer to the third request of another proxy, which has the name of one here, and another key.
fn foreign_answers(rt: &(impl Wait + Abort), alloc: Global) -> Vec<Answer> {
    let other = desk_of(rt, alloc, 20);
    let mut session = play_session(rt, alloc, &other);
    session.answers.clear();
    give_up(rt, &other, &mut session, &get_of(rt, alloc, &[b"b"]));
    session.answers
}

#[test]
fn an_answer_of_another_proxy_differs(rt: HostRuntime) {
    let mut sessions = two_sessions(&rt, rt.alloc());
    sessions.answers.clear();
    let answers = foreign_answers(&rt, rt.alloc());
    is(&rt, "answers", &answers.len(), &1);
    must(&rt, sessions.answers.push(answers));
    closes_so(&rt, rt.alloc(), sessions, DIFFERS);
}

/// Where memory to close it is refused, the proxy comes back, and its book is closed later.
#[test]
fn refused_memory_leaves_a_book_to_be_closed(rt: HostRuntime) {
    let Sessions {
        desk,
        shares,
        answers,
    } = two_sessions(&rt, rt.alloc());
    refuse_memory(&rt);
    let first = close(rt.alloc(), desk, &shares, &answers);
    grant_memory(&rt);
    let closed = match first {
        Err(CloseError::OutOfMemory(back)) => close(rt.alloc(), back, &shares, &answers),
        closed => closed,
    };
    is(&rt, "steps", &came_to(closed), &Ok(8));
}
