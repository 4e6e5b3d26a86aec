//! Books that are closed with what sessions of another play hold, one thing being different in it, and books that are full.
ghost use Rattle.std.specs.Prelude.{◌≢◌};
ghost use Rattle.mr_text.specs.declared.request.Request.{Request};

use super::closings::{Session, ask, give_up};
use super::{desk_of, issue};
use crate::tests::broken::Broken;
use crate::tests::{delete_of, get_of, is, is_at, must};
use mr_desks::{Book, Carried, CloseError, Desk, DeskError, RecordedProxy, Share, close};
use mr_proxy::{Answer, Leg, Taken};
use mr_text::Request;
use std::alloc::Global;
use std::process::Abort;
use std::sync::Wait;

/// What a session does at a proxy, of which the number of steps in the book is told.
#[derive(Clone, Copy)]
enum Act {
    /// A get of `k`, whose leg is lost: two steps.
    Get,
    /// The same; what came of the leg is taken once more, as a stranger.
    GetTwice,
    /// A delete of `k`, whose legs are lost: three steps.
    Delete,
    /// A get of `k` that is given up: two steps.
    GiveUp,
    /// A get of `b` that is given up.
    GiveUpOther,
    /// A get of `k` under way: one step.
    Issue,
    /// A get of `k` that the book has no room for.
    Full,
}

/// Takes what came of a leg, keeps the answer, and takes a copy of the same: that is a stranger.
fn take_twice(
    rt: &(impl Wait + Abort),
    desk: &RecordedProxy<Broken>,
    session: &mut Session,
    leg: Leg,
) {
    let mut carried = Carried::of(&mut Broken::new(), leg);
    let mut copied = must(rt, carried.copy());
    if let Taken::Answered(answer) = must(rt, desk.take(rt, &mut carried)) {
        must(rt, session.answers.push(answer));
    }
    let again = must(rt, desk.take(rt, &mut copied));
    is(
        rt,
        "a stranger",
        &matches!(&again, Taken::Stranger(_)),
        &true,
    );
}

/// Issues a request, and takes what comes of its legs twice.
fn ask_twice(
    rt: &(impl Wait + Abort),
    desk: &RecordedProxy<Broken>,
    session: &mut Session,
    request: &Request,
)
    requires { request.now ≢ Request.Quit }
{
    for leg in must(rt, issue(rt, desk, &mut session.share, request)).legs {
        take_twice(rt, desk, session, leg);
    }
}

/// Does that at a proxy.
fn take_step(
    rt: &(impl Wait + Abort),
    alloc: Global,
    desk: &RecordedProxy<Broken>,
    session: &mut Session,
    act: Act,
) {
    let get = get_of(rt, alloc, &[b"k"]);
    match act {
        Act::Get => ask(rt, desk, session, &get),
        Act::GetTwice => ask_twice(rt, desk, session, &get),
        Act::Delete => ask(rt, desk, session, &delete_of(rt, alloc, b"k")),
        Act::GiveUp => give_up(rt, desk, session, &get),
        Act::GiveUpOther => give_up(rt, desk, session, &get_of(rt, alloc, &[b"b"])),
        Act::Issue => {
            let _issued = must(rt, issue(rt, desk, &mut session.share, &get));
        }
        Act::Full => {
            let refused = issue(rt, desk, &mut session.share, &get).err();
            is(rt, "refused", &refused, &Some(DeskError::BookFull));
        }
    }
}

/// What a session has that did this at a proxy.
fn play(
    rt: &(impl Wait + Abort),
    alloc: Global,
    desk: &RecordedProxy<Broken>,
    acts: &[Act],
) -> Session {
    let mut session = Session {
        share: desk.share(),
        answers: Vec::new(alloc),
    };
    for it in acts {
        take_step(rt, alloc, desk, &mut session, *it);
    }
    session
}

/// What a session has that did this at another proxy, alike at first.
fn elsewhere(rt: &(impl Wait + Abort), alloc: Global, acts: &[Act]) -> Session {
    play(rt, alloc, &desk_of(rt, alloc, 20), acts)
}

/// Whether a book stood, the number of its steps, and the next number of its proxy.
type Closed = (bool, usize, u64);

/// What a proxy's book came to, whether it was given or handed out.
fn told_of(rt: &impl Abort, closed: Result<Book, CloseError<Broken>>) -> Closed {
    match closed {
        Ok(book) => (true, book.steps.len(), book.core.next()),
        Err(CloseError::BookDiffers(book)) => (false, book.steps.len(), book.core.next()),
        Err(CloseError::OutOfMemory(_)) => rt.panic("no memory"),
    }
}

/// Closes the book of a proxy with the share of one session and the answers of one.
fn close_with(
    rt: &impl Abort,
    alloc: Global,
    desk: RecordedProxy<Broken>,
    share: Share,
    answers: Vec<Answer>,
) -> Closed {
    let mut shares = Vec::new(alloc);
    must(rt, shares.push(share));
    let mut sessions = Vec::new(alloc);
    must(rt, sessions.push(answers));
    told_of(rt, close(alloc, desk, &shares, &sessions))
}

/// What was done at a proxy whose book is closed, what was done where the share is from and where the answers are from, and
/// what the book comes to.
type Row = (&'static [Act], &'static [Act], &'static [Act], Closed);

/// Asserts what comes of a row.
fn closes(rt: &(impl Wait + Abort), alloc: Global, number: usize, row: &Row) {
    let desk = desk_of(rt, alloc, 20);
    let _done = play(rt, alloc, &desk, row.0);
    let share = elsewhere(rt, alloc, row.1).share;
    let answers = elsewhere(rt, alloc, row.2).answers;
    let closed = close_with(rt, alloc, desk, share, answers);
    is_at(rt, number, "closed", &closed, &row.3);
}

static ROWS: [Row; 14] = [
    // Whoever did the same holds the same.
    (
        &[Act::Get, Act::GiveUp],
        &[Act::Get, Act::GiveUp],
        &[Act::Get, Act::GiveUp],
        (true, 4, 2),
    ),
    // Answers may be left out.
    (
        &[Act::Get, Act::GiveUp],
        &[Act::Get, Act::GiveUp],
        &[Act::Get],
        (true, 4, 2),
    ),
    // A step is left out of the book: what came of the last request, and of the first.
    (
        &[Act::Get, Act::Issue],
        &[Act::Get, Act::GiveUp],
        &[Act::Get, Act::GiveUp],
        (false, 3, 2),
    ),
    (
        &[Act::Issue, Act::GiveUp],
        &[Act::Get, Act::GiveUp],
        &[Act::Get, Act::GiveUp],
        (false, 3, 2),
    ),
    // The issue and what came of it.
    (
        &[Act::Get],
        &[Act::Get, Act::GiveUp],
        &[Act::Get, Act::GiveUp],
        (false, 2, 1),
    ),
    (&[], &[Act::Get], &[Act::Get], (false, 0, 0)),
    // Steps stand there twice.
    (
        &[Act::Get, Act::Get, Act::GiveUp],
        &[Act::Get, Act::GiveUp],
        &[Act::Get, Act::GiveUp],
        (false, 6, 3),
    ),
    // Steps are swapped, and one is in the place of another.
    (
        &[Act::GiveUp, Act::Get],
        &[Act::Get, Act::GiveUp],
        &[Act::Get, Act::GiveUp],
        (false, 4, 2),
    ),
    (
        &[Act::GiveUp, Act::GiveUp],
        &[Act::Get, Act::GiveUp],
        &[Act::Get, Act::GiveUp],
        (false, 4, 2),
    ),
    // Another request, in the same place.
    (
        &[Act::Get, Act::GiveUpOther],
        &[Act::Get, Act::GiveUp],
        &[Act::Get, Act::GiveUp],
        (false, 4, 2),
    ),
    // A share of one less, and of one more.
    (
        &[Act::Get, Act::GiveUp],
        &[Act::Get],
        &[Act::Get, Act::GiveUp],
        (false, 4, 2),
    ),
    (
        &[Act::Get, Act::GiveUp],
        &[Act::Get, Act::GiveUp, Act::Issue],
        &[Act::Get, Act::GiveUp],
        (false, 4, 2),
    ),
    // The answer to a request that isn't in the book, and one that is under way there.
    (
        &[Act::Get, Act::GiveUp],
        &[Act::Get, Act::GiveUp],
        &[Act::Issue, Act::Issue, Act::GiveUp],
        (false, 4, 2),
    ),
    (
        &[Act::Get, Act::Issue, Act::Issue],
        &[Act::Get, Act::Issue, Act::Issue],
        &[Act::Get, Act::Issue, Act::GiveUp],
        (false, 4, 3),
    ),
];

#[test]
fn a_book_stands_only_with_what_was_done(rt: HostRuntime) {
    for (number, row) in ROWS.iter().enumerate() {
        closes(&rt, rt.alloc(), number, row);
    }
}

/// How many steps a book may have, what is done at its proxy, to how many answers, and what the book comes to with the
/// session that did it.
type Own = (u64, &'static [Act], usize, Closed);

/// Asserts what comes of such a row.
fn closes_own(rt: &(impl Wait + Abort), alloc: Global, number: usize, row: &Own) {
    let desk = desk_of(rt, alloc, row.0);
    let session = play(rt, alloc, &desk, row.1);
    is_at(rt, number, "answers", &session.answers.len(), &row.2);
    let closed = close_with(rt, alloc, desk, session.share, session.answers);
    is_at(rt, number, "closed", &closed, &row.3);
}

static OWN: [Own; 4] = [
    (1, &[Act::Full], 0, (true, 0, 0)),
    (3, &[Act::Delete, Act::Full], 1, (true, 3, 1)),
    (2, &[Act::GetTwice, Act::Full], 1, (true, 2, 1)),
    (4, &[Act::GetTwice, Act::GetTwice], 2, (true, 4, 2)),
];

#[test]
fn what_is_refused_or_strange_changes_no_book(rt: HostRuntime) {
    for (number, row) in OWN.iter().enumerate() {
        closes_own(&rt, rt.alloc(), number, row);
    }
}
