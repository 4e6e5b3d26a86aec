//! How much a book has room for.
ghost use Rattle.std.specs.Prelude.{◌≢◌};
ghost use Rattle.mr_text.specs.declared.request.Request.{Request};

use super::{NEW, desk_of, issue};
use crate::tests::broken::Broken;
use crate::tests::{delete_of, get_of, is, is_at, must};
use mr_clock::FixedClock;
use mr_desks::{Carried, Desk, DeskError, RecordedProxy, RecordedState, Share, SharedState, Step};
use mr_history::OpId;
use mr_proxy::{Leg, Taken};
use mr_test_nodes::core_of;
use mr_test_support::FIRST;
use mr_text::Request;
use std::alloc::Global;
use std::process::Abort;
use std::sync::Wait;

/// What a session asks of a proxy.
#[derive(Clone, Copy)]
enum Asked {
    /// A get of `k`, which takes two steps of the book: its issue, and what comes of its leg.
    Get,
    /// A delete of `k`, which takes three.
    Delete,
    /// To give up its first request.
    GiveUp,
}

/// What a session asks of a proxy, why that is refused, if it is, and how many requests were issued then.
type Row = (Asked, Option<DeskError>, u64);

const FULL: Option<DeskError> = Some(DeskError::BookFull);

/// Asserts that the first request is given up.
fn gives_up(rt: &(impl Abort + Wait), desk: &RecordedProxy<Broken>, number: usize) {
    let answer = must(rt, desk.give_up(rt, FIRST));
    is_at(rt, number, "given up", &answer.given_up(), &true);
}

/// Asks that of a proxy, and says why it was refused, if it was.
fn asks(
    rt: &(impl Abort + Wait),
    alloc: Global,
    desk: &RecordedProxy<Broken>,
    share: &mut Share,
    number: usize,
    asked: Asked,
) -> Option<DeskError> {
    match asked {
        Asked::Get => issue(rt, desk, share, &get_of(rt, alloc, &[b"k"])).err(),
        Asked::Delete => issue(rt, desk, share, &delete_of(rt, alloc, b"k")).err(),
        Asked::GiveUp => {
            gives_up(rt, desk, number);
            None
        }
    }
}

/// Asserts what comes of these rows at a proxy whose book keeps at most so many steps.
fn come_so(rt: &(impl Abort + Wait), alloc: Global, limit: u64, rows: &[Row]) {
    let desk = desk_of(rt, alloc, limit);
    let mut share = desk.share();
    for (number, (asked, refused, issued)) in rows.iter().enumerate() {
        let came = asks(rt, alloc, &desk, &mut share, number, *asked);
        is_at(
            rt,
            number,
            "step",
            &(came, share.count()),
            &(*refused, *issued),
        );
    }
}

static FREE_AGAIN: [Row; 5] = [
    (Asked::Delete, None, 1),
    (Asked::Get, FULL, 1),
    (Asked::GiveUp, None, 1),
    (Asked::Get, None, 2),
    (Asked::Get, FULL, 2),
];

#[test]
fn room_that_a_request_did_not_use_is_free_again(rt: HostRuntime) {
    come_so(&rt, rt.alloc(), 4, &FREE_AGAIN);
}

static DELETED: [Row; 2] = [(Asked::Delete, None, 1), (Asked::Get, FULL, 1)];

#[test]
fn a_request_may_fill_the_book(rt: HostRuntime) {
    come_so(&rt, rt.alloc(), 3, &DELETED);
}

static GOT: [Row; 3] = [
    (Asked::Delete, FULL, 0),
    (Asked::Get, None, 1),
    (Asked::Get, FULL, 1),
];

#[test]
fn one_get_fills_a_book_of_two_steps(rt: HostRuntime) {
    come_so(&rt, rt.alloc(), 2, &GOT);
}

/// Issues a request that the book has room for.
fn fits(
    rt: &impl Abort,
    state: &mut RecordedState<Broken>,
    share: &mut Share,
    request: &Request,
) -> OpId
    requires { request.now ≢ Request.Quit }
{
    must(rt, state.issue(share, &mut FixedClock(1000), request)).op
}

/// Asserts that a delete and its end take two steps of a book, though it was to have three, and that a get then fits.
fn takes_two_steps(
    rt: &impl Abort,
    alloc: Global,
    state: &mut RecordedState<Broken>,
    share: &mut Share,
) {
    let op = fits(rt, state, share, &delete_of(rt, alloc, b"k"));
    is(rt, "given up", &state.give_up(op).is_ok(), &true);
    is(rt, "steps", &state.steps().len(), &2);
    let _get = fits(rt, state, share, &get_of(rt, alloc, &[b"k"]));
    is(rt, "with the get", &state.steps().len(), &3);
}

#[test]
fn a_delete_that_is_given_up_takes_two_steps(rt: HostRuntime) {
    let core = must(&rt, core_of(rt.alloc(), 0, &NEW));
    let mut state = RecordedState::new(rt.alloc(), core, 4);
    let mut share = desk_of(&rt, rt.alloc(), 4).share();
    takes_two_steps(&rt, rt.alloc(), &mut state, &mut share);
}

/// What a taken leg is.
#[derive(Clone, Copy, Debug, PartialEq, Eq)]
enum Took {
    Waiting,
    Answer(OpId),
    Stranger,
}

/// What a leg that came back is taken as.
fn take(rt: &impl Abort, state: &mut RecordedState<Broken>, carried: &Carried<Broken>) -> Took {
    match must(rt, state.take(carried)) {
        Taken::Waiting => Took::Waiting,
        Taken::Answered(answer) => Took::Answer(answer.op()),
        Taken::Stranger(_) => Took::Stranger,
    }
}

/// Takes what came of the leg of a get, and then its copy: that is a stranger.
fn take_twice(rt: &impl Abort, state: &mut RecordedState<Broken>, leg: Leg) {
    let carried = Carried::of(&mut Broken::new(), leg);
    let copied = must(rt, carried.copy());
    is(
        rt,
        "taken",
        &take(rt, state, &carried),
        &Took::Answer(FIRST),
    );
    is(rt, "again", &take(rt, state, &copied), &Took::Stranger);
}

/// Issues the get of `k`, and takes what comes of its leg twice.
fn get_twice(rt: &impl Abort, alloc: Global, state: &mut RecordedState<Broken>) {
    let mut share = desk_of(rt, alloc, 4).share();
    let get = get_of(rt, alloc, &[b"k"]);
    for leg in must(rt, state.issue(&mut share, &mut FixedClock(1000), &get)).legs {
        take_twice(rt, state, leg);
    }
}

/// A step of a book in few words.
#[derive(Clone, Copy, Debug, PartialEq, Eq)]
pub(super) enum Told {
    /// A request was issued at this second.
    Issue(u64),
    /// A leg of this request came back.
    Take(OpId),
    /// This request was given up.
    GiveUp(OpId),
}

/// What a step tells.
pub(super) fn told_of(step: &Step) -> Told {
    match step {
        Step::Issue { reading, .. } => Told::Issue(*reading),
        Step::Take(back) => Told::Take(back.sheet.id.op),
        Step::GiveUp(op) => Told::GiveUp(*op),
    }
}

/// Asserts what the copy of each step of a book tells.
fn copied_so(rt: &impl Abort, steps: &[Step], wanted: &[Told]) {
    is(rt, "steps", &steps.len(), &wanted.len());
    for (number, step) in steps.iter().enumerate() {
        let told = told_of(&must(rt, step.copy()));
        is_at(rt, number, "step", &Some(&told), &wanted.get(number));
    }
}

static ISSUED_AND_GIVEN_UP: [Told; 2] = [Told::Issue(1000), Told::GiveUp(FIRST)];

#[test]
fn steps_are_copied(rt: HostRuntime) {
    let core = must(&rt, core_of(rt.alloc(), 0, &NEW));
    let mut state: RecordedState<Broken> = RecordedState::new(rt.alloc(), core, 4);
    let mut share = desk_of(&rt, rt.alloc(), 4).share();
    let get = get_of(&rt, rt.alloc(), &[b"k"]);
    let issued = must(&rt, state.issue(&mut share, &mut FixedClock(1000), &get));
    let answer = must(&rt, state.give_up(issued.op));
    is(&rt, "given up", &answer.given_up(), &true);
    copied_so(&rt, state.steps(), &ISSUED_AND_GIVEN_UP);
}

#[test]
fn no_request_is_given_up_twice(rt: HostRuntime) {
    let desk = desk_of(&rt, rt.alloc(), 4);
    let get = get_of(&rt, rt.alloc(), &[b"k"]);
    let issued = must(&rt, issue(&rt, &desk, &mut desk.share(), &get));
    let answer = must(&rt, desk.give_up(&rt, issued.op));
    is(&rt, "given up", &answer.given_up(), &true);
    let again = desk.give_up(&rt, issued.op).err();
    is(&rt, "again", &again, &Some(DeskError::NoSuchOp));
    let number = again.map(|refusal| refusal.number());
    is(&rt, "number", &number, &Some(4));
}

static ISSUED_AND_TAKEN: [Told; 2] = [Told::Issue(1000), Told::Take(FIRST)];

/// Asserts that a book has the one answer of its one request, in two steps.
fn has_one_answer(rt: &impl Abort, alloc: Global, state: RecordedState<Broken>) {
    let answers = must(rt, state.answers(alloc));
    is(rt, "answers", &answers.len(), &1);
    for answer in &answers {
        is(
            rt,
            "an answer",
            &(answer.op(), answer.given_up()),
            &(FIRST, false),
        );
    }
    copied_so(rt, state.steps(), &ISSUED_AND_TAKEN);
    let book = state.into_book();
    is(
        rt,
        "the book",
        &(book.steps.len(), book.core.next()),
        &(2, 1),
    );
}

#[test]
fn a_book_gives_its_answers_again(rt: HostRuntime) {
    let core = must(&rt, core_of(rt.alloc(), 0, &NEW));
    let mut state = RecordedState::new(rt.alloc(), core, 4);
    get_twice(&rt, rt.alloc(), &mut state);
    has_one_answer(&rt, rt.alloc(), state);
}

#[test]
fn a_session_at_a_state_without_a_book_begins_with_no_issue(rt: HostRuntime) {
    let share: Share = SharedState::<Broken>::share();
    is(&rt, "count", &share.count(), &0);
}
