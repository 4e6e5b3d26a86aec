//! What happens to clients: what they ask in turn, and what comes of it.
ghost use Rattle.std.specs.Prelude.{◌≡◌, ◌-◌, ◌≤◌, ◌↔◌, IsTrue, ◌<◌, length, MatchOption, MatchBool};
ghost use Rattle.std.specs.List.{list_any, range_with_len};
ghost use Rattle.mr_probes.specs.Clients.{is_waiting};
ghost use Rattle.mr_probes.specs.CanaryView.{canary_of, AsksAt, AsksThrough, IssuesDue, GivesUpAt, GivesUpThrough, TakesOf, IsWish, HasNoWish, IsOver, Settles};
ghost use Rattle.mr_probes.specs.declared.course.Course.{Course};

use crate::answering::Said;
use crate::asking::{begin, fitting};
use crate::client::Client;
use crate::course::Course;
use crate::notebook::Notebook;
use crate::wish::{Kind, Wish};
use mr_sightings::Trouble;
use mr_text::FixedBuffer;
use std::alloc::Global;

/// What is asked next, if there is something.
fn wish_of(notebook: &Notebook, course: &Course) -> Option<Wish>
    ensures { MatchOption result (HasNoWish notebook.now course.now) (IsWish notebook.now course.now) }
{
    match course.cleaning {
        Some(from) => match notebook.first_set(from) {
            Some(key) => Some(Wish {
                key,
                kind: Kind::Delete,
                cleans: true,
            }),
            None => None,
        },
        None => match notebook.key_count() {
            0 => None,
            keys => Some(course.dice.draw(keys)),
        },
    }
}

/// The client of this place asks what is to be asked next. Whether it does: for want of memory nothing changes.
fn ask(
    alloc: Global,
    buffer: &mut FixedBuffer,
    clients: &mut [Client],
    notebook: &mut Notebook,
    course: &mut Course,
    place: usize,
    now: u64,
) -> bool
    ensures { MatchBool result
        (AsksAt now place (canary_of clients.old notebook.old course.old) (canary_of clients.new notebook.new course.new))
        (canary_of clients.new notebook.new course.new ≡ canary_of clients.old notebook.old course.old) }
{
    if place >= clients.len() || !clients[place].is_idle() || !course.is_due(now) {
        return false;
    }
    let Some(wish) = wish_of(notebook, course) else {
        return false;
    };
    let Ok(number) = u32::try_from(place) else {
        return false;
    };
    match begin(
        alloc,
        buffer,
        notebook,
        number,
        now,
        fitting(notebook, wish),
    ) {
        Ok(waiting) => {
            clients[place] = Client::Waits(waiting);
            course.go_on(place, now, wish);
            true
        }
        Err(_) => false,
    }
}

/// The clients from one place to below another ask in turn, each that may.
fn ask_between(
    alloc: Global,
    buffer: &mut FixedBuffer,
    clients: &mut [Client],
    notebook: &mut Notebook,
    course: &mut Course,
    from: usize,
    to: usize,
    now: u64,
)
    requires { from ≤ to }
    ensures asked { AsksThrough now (range_with_len from (to - from))
        (canary_of clients.old notebook.old course.old) (canary_of clients.new notebook.new course.new) }
    ensures many { length clients.new ≡ length clients.old }
{
    for place in from..to {
        let _ = ask(alloc, buffer, clients, notebook, course, place, now);
    }
}

/// What is due is asked, by one client after the other.
pub(crate) fn issue_due(
    alloc: Global,
    buffer: &mut FixedBuffer,
    clients: &mut [Client],
    notebook: &mut Notebook,
    course: &mut Course,
    now: u64,
)
    ensures { IssuesDue now (canary_of clients.old notebook.old course.old) (canary_of clients.new notebook.new course.new) }
{
    let many = clients.len();
    let first = course.turn.min(many);
    ask_between(alloc, buffer, clients, notebook, course, first, many, now);
    ask_between(alloc, buffer, clients, notebook, course, 0, first, now);
}

/// This came of the request of a client, where it waits for a reply.
fn take_from(client: &Client, notebook: &mut Notebook, said: Said, now: u64)
    ensures { TakesOf (Some client.now) said now notebook.old notebook.new }
{
    match client {
        Client::Waits(waiting) => notebook.take(&waiting.asking, said, now),
        Client::Idle => {}
        Client::Down => {}
    }
}

/// This came of the request of the client of this place, where it waits for a reply. It stands so then.
pub(crate) fn settle(
    clients: &mut [Client],
    notebook: &mut Notebook,
    place: usize,
    now: u64,
    said: Said,
    next: Client,
)
    ensures { (course : Course) → Settles place now said next (canary_of clients.old notebook.old course)
        (canary_of clients.new notebook.new course) }
{
    if place < clients.len() {
        take_from(&clients[place], notebook, said, now);
        clients[place] = next;
    }
}

/// The request of the client of this place is given up where it waits for longer than it may. The client is down then.
fn give_up_at(clients: &mut [Client], notebook: &mut Notebook, place: usize, give_up: u64, now: u64)
    requires { place < length clients.old }
    ensures { (course : Course) → course.give_up ≡ give_up → GivesUpAt now place (canary_of clients.old notebook.old course)
        (canary_of clients.new notebook.new course) }
{
    if clients[place].is_late(give_up, now) {
        settle(
            clients,
            notebook,
            place,
            now,
            Said::Failed(Trouble::Silent),
            Client::Down,
        );
    }
}

/// The requests are given up that wait for longer than they may. Their clients are down then.
pub(crate) fn give_up_late(clients: &mut [Client], notebook: &mut Notebook, give_up: u64, now: u64)
    ensures { (course : Course) → course.give_up ≡ give_up → GivesUpThrough now (range_with_len 0 (length clients.old))
        (canary_of clients.old notebook.old course) (canary_of clients.new notebook.new course) }
{
    for place in 0..clients.len() {
        give_up_at(clients, notebook, place, give_up, now);
    }
}

/// Whether a client waits for a reply.
fn some_waits(clients: &[Client]) -> bool
    ensures { result ≡ list_any is_waiting clients.now }
{
    clients.iter().any(|client| client.is_waiting())
}

/// Whether each last delete was asked, and no client waits for a reply.
pub(crate) fn is_done(clients: &[Client], notebook: &Notebook, course: &Course) -> bool
    ensures { IsTrue result ↔ IsOver (canary_of clients.now notebook.now course.now) }
{
    match course.cleaning {
        Some(from) => notebook.first_set(from).is_none() && !some_waits(clients),
        None => false,
    }
}
