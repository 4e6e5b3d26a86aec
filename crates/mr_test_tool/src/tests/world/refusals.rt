//! What is refused, what is copied, and runs that stop.
use super::fleets::{Fleet, world_of_two_hops};
use super::holds;
use super::moves::{Asked, DELETE, GET, Move, Row, events_of, first_other, note_of};
use super::playing::{Run, Shown, goes};
use super::telling::{Told, says};
use crate::tests::must;
use mr_proxy::ProxyError;
use mr_test_support::FIRST;
use mr_world::{Delivery, Event, Message, Note, Setup, World, WorldError};
use std::alloc::Global;
use std::process::Abort;

/// Moves that name what there is none of, and a quit.
static NOT_THERE: Run = Run {
    fleet: Fleet {
        proxies: &[(1000, 999)],
        room: 4,
        capacity: 4,
        holders: &[],
    },
    rows: &[
        (Move::Clock(1, 5), Err(WorldError::NoSuchProxy)),
        (Move::Client(1, Asked::Quit), Err(WorldError::NoSuchProxy)),
        (Move::Deliver(0, 1), Err(WorldError::NoSuchMessage)),
        (Move::Return(0), Err(WorldError::NoSuchMessage)),
        (Move::GiveUp(FIRST), Err(WorldError::NoSuchOp)),
        (Move::NodeRestart(b"7004"), Err(WorldError::NoSuchNode)),
        (Move::ProxyRestart(1), Err(WorldError::NoSuchProxy)),
        (Move::Client(0, Asked::Quit), Ok(Note::Nothing)),
    ],
    shown: Shown {
        told: &[],
        premises: (true, true, true, true),
        verdict: (None, None),
        sent: (0, 0),
    },
};

#[test]
fn what_is_not_there_is_refused(rt: HostRuntime) {
    goes(&rt, rt.alloc(), &NOT_THERE);
}

static NUMBERS: [(WorldError, u8); 7] = [
    (WorldError::NoSuchProxy, 1),
    (WorldError::NoSuchNode, 2),
    (WorldError::NoSuchMessage, 3),
    (WorldError::IssueRefused(ProxyError::NoRoom), 4),
    (WorldError::OutOfMemory, 5),
    (WorldError::NoSuchOp, 6),
    (WorldError::HopsDiffer, 7),
];

#[test]
fn refusals_have_numbers(rt: HostRuntime) {
    for (refusal, number) in &NUMBERS {
        holds(&rt, refusal.number() == *number, "its number");
    }
}

/// A proxy that has room for no request.
static WITHOUT_ROOM: Run = Run {
    fleet: Fleet {
        proxies: &[(1000, 999)],
        room: 0,
        capacity: 4,
        holders: &[],
    },
    rows: &[(
        Move::Client(0, GET),
        Err(WorldError::IssueRefused(ProxyError::NoRoom)),
    )],
    shown: Shown {
        told: &[],
        premises: (true, true, true, true),
        verdict: (None, None),
        sent: (0, 0),
    },
};

#[test]
fn a_proxy_without_room_refuses(rt: HostRuntime) {
    goes(&rt, rt.alloc(), &WITHOUT_ROOM);
}

/// No proxies, and an item of the node 7004.
const STRAY: Fleet = Fleet {
    proxies: &[],
    room: 4,
    capacity: 0,
    holders: &[b"7004"],
};

#[test]
fn a_setup_needs_its_nodes(rt: HostRuntime) {
    let refusal = must(&rt, STRAY.world_or_refusal(rt.alloc())).err();
    holds(&rt, refusal == Some(WorldError::NoSuchNode), "no such node");
}

/// Why there is no world of a proxy with two pools and two hops, on nodes of a capacity of 0 too.
fn differ(rt: &impl Abort, alloc: Global, capacity: usize) {
    let refusal = must(rt, world_of_two_hops(alloc, capacity)).err();
    holds(rt, refusal == Some(WorldError::HopsDiffer), "hops differ");
}

#[test]
fn a_routing_and_a_schedule_have_as_many_hops(rt: HostRuntime) {
    differ(&rt, rt.alloc(), 4);
    differ(&rt, rt.alloc(), 0);
}

/// How many items the copy of a setup holds.
fn held_by_copy(rt: &impl Abort, setup: &Setup) -> usize {
    must(rt, setup.copy()).held().len()
}

#[test]
fn a_setup_is_copied(rt: HostRuntime) {
    let held = held_by_copy(&rt, &must(&rt, STRAY.setup(rt.alloc())));
    holds(&rt, held == 1, "one item");
}

/// One proxy at 999, and nodes that hold nothing.
const FLEET: Fleet = Fleet {
    proxies: &[(1000, 999)],
    room: 4,
    capacity: 4,
    holders: &[],
};

/// A delete, a message that was never sent, and a delete.
static STOPPED: [Move; 3] = [
    Move::Client(0, DELETE),
    Move::Deliver(1, 0),
    Move::Client(0, DELETE),
];

/// Equal events.
fn copies(rt: &impl Abort, alloc: Global, events: &[Event]) -> Vec<Event> {
    let mut copied = Vec::new(alloc);
    for event in events {
        must(rt, copied.push(must(rt, event.copy())));
    }
    copied
}

/// The events that stop a run.
fn stopping_events(rt: &impl Abort, alloc: Global) -> Vec<Event> {
    let events = events_of(rt, alloc, &STOPPED);
    copies(rt, alloc, &events)
}

/// Whether a run stops there and for that reason.
fn stops_so(stop: Result<(), (usize, WorldError)>) -> bool {
    stop == Err((1, WorldError::NoSuchMessage))
}

/// Asserts where a run of these events stops, and what the history says then.
fn stops(rt: &impl Abort, alloc: Global, world: &mut World) {
    let stop = world.run(stopping_events(rt, alloc));
    holds(rt, stops_so(stop), "at the second event");
    let told = says(world.history(), &[Told::Deleted(FIRST, b'k')]);
    holds(rt, told, "the history");
}

#[test]
fn a_run_stops_at_the_first_refused_event(rt: HostRuntime) {
    stops(&rt, rt.alloc(), &mut must(&rt, FLEET.world(rt.alloc())));
}

/// A get, which a node has answered.
static ANSWERED: [Row; 3] = [
    (
        Move::Client(0, GET),
        Ok(Note::Issued {
            op: FIRST,
            first: 0,
            count: 1,
        }),
    ),
    (Move::Deliver(0, 1), Ok(Note::Performed { reply: 0 })),
    (Move::Return(0), Ok(Note::Answered { op: FIRST })),
];

/// The node of a copy of the message.
fn copied_node(rt: &impl Abort, message: &Message) -> usize {
    must(rt, message.copy()).node
}

/// The message of a copy of the delivery.
fn copied_message(rt: &impl Abort, delivery: &Delivery) -> usize {
    must(rt, delivery.copy()).message
}

/// Asserts the node of a copy of the only message, and the message of a copy of the only delivery.
fn are_copied(rt: &impl Abort, world: &World) {
    let ([message], [delivery]) = (world.sent(), world.replies()) else {
        rt.panic("one message and one delivery");
    };
    holds(rt, copied_node(rt, message) == 1, "its node");
    holds(rt, copied_message(rt, delivery) == 0, "its message");
}

/// The same, behind the get.
fn are_copied_behind_get(rt: &impl Abort, alloc: Global, world: &mut World) {
    let other = must(rt, first_other(alloc, world, &ANSWERED));
    holds(rt, other.is_none(), "a get that is answered");
    are_copied(rt, world);
}

#[test]
fn messages_and_deliveries_are_copied(rt: HostRuntime) {
    are_copied_behind_get(&rt, rt.alloc(), &mut must(&rt, FLEET.world(rt.alloc())));
}

/// What becomes of a get that is issued first.
fn first_note(rt: &impl Abort, alloc: Global) -> Result<Note, WorldError> {
    must(
        rt,
        note_of(
            alloc,
            &mut must(rt, FLEET.world(alloc)),
            Move::Client(0, GET),
        ),
    )
}

#[test]
fn a_note_is_copied(rt: HostRuntime) {
    let note = must(&rt, first_note(&rt, rt.alloc()));
    holds(&rt, note.copy() == note, "the same note");
}
