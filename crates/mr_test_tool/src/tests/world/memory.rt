//! Refused memory: a world stays as it was, and the same call made again gives what it gives with ample memory.
use super::fleets::Fleet;
use super::holds;
use super::moves::{Row, event_of};
use super::playing::shows;
use super::rows::NEAR_CLOCKS;
use super::showing::premises;
use crate::tests::must;
use mr_test_support::{at_last, grant_memory, refuse_memory};
use mr_world::{Event, Note, World, WorldError};
use std::alloc::{AllocError, Global};
use std::env::Env;
use std::process::Abort;

/// The fleet of two proxies that the moves below are made for, with an item that is held.
const HOLDING: Fleet = Fleet {
    proxies: &[(1000, 999)],
    room: 4,
    capacity: 4,
    holders: &[b"7103"],
};

/// The world of a fleet, which is made again where memory for it was refused.
fn world_at_last(rt: &(impl Abort + Env), alloc: Global, fleet: &Fleet) -> World {
    let (setup, again) = (must(rt, fleet.setup(alloc)), must(rt, fleet.setup(alloc)));
    if setup.proxies().len() > 8 || again.proxies().len() > 8 {
        rt.panic("too many proxies");
    }
    refuse_memory(rt);
    let first = World::new(alloc, setup);
    grant_memory(rt);
    match first {
        Err(WorldError::OutOfMemory) => must(rt, World::new(alloc, again)),
        made => must(rt, made),
    }
}

#[test]
fn refused_memory_makes_a_world_later(rt: HostRuntime) {
    let world = world_at_last(&rt, rt.alloc(), &HOLDING);
    holds(&rt, world.history().entries().len() == 1, "one item");
    holds(
        &rt,
        premises(&world) == (true, false, true, true),
        "its premises",
    );
}

/// How many entries, messages and replies a world has, and its premises.
type Counts = (usize, usize, usize, (bool, bool, bool, bool));

fn counts(world: &World) -> Counts {
    (
        world.history().entries().len(),
        world.sent().len(),
        world.replies().len(),
        premises(world),
    )
}

/// What an event comes to, which is played again where memory for it was refused: then nothing had changed.
fn step_at_last(
    rt: &(impl Abort + Env),
    alloc: Global,
    world: &mut World,
    row: &Row,
) -> Result<Note, WorldError> {
    let (event, again) = (
        must(rt, event_of(alloc, row.0)),
        must(rt, event_of(alloc, row.0)),
    );
    let before = counts(world);
    refuse_memory(rt);
    let first = world.step(event);
    grant_memory(rt);
    if first != Err(WorldError::OutOfMemory) {
        return first;
    }
    holds(rt, counts(world) == before, "it is as it was");
    world.step(again)
}

#[test]
fn refused_memory_plays_each_event_later(rt: HostRuntime) {
    let mut world = must(&rt, NEAR_CLOCKS.fleet.world(rt.alloc()));
    for row in NEAR_CLOCKS.rows {
        let note = step_at_last(&rt, rt.alloc(), &mut world, row);
        holds(&rt, note == row.1, "what an event comes to");
    }
    shows(&rt, &world, &NEAR_CLOCKS.shown);
}

/// The events of the run, from one of them on.
fn events_from(rt: &impl Abort, alloc: Global, first: usize) -> Vec<Event> {
    let mut events = Vec::new(alloc);
    for row in NEAR_CLOCKS.rows.get(first..).unwrap_or(&[]) {
        must(rt, events.push(must(rt, event_of(alloc, row.0))));
    }
    events
}

/// Plays events in one call, and those from the refused one on in another where memory was refused.
fn run_at_last(rt: &(impl Abort + Env), alloc: Global, world: &mut World) {
    let events = events_from(rt, alloc, 0);
    refuse_memory(rt);
    let first = world.run(events);
    grant_memory(rt);
    match first {
        Err((stopped, WorldError::OutOfMemory)) => must(
            rt,
            world.run(events_from(rt, alloc, stopped)),
        ),
        played => must(rt, played),
    }
}

#[test]
fn refused_memory_plays_on_from_the_refused_event(rt: HostRuntime) {
    let mut world = must(&rt, NEAR_CLOCKS.fleet.world(rt.alloc()));
    run_at_last(&rt, rt.alloc(), &mut world);
    shows(&rt, &world, &NEAR_CLOCKS.shown);
}

#[test]
fn refused_memory_copies_a_setup_later(rt: HostRuntime) {
    let setup = must(&rt, HOLDING.setup(rt.alloc()));
    let copy = must(&rt, at_last!(&rt, setup.copy(), Err(AllocError)));
    holds(&rt, copy.held().len() == 1, "one item");
    holds(&rt, copy.proxies().len() == 1, "one proxy");
    holds(&rt, copy.capacity() == 4, "its capacity");
}

/// Asserts that the copy of an event comes to the same, also where memory for it was refused once.
fn is_copied(rt: &(impl Abort + Env), world: &mut World, row: &Row, event: &Event) {
    let copy = must(rt, at_last!(rt, event.copy(), Err(AllocError)));
    holds(rt, world.step(copy) == row.1, "what a copy comes to");
}

/// Asserts the same of the messages and the replies of a world, by how many there are.
fn are_copied(rt: &(impl Abort + Env), world: &World) {
    for message in world.sent() {
        let copy = must(rt, at_last!(rt, message.copy(), Err(AllocError)));
        holds(rt, copy.node == message.node, "its node");
    }
    for delivery in world.replies() {
        let copy = must(rt, at_last!(rt, delivery.copy(), Err(AllocError)));
        holds(rt, copy.message == delivery.message, "its message");
    }
}

#[test]
fn refused_memory_copies_events_later(rt: HostRuntime) {
    let mut world = must(&rt, NEAR_CLOCKS.fleet.world(rt.alloc()));
    for row in NEAR_CLOCKS.rows {
        let event = must(&rt, event_of(rt.alloc(), row.0));
        is_copied(&rt, &mut world, row, &event);
    }
    are_copied(&rt, &world);
}
