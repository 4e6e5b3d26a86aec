//! Runs as plain values, and what is asserted of each.
use super::fleets::Fleet;
use super::holds;
use super::moves::{Row, first_other};
use super::showing::{premises, verdict};
use super::telling::{Told, says};
use crate::tests::must;
use mr_history::OpId;
use mr_world::World;
use std::alloc::Global;
use std::process::Abort;

/// What a world shows.
pub struct Shown {
    /// What the history says.
    pub told: &'static [Told],
    /// The premises same, new_empty, forward and near.
    pub premises: (bool, bool, bool, bool),
    /// The get and the delete of a stale hit; the history is safe where there is none.
    pub verdict: (Option<OpId>, Option<OpId>),
    /// How many messages and how many replies were sent.
    pub sent: (usize, usize),
}

/// A fleet, its moves with what becomes of each, and what the world shows then.
pub struct Run {
    pub fleet: Fleet,
    pub rows: &'static [Row],
    pub shown: Shown,
}

/// Asserts what a world shows.
pub fn shows(rt: &impl Abort, world: &World, shown: &Shown) {
    holds(rt, says(world.history(), shown.told), "the history");
    holds(rt, premises(world) == shown.premises, "the premises");
    holds(rt, verdict(world) == shown.verdict, "the verdict");
    holds(rt, count_sent(world) == shown.sent, "how many were sent");
}

/// How many messages and how many replies were sent.
fn count_sent(world: &World) -> (usize, usize) {
    (world.sent().len(), world.replies().len())
}

/// Asserts what the moves of a run come to, and what the world shows then.
pub fn goes(rt: &impl Abort, alloc: Global, run: &Run) {
    goes_in(rt, alloc, &mut must(rt, run.fleet.world(alloc)), run);
}

/// The same, in the world of the run's fleet.
fn goes_in(rt: &impl Abort, alloc: Global, world: &mut World, run: &Run) {
    let other = must(rt, first_other(alloc, world, run.rows));
    none_comes_to_another(rt, other);
    shows(rt, world, &run.shown);
}

/// Asserts that there is no place of a move that comes to something else.
fn none_comes_to_another(rt: &impl Abort, place: Option<usize>) {
    assert_eq!(rt; place, None);
}
