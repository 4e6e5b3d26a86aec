//! What a world shows: its premises, and the verdict on its history.
use mr_history::{OpId, Verdict, judge_history};
use mr_world::World;

/// The truth values of the premises: same, new_empty, forward, near.
pub fn premises(world: &World) -> (bool, bool, bool, bool) {
    let premises = world.premises();
    (
        premises.same,
        premises.new_empty,
        premises.forward,
        premises.near,
    )
}

/// The get and the delete of a stale hit, the get alone of an invented one, and nothing of a safe history.
pub fn verdict(world: &World) -> (Option<OpId>, Option<OpId>) {
    match judge_history(world.history()) {
        Verdict::Safe => (None, None),
        Verdict::Stale { get, delete, .. } => (Some(get), Some(delete)),
        Verdict::Invented { get, .. } => (Some(get), None),
    }
}
