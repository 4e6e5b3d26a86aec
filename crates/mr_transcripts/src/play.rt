//! Playing the events of a script.
ghost use Rattle.std.specs.Prelude.{◌≡◌, ◌^◌, ◌<◌, length, IfOk, IfErr};
ghost use Rattle.mr_world.specs.Setup.{CanBeMade};
ghost use Rattle.mr_transcripts.specs.Play.{IsPlay};
ghost use Rattle.mr_configs.specs.declared.error.PlanError.TheVariants.{OutOfMemory};

use mr_configs::PlanError;
use mr_world::{Event, Note, Setup, World, WorldError};
use std::alloc::Global;

/// Where a play stopped: the event at this index was refused.
#[derive(Clone, Copy)]
pub(crate) struct Stop {
    /// The event's index.
    pub index: usize,
    /// Why it was refused.
    pub refusal: WorldError,
}

/// What came of playing events: what became of each, and the fleet after them.
#[derive(Drop)]
pub(crate) struct Play {
    /// What became of each event that was accepted.
    pub notes: Vec<Note>,
    /// The fleet as the accepted events left it.
    pub world: World,
    /// The first event that was refused.
    pub stop: Option<Stop>,
}

/// Plays events in order on the fleet of a setup that can be made. It stops at the first that is refused.
#[tactic(auto, using(crate::proofs::PlayLemmas::play_begins, crate::proofs::PlayLemmas::play_goes_on, crate::proofs::PlayLemmas::play_ends, crate::proofs::PlayLemmas::play_stops))]
pub(crate) fn play_events(
    alloc: Global,
    setup: Setup,
    events: Vec<Event>,
) -> Result<Play, PlanError>
    requires few { length setup.proxies < 2 ^ 32 }
    requires makeable { CanBeMade setup }
    ensures played { IfOk result (λ play. IsPlay setup events.items play.notes.items play.world play.stop) }
    ensures refused { IfErr result (λ e. e ≡ OutOfMemory) }
{
    let mut world = match World::new(alloc, setup) {
        Ok(world) => world,
        Err(_) => return Err(PlanError::OutOfMemory),
    };
    let mut notes = Vec::with_capacity(alloc, events.len())?;
    for event in events {
        match world.step(event) {
            Ok(note) => notes.push(note)?,
            Err(WorldError::OutOfMemory) => return Err(PlanError::OutOfMemory),
            Err(refusal) => {
                let stop = Stop {
                    index: notes.len(),
                    refusal,
                };
                return Ok(Play {
                    notes,
                    world,
                    stop: Some(stop),
                });
            }
        }
    }
    Ok(Play {
        notes,
        world,
        stop: None,
    })
}
