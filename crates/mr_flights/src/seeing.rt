//! What a canary saw in a second: taken of it, told, and written.
ghost use Rattle.std.specs.Prelude.{◌≡◌, ◌≤◌, IfOk, length, map, take};
ghost use Rattle.mr_flights.specs.Seeing.{AreTold, IsTold, TakesFound, WritesSecond, found_taken, key_at};
ghost use Rattle.mr_flights.specs.Scene.{scene_of};

use crate::fault::FlightFault;
use crate::log::Log;
use crate::scene::Scene;
use crate::showing::{Manner, Sight, sight_text};
use mr_phases::judge;
use mr_probes::{Canary, Found};
use mr_sightings::{CameBack, Second};
use mr_text::Sink;
use mr_words::write_at_once;
use std::alloc::{AllocError, Global};

/// How many convictions are taken of a canary at a time: as many as it keeps.
const MOST_FOUND: usize = 64;

/// The convictions that weren't taken yet, first to last.
fn take_found(alloc: Global, canary: &mut Canary) -> Result<Vec<Found>, AllocError>
    ensures { TakesFound canary.old result canary.new }
{
    let mut all = Vec::with_capacity(alloc, MOST_FOUND)?;
    for number in 0..MOST_FOUND {
        match canary.take_conviction() {
            Some(found) => all.push(found)?,
            None => return Ok(all),
        }
    }
    Ok(all)
}

/// The name of the key of a number; an empty one where there is none.
fn key_of(canary: &Canary, number: usize) -> &[u8]
    ensures { result.now ≡ key_at canary.now.notebook.keys number }
{
    match canary.key(number) {
        Some(key) => key.as_bytes(),
        None => &[],
    }
}

/// What is told of a conviction.
fn told_of<'k, 'a: 'k>(scene: &Scene<'a>, canary: &'k Canary, found: &Found) -> CameBack<'k>
    ensures { IsTold (scene_of scene.now) canary.now.notebook.keys found.now result }
{
    let get = found.conviction.get;
    let delete = found.conviction.delete;
    CameBack {
        key: key_of(canary, get.key),
        set: scene.deed(found.stamp.client, found.stamp.time),
        delete: scene.deed(u64::from(delete.client), delete.time),
        get: scene.deed(u64::from(get.client), get.time),
    }
}

/// What is told of each conviction.
fn all_told<'k, 'a: 'k>(
    alloc: Global,
    scene: &Scene<'a>,
    canary: &'k Canary,
    found: &[Found],
) -> Result<Vec<CameBack<'k>>, AllocError>
    ensures { IfOk result (λ told. AreTold (scene_of scene.now) canary.now.notebook.keys found.now told.items) }
{
    let mut all = Vec::with_capacity(alloc, found.len())?;
    for one in found {
        all.push(told_of(scene, canary, one))?;
    }
    Ok(all)
}

/// Writes what a canary saw since it was last asked: what came back, and what was counted, as of this second. It is kept in a log.
pub(crate) fn write_second<O: Sink>(
    alloc: Global,
    manner: Manner,
    scene: &Scene<'_>,
    at: u64,
    canary: &mut Canary,
    log: &mut Log,
    output: &mut O,
) -> Result<(), FlightFault>
    ensures { WritesSecond manner (scene_of scene.now) at canary.old canary.new log.old log.new
        (O.told output.old) result (O.told output.new) }
{
    let found = take_found(alloc, canary)?;
    let tally = canary.take_second();
    let judged = judge(scene.schedule, at);
    let second = Second {
        at,
        hop: judged.hop(),
        phase: judged.name(),
        tally,
        came_back: canary.came_back().saturating_sub(log.came_back),
    };
    let told = all_told(alloc, scene, canary, found.as_slice())?;
    let sight = Sight {
        second,
        found: told.as_slice(),
    };
    let text = sight_text(alloc, manner, &sight)?;
    log.add(&scene.schedule, &second)?;
    write_at_once(text.as_slice(), output)?;
    Ok(())
}
