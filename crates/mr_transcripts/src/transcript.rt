//! The transcript of a play: a script with what came of it.
ghost use Rattle.std.specs.Prelude.{◌≡◌, ◌^◌, ◌<◌, false, length, string_bytes, IfOk, IfErr};
ghost use Rattle.serde_json.specs.View.{view};
ghost use Rattle.serde_json.specs.Written.{has_float};
ghost use Rattle.mr_world.specs.Premises.{premises_of};
ghost use Rattle.mr_world.specs.Setup.{CanBeMade};
ghost use Rattle.mr_transcripts.specs.Transcript.{with_outcome, transcript_text, IsTranscript, RefusesTranscript};

use crate::least::has_long_history;
use crate::play::play_events;
use mr_configs::PlanError;
use mr_scripts::{MAX_SCRIPT, Script};
use mr_shown::{Format, KeptVerdict, history_value, notes_value, premises_value, verdict_value};
use mr_world::{Event, Note, Setup, World};
use serde_json::{Value, put};
use std::alloc::{AllocError, Global};

/// A script's own JSON with what came of its play, each under its key. The data of the history is in the script's format.
fn with_outcome(
    alloc: Global,
    format: Format,
    script: Value,
    notes: &[Note],
    world: &World,
    verdict: &KeptVerdict,
) -> Result<Value, AllocError>
    ensures { IfOk result (λ value.
        view value ≡ with_outcome format (view script) notes.now world.now.history (premises_of world.now) verdict.now) }
{
    let mut members = match script {
        Value::Object(members) => members,
        other => return Ok(other),
    };
    let history = history_value(alloc, format, world.history().entries())?;
    put(&mut members, alloc, "history", history)?;
    put(&mut members, alloc, "notes", notes_value(alloc, notes)?)?;
    let premises = premises_value(alloc, world.premises())?;
    put(&mut members, alloc, "premises", premises)?;
    put(
        &mut members,
        alloc,
        "verdict",
        verdict_value(alloc, verdict)?,
    )?;
    Ok(Value::Object(members))
}

/// The compact text of a script's own JSON with what came of its play.
#[tactic(auto, using(crate::proofs::ShownLemmas::outcome_has_no_float))]
fn text_of(
    alloc: Global,
    format: Format,
    script: Value,
    notes: &[Note],
    world: &World,
    verdict: &KeptVerdict,
) -> Result<String, AllocError>
    requires { has_float (view script) ≡ false }
    ensures { IfOk result (λ text. string_bytes text ≡ transcript_text format (view script) notes.now world.now verdict.now) }
{
    with_outcome(alloc, format, script, notes, world, verdict)?.to_string(alloc)
}

/// The text of the transcript of a script: its own JSON, which has no number that isn't whole, with what comes of
/// playing its events on its setup, in its format. Refusals: EventRefused with the first event that is refused; TooLarge
/// where the text with one line end is larger than a transcript may be; OutOfMemory.
pub(crate) fn transcript_of(
    alloc: Global,
    format: Format,
    script: Value,
    setup: Setup,
    events: Vec<Event>,
) -> Result<Vec<u8>, PlanError>
    requires few { length setup.proxies < 2 ^ 32 }
    requires makeable { CanBeMade setup }
    requires whole { has_float (view script) ≡ false }
    ensures written { IfOk result (λ text. IsTranscript format (view script) setup events.items text.items) }
    ensures refused { IfErr result (RefusesTranscript format (view script) setup events.items) }
{
    let play = play_events(alloc, setup, events)?;
    match play.stop {
        Some(stop) => return Err(PlanError::EventRefused(stop.index, stop.refusal)),
        None => {}
    }
    let verdict = KeptVerdict::on(alloc, &play.world)?;
    if has_long_history(format, &script, play.world.history().entries()) {
        return Err(PlanError::TooLarge);
    }
    let text = text_of(alloc, format, script, &play.notes, &play.world, &verdict)?;
    if text.len() >= MAX_SCRIPT {
        return Err(PlanError::TooLarge);
    }
    Ok(text.into_bytes())
}

/// Plays a script, and gives the compact text of its transcript, which keeps the script's format. Refusals: EventRefused
/// with the first event that is refused; TooLarge where the text with one line end is larger than a transcript may be;
/// OutOfMemory.
pub fn write_transcript(alloc: Global, script: Script) -> Result<Vec<u8>, PlanError>
    ensures written { IfOk result (λ text. IsTranscript script.format (view script.json) script.setup script.events text.items) }
    ensures refused { IfErr result (RefusesTranscript script.format (view script.json) script.setup script.events) }
{
    let format = script.format();
    let (setup, events, json) = script.into_parts();
    transcript_of(alloc, format, json, setup, events)
}
