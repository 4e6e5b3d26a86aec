//! What is seen of a transcript: its events with their texts, the play of them, and what a check finds.
ghost use Rattle.std.specs.Prelude.{◌≡◌, ◌^◌, ◌<◌, length, map, string_bytes, Ok, Err, IfOk, IfErr};
ghost use Rattle.serde_json.specs.View.{view};
ghost use Rattle.mr_world.specs.Setup.{CanBeMade};
ghost use Rattle.mr_transcripts.specs.Seen.{AreTexts, HasTexts, IsSeen, IsSeenOf, events_in};
ghost use Rattle.mr_transcripts.specs.Transcripts.{RefusesCheck};
ghost use Rattle.mr_configs.specs.declared.error.PlanError.TheVariants.{OutOfMemory};

use crate::check::{Checked, checked_play, played_parts};
use crate::play::play_events;
use mr_configs::fields::{field, list};
use mr_configs::{PlanError, json_of};
use mr_scripts::MAX_SCRIPT;
use mr_shown::Format;
use mr_world::{Event, Note, Setup, World};
use serde_json::Value;
use std::alloc::{AllocError, Global};

/// What is seen of a transcript.
#[derive(Drop)]
pub struct Seen {
    /// What the fleet was made of.
    pub setup: Setup,
    /// The events, in order.
    pub events: Vec<Event>,
    /// The text of each event, as the transcript has it.
    pub texts: Vec<String>,
    /// What became of each event that was accepted.
    pub notes: Vec<Note>,
    /// The fleet as the accepted events left it.
    pub world: World,
    /// What a check finds.
    pub checked: Checked,
}

/// Equal events.
fn copied_events(alloc: Global, events: &[Event]) -> Result<Vec<Event>, AllocError>
    ensures { IfOk result (λ copied. copied.items ≡ events.now) }
{
    let mut copied = Vec::with_capacity(alloc, events.len())?;
    for event in events {
        copied.push(event.copy()?)?;
    }
    Ok(copied)
}

/// The text of each of these values.
fn texts_of_values(alloc: Global, values: &[Value]) -> Result<Vec<String>, AllocError>
    ensures { IfOk result (λ texts. AreTexts (map view values.now) (map string_bytes texts.items)) }
{
    let mut texts = Vec::with_capacity(alloc, values.len())?;
    for value in values {
        texts.push(value.to_string(alloc)?)?;
    }
    Ok(texts)
}

/// The values of a transcript's events.
fn event_values(transcript: &Value) -> Result<&[Value], PlanError>
    ensures found { IfOk result (λ values. events_in (view transcript.now) ≡ Ok (map view values.now)) }
    ensures missing { IfErr result (λ e. events_in (view transcript.now) ≡ Err e) }
{
    list(field(transcript, "events")?)
}

/// The text of each event of a transcript.
fn texts_of(alloc: Global, transcript: &Value) -> Result<Vec<String>, AllocError>
    ensures { IfOk result (λ texts. HasTexts (view transcript.now) (map string_bytes texts.items)) }
{
    match event_values(transcript) {
        Ok(values) => texts_of_values(alloc, values),
        Err(_) => Ok(Vec::new(alloc)),
    }
}

/// Plays what a transcript says on its setup, and gives what is seen of it.
fn seen_play(
    alloc: Global,
    format: Format,
    transcript: &Value,
    setup: Setup,
    events: Vec<Event>,
) -> Result<Seen, PlanError>
    requires few { length setup.proxies < 2 ^ 32 }
    requires makeable { CanBeMade setup }
    ensures seen { IfOk result (IsSeen format (view transcript.now) setup events.items) }
    ensures few { IfOk result (λ seen. length seen.setup.proxies < 2 ^ 32) }
    ensures refused { IfErr result (λ e. e ≡ OutOfMemory) }
{
    let texts = texts_of(alloc, transcript)?;
    let kept = setup.copy()?;
    let copied = copied_events(alloc, events.as_slice())?;
    let play = play_events(alloc, setup, copied)?;
    let checked = checked_play(alloc, format, transcript, &play)?;
    Ok(Seen {
        setup: kept,
        events,
        texts,
        notes: play.notes,
        world: play.world,
        checked,
    })
}

/// Reads a transcript as `check_transcript` does, with its refusals, and gives what is seen of it, whether it is accepted or
/// not.
pub fn see_transcript(alloc: Global, bytes: &[u8]) -> Result<Seen, PlanError>
    ensures seen { IfOk result (IsSeenOf bytes.now) }
    ensures few { IfOk result (λ seen. length seen.setup.proxies < 2 ^ 32) }
    ensures refused { IfErr result (RefusesCheck bytes.now) }
{
    if bytes.len() > MAX_SCRIPT {
        return Err(PlanError::TooLarge);
    }
    let value = json_of(alloc, bytes)?;
    let (format, setup, events) = played_parts(alloc, &value)?;
    seen_play(alloc, format, &value, setup, events)
}
