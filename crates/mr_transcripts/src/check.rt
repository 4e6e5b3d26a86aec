//! Holding a transcript against a play of its own events.
ghost use Rattle.std.specs.Prelude.{◌≡◌, ◌^◌, ◌<◌, length, Ok, IfOk, IfErr};
ghost use Rattle.serde_json.specs.View.{view};
ghost use Rattle.mr_world.specs.Premises.{premises_of};
ghost use Rattle.mr_world.specs.Setup.{CanBeMade};
ghost use Rattle.mr_transcripts.specs.Check.{tells, all_hold, is_safe, outcome_when_told, outcome_of_play, IsChecked, IsFoundOf, IsVouchedFor};
ghost use Rattle.mr_scripts.specs.Script.{IsPlayable};
ghost use Rattle.mr_transcripts.specs.Transcripts.{outcome_check, played_parts, RefusesPlayed, IsCheckOf, RefusesCheck};
ghost use Rattle.mr_configs.specs.declared.error.PlanError.TheVariants.{OutOfMemory};

use crate::play::{Play, play_events};
use mr_configs::fields::{check_object, field};
use mr_configs::{PlanError, json_of};
use mr_scripts::{MAX_SCRIPT, is_same, read_parts};
use mr_shown::{Format, KeptVerdict, history_value, notes_value, premises_value, verdict_value};
use mr_world::laws::runs_decide_premises;
use mr_world::{Event, Note, Premises, Setup, World};
use serde_json::Value;
use std::alloc::{AllocError, Global};

/// What a check of a transcript finds: the first of these that holds.
#[derive(Clone, Copy, Debug, PartialEq, Eq)]
pub enum Outcome {
    /// The event at this index is refused.
    EventRefused(usize),
    /// The notes are not those of the play.
    NotesDiffer,
    /// The history is not that of the play.
    HistoryDiffers,
    /// The premises are not those of the play.
    PremisesDiffer,
    /// The verdict is not that of the play.
    VerdictDiffers,
    /// The transcript is the play's, and a premise doesn't hold in it.
    PremiseFalse,
    /// The transcript is the play's, and a hit in it is bad.
    NotSafe,
    /// The transcript is the play's, all premises hold, and each hit is good.
    Accepted,
}

/// What was found of a transcript. Premises and verdict are those of the play, up to the first event that is refused.
#[derive(Debug, Drop)]
pub struct Checked {
    /// Which premises hold.
    pub premises: Premises,
    /// What the history says of its acknowledged deletes.
    pub verdict: KeptVerdict,
    /// The first finding that holds.
    pub outcome: Outcome,
}

impl Checked {
    /// An equal value.
    pub fn copy(&self) -> Result<Checked, AllocError>
        ensures { IfOk result (λ checked. checked ≡ self.now) }
    {
        Ok(Checked {
            premises: self.premises,
            verdict: self.verdict.copy()?,
            outcome: self.outcome,
        })
    }
}

/// Whether the transcript has this value under the key.
fn tells(transcript: &Value, key: &str, value: &Value) -> bool
    ensures { result ≡ tells (view transcript.now) key.now (view value.now) }
{
    match transcript.get(key) {
        Some(found) => is_same(value, found),
        None => false,
    }
}

/// Whether all premises hold.
fn all_hold(premises: Premises) -> bool
    ensures { result ≡ all_hold premises }
{
    premises.same && premises.new_empty && premises.forward && premises.near
}

/// Whether each hit is good.
fn is_safe(verdict: &KeptVerdict) -> bool
    ensures { result ≡ is_safe verdict.now }
{
    match verdict {
        KeptVerdict::Safe => true,
        KeptVerdict::Stale { .. } | KeptVerdict::Invented { .. } => false,
    }
}

/// What is found where the transcript tells the play's own notes, history, premises and verdict.
fn outcome_when_told(premises: Premises, verdict: &KeptVerdict) -> Outcome
    ensures { result ≡ outcome_when_told premises verdict.now }
{
    if !all_hold(premises) {
        Outcome::PremiseFalse
    } else if !is_safe(verdict) {
        Outcome::NotSafe
    } else {
        Outcome::Accepted
    }
}

/// Holds a transcript of this format against a play of all its events.
fn outcome_of_play(
    alloc: Global,
    format: Format,
    transcript: &Value,
    notes: &[Note],
    world: &World,
    verdict: &KeptVerdict,
) -> Result<Outcome, AllocError>
    ensures { IfOk result (λ outcome. outcome ≡ outcome_of_play format
        (view transcript.now) notes.now world.now.history (premises_of world.now) verdict.now) }
{
    let premises = world.premises();
    if !tells(transcript, "notes", &notes_value(alloc, notes)?) {
        return Ok(Outcome::NotesDiffer);
    }
    let history = history_value(alloc, format, world.history().entries())?;
    if !tells(transcript, "history", &history) {
        return Ok(Outcome::HistoryDiffers);
    }
    if !tells(transcript, "premises", &premises_value(alloc, premises)?) {
        return Ok(Outcome::PremisesDiffer);
    }
    if !tells(transcript, "verdict", &verdict_value(alloc, verdict)?) {
        return Ok(Outcome::VerdictDiffers);
    }
    Ok(outcome_when_told(premises, verdict))
}

/// Holds a transcript against a play of its events.
pub(crate) fn checked_play(
    alloc: Global,
    format: Format,
    transcript: &Value,
    play: &Play,
) -> Result<Checked, AllocError>
    ensures { IfOk result (λ checked. IsFoundOf format (view transcript.now)
        play.now.stop play.now.notes.items play.now.world checked) }
{
    let verdict = KeptVerdict::on(alloc, &play.world)?;
    let outcome = match play.stop {
        Some(stop) => Outcome::EventRefused(stop.index),
        None => outcome_of_play(
            alloc,
            format,
            transcript,
            &play.notes,
            &play.world,
            &verdict,
        )?,
    };
    Ok(Checked {
        premises: play.world.premises(),
        verdict,
        outcome,
    })
}

/// Plays a transcript's events on its setup, and holds the rest of it against the play.
fn compare_with_play(
    alloc: Global,
    format: Format,
    transcript: &Value,
    setup: Setup,
    events: Vec<Event>,
) -> Result<Checked, PlanError>
    requires few { length setup.proxies < 2 ^ 32 }
    requires makeable { CanBeMade setup }
    ensures checked { IfOk result (IsChecked format (view transcript.now) setup events.items) }
    ensures refused { IfErr result (λ e. e ≡ OutOfMemory) }
{
    let play = play_events(alloc, setup, events)?;
    Ok(checked_play(alloc, format, transcript, &play)?)
}

/// Plays a transcript's events on its setup, and holds the rest of it against the play. What is accepted is the transcript
/// of a run whose premises all hold and whose hits are all good.
#[tactic(auto, using(crate::proofs::CheckLemmas::accepted_vouches))]
pub(crate) fn check_play(
    alloc: Global,
    format: Format,
    transcript: &Value,
    setup: Setup,
    events: Vec<Event>,
) -> Result<Checked, PlanError>
    requires few { length setup.proxies < 2 ^ 32 }
    requires makeable { CanBeMade setup }
    ensures checked { IfOk result (IsChecked format (view transcript.now) setup events.items) }
    ensures vouched { IfOk result
        (λ checked. checked.outcome ≡ Outcome.Accepted → IsVouchedFor format (view transcript.now) setup events.items) }
    ensures refused { IfErr result (λ e. e ≡ OutOfMemory) }
{
    runs_decide_premises();
    compare_with_play(alloc, format, transcript, setup, events)
}

/// The keys of a transcript.
const TRANSCRIPT_KEYS: [&str; 7] = [
    "events", "format", "history", "notes", "premises", "setup", "verdict",
];

/// Looks whether what came of the play is told.
fn check_outcome(value: &Value) -> Result<(), PlanError>
    ensures { result ≡ outcome_check (view value.now) }
{
    field(value, "history")?;
    field(value, "notes")?;
    field(value, "premises")?;
    field(value, "verdict")?;
    Ok(())
}

/// What a transcript says was played.
pub(crate) fn played_parts(
    alloc: Global,
    value: &Value,
) -> Result<(Format, Setup, Vec<Event>), PlanError>
    ensures played { IfOk result
        (λ parts. played_parts (view value.now) ≡ Ok (record { format = parts.0; setup = parts.1; events = parts.2.items })) }
    ensures playable { IfOk result (λ parts. IsPlayable parts.1) }
    ensures refused { IfErr result (RefusesPlayed (view value.now)) }
{
    check_object(value, &TRANSCRIPT_KEYS)?;
    check_outcome(value)?;
    read_parts(alloc, value)
}

/// Reads a transcript of either format, plays its events on its setup, and holds the rest of it against the play: nothing
/// that it says of itself is believed. Refusals are those of a script, with seven keys in place of three; an event that is
/// refused for want of memory is OutOfMemory.
pub fn check_transcript(alloc: Global, bytes: &[u8]) -> Result<Checked, PlanError>
    ensures checked { IfOk result (IsCheckOf bytes.now) }
    ensures refused { IfErr result (RefusesCheck bytes.now) }
{
    if bytes.len() > MAX_SCRIPT {
        return Err(PlanError::TooLarge);
    }
    let value = json_of(alloc, bytes)?;
    let (format, setup, events) = played_parts(alloc, &value)?;
    check_play(alloc, format, &value, setup, events)
}
