//! Scripts: a fleet, and what happens to it.
ghost use Rattle.std.specs.Prelude.{◌≡◌, Ok, Err, IfOk, IfErr, IsOk, map};
ghost use Rattle.mr_scripts.specs.Events.{events_of};
ghost use Rattle.serde_json.specs.View.{view};
ghost use Rattle.serde_json.specs.Written.{has_float};
ghost use Rattle.std.specs.Prelude.{false};
ghost use Rattle.mr_scripts.specs.Script.{format_in, count_in, counts_check, script_in, script_of, IsPlayable, RefusesParts, ReadsScript};
ghost use Rattle.mr_scripts.specs.ScriptDraft.{script_between, parts_between, parts_drafted, IsScriptReady};
ghost use Rattle.mr_scripts.specs.SetupDraft.{setup_drafted, IsSetupReady};

use crate::events::{check_events, make_events};
use crate::limits::{MAX_EVENTS, MAX_HELD, MAX_PROXIES, MAX_SCRIPT};
use crate::setups::{SetupDraft, setup_draft};
use mr_configs::fields::{check_object, field, list, whole_number};
use mr_configs::laws::configurations_match;
use mr_configs::{PlanError, json_of};
use mr_shown::Format;
use mr_world::{Event, Setup};
use serde_json::Value;
use std::alloc::{AllocError, Global};
use std::marker::Model;

/// The keys of a script.
const SCRIPT_KEYS: [&str; 3] = ["events", "format", "setup"];

/// A script: a fleet, and what happens to it.
#[derive(Drop)]
pub struct Script {
    format: Format,
    setup: Setup,
    events: Vec<Event>,
    json: Value,
}

impl Model for Script {
    ghost use Rattle.std.specs.Coded.{codes};
    ghost use Rattle.serde_json.specs.contracts.value.Value as json_value;
    ghost use Rattle.mr_scripts.specs.Script.{ScriptView, IsScript};

    ghost Value = { ScriptView };

    ghost coded = { Prim.hlevel (codes, json_value.the_row.coded) };

    ghost view = { λ s. record { format = s.format; setup = s.setup; events = s.events.items; json = s.json } };

    ghost invariant = { λ s. IsScript (record { format = s.format; setup = s.setup; events = s.events.items; json = s.json }) };
}

/// A script that was looked at whole, and is yet to be made.
#[derive(Clone, Copy)]
pub struct ScriptDraft<'a> {
    /// How data stands in its text.
    pub format: Format,
    /// The fleet.
    pub setup: SetupDraft<'a>,
    /// What happens to it.
    pub events: &'a [Value],
}

/// The format whose number a value is.
fn format_in(value: &Value) -> Result<Format, PlanError>
    ensures { result ≡ format_in (view value.now) }
{
    Format::of_number(whole_number(value)?).ok_or(PlanError::WrongKind)
}

/// How many values a list has; none where it is no list.
fn count_in(value: &Value) -> usize
    ensures { result ≡ count_in (view value.now) }
{
    match list(value) {
        Ok(values) => values.len(),
        Err(_) => 0,
    }
}

/// Looks whether there are no more items, proxies and events than a script may have.
fn check_counts(held: usize, proxies: usize, events: usize) -> Result<(), PlanError>
    ensures { result ≡ counts_check held proxies events }
{
    if held > MAX_HELD || proxies > MAX_PROXIES || events > MAX_EVENTS {
        return Err(PlanError::TooLarge);
    }
    Ok(())
}

/// The values of the events beside a setup, after all three lists were counted.
#[tactic(auto, using(crate::proofs::ScriptLemmas::counted))]
fn values_of_events<'a>(
    format: Format,
    setup: &SetupDraft<'_>,
    events: &'a Value,
) -> Result<&'a [Value], PlanError>
    requires { IsSetupReady format setup.now }
    ensures parts { IfOk result (λ values. script_between format (setup_drafted format setup.now)
        (view events.now) ≡ parts_between format (setup_drafted format setup.now) (map view values.now)) }
    ensures ready { IfOk result (λ values. IsOk (events_of format 0 (map view values.now))) }
    ensures refused { IfErr result (λ e. script_between format (setup_drafted format setup.now) (view events.now) ≡ Err e) }
{
    check_counts(setup.held.len(), setup.proxies.len(), count_in(events))?;
    let values = list(events)?;
    match check_events(format, values) {
        Ok(()) => Ok(values),
        Err(refusal) => Err(refusal),
    }
}

/// Looks at the keys of a script whole, and tells the first refusal. Want of memory is none of them.
fn parts_draft(alloc: Global, value: &Value) -> Result<ScriptDraft<'_>, PlanError>
    ensures parts { IfOk result (λ draft. script_in (view value.now) ≡ parts_drafted draft) }
    ensures ready { IfOk result (λ draft. IsScriptReady draft) }
    ensures refused { IfErr result (λ e. script_in (view value.now) ≡ Err e) }
{
    let events = field(value, "events")?;
    let format = field(value, "format")?;
    let setup = field(value, "setup")?;
    let format = format_in(format)?;
    let setup = match setup_draft(alloc, format, setup) {
        Ok(setup) => setup,
        Err(refusal) => return Err(refusal),
    };
    match values_of_events(format, &setup, events) {
        Ok(events) => Ok(ScriptDraft {
            format,
            setup,
            events,
        }),
        Err(refusal) => Err(refusal),
    }
}

impl ScriptDraft<'_> {
    /// What it says, made.
    fn make(&self, alloc: Global) -> Result<(Format, Setup, Vec<Event>), AllocError>
        requires { IsScriptReady self.now }
        ensures { IfOk result
            (λ parts. parts_drafted self.now ≡ Ok (record { format = parts.0; setup = parts.1; events = parts.2.items })) }
    {
        let setup = self.setup.make(alloc, self.format)?;
        let events = make_events(alloc, self.format, self.events)?;
        Ok((self.format, setup, events))
    }
}

/// The format, the fleet and the events that a value's keys of a script say. Whether it has other keys is looked at before.
#[tactic(auto, using(crate::proofs::HomeLemmas::read_as))]
pub fn read_parts(alloc: Global, value: &Value) -> Result<(Format, Setup, Vec<Event>), PlanError>
    ensures parts { IfOk result
        (λ parts. script_in (view value.now) ≡ Ok (record { format = parts.0; setup = parts.1; events = parts.2.items })) }
    ensures playable { IfOk result (λ parts. IsPlayable parts.1) }
    ensures refused { IfErr result (λ e. RefusesParts (view value.now) e) }
{
    configurations_match();
    match parts_draft(alloc, value) {
        Ok(draft) => Ok(draft.make(alloc)?),
        Err(refusal) => Err(refusal),
    }
}

/// Looks at a script whole, and tells the first refusal. Want of memory is none of them.
fn script_draft(alloc: Global, value: &Value) -> Result<ScriptDraft<'_>, PlanError>
    ensures parts { IfOk result (λ draft. script_of (view value.now) ≡ parts_drafted draft) }
    ensures ready { IfOk result (λ draft. IsScriptReady draft) }
    ensures refused { IfErr result (λ e. script_of (view value.now) ≡ Err e) }
{
    check_object(value, &SCRIPT_KEYS)?;
    parts_draft(alloc, value)
}

impl Script {
    ghost use Rattle.mr_scripts.specs.Script.{IsScript, IsPlayable};

    /// How data stands in its text.
    pub fn format(&self) -> Format
        ensures { result ≡ self.now.format }
    {
        self.format
    }

    /// The fleet.
    pub fn setup(&self) -> &Setup
        ensures setup { result.now ≡ self.now.setup }
        ensures playable { IsPlayable result.now }
        ensures script { IsScript self.now }
    {
        configurations_match();
        &self.setup
    }

    /// What happens to it.
    pub fn events(&self) -> &[Event]
        ensures events { result.now ≡ self.now.events }
        ensures script { IsScript self.now }
    {
        self.events.as_slice()
    }

    /// The fleet, what happens to it, and the JSON that both were read from, which has no number that isn't whole.
    pub fn into_parts(self) -> (Setup, Vec<Event>, Value)
        ensures setup { result.0 ≡ self.setup }
        ensures events { result.1.items ≡ self.events }
        ensures json { result.2 ≡ self.json }
        ensures whole { has_float (view result.2) ≡ false }
        ensures playable { IsPlayable result.0 }
    {
        let _playable = self.setup();
        (self.setup, self.events, self.json)
    }

    /// An equal script: the same format, the same fleet, the same events, and a JSON of the same value.
    pub fn copy(&self) -> Result<Script, AllocError>
        ensures format { IfOk result (λ script. script.format ≡ self.now.format) }
        ensures setup { IfOk result (λ script. script.setup ≡ self.now.setup) }
        ensures events { IfOk result (λ script. script.events ≡ self.now.events) }
        ensures json { IfOk result (λ script. view script.json ≡ view self.now.json) }
    {
        Ok(Script {
            format: self.format,
            setup: self.setup.copy()?,
            events: copied_events(&self.events)?,
            json: self.json.clone()?,
        })
    }
}

/// Equal events.
fn copied_events(events: &Vec<Event>) -> Result<Vec<Event>, AllocError>
    ensures { IfOk result (λ copied. copied.items ≡ events.now.items) }
{
    let mut copied = Vec::with_capacity(*events.allocator(), events.len())?;
    for event in events {
        copied.push(event.copy()?)?;
    }
    Ok(copied)
}

/// The script that a JSON text is. Refusals, in this order: TooLarge where the text has more than 16,777,216 bytes; NotJson;
/// WrongKind where the whole is no object; UnknownKey, MissingKey; those of `format` and of `setup`; TooLarge where there are
/// more items, proxies or events than a script may have; WrongKind where the events are no list; BadEvent with the index of
/// the first that can't be made; OutOfMemory, which reading the text may answer too.
pub fn read_events(alloc: Global, bytes: &[u8]) -> Result<Script, PlanError>
    ensures { ReadsScript bytes.now result }
{
    if bytes.len() > MAX_SCRIPT {
        return Err(PlanError::TooLarge);
    }
    let json = json_of(alloc, bytes)?;
    let (format, setup, events) = match script_draft(alloc, &json) {
        Ok(draft) => draft.make(alloc)?,
        Err(refusal) => return Err(refusal),
    };
    Ok(Script {
        format,
        setup,
        events,
        json,
    })
}
