//! Scripts of format 1 in format 2.
ghost use Rattle.std.specs.Prelude.{◌≡◌, IfOk, IfErr, map, codes};
ghost use Rattle.serde_json.specs.View.{view};
ghost use Rattle.mr_scripts.specs.Upgrade.{changed_at, each_changed, upgraded_data, with_digits, upgraded_request, upgraded_event, upgraded_setup, upgraded, IsUpgrade, RefusesUpgrade};

use crate::limits::MAX_SCRIPT;
use crate::members::{says_at, with_member, without_member};
use crate::script::read_events;
use mr_configs::PlanError;
use mr_shown::{Format, bytes_of_data, is_data, text_of_data};
use serde_json::Value;
use std::alloc::{AllocError, Global};

/// Data of format 1 in format 2; what is no data is as it was.
fn upgraded_data(alloc: Global, data: Value) -> Result<Value, AllocError>
    ensures { IfOk result (λ made. view made ≡ upgraded_data (view «data»)) }
{
    let text = match data {
        Value::String(text) => text,
        other => return Ok(other),
    };
    if !is_data(Format::One, text.as_str()) {
        return Ok(Value::String(text));
    }
    let bytes = bytes_of_data(alloc, Format::One, text.as_str())?;
    let digits = text_of_data(alloc, Format::Two, bytes.as_slice())?;
    Ok(Value::String(digits))
}

/// A held item, or the request of a set, with its data in format 2.
fn with_digits(alloc: Global, value: Value) -> Result<Value, AllocError>
    ensures { IfOk result (λ made. view made ≡ with_digits (view value)) }
{
    match without_member(alloc, value, "data")? {
        (value, None) => Ok(value),
        (value, Some(data)) => {
            let data = upgraded_data(alloc, data)?;
            with_member(alloc, value, "data", data)
        }
    }
}

/// A request in format 2: the data of a set is changed.
fn upgraded_request(alloc: Global, request: Value) -> Result<Value, AllocError>
    ensures { IfOk result (λ made. view made ≡ upgraded_request (view request)) }
{
    if says_at("kind", "set", &request) {
        with_digits(alloc, request)
    } else {
        Ok(request)
    }
}

/// An event in format 2: the request of a client is changed.
fn upgraded_event(alloc: Global, event: Value) -> Result<Value, AllocError>
    ensures { IfOk result (λ made. view made ≡ upgraded_event (view event)) }
{
    if !says_at("do", "client", &event) {
        return Ok(event);
    }
    match without_member(alloc, event, "request")? {
        (event, None) => Ok(event),
        (event, Some(request)) => {
            let request = upgraded_request(alloc, request)?;
            with_member(alloc, event, "request", request)
        }
    }
}

fn each_upgraded_event(alloc: Global, values: Vec<Value>) -> Result<Vec<Value>, AllocError>
    ensures { IfOk result (λ made. map view made.items ≡ map upgraded_event (map view values.items)) }
{
    let mut made = Vec::with_capacity(alloc, values.len())?;
    for value in values {
        made.push(upgraded_event(alloc, value)?)?;
    }
    Ok(made)
}

fn each_with_digits(alloc: Global, values: Vec<Value>) -> Result<Vec<Value>, AllocError>
    ensures { IfOk result (λ made. map view made.items ≡ map with_digits (map view values.items)) }
{
    let mut made = Vec::with_capacity(alloc, values.len())?;
    for value in values {
        made.push(with_digits(alloc, value)?)?;
    }
    Ok(made)
}

/// The events of a script in format 2.
fn upgraded_events(alloc: Global, events: Value) -> Result<Value, AllocError>
    ensures { IfOk result (λ made. view made ≡ each_changed upgraded_event (view events)) }
{
    match events {
        Value::Array(values) => Ok(Value::Array(each_upgraded_event(alloc, values)?)),
        other => Ok(other),
    }
}

/// The held items of a setup in format 2.
fn upgraded_held(alloc: Global, held: Value) -> Result<Value, AllocError>
    ensures { IfOk result (λ made. view made ≡ each_changed with_digits (view held)) }
{
    match held {
        Value::Array(values) => Ok(Value::Array(each_with_digits(alloc, values)?)),
        other => Ok(other),
    }
}

/// A setup in format 2: its held items are changed.
fn upgraded_setup(alloc: Global, setup: Value) -> Result<Value, AllocError>
    ensures { IfOk result (λ made. view made ≡ upgraded_setup (view setup)) }
{
    match without_member(alloc, setup, "held")? {
        (setup, None) => Ok(setup),
        (setup, Some(held)) => {
            let held = upgraded_held(alloc, held)?;
            with_member(alloc, setup, "held", held)
        }
    }
}

/// A script with its events in format 2.
fn with_upgraded_events(alloc: Global, script: Value) -> Result<Value, AllocError>
    ensures { IfOk result (λ made. view made ≡ changed_at (codes "events") (each_changed upgraded_event) (view script)) }
{
    match without_member(alloc, script, "events")? {
        (script, None) => Ok(script),
        (script, Some(events)) => {
            let events = upgraded_events(alloc, events)?;
            with_member(alloc, script, "events", events)
        }
    }
}

/// A script with its setup in format 2.
fn with_upgraded_setup(alloc: Global, script: Value) -> Result<Value, AllocError>
    ensures { IfOk result (λ made. view made ≡ changed_at (codes "setup") upgraded_setup (view script)) }
{
    match without_member(alloc, script, "setup")? {
        (script, None) => Ok(script),
        (script, Some(setup)) => {
            let setup = upgraded_setup(alloc, setup)?;
            with_member(alloc, script, "setup", setup)
        }
    }
}

/// A script of this format in format 2.
fn upgraded(alloc: Global, format: Format, script: Value) -> Result<Value, AllocError>
    ensures { IfOk result (λ made. view made ≡ upgraded format (view script)) }
{
    match format {
        Format::One => {
            let script = with_upgraded_events(alloc, script)?;
            let script = with_upgraded_setup(alloc, script)?;
            with_member(alloc, script, "format", Value::from(2u64))
        }
        Format::Two => Ok(script),
    }
}

/// The script of format 2 that says what a script says, as compact JSON, the keys of every object in byte order: the data of
/// held items and of sets stands in hexadecimal digits of lower case, and all else stands as it stood. A script of format 2
/// keeps its values as they stand. Refusals: those of `read_events`; TooLarge where the text with one line end is larger than
/// a script may be; OutOfMemory.
pub fn upgrade_script(alloc: Global, bytes: &[u8]) -> Result<Vec<u8>, PlanError>
    ensures upgraded { IfOk result (λ text. IsUpgrade bytes.now text.items) }
    ensures refused { IfErr result (RefusesUpgrade bytes.now) }
{
    let script = read_events(alloc, bytes)?;
    let format = script.format();
    let (_, _, json) = script.into_parts();
    let text = upgraded(alloc, format, json)?.to_string(alloc)?;
    if text.len() >= MAX_SCRIPT {
        return Err(PlanError::TooLarge);
    }
    Ok(text.into_bytes())
}
