//! What is told as JSON.
ghost use Rattle.std.specs.Prelude.{◌≡◌, IfOk, false};
ghost use Rattle.std.specs.String.{string_bytes};
ghost use Rattle.serde_json.specs.Data.{object, no_members};
ghost use Rattle.serde_json.specs.View.{view as value_view, members_view};
ghost use Rattle.serde_json.specs.Written.{has_float};
ghost use Rattle.mr_sightings.specs.Shown.{printable};
ghost use Rattle.mr_sightings.specs.Json.{part_json, members_json, with_errors, errors_json, second_json, deed_json, found_json, came_back_json, counts_json, verdict_json, named_json, json_line};

use crate::came_back::{CameBack, Deed};
use crate::percentile::{bound_micros, slowest_of};
use crate::second::{Second, median_of};
use crate::shown::shown_byte;
use crate::trouble::Trouble;
use crate::verdict::Verdict;
use serde_json::{Map, Value, put};
use std::alloc::{AllocError, Global};

/// What the value of a member is made of.
#[derive(Clone, Copy)]
pub(crate) enum Part<'a> {
    /// A text.
    Text(&'a str),
    /// Bytes, of which those are question marks that a terminal doesn't show as they are.
    Bytes(&'a [u8]),
    /// A number.
    Count(u64),
    /// A number that may be none.
    Perhaps(Option<u64>),
}

/// A member of an object: its name and its value.
type Member<'a> = (&'a str, Part<'a>);

/// Bytes as a text.
fn printable(alloc: Global, bytes: &[u8]) -> Result<String, AllocError>
    ensures { IfOk result (λ text. string_bytes text ≡ printable bytes.now) }
{
    let mut text = String::new(alloc);
    for byte in bytes {
        text.push(char::from(shown_byte(*byte)))?;
    }
    Ok(text)
}

/// The same as JSON.
fn bytes_value(alloc: Global, bytes: &[u8]) -> Result<Value, AllocError>
    ensures { IfOk result (λ value. value_view value ≡ part_json (Part.Bytes bytes.entry)) }
{
    Ok(Value::String(printable(alloc, bytes)?))
}

/// A number, or null.
fn perhaps_value(count: Option<u64>) -> Value
    ensures { value_view result ≡ part_json (Part.Perhaps count) }
{
    match count {
        Some(count) => Value::from(count),
        None => Value::Null,
    }
}

/// The value of a member.
fn part_value(alloc: Global, part: Part<'_>) -> Result<Value, AllocError>
    ensures { IfOk result (λ value. value_view value ≡ part_json part.entry) }
{
    match part {
        Part::Text(text) => Value::try_from_str(alloc, text),
        Part::Bytes(bytes) => bytes_value(alloc, bytes),
        Part::Count(count) => Ok(Value::from(count)),
        Part::Perhaps(count) => Ok(perhaps_value(count)),
    }
}

/// The members of an object.
fn map_of(alloc: Global, members: &[Member<'_>]) -> Result<Map<String, Value>, AllocError>
    ensures { IfOk result (λ map. members_view map.entries ≡ members_json members.now no_members) }
{
    let mut map = Map::new(alloc);
    for (name, part) in members {
        put(&mut map, alloc, name, part_value(alloc, *part)?)?;
    }
    Ok(map)
}

/// The object with these members.
fn object_of(alloc: Global, members: &[Member<'_>]) -> Result<Value, AllocError>
    ensures { IfOk result (λ value. value_view value ≡ object (members_json members.now no_members)) }
{
    Ok(Value::Object(map_of(alloc, members)?))
}

/// Each of these reasons that was seen, and how often.
fn errors_map(
    alloc: Global,
    reasons: &[Trouble],
    troubles: &[u64; 11],
) -> Result<Map<String, Value>, AllocError>
    ensures { IfOk result (λ map. members_view map.entries ≡ with_errors reasons.now troubles.now no_members) }
{
    let mut map = Map::new(alloc);
    for reason in reasons {
        let count = troubles[reason.place()];
        if count > 0 {
            put(&mut map, alloc, reason.as_str(), Value::from(count))?;
        }
    }
    Ok(map)
}

/// Why requests came to nothing, and how often.
#[tactic(auto, unfolding(crate::specs::Json::errors_json))]
fn errors_value(alloc: Global, troubles: &[u64; 11]) -> Result<Value, AllocError>
    ensures { IfOk result (λ value. value_view value ≡ errors_json troubles.now) }
{
    Ok(Value::Object(errors_map(alloc, &Trouble::ALL, troubles)?))
}

/// A second.
#[tactic(auto, unfolding(crate::specs::Json::second_json))]
fn second_value(alloc: Global, second: &Second) -> Result<Value, AllocError>
    ensures { IfOk result (λ value. value_view value ≡ second_json second.now) }
{
    let tally = &second.tally;
    let median = median_of(tally);
    let mut map = map_of(
        alloc,
        &[
            ("at", Part::Count(second.at)),
            ("came_back", Part::Count(second.came_back)),
            (
                "greatest_micros",
                Part::Perhaps(slowest_of(median, tally.greatest)),
            ),
            ("hits", Part::Count(tally.hits)),
            ("hop", Part::Count(u64::from(second.hop))),
            (
                "median_micros",
                Part::Perhaps(bound_micros(median, tally.greatest)),
            ),
            ("misses", Part::Count(tally.misses)),
            ("phase", Part::Text(second.phase.as_str())),
            ("requests", Part::Count(tally.requests)),
        ],
    )?;
    put(
        &mut map,
        alloc,
        "errors",
        errors_value(alloc, &tally.troubles)?,
    )?;
    Ok(Value::Object(map))
}

/// A request.
#[tactic(auto, unfolding(crate::specs::Json::deed_json))]
fn deed_value(alloc: Global, deed: &Deed<'_>) -> Result<Value, AllocError>
    ensures { IfOk result (λ value. value_view value ≡ deed_json deed.now) }
{
    object_of(
        alloc,
        &[
            ("hop", Part::Count(u64::from(deed.hop))),
            ("micros", Part::Count(u64::from(deed.micros))),
            ("phase", Part::Text(deed.phase.as_str())),
            ("proxy", Part::Text(deed.proxy)),
            ("second", Part::Count(deed.second)),
        ],
    )
}

/// What came back.
#[tactic(auto, unfolding(crate::specs::Json::found_json))]
fn found_value(alloc: Global, found: &CameBack<'_>) -> Result<Value, AllocError>
    ensures { IfOk result (λ value. value_view value ≡ found_json found.now) }
{
    let mut map = Map::new(alloc);
    put(&mut map, alloc, "delete", deed_value(alloc, &found.delete)?)?;
    put(&mut map, alloc, "get", deed_value(alloc, &found.get)?)?;
    put(&mut map, alloc, "key", bytes_value(alloc, found.key)?)?;
    put(&mut map, alloc, "set", deed_value(alloc, &found.set)?)?;
    Ok(Value::Object(map))
}

/// The counts of a verdict.
#[tactic(auto, unfolding(crate::specs::Json::counts_json))]
fn counts_value(alloc: Global, verdict: &Verdict) -> Result<Value, AllocError>
    ensures { IfOk result (λ value. value_view value ≡ counts_json verdict.now) }
{
    object_of(
        alloc,
        &[
            ("acknowledged", Part::Count(verdict.acknowledged)),
            ("came_back", Part::Count(verdict.came_back)),
            ("left", Part::Count(verdict.left)),
            ("proxies", Part::Count(verdict.proxies)),
            ("requests", Part::Count(verdict.requests)),
        ],
    )
}

/// The object that has this value under this name alone.
fn named_value(alloc: Global, name: &str, value: Value) -> Result<Value, AllocError>
    ensures { IfOk result (λ named. value_view named ≡ named_json name.now (value_view value)) }
{
    let mut map = Map::new(alloc);
    put(&mut map, alloc, name, value)?;
    Ok(Value::Object(map))
}

/// A value as a line.
fn line_of(alloc: Global, value: Value) -> Result<Vec<u8>, AllocError>
    ensures { IfOk result (λ text. has_float (value_view value) ≡ false → text.items ≡ json_line (value_view value)) }
{
    let mut text = value.to_string(alloc)?.into_bytes();
    text.push(b'\n')?;
    Ok(text)
}

/// A second as JSON: one object in a line, compact, its keys in byte order.
#[tactic(auto, using(crate::proofs::JsonLemmas::second_no_float))]
pub fn second_json(alloc: Global, second: &Second) -> Result<Vec<u8>, AllocError>
    ensures { IfOk result (λ text. text.items ≡ json_line (second_json second.now)) }
{
    line_of(alloc, second_value(alloc, second)?)
}

/// What came back as JSON: one object in a line, compact, its keys in byte order.
#[tactic(auto, using(crate::proofs::JsonLemmas::came_back_no_float), unfolding(crate::specs::Json::came_back_json))]
pub fn came_back_json(alloc: Global, found: &CameBack<'_>) -> Result<Vec<u8>, AllocError>
    ensures { IfOk result (λ text. text.items ≡ json_line (came_back_json found.now)) }
{
    let value = found_value(alloc, found)?;
    line_of(alloc, named_value(alloc, "came_back", value)?)
}

/// A verdict as JSON: one object in a line, compact, its keys in byte order.
#[tactic(auto, using(crate::proofs::JsonLemmas::verdict_no_float), unfolding(crate::specs::Json::verdict_json))]
pub fn verdict_json(alloc: Global, verdict: &Verdict) -> Result<Vec<u8>, AllocError>
    ensures { IfOk result (λ text. text.items ≡ json_line (verdict_json verdict.now)) }
{
    let value = counts_value(alloc, verdict)?;
    line_of(alloc, named_value(alloc, "verdict", value)?)
}
