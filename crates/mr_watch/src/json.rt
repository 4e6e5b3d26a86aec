//! A look as JSON.
ghost use Rattle.std.specs.Prelude.{◌≡◌, ◌++◌, IfOk, OnOk, Some, false, map};
ghost use Rattle.std.specs.String.{string_bytes};
ghost use Rattle.serde_json.specs.Data.{object, no_members};
ghost use Rattle.serde_json.specs.View.{view as value_view, members_view};
ghost use Rattle.serde_json.specs.Written.{compact_text};
ghost use Rattle.mr_watch.specs.Shown.{printable};
ghost use Rattle.mr_watch.specs.Json.{part_json, members_json, unreached_json, reached_json, told_json, proxy_json, proxies_json, node_json, nodes_json, premises_json, next_at_json, next_json, capped, apart_json, spread_json, look_json};

use crate::finding::Findings;
use crate::look::{NodeSeen, ProxySeen};
use crate::next::{Next, next_of};
use crate::rate::rate_of;
use crate::shown::shown_byte;
use crate::spread::{Spread, spread_of};
use crate::told::ProxyTold;
use crate::view::View;
use serde_json::{Map, Value, put};
use std::alloc::{AllocError, Global};

/// What the value of a member is made of.
#[derive(Clone, Copy)]
pub(crate) enum Part<'a> {
    /// A text.
    Text(&'a str),
    /// Bytes that came from outside, of which those are question marks that a terminal doesn't show as they are.
    Bytes(&'a [u8]),
    /// A number.
    Count(u64),
    /// A number that may be none.
    Perhaps(Option<u64>),
    /// Whether something is so.
    Flag(bool),
}

/// A member of an object: its name and its value.
type Member<'a> = (&'a str, Part<'a>);

/// Bytes that came from outside, as a text.
fn printable(alloc: Global, bytes: &[u8]) -> Result<String, AllocError>
    ensures { IfOk result (λ text. string_bytes text ≡ printable bytes.now) }
{
    let mut text = String::new(alloc);
    for byte in bytes {
        text.push(char::from(shown_byte(*byte)))?;
    }
    Ok(text)
}

/// The same as JSON.
fn bytes_value(alloc: Global, bytes: &[u8]) -> Result<Value, AllocError>
    ensures { IfOk result (λ value. value_view value ≡ part_json (Part.Bytes bytes.entry)) }
{
    Ok(Value::String(printable(alloc, bytes)?))
}

/// A number, or null.
fn perhaps_value(count: Option<u64>) -> Value
    ensures { value_view result ≡ part_json (Part.Perhaps count) }
{
    match count {
        Some(count) => Value::from(count),
        None => Value::Null,
    }
}

/// The value of a member.
fn part_value(alloc: Global, part: Part<'_>) -> Result<Value, AllocError>
    ensures { IfOk result (λ value. value_view value ≡ part_json part.entry) }
{
    match part {
        Part::Text(text) => Value::try_from_str(alloc, text),
        Part::Bytes(bytes) => bytes_value(alloc, bytes),
        Part::Count(count) => Ok(Value::from(count)),
        Part::Perhaps(count) => Ok(perhaps_value(count)),
        Part::Flag(flag) => Ok(Value::Bool(flag)),
    }
}

/// The members of an object.
fn map_of(alloc: Global, members: &[Member<'_>]) -> Result<Map<String, Value>, AllocError>
    ensures { IfOk result (λ map. members_view map.entries ≡ members_json members.now no_members) }
{
    let mut map = Map::new(alloc);
    for (name, part) in members {
        put(&mut map, alloc, name, part_value(alloc, *part)?)?;
    }
    Ok(map)
}

/// The object with these members.
fn object_of(alloc: Global, members: &[Member<'_>]) -> Result<Value, AllocError>
    ensures { IfOk result (λ value. value_view value ≡ object (members_json members.now no_members)) }
{
    Ok(Value::Object(map_of(alloc, members)?))
}

/// What is known of a proxy that wasn't reached.
#[tactic(auto, unfolding(crate::specs::Json::unreached_json))]
fn unreached_value(alloc: Global, address: &str) -> Result<Value, AllocError>
    ensures { IfOk result (λ value. value_view value ≡ unreached_json address.now) }
{
    object_of(
        alloc,
        &[
            ("address", Part::Text(address)),
            ("reached", Part::Flag(false)),
        ],
    )
}

/// What is known of one that was.
#[tactic(auto, unfolding(crate::specs::Json::reached_json))]
fn reached_value<'a>(
    alloc: Global,
    address: &'a str,
    rate: Option<u64>,
    told: &ProxyTold<'a>,
) -> Result<Value, AllocError>
    ensures { IfOk result (λ value. value_view value ≡ reached_json address.now rate told.now) }
{
    object_of(
        alloc,
        &[
            ("address", Part::Text(address)),
            ("clock", Part::Perhaps(told.clock)),
            ("digest", Part::Bytes(told.digest)),
            ("held_back", Part::Perhaps(told.traffic.held_back)),
            ("hits", Part::Count(told.traffic.hits)),
            ("hop", Part::Count(told.place.hop)),
            ("lost", Part::Count(told.traffic.lost)),
            ("phase", Part::Text(told.place.phase.as_str())),
            ("reached", Part::Flag(true)),
            ("requests_per_second", Part::Perhaps(rate)),
        ],
    )
}

/// What is known of a proxy, where the look before saw these.
fn proxy_value(
    alloc: Global,
    earlier: &[ProxySeen<'_>],
    proxy: &ProxySeen<'_>,
) -> Result<Value, AllocError>
    ensures { IfOk result (λ value. value_view value ≡ proxy_json earlier.now proxy.now) }
{
    match &proxy.told {
        Some(told) => reached_value(alloc, proxy.address, rate_of(earlier, proxy), told),
        None => unreached_value(alloc, proxy.address),
    }
}

/// What is known of each proxy.
fn proxies_value(
    alloc: Global,
    earlier: &[ProxySeen<'_>],
    proxies: &[ProxySeen<'_>],
) -> Result<Value, AllocError>
    ensures { IfOk result (λ value. value_view value ≡ proxies_json earlier.now proxies.now) }
{
    let mut values = Vec::with_capacity(alloc, proxies.len())?;
    for proxy in proxies {
        values.push(proxy_value(alloc, earlier, proxy)?)?;
    }
    Ok(Value::Array(values))
}

/// What is known of a node.
#[tactic(auto, unfolding(crate::specs::Json::node_json))]
fn node_value(alloc: Global, node: &NodeSeen<'_>) -> Result<Value, AllocError>
    ensures { IfOk result (λ value. value_view value ≡ node_json node.now) }
{
    object_of(
        alloc,
        &[
            ("hits", Part::Perhaps(node.hits)),
            ("items", Part::Perhaps(node.items)),
            ("name", Part::Text(node.name)),
            ("pool", Part::Count(u64::from(node.pool))),
        ],
    )
}

/// What is known of each node.
fn nodes_value(alloc: Global, nodes: &[NodeSeen<'_>]) -> Result<Value, AllocError>
    ensures { IfOk result (λ value. value_view value ≡ nodes_json nodes.now) }
{
    let mut values = Vec::with_capacity(alloc, nodes.len())?;
    for node in nodes {
        values.push(node_value(alloc, node)?)?;
    }
    Ok(Value::Array(values))
}

/// What was found of the premises.
#[tactic(auto, unfolding(crate::specs::Json::premises_json))]
fn premises_value(alloc: Global, findings: &Findings) -> Result<Value, AllocError>
    ensures { IfOk result (λ value. value_view value ≡ premises_json findings.now) }
{
    object_of(
        alloc,
        &[
            ("empty", Part::Text(findings.empty.as_str())),
            ("forward", Part::Text(findings.forward.as_str())),
            ("near", Part::Text(findings.near.as_str())),
            ("same", Part::Text(findings.same.as_str())),
        ],
    )
}

/// A phase that begins later.
#[tactic(auto, unfolding(crate::specs::Json::next_at_json))]
fn next_at_value(alloc: Global, next: &Next) -> Result<Value, AllocError>
    ensures { IfOk result (λ value. value_view value ≡ next_at_json next.now) }
{
    object_of(
        alloc,
        &[
            ("hop", Part::Count(u64::from(next.hop))),
            ("phase", Part::Text(next.phase.as_str())),
            ("seconds", Part::Count(next.seconds)),
        ],
    )
}

/// The phase that is next, or null.
fn next_value(alloc: Global, next: Option<Next>) -> Result<Value, AllocError>
    ensures { IfOk result (λ value. value_view value ≡ next_json next) }
{
    match next {
        Some(next) => next_at_value(alloc, &next),
        None => Ok(Value::Null),
    }
}

/// Milliseconds as far as 64 bits count.
fn capped(milliseconds: u128) -> u64
    ensures { result ≡ capped milliseconds }
{
    milliseconds.min(u128::from(u64::MAX)) as u64
}

/// How far clocks are apart.
#[tactic(auto, unfolding(crate::specs::Json::apart_json))]
fn apart_value(alloc: Global, spread: Spread) -> Result<Value, AllocError>
    ensures { IfOk result (λ value. value_view value ≡ apart_json spread) }
{
    object_of(
        alloc,
        &[
            ("at_least", Part::Count(capped(spread.at_least))),
            ("at_most", Part::Count(capped(spread.at_most))),
        ],
    )
}

/// The same, or null.
fn spread_value(alloc: Global, spread: Option<Spread>) -> Result<Value, AllocError>
    ensures { IfOk result (λ value. value_view value ≡ spread_json spread) }
{
    match spread {
        Some(spread) => apart_value(alloc, spread),
        None => Ok(Value::Null),
    }
}

/// A look.
#[tactic(auto, unfolding(crate::specs::Json::look_json))]
fn look_value(alloc: Global, view: &View<'_>) -> Result<Value, AllocError>
    ensures { IfOk result (λ value. value_view value ≡ look_json view.now) }
{
    let mut map = Map::new(alloc);
    put(&mut map, alloc, "at", Value::from(view.at))?;
    put(
        &mut map,
        alloc,
        "next",
        next_value(alloc, next_of(&view.schedule, view.at))?,
    )?;
    put(
        &mut map,
        alloc,
        "nodes",
        nodes_value(alloc, view.look.nodes)?,
    )?;
    put(
        &mut map,
        alloc,
        "premises",
        premises_value(alloc, &view.findings)?,
    )?;
    put(
        &mut map,
        alloc,
        "proxies",
        proxies_value(alloc, view.earlier, view.look.proxies)?,
    )?;
    put(
        &mut map,
        alloc,
        "spread",
        spread_value(alloc, spread_of(view.look.proxies))?,
    )?;
    Ok(Value::Object(map))
}

/// A look as JSON: one object, compact, its keys in byte order.
#[tactic(auto, using(crate::proofs::JsonLemmas::look_no_float))]
pub fn look_json(alloc: Global, view: &View<'_>) -> Result<String, AllocError>
    ensures { IfOk result (λ text. string_bytes text ≡ compact_text (look_json view.now)) }
{
    look_value(alloc, view)?.to_string(alloc)
}
