//! The lines of premises.
ghost use Rattle.std.specs.Prelude.{◌≡◌, ◌++◌, ◌<◌, ◌^◌, filter, Some, IfOk, OnOk};
ghost use Rattle.mr_watch.specs.Nodes.{counted};
ghost use Rattle.mr_watch.specs.Premises.{tells_other, went_back};
ghost use Rattle.mr_watch.specs.PremiseLines.{finding_text, finding_colour, found_text, more_text, named_text, seconds_text, rounded_up, apart_text, spread_text, or_pool, upcoming_pool, seen_text, holds_text, pool_text, named_line, same_line, pool_line, spread_line, empty_line, near_line, forward_line, premises_text};

use crate::finding::Finding;
use crate::look::{NodeSeen, ProxySeen};
use crate::next::push_decimal;
use crate::nodes::{PoolSeen, pool_of, push_counted};
use crate::premises::{are_before, tells_other, went_back};
use crate::shown::{Colour, push_coloured, push_cut, push_short};
use crate::spread::{Spread, spread_of};
use crate::view::View;
use mr_phases::Schedule;
use std::alloc::{AllocError, Global};

impl Finding {
    /// Its word.
    pub fn as_str(self) -> &'static str
        ensures { result.now ≡ finding_text self }
    {
        match self {
            Finding::Unseen => "unseen",
            Finding::Holds => "holds",
            Finding::Broken => "broken",
        }
    }

    /// Its colour.
    fn colour(self) -> Colour
        ensures { result ≡ finding_colour self }
    {
        match self {
            Finding::Unseen => Colour::Yellow,
            Finding::Holds => Colour::Green,
            Finding::Broken => Colour::Red,
        }
    }
}

/// Adds the name of a premise, and what was found of it.
fn push_found(
    text: &mut Vec<u8>,
    colours: bool,
    name: &str,
    finding: Finding,
) -> Result<(), AllocError>
    ensures { OnOk result (text.new.items ≡ text.old.items ++ found_text colours name.now finding) }
{
    text.extend_from_slice(name.as_bytes())?;
    push_coloured(text, colours, finding.colour(), finding.as_str())
}

/// Adds how many more there are.
fn push_more(text: &mut Vec<u8>, count: u64) -> Result<(), AllocError>
    ensures { OnOk result (text.new.items ≡ text.old.items ++ more_text count) }
{
    if count == 0 {
        return Ok(());
    }
    text.extend_from_slice(b" and ")?;
    push_short(text, count)?;
    text.extend_from_slice(b" more")?;
    Ok(())
}

/// Adds the first of these proxies, what is said of it, and how many more there are.
fn push_named(text: &mut Vec<u8>, said: &str, proxies: &[ProxySeen<'_>]) -> Result<(), AllocError>
    ensures { OnOk result (text.new.items ≡ text.old.items ++ named_text said.now proxies.now) }
{
    let Some((first, others)) = proxies.split_first() else {
        return Ok(());
    };
    text.extend_from_slice(b", ")?;
    push_cut(text, 24, first.address.as_bytes())?;
    text.extend_from_slice(said.as_bytes())?;
    push_more(text, others.len() as u64)?;
    Ok(())
}

/// Those that tell another digest.
fn others_of<'a>(
    alloc: Global,
    proxies: &[ProxySeen<'a>],
    expected: &[u8],
) -> Result<Vec<ProxySeen<'a>>, AllocError>
    ensures { IfOk result (λ found. found.items ≡ filter (tells_other expected.now) proxies.now) }
{
    let mut found = Vec::new(alloc);
    for proxy in proxies {
        if tells_other(proxy, expected) {
            found.push(*proxy)?;
        }
    }
    Ok(found)
}

/// Those whose clocks went back.
fn backward_of<'a>(
    alloc: Global,
    earlier: &[ProxySeen<'_>],
    proxies: &[ProxySeen<'a>],
) -> Result<Vec<ProxySeen<'a>>, AllocError>
    ensures { IfOk result (λ found. found.items ≡ filter (went_back earlier.now) proxies.now) }
{
    let mut found = Vec::new(alloc);
    for proxy in proxies {
        if went_back(earlier, proxy) {
            found.push(*proxy)?;
        }
    }
    Ok(found)
}

/// Adds milliseconds below a million seconds, as seconds with one decimal.
fn push_tenths(text: &mut Vec<u8>, milliseconds: u64) -> Result<(), AllocError>
    requires { milliseconds < 10 ^ 9 }
    ensures { OnOk result (text.new.items ≡ text.old.items ++ seconds_text milliseconds) }
{
    push_decimal(text, milliseconds / 1000)?;
    text.extend_from_slice(b".")?;
    push_decimal(text, milliseconds % 1000 / 100)?;
    Ok(())
}

/// Adds milliseconds as seconds, with one decimal or in short.
fn push_seconds(text: &mut Vec<u8>, milliseconds: u128) -> Result<(), AllocError>
    ensures { OnOk result (text.new.items ≡ text.old.items ++ seconds_text milliseconds) }
{
    if milliseconds < 1_000_000_000 {
        push_tenths(text, milliseconds as u64)
    } else {
        let seconds = milliseconds / 1000;
        push_short(text, seconds.min(u128::from(u64::MAX)) as u64)
    }
}

/// What is less than a decimal counts as a whole one.
fn rounded_up(milliseconds: u128) -> u128
    ensures { result ≡ rounded_up milliseconds }
{
    milliseconds.saturating_add(99)
}

/// Adds how far the clocks are apart, and may be.
fn push_apart(text: &mut Vec<u8>, spread: Spread, interval: u64) -> Result<(), AllocError>
    ensures { OnOk result (text.new.items ≡ text.old.items ++ apart_text spread interval) }
{
    text.extend_from_slice(b", ")?;
    push_seconds(text, spread.at_least)?;
    text.extend_from_slice(b" to ")?;
    push_seconds(text, rounded_up(spread.at_most))?;
    text.extend_from_slice(b" s apart, ")?;
    push_short(text, interval)?;
    text.extend_from_slice(b" s allowed")?;
    Ok(())
}

/// Adds the same where a proxy told what its clock said.
fn push_spread(text: &mut Vec<u8>, spread: Option<Spread>, interval: u64) -> Result<(), AllocError>
    ensures { OnOk result (text.new.items ≡ text.old.items ++ spread_text spread interval) }
{
    match spread {
        Some(spread) => push_apart(text, spread, interval),
        None => Ok(()),
    }
}

/// The first pool found, or this one where it is one.
fn or_pool(first: Option<u32>, here: bool, pool: u32) -> Option<u32>
    ensures { result ≡ or_pool first here pool }
{
    match first {
        Some(first) => Some(first),
        None => { if here { Some(pool) } else { None } }
    }
}

/// The new pool of the first hop that hasn't begun, by each proxy that answered.
pub(crate) fn upcoming_pool(schedule: &Schedule, proxies: &[ProxySeen<'_>]) -> Option<u32>
    ensures { result ≡ upcoming_pool schedule.now proxies.now }
{
    let mut first = None;
    for hop in 0..schedule.hops() {
        let here = are_before(proxies, schedule.start(hop));
        first = or_pool(first, here, hop + 1);
    }
    first
}

/// Adds how many nodes of a pool told what they hold.
fn push_seen(text: &mut Vec<u8>, sums: &PoolSeen) -> Result<(), AllocError>
    ensures { OnOk result (text.new.items ≡ text.old.items ++ seen_text sums.now) }
{
    text.extend_from_slice(b": ")?;
    push_short(text, sums.seen)?;
    text.extend_from_slice(b" of ")?;
    push_counted(text, sums.nodes, " node")?;
    text.extend_from_slice(b" seen, ")?;
    Ok(())
}

/// Adds what a pool holds: all of its nodes told that, or only so many did.
fn push_held(text: &mut Vec<u8>, sums: &PoolSeen) -> Result<(), AllocError>
    ensures { OnOk result (text.new.items ≡ text.old.items ++ holds_text sums.now) }
{
    if sums.seen == sums.nodes {
        text.extend_from_slice(b" holds ")?;
    } else {
        push_seen(text, sums)?;
    }
    push_counted(text, sums.items, " item")?;
    Ok(())
}

/// Adds which pool it is, and what it holds.
fn push_pool(text: &mut Vec<u8>, pool: u32, nodes: &[NodeSeen<'_>]) -> Result<(), AllocError>
    ensures { OnOk result (text.new.items ≡ text.old.items ++ pool_text (Some pool) nodes.now) }
{
    text.extend_from_slice(b", pool ")?;
    push_decimal(text, u64::from(pool))?;
    push_held(text, &pool_of(pool, nodes))?;
    Ok(())
}

/// Adds what the next new pool holds, where there is one.
fn push_new_pool(
    text: &mut Vec<u8>,
    pool: Option<u32>,
    nodes: &[NodeSeen<'_>],
) -> Result<(), AllocError>
    ensures { OnOk result (text.new.items ≡ text.old.items ++ pool_text pool nodes.now) }
{
    match pool {
        Some(pool) => push_pool(text, pool, nodes),
        None => Ok(()),
    }
}

/// Adds the line of a premise of which some proxies tell something.
fn push_named_line(
    text: &mut Vec<u8>,
    colours: bool,
    name: &str,
    finding: Finding,
    said: &str,
    proxies: &[ProxySeen<'_>],
) -> Result<(), AllocError>
    ensures { OnOk result (text.new.items ≡ text.old.items ++ named_line colours name.now finding said.now proxies.now) }
{
    push_found(text, colours, name, finding)?;
    push_named(text, said, proxies)?;
    text.extend_from_slice(b"\n")?;
    Ok(())
}

/// Adds the line of the premise that all proxies have one configuration.
pub(crate) fn push_same(
    alloc: Global,
    text: &mut Vec<u8>,
    colours: bool,
    view: &View<'_>,
) -> Result<(), AllocError>
    ensures { OnOk result (text.new.items ≡ text.old.items ++ same_line colours view.now) }
{
    let others = others_of(alloc, view.look.proxies, view.expected)?;
    push_named_line(
        text,
        colours,
        "same configuration  ",
        view.findings.same,
        " differs",
        others.as_slice(),
    )
}

/// Adds the line of a premise of which a pool tells something.
fn push_pool_line(
    text: &mut Vec<u8>,
    colours: bool,
    name: &str,
    finding: Finding,
    pool: Option<u32>,
    nodes: &[NodeSeen<'_>],
) -> Result<(), AllocError>
    ensures { OnOk result (text.new.items ≡ text.old.items ++ pool_line colours name.now finding pool nodes.now) }
{
    push_found(text, colours, name, finding)?;
    push_new_pool(text, pool, nodes)?;
    text.extend_from_slice(b"\n")?;
    Ok(())
}

/// Adds the line of the premise that each new pool is empty when its migration begins.
pub(crate) fn push_empty(
    text: &mut Vec<u8>,
    colours: bool,
    view: &View<'_>,
) -> Result<(), AllocError>
    ensures { OnOk result (text.new.items ≡ text.old.items ++ empty_line colours view.now) }
{
    let pool = upcoming_pool(&view.schedule, view.look.proxies);
    push_pool_line(
        text,
        colours,
        "new pool empty      ",
        view.findings.empty,
        pool,
        view.look.nodes,
    )
}

/// Adds the line of a premise of which a spread tells something.
fn push_spread_line(
    text: &mut Vec<u8>,
    colours: bool,
    name: &str,
    finding: Finding,
    spread: Option<Spread>,
    interval: u64,
) -> Result<(), AllocError>
    ensures { OnOk result (text.new.items ≡ text.old.items ++ spread_line colours name.now finding spread interval) }
{
    push_found(text, colours, name, finding)?;
    push_spread(text, spread, interval)?;
    text.extend_from_slice(b"\n")?;
    Ok(())
}

/// Adds the line of the premise that no two clocks differ by more than the least interval.
pub(crate) fn push_near(
    text: &mut Vec<u8>,
    colours: bool,
    view: &View<'_>,
) -> Result<(), AllocError>
    ensures { OnOk result (text.new.items ≡ text.old.items ++ near_line colours view.now) }
{
    let spread = spread_of(view.look.proxies);
    push_spread_line(
        text,
        colours,
        "clocks near         ",
        view.findings.near,
        spread,
        view.schedule.least_interval(),
    )
}

/// Adds the line of the premise that no clock goes back.
pub(crate) fn push_forward(
    alloc: Global,
    text: &mut Vec<u8>,
    colours: bool,
    view: &View<'_>,
) -> Result<(), AllocError>
    ensures { OnOk result (text.new.items ≡ text.old.items ++ forward_line colours view.now) }
{
    let backward = backward_of(alloc, view.earlier, view.look.proxies)?;
    push_named_line(
        text,
        colours,
        "no clock went back  ",
        view.findings.forward,
        " went back",
        backward.as_slice(),
    )
}

/// Adds the lines of all premises.
#[tactic(auto, unfolding(crate::specs::PremiseLines::premises_text))]
pub(crate) fn push_premises(
    alloc: Global,
    text: &mut Vec<u8>,
    colours: bool,
    view: &View<'_>,
) -> Result<(), AllocError>
    ensures { OnOk result (text.new.items ≡ text.old.items ++ premises_text colours view.now) }
{
    push_same(alloc, text, colours, view)?;
    push_empty(text, colours, view)?;
    push_near(text, colours, view)?;
    push_forward(alloc, text, colours, view)?;
    Ok(())
}
