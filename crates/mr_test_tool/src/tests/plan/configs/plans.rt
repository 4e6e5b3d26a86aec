//! Plans, timelines and advice over the configuration of the worked examples.
use super::*;
use crate::tests::must;
use mr_proxy::LegSheet;
use std::process::Abort;

/// One request that is planned.
#[derive(Clone, Copy)]
pub(super) enum Asked {
    Get(&'static [u8]),
    Delete(u8),
    Quit,
}

/// A plan: what is asked and when, the phase, and each leg's side and node.
pub(super) type Row = (Asked, u64, PhaseName, &'static [(Side, u32)]);

pub(super) static ROWS: [Row; 3] = [
    (
        Asked::Delete(b'k'),
        1000,
        PhaseName::BothReadOld,
        &[(Side::Old, 1), (Side::New, 2)],
    ),
    (
        Asked::Get(b"kkb"),
        999,
        PhaseName::OldOnly,
        &[(Side::Old, 1), (Side::Old, 1), (Side::Old, 0)],
    ),
    (Asked::Quit, 1100, PhaseName::BothReadNew, &[]),
];

fn key(alloc: Global, byte: u8) -> Result<Key, Fail> {
    match Key::new(alloc, &[byte]) {
        Ok(key) => Ok(key),
        Err(_) => Err(Fail::from("no key")),
    }
}

fn keys(alloc: Global, bytes: &[u8]) -> Result<KeyList, Fail> {
    let mut keys = Vec::new(alloc);
    for byte in bytes {
        keys.push(key(alloc, *byte)?)?;
    }
    match KeyList::new(keys) {
        Ok(keys) => Ok(keys),
        Err(_) => Err(Fail::from("no keys")),
    }
}

pub(super) fn request(rt: &impl Abort, alloc: Global, asked: Asked) -> Request {
    match asked {
        Asked::Get(bytes) => Request::Get {
            keys: must(rt, keys(alloc, bytes)),
        },
        Asked::Delete(byte) => Request::Delete {
            key: must(rt, key(alloc, byte)),
            noreply: false,
        },
        Asked::Quit => Request::Quit,
    }
}

/// Whether legs have these sides and nodes, in this order.
fn are_legs(sheets: &[LegSheet], legs: &[(Side, u32)]) -> bool {
    if sheets.len() != legs.len() {
        return false;
    }
    for (place, sheet) in sheets.iter().enumerate() {
        let (side, node) = legs[place];
        if sheet.side != side || sheet.node != node {
            return false;
        }
    }
    true
}

/// Asserts what a plan says.
pub(super) fn plan_is(rt: &impl Abort, plan: &RequestPlan, row: Row) {
    let (_, at, phase, legs) = row;
    is(rt, (plan.hop(), plan.phase()), (0, phase));
    is(rt, plan.reading(), at);
    is(rt, are_legs(plan.sheets(), legs), true);
}

/// The plan of a request.
fn planned(rt: &impl Abort, alloc: Global, config: &Config, row: Row) -> Result<RequestPlan, Fail> {
    let request = request(rt, alloc, row.0);
    match plan(alloc, config, row.1, request) {
        Ok(plan) => Ok(plan),
        Err(_) => Err(Fail::from("no plan")),
    }
}

/// Plans a request, and asserts what the plan and a copy of it say.
fn goes(rt: &impl Abort, alloc: Global, config: &Config, row: Row) -> Result<(), Fail> {
    let plan = planned(rt, alloc, config, row)?;
    plan_is(rt, &plan, row);
    plan_is(rt, &plan.copy()?, row);
    Ok(())
}

#[test]
fn requests_go_where_the_phase_says(rt: HostRuntime) {
    let config = must(&rt, config(rt.alloc(), FLEET));
    for row in &ROWS {
        must(&rt, goes(&rt, rt.alloc(), &config, *row));
    }
}

/// The first and the last second of a span.
const fn span(first: u64, last: u64) -> Span {
    Span { first, last }
}

/// Asserts which timeline a configuration has.
fn timeline_is(rt: &impl Abort, config: &Config, wanted: PhaseTimes) {
    let times = timeline(config);
    if times.hops() != 1 {
        rt.panic("another number of migrations");
    }
    assert_eq!(rt; times.of(0), wanted);
}

#[test]
fn the_timeline_has_four_spans(rt: HostRuntime) {
    timeline_is(
        &rt,
        &must(&rt, config(rt.alloc(), FLEET)),
        PhaseTimes {
            old_only: Some(span(0, 999)),
            both_read_old: span(1000, 1099),
            both_read_new: span(1100, 1199),
            new_only: NewOnlyTime::Since(1200),
        },
    );
}

/// The advice for clocks with these readings.
fn advice(alloc: Global, config: &Config, readings: &[u64]) -> Result<Advice, Fail> {
    match advise(alloc, config, readings) {
        Ok(advice) => Ok(advice),
        Err(_) => Err(Fail::from("no advice")),
    }
}

/// Asserts how far clocks are apart, and whether they are near.
fn spread_is(rt: &impl Abort, advice: &Advice, spread: u64, near: bool) {
    is(rt, advice.spread(), spread);
    is(rt, advice.near(), near);
}

/// Asserts what is told of clocks too far apart.
pub(super) fn far_is_told(rt: &impl Abort, advice: &Advice) {
    let standings = [
        Standing {
            hop: 0,
            phase: PhaseName::OldOnly,
        },
        Standing {
            hop: 0,
            phase: PhaseName::BothReadNew,
        },
    ];
    is(rt, advice.standings() == standings.as_slice(), true);
    spread_is(rt, advice, 101, false);
    is(rt, advice.interval(), 100);
}

#[test]
fn advice_tells_phases_and_spread(rt: HostRuntime) {
    let config = must(&rt, config(rt.alloc(), FLEET));
    let far = must(&rt, advice(rt.alloc(), &config, &[999, 1100]));
    far_is_told(&rt, &far);
    far_is_told(&rt, &must(&rt, far.copy()));
    let near = must(&rt, advice(rt.alloc(), &config, &[1000, 1100, 1050]));
    spread_is(&rt, &near, 100, true);
    spread_is(&rt, &must(&rt, advice(rt.alloc(), &config, &[])), 0, true);
}
