//! Transcripts: written by a play, and held against a play of their own events.
use super::*;
use crate::tests::must;
use mr_scripts::read_events;
use mr_transcripts::{Checked, Outcome, check_transcript, write_transcript};

/// One proxy at 999 gets a key that no node has.
pub(super) const SCRIPT: &str =
    "{\"events\":[{\"do\":\"client\",\"proxy\":0,\"request\":{\"keys\":[\"k\"],\"kind\":\"get\"}},{\"do\":\"deliver\",\"message\":0,\"now\":999},{\"do\":\"return\",\"reply\":0}],\"format\":1,\"setup\":{\"capacity\":4,\"config\":{\"hash\":\"sum\",\"pools\":{\"new\":{\"servers\":[\"7101\",\"7102\",\"7103\"]},\"old\":{\"servers\":[\"7001\",\"7002\"]}},\"route\":{\"from\":\"PoolRoute|old\",\"interval\":100,\"start_time\":1000,\"to\":\"PoolRoute|new\",\"type\":\"MigrateRoute\"}},\"held\":[],\"proxies\":[{\"reading\":999,\"room\":4}]}}";

/// Its transcript.
pub(super) const TRANSCRIPT: &str =
    "{\"events\":[{\"do\":\"client\",\"proxy\":0,\"request\":{\"keys\":[\"k\"],\"kind\":\"get\"}},{\"do\":\"deliver\",\"message\":0,\"now\":999},{\"do\":\"return\",\"reply\":0}],\"format\":1,\"history\":[{\"entry\":\"issued\",\"op\":[0,0,0],\"proxy\":0,\"request\":{\"keys\":[\"k\"],\"kind\":\"get\"}},{\"entry\":\"answered\",\"op\":[0,0,0],\"reply\":{\"items\":[]}}],\"notes\":[{\"issued\":[0,0,0],\"messages\":[0,1]},{\"performed\":0},{\"answered\":[0,0,0]}],\"premises\":{\"forward\":true,\"near\":true,\"new_empty\":true,\"same\":true},\"setup\":{\"capacity\":4,\"config\":{\"hash\":\"sum\",\"pools\":{\"new\":{\"servers\":[\"7101\",\"7102\",\"7103\"]},\"old\":{\"servers\":[\"7001\",\"7002\"]}},\"route\":{\"from\":\"PoolRoute|old\",\"interval\":100,\"start_time\":1000,\"to\":\"PoolRoute|new\",\"type\":\"MigrateRoute\"}},\"held\":[],\"proxies\":[{\"reading\":999,\"room\":4}]},\"verdict\":\"safe\"}";

/// The transcript of a script.
pub(super) fn transcript(alloc: Global, script: &str) -> Result<Vec<u8>, PlanError> {
    write_transcript(alloc, read_events(alloc, script.as_bytes())?)
}

/// The transcript of a copy of a script.
fn transcript_of_copy(alloc: Global, script: &str) -> Result<Vec<u8>, PlanError> {
    let script = read_events(alloc, script.as_bytes())?;
    write_transcript(alloc, script.copy()?)
}

/// Asserts that the transcript was written.
fn is_written(rt: &impl Abort, written: Result<Vec<u8>, PlanError>) {
    match written {
        Ok(text) => is(rt, text.as_slice() == TRANSCRIPT.as_bytes(), true),
        Err(refusal) => is(rt, refusal, PlanError::NotJson),
    }
}

#[test]
fn a_script_has_a_transcript(rt: HostRuntime) {
    is_written(&rt, transcript(rt.alloc(), SCRIPT));
    is_written(&rt, transcript_of_copy(rt.alloc(), SCRIPT));
}

/// A played script: its text, whether the premises hold (the same, the new pool empty, forward, near), the get and the
/// delete of a stale verdict, and what a check of its transcript finds.
type Played = (
    &'static str,
    [bool; 4],
    Option<([u64; 3], [u64; 3])>,
    Outcome,
);

static PLAYED: [Played; 2] = [
    (
        "{\"events\":[{\"do\":\"client\",\"proxy\":1,\"request\":{\"data\":\"v\",\"exptime\":0,\"flags\":0,\"key\":\"k\",\"kind\":\"set\"}},{\"do\":\"deliver\",\"message\":0,\"now\":1100},{\"do\":\"return\",\"reply\":0},{\"do\":\"client\",\"proxy\":0,\"request\":{\"key\":\"k\",\"kind\":\"delete\"}},{\"do\":\"deliver\",\"message\":1,\"now\":1000},{\"do\":\"return\",\"reply\":1},{\"do\":\"deliver\",\"message\":2,\"now\":1000},{\"do\":\"return\",\"reply\":2},{\"do\":\"client\",\"proxy\":1,\"request\":{\"keys\":[\"k\"],\"kind\":\"get\"}},{\"do\":\"deliver\",\"message\":3,\"now\":1100},{\"do\":\"return\",\"reply\":3}],\"format\":1,\"setup\":{\"capacity\":4,\"config\":{\"hash\":\"sum\",\"pools\":{\"new\":{\"servers\":[\"7101\",\"7102\",\"7103\"]},\"old\":{\"servers\":[\"7001\",\"7002\"]}},\"route\":{\"from\":\"PoolRoute|old\",\"interval\":100,\"start_time\":1000,\"to\":\"PoolRoute|new\",\"type\":\"MigrateRoute\"}},\"held\":[],\"proxies\":[{\"reading\":1000,\"room\":4},{\"reading\":1100,\"room\":4}]}}",
        [true, true, true, true],
        None,
        Outcome::Accepted,
    ),
    (
        "{\"events\":[{\"do\":\"client\",\"proxy\":1,\"request\":{\"data\":\"v\",\"exptime\":0,\"flags\":0,\"key\":\"k\",\"kind\":\"set\"}},{\"do\":\"deliver\",\"message\":0,\"now\":1100},{\"do\":\"return\",\"reply\":0},{\"do\":\"client\",\"proxy\":0,\"request\":{\"key\":\"k\",\"kind\":\"delete\"}},{\"do\":\"deliver\",\"message\":1,\"now\":999},{\"do\":\"return\",\"reply\":1},{\"do\":\"client\",\"proxy\":1,\"request\":{\"keys\":[\"k\"],\"kind\":\"get\"}},{\"do\":\"deliver\",\"message\":2,\"now\":1100},{\"do\":\"return\",\"reply\":2}],\"format\":1,\"setup\":{\"capacity\":4,\"config\":{\"hash\":\"sum\",\"pools\":{\"new\":{\"servers\":[\"7101\",\"7102\",\"7103\"]},\"old\":{\"servers\":[\"7001\",\"7002\"]}},\"route\":{\"from\":\"PoolRoute|old\",\"interval\":100,\"start_time\":1000,\"to\":\"PoolRoute|new\",\"type\":\"MigrateRoute\"}},\"held\":[],\"proxies\":[{\"reading\":999,\"room\":4},{\"reading\":1100,\"room\":4}]}}",
        [true, true, true, false],
        Some(([1, 0, 1], [0, 0, 0])),
        Outcome::PremiseFalse,
    ),
];

fn numbers(op: OpId) -> [u64; 3] {
    [u64::from(op.proxy), op.incarnation, op.number]
}

/// What a verdict tells of a stale hit.
fn stale(verdict: &KeptVerdict) -> Option<([u64; 3], [u64; 3])> {
    match verdict {
        KeptVerdict::Stale { get, delete, .. } => Some((numbers(*get), numbers(*delete))),
        KeptVerdict::Safe | KeptVerdict::Invented { .. } => None,
    }
}

/// Whether the premises hold: the same, the new pool empty, forward, near.
fn premises_of(checked: &Checked) -> [bool; 4] {
    let told = checked.premises;
    [told.same, told.new_empty, told.forward, told.near]
}

/// Asserts what was found of a played script.
fn is_checked(rt: &impl Abort, checked: &Checked, played: &Played) {
    let (_, premises, verdict, outcome) = played;
    is(rt, premises_of(checked) == *premises, true);
    is(rt, stale(&checked.verdict) == *verdict, true);
    is(rt, checked.outcome == *outcome, true);
}

/// What a check finds of the transcript of a script.
fn checked_transcript(alloc: Global, script: &str) -> Result<Checked, PlanError> {
    check_transcript(alloc, transcript(alloc, script)?.as_slice())
}

/// Asserts that a script is played and checked as told, and that copies of what was found say the same.
fn goes(rt: &impl Abort, alloc: Global, played: &Played) -> Result<(), Fail> {
    match checked_transcript(alloc, played.0) {
        Ok(checked) => {
            is_checked(rt, &checked, played);
            is_checked(rt, &checked.copy()?, played);
            is(rt, stale(&checked.verdict.copy()?) == played.2, true);
            Ok(())
        }
        Err(_) => Err(Fail::from("refused")),
    }
}

#[test]
fn written_transcripts_are_checked(rt: HostRuntime) {
    for played in &PLAYED {
        must(&rt, goes(&rt, rt.alloc(), played));
    }
}
