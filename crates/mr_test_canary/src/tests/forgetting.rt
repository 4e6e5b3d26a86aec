//! Long runs: what is kept stays little, and what was forgotten convicts all the same.
use super::holds;
use super::playing::Played;
use super::playing::Step::{Delete, Get, Set, Told};
use mr_canary::Answer::{Deleted, Hit, Stored, Unanswered};
use std::alloc::Global;
use std::process::Abort;

const KEYS: usize = 16;

/// One round at a key, whose requests come behind so many: each third set is not answered.
fn round(rt: &impl Abort, played: &mut Played, key: usize, turn: usize, before: usize) {
    let answer = if turn % 3 == 2 { Unanswered } else { Stored };
    let client = if key % 2 == 0 { 0 } else { 1 };
    holds(rt, played.step(rt, Set(client, key)).is_none(), "a set");
    holds(rt, played.step(rt, Told(before, answer)).is_none(), "told");
    holds(rt, played.step(rt, Delete(1, key)).is_none(), "a delete");
    let told = played.step(rt, Told(before.saturating_add(1), Deleted));
    holds(rt, told.is_none(), "acknowledged");
}

/// Whether a hit of this value convicts, whose get comes behind so many requests.
fn comes_back(rt: &impl Abort, played: &mut Played, key: usize, value: u64, before: usize) -> bool {
    played.step(rt, Get(0, key));
    played.step(rt, Told(before, Hit { value })).is_some()
}

/// Plays twelve rounds at each key, and then hits of each value.
fn plays_rounds(rt: &impl Abort, alloc: Global) {
    let mut played = Played::new(rt, alloc, KEYS, 8);
    let mut before: usize = 0;
    for turn in 0..12 {
        for key in 0..KEYS {
            round(rt, &mut played, key, turn, before);
            before = before.saturating_add(2);
        }
    }
    for key in 0..KEYS {
        holds(
            rt,
            played.kept(key) == 4,
            "each third set of twelve is kept",
        );
        for value in 0..12_u64 {
            let convicts = comes_back(rt, &mut played, key, value, before);
            holds(rt, convicts == (value % 3 != 2), "what was answered");
            before = before.saturating_add(1);
        }
    }
}

#[test]
fn forgotten_values_convict(rt: HostRuntime) {
    plays_rounds(&rt, rt.alloc());
}
