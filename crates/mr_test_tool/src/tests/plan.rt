//! Configurations, plans, scripts and transcripts, as calls: what each gives where all goes well, and the refusals that the
//! program doesn't print whole.
mod configs;
mod scripts;

use super::is;
use mr_phases::Schedule;
use mr_pools::{NodeName, Pool, Routing};
use std::alloc::{AllocError, Global};
use std::fmt::Debug;
use std::process::Abort;

/// Asserts which value there is in one case of several.
fn is_for<T: PartialEq + Debug + Drop>(rt: &impl Abort, value: T, wanted: T, case: &str) {
    assert_eq!(rt; value, wanted, "in the case of {case}");
}

/// The text with another part in the place of one that has to stand in it.
fn replace_part(
    rt: &impl Abort,
    alloc: Global,
    text: &str,
    (part, new): (&str, &str),
) -> Result<String, AllocError> {
    assert!(rt; text.contains(part), "no {part}");
    text.replacen(alloc, part, new, 1)
}

/// Whether these are the names, in this order.
fn are_names(names: &[NodeName], wanted: &[&str]) -> bool {
    if names.len() != wanted.len() {
        return false;
    }
    for (place, name) in names.iter().enumerate() {
        if name.as_str() != wanted[place] {
            return false;
        }
    }
    true
}

/// When the first migration of a schedule starts, and how long each of its middle phases lasts.
fn first_hop(schedule: Schedule) -> (u64, u64) {
    let _hops = schedule.hops();
    (schedule.start(0), schedule.interval(0))
}

/// Asserts which nodes the pools of the first migration have.
fn moves_between(rt: &impl Abort, routing: &Routing, old: &[&str], new: &[&str]) {
    is(rt, routing.hops(), 1);
    names_are(rt, routing.old_pool(0), old);
    names_are(rt, routing.new_pool(0), new);
}

/// Asserts that a pool has these names in this order.
fn names_are(rt: &impl Abort, pool: &Pool, wanted: &[&str]) {
    is(rt, are_names(pool.names(), wanted), true);
}
