//! Clocks whose readings are given.
use super::shows;
use crate::tests::must;
use mr_clock::{FixedClock, ListClock};
use std::alloc::Global;
use std::process::Abort;

/// The members of a list, and what a clock of it shows, one reading after the other.
type Row = (&'static [Option<u64>], &'static [Option<u64>]);

static LISTS: [Row; 3] = [
    (
        &[Some(999), None, Some(1000)],
        &[Some(999), None, Some(1000), Some(1000)],
    ),
    // A last fault stays.
    (&[Some(999), None], &[Some(999), None, None]),
    (&[], &[None, None]),
];

fn gives(rt: &impl Abort, alloc: Global, row: usize, it: &Row) {
    let mut clock = ListClock::new(must(rt, Vec::from_slice(alloc, it.0)));
    for wanted in it.1 {
        shows(rt, row, &mut clock, *wanted);
    }
}

#[test]
fn a_list_gives_each_member_and_then_the_last(rt: HostRuntime) {
    for (row, it) in LISTS.iter().enumerate() {
        gives(&rt, rt.alloc(), row, it);
    }
}

/// Asserts that a copy of a clock that gave its first reading gives what is left, and takes nothing from the clock.
fn is_copied(rt: &impl Abort, clock: &mut ListClock) {
    shows(rt, 0, clock, Some(999));
    let mut copy = must(rt, clock.copy());
    shows(rt, 1, &mut copy, None);
    shows(rt, 2, &mut copy, Some(1000));
    shows(rt, 3, clock, None);
}

#[test]
fn a_copied_list_gives_what_is_left(rt: HostRuntime) {
    let list = must(&rt, Vec::from_slice(rt.alloc(), LISTS[0].0));
    is_copied(&rt, &mut ListClock::new(list));
}

#[test]
fn stands_still(rt: HostRuntime) {
    let mut clock = FixedClock(999);
    shows(&rt, 0, &mut clock, Some(999));
    shows(&rt, 1, &mut clock, Some(999));
}
