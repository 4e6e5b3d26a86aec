//! Copies where memory is refused: the same call made again gives what it gives with ample memory.
use super::{holds, number_is, shows};
use crate::tests::must;
use mr_clock::{ListClock, Readings};
use mr_test_support::at_last;
use std::alloc::AllocError;

#[test]
fn refused_memory_copies_a_list_clock_later(rt: HostRuntime) {
    let list = must(&rt, Vec::from_slice(rt.alloc(), &[Some(999), None]));
    let mut clock = ListClock::new(list);
    shows(&rt, 0, &mut clock, Some(999));
    let mut copy = must(&rt, at_last!(&rt, clock.copy(), Err(AllocError)));
    shows(&rt, 1, &mut copy, None);
    shows(&rt, 2, &mut clock, None);
}

#[test]
fn refused_memory_copies_readings_later(rt: HostRuntime) {
    let list = must(&rt, Vec::from_slice(rt.alloc(), &[1000, 1100]));
    let mut readings = Readings::new(list);
    must(&rt, readings.set(0, 999));
    let copy = must(&rt, at_last!(&rt, readings.copy(), Err(AllocError)));
    number_is(&rt, 0, copy.spread(), 101);
    holds(&rt, 1, copy.went_back(), true);
    number_is(&rt, 2, copy.get(1).unwrap_or(0), 1100);
}
