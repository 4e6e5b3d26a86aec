//! The readings of a fleet.
use super::{count_is, holds, is, number_is};
use crate::tests::must;
use mr_clock::{ClockError, ClockFault, Readings};
use std::alloc::Global;
use std::process::Abort;

/// Asserts the greatest difference that there was, and whether a reading went back.
fn tells(rt: &impl Abort, row: usize, readings: &Readings, spread: u64, went_back: bool) {
    number_is(rt, row, readings.spread(), spread);
    holds(rt, row, readings.went_back(), went_back);
}

/// A proxy, its reading, whether it is taken, and what the readings tell then: the greatest difference that there was, and
/// whether one went back.
type Step = (usize, u64, Result<(), ClockError>, u64, bool);

/// Steps of two readings that begin at 1000 and 1100.
static STEPS: [Step; 3] = [
    (0, 999, Ok(()), 101, true),
    (0, 1050, Ok(()), 101, true),
    (2, 5, Err(ClockError::NoSuchProxy), 101, true),
];

/// Sets each reading, and asserts what the readings tell then.
fn goes_on(rt: &impl Abort, readings: &mut Readings) {
    for (row, it) in STEPS.iter().enumerate() {
        is(rt, row, readings.set(it.0, it.1), it.2);
        tells(rt, row, readings, it.3, it.4);
    }
}

/// Asserts what is left of the steps.
fn are_left(rt: &impl Abort, readings: &Readings) {
    count_is(rt, 3, readings.len(), 2);
    is(rt, 3, readings.get(0), Some(1050));
    is(rt, 3, readings.get(1), Some(1100));
    is(rt, 3, readings.get(2), None);
    tells(rt, 3, readings, 101, true);
}

/// The readings at the beginning.
fn first_readings(rt: &impl Abort, alloc: Global) -> Readings {
    Readings::new(must(rt, Vec::from_slice(alloc, &[1000, 1100])))
}

#[test]
fn the_greatest_difference_stays(rt: HostRuntime) {
    let mut readings = first_readings(&rt, rt.alloc());
    tells(&rt, 0, &readings, 100, false);
    goes_on(&rt, &mut readings);
    are_left(&rt, &readings);
    are_left(&rt, &must(&rt, readings.copy()));
}

/// Asserts that one reading that is set again differs from none.
fn stays_alone(rt: &impl Abort, mut one: Readings) {
    is(rt, 1, one.set(0, 999), Ok(()));
    tells(rt, 1, &one, 0, false);
}

#[test]
fn fewer_than_two_readings_have_no_difference(rt: HostRuntime) {
    number_is(&rt, 0, Readings::new(Vec::new(rt.alloc())).spread(), 0);
    let one = must(&rt, Vec::from_slice(rt.alloc(), &[999]));
    stays_alone(&rt, Readings::new(one));
}

/// Asserts the number of each refusal.
fn are_numbered(rt: &impl Abort) {
    is(rt, 0, ClockError::from(ClockFault).number(), 1);
    is(rt, 1, ClockError::NoSuchProxy.number(), 2);
    is(rt, 2, ClockError::OutOfMemory.number(), 3);
}

#[test]
fn refusals_have_numbers(rt: HostRuntime) {
    are_numbered(&rt);
}
