//! Worked values of clocks and of a fleet's readings.
mod list_clock;
mod memory;
mod readings;
mod system_clock;

use super::{count_is, holds, is, number_is};
use mr_clock::Clock;
use std::process::Abort;

/// Asserts what a clock shows, or that it fails.
fn shows<C: Clock>(rt: &impl Abort, row: usize, clock: &mut C, wanted: Option<u64>) {
    is(rt, row, clock.now().ok(), wanted);
}
