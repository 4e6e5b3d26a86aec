//! Fleets of one or two proxies: the old pool is 7001 and 7002, the new one 7101 to 7103, the hash the sum of a key's
//! bytes, and the migration starts at 1000 with an interval of 100 seconds. Fleets, events and histories are told in a few
//! words.
mod by_table;
mod fleets;
mod memory;
mod moves;
mod playing;
mod refusals;
mod rows;
mod showing;
mod table;
mod telling;

use std::process::Abort;

/// Asserts what is said here.
fn holds(rt: &impl Abort, fact: bool, said: &str) {
    assert!(rt; fact, "{said}");
}
