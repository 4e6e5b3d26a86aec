//! A module of tests for each crate.
mod phases;
mod pools;
mod text;

ghost use Rattle.std.specs.Prelude.{◌≡◌, Ok};

use mr_test_support::{Rule, TakesHalf};
use std::alloc::Global;
use std::fmt::Debug;
use std::process::Abort;

/// What a call gave that has to go well. A test ends here where it failed.
fn must<T, E>(rt: &impl Abort, called: Result<T, E>) -> T
    ensures { called ≡ Ok result }
{
    match called {
        Ok(value) => value,
        Err(_) => rt.panic("a call failed that has to go well"),
    }
}

/// Asserts what a row of a table comes to. Where it is something else, the row's number is told with both values.
fn is<T: Copy + Debug + PartialEq>(rt: &impl Abort, row: usize, found: T, wanted: T) {
    assert_eq!(rt; found, wanted, "row {row}");
}

/// The same of a fact.
fn holds(rt: &impl Abort, row: usize, found: bool, wanted: bool) {
    is(rt, row, found, wanted);
}

/// The same of a number.
fn number_is(rt: &impl Abort, row: usize, found: u64, wanted: u64) {
    is(rt, row, found, wanted);
}

/// The same of a count.
fn count_is(rt: &impl Abort, row: usize, found: usize, wanted: usize) {
    is(rt, row, found, wanted);
}

/// The same of bytes.
fn are(rt: &impl Abort, row: usize, found: &[u8], wanted: &[u8]) {
    is(rt, row, found, wanted);
}

/// The same of a text.
fn says(rt: &impl Abort, row: usize, found: &str, wanted: &str) {
    is(rt, row, found, wanted);
}

/// So many equal bytes.
fn equal_bytes(rt: &impl Abort, alloc: Global, byte: u8, count: usize) -> Vec<u8> {
    must(rt, mr_test_support::equal_bytes(alloc, byte, count))
}

/// The bytes of a rule.
fn bytes_of_rule(rt: &impl Abort, alloc: Global, rule: Rule) -> Vec<u8> {
    must(rt, mr_test_support::bytes_of_rule(alloc, rule))
}

/// Asserts what a device has that is made to fail in one of its calls, where a text is written in so many calls.
fn leaves(
    rt: &impl Abort,
    row: usize,
    has_failed: bool,
    device: &TakesHalf,
    text: &[u8],
    calls: usize,
) {
    holds(rt, row, device.has_left(has_failed, text, calls), true);
}
