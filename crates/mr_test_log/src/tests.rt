//! A module of tests for the log, for its lines and for the watcher of the clock.
mod lines;
mod log;
mod watcher;

ghost use Rattle.std.specs.Prelude.{◌≡◌, Ok};

use mr_log::laws;
use std::fmt::Debug;
use std::process::Abort;

/// What a call gave that has to go well. A test ends here where it failed.
fn must<T, E>(rt: &impl Abort, called: Result<T, E>) -> T
    ensures { called ≡ Ok result }
{
    match called {
        Ok(value) => value,
        Err(_) => rt.panic("a call failed that has to go well"),
    }
}

/// Asserts what a row of a table comes to. Where it is something else, the row's number is told with both values.
fn is<T: Copy + Debug + PartialEq>(rt: &impl Abort, row: usize, found: T, wanted: T) {
    assert_eq!(rt; found, wanted, "row {row}");
}

#[test]
fn laws_can_be_cited() {
    laws::limits();
    laws::nothing_is_lost();
    laws::lines_are_apart();
    laws::few_wait();
    laws::lines_are_determined();
}
