//! A module of tests for fleets that are played event by event, one for plans and scripts, one for the commands of the program,
//! and one that a library user could have written.
mod plan;
mod surface;
mod tool;
mod world;

use std::fmt::Debug;
use std::process::Abort;

/// What a call gave that has to go well. A test ends here where it failed.
fn must<T, E>(rt: &impl Abort, called: Result<T, E>) -> T {
    match called {
        Ok(value) => value,
        Err(_) => rt.panic("a call failed that has to go well"),
    }
}

/// Asserts which value there is.
fn is<T: PartialEq + Debug + Drop>(rt: &impl Abort, value: T, wanted: T) {
    assert_eq!(rt; value, wanted);
}
