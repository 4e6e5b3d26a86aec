//! What clients note, step by step, and what the judge says of it.
mod forgetting;
mod playing;
mod probing;
mod refusing;
mod rows;
mod sightings;

use std::process::Abort;

/// What a call gave that has to go well. A test ends here where it failed.
fn must<T, E>(rt: &impl Abort, called: Result<T, E>) -> T {
    match called {
        Ok(value) => value,
        Err(_) => rt.panic("a call failed that has to go well"),
    }
}

/// Asserts what is said here.
fn holds(rt: &impl Abort, fact: bool, said: &str) {
    assert!(rt; fact, "{said}");
}
