//! Two proxies whose clocks are 101 seconds apart at an interval of 100: one deletes from the old pool alone, while the other
//! reads the new one. What the delete should have removed comes back.
mod drawn;
mod escaped;
mod memory;
mod run;

use std::process::Abort;

/// What a call gave that has to go well. A test ends here where it failed.
fn must<T, E>(rt: &impl Abort, called: Result<T, E>) -> T {
    match called {
        Ok(value) => value,
        Err(_) => rt.panic("a call failed that has to go well"),
    }
}

/// Asserts what is said here.
fn holds(rt: &impl Abort, fact: bool, said: &str) {
    assert!(rt; fact, "{said}");
}
