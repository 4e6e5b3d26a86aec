//! A module of tests for fleets in memory, and one for fleets on sockets.
mod fleet;
mod sockets;

ghost use Rattle.std.specs.Prelude.{◌≡◌, Ok};

use std::fmt::Debug;
use std::process::Abort;

/// What a call gave that has to go well. A test ends here where it failed.
fn must<T, E>(rt: &impl Abort, called: Result<T, E>) -> T
    ensures { called ≡ Ok result }
{
    match called {
        Ok(value) => value,
        Err(_) => rt.panic("a call failed that has to go well"),
    }
}

/// Asserts what there is.
fn is<T: PartialEq + Debug>(rt: &impl Abort, said: &str, there: &T, wanted: &T) {
    assert!(rt; there == wanted, "{said}: {there:?} in place of {wanted:?}");
}

/// Asserts what there is, in the row of this number of a table.
fn is_at<T: PartialEq + Debug>(rt: &impl Abort, row: usize, said: &str, there: &T, wanted: &T) {
    assert!(rt;
        there == wanted,
        "row {row}: {said}: {there:?} in place of {wanted:?}"
    );
}
