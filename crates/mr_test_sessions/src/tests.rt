//! A module of tests for desks, for links, and for sessions, and requests and legs that several of them are made of.
mod broken;
mod desks;
mod devices;
mod links;
mod sessions;

ghost use Rattle.std.specs.Prelude.{◌≡◌, ◌≢◌, Ok};
ghost use Rattle.mr_text.specs.declared.request.Request.{Request};

use mr_proxy::Leg;
use mr_text::{Key, KeyList, Request};
use std::alloc::Global;
use std::fmt::Debug;
use std::process::Abort;

/// What a call gave that has to go well. A test ends here where it failed.
fn must<T, E>(rt: &impl Abort, called: Result<T, E>) -> T
    ensures { called ≡ Ok result }
{
    match called {
        Ok(value) => value,
        Err(_) => rt.panic("a call failed that has to go well"),
    }
}

/// Asserts what there is.
fn is<T: PartialEq + Debug>(rt: &impl Abort, said: &str, there: &T, wanted: &T) {
    assert!(rt; there == wanted, "{said}: {there:?} in place of {wanted:?}");
}

/// Asserts what there is, in the row of this number of a table.
fn is_at<T: PartialEq + Debug>(rt: &impl Abort, row: usize, said: &str, there: &T, wanted: &T) {
    assert!(rt;
        there == wanted,
        "row {row}: {said}: {there:?} in place of {wanted:?}"
    );
}

/// The get of these keys.
fn get_of(rt: &impl Abort, alloc: Global, names: &[&[u8]]) -> Request
    ensures { result ≢ Request.Quit }
{
    let mut keys = Vec::new(alloc);
    for name in names {
        must(rt, keys.push(must(rt, Key::new(alloc, name))));
    }
    Request::Get {
        keys: must(rt, KeyList::new(keys)),
    }
}

/// The delete of a key.
fn delete_of(rt: &impl Abort, alloc: Global, name: &[u8]) -> Request
    ensures { result ≢ Request.Quit }
{
    Request::Delete {
        key: must(rt, Key::new(alloc, name)),
        noreply: false,
    }
}

/// The first of some legs.
fn first_leg(rt: &impl Abort, legs: Vec<Leg>) -> Leg {
    match legs.into_iter().next() {
        Some(leg) => leg,
        None => rt.panic("no leg"),
    }
}
