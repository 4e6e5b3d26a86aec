//! Worked runs of a loop with two places for clients. Its old pool is 7001 and 7002, to which links 0 and 1 go, its new one
//! 7101 to 7103, to which links 2 to 4 go; its hash is the sum of a key's bytes, and its migration starts at 1000 with an
//! interval of 100 seconds. So `k` is kept by links 1 and 4, `a` by 1 and 3, `b` by 0 and 4, `c` by 1 and 2.
mod asking;
mod breaking;
mod counting;
mod denying;
mod leaving;
mod memory;
mod node;
mod playing;
mod replying;
mod waiting;

ghost use Rattle.std.specs.Prelude.{◌≡◌, length, Ok};

use mr_loop::{Limits, ProxyLoop};
use mr_phases::Schedule;
use mr_pools::{NamedHash, NodeName, Pool, PoolError, Routing};
use mr_proxy::ProxyCore;
use std::alloc::Global;
use std::fmt::Debug;
use std::process::Abort;

/// What a call gave that has to go well. A test ends here where it failed.
fn must<T, E>(rt: &impl Abort, called: Result<T, E>) -> T
    ensures { called ≡ Ok result }
{
    match called {
        Ok(value) => value,
        Err(_) => rt.panic("a call failed that has to go well"),
    }
}

/// Asserts what a step of a run comes to. Where it is something else, the step's number is told with both values.
fn is<T: Copy + Debug + PartialEq>(rt: &impl Abort, step: usize, found: T, wanted: T) {
    assert_eq!(rt; found, wanted, "step {step}");
}

/// The same of a fact.
fn holds(rt: &impl Abort, step: usize, found: bool, wanted: bool) {
    is(rt, step, found, wanted);
}

/// The same of bytes.
fn are(rt: &impl Abort, step: usize, found: &[u8], wanted: &[u8]) {
    is(rt, step, found, wanted);
}

/// The same of a number.
fn number_is(rt: &impl Abort, step: usize, found: u64, wanted: u64) {
    is(rt, step, found, wanted);
}

/// A pool of these nodes.
fn pool(rt: &impl Abort, alloc: Global, texts: &[&str]) -> Result<Pool, PoolError> {
    let mut names = Vec::new(alloc);
    for text in texts {
        must(
            rt,
            names.push(must(rt, NodeName::new(alloc, text.as_bytes()))),
        );
    }
    Pool::new(names)
}

/// The old pool is 7001 and 7002, the new one 7101 to 7103.
fn routing(rt: &impl Abort, alloc: Global) -> Routing
    ensures { length result.pools ≡ 2 }
{
    let old = must(rt, pool(rt, alloc, &["7001", "7002"]));
    let new = must(rt, pool(rt, alloc, &["7101", "7102", "7103"]));
    must(rt, Routing::new(old, new, NamedHash::Sum))
}

/// A loop of so much room, with two places.
fn loop_of(rt: &impl Abort, alloc: Global, room: u64, limits: Limits) -> ProxyLoop {
    let schedule = must(rt, Schedule::new(1000, 100));
    let core = ProxyCore::new(alloc, 0, 0, routing(rt, alloc), schedule, room);
    let mut proxy = must(rt, ProxyLoop::new(alloc, core, limits));
    must(rt, proxy.add_place());
    must(rt, proxy.add_place());
    proxy
}

/// Bounds that no run of a few requests comes to: a leg may take a second.
const WIDE: Limits = Limits {
    most_legs: 100,
    most_begun: 64,
    most_unread: 1_048_576,
    leg_timeout: 1_000_000,
};
