//! Proxies that tests of threads are made of.
ghost use Rattle.std.specs.Prelude.{◌≡◌, Ok, IfOk};
ghost use Rattle.mr_proxy.specs.ProxyView.{IsFresh};

use mr_desks::{Carrier, RecordedProxy};
use mr_phases::Schedule;
use mr_pools::NamedHash;
use mr_proxy::ProxyCore;
use mr_test_support::routing;
use std::alloc::{AllocError, Global};

/// What a call gave that fails for want of memory alone.
pub fn or_no_memory<T, E: Drop>(called: Result<T, E>) -> Result<T, AllocError>
    ensures { IfOk result (λ value. called ≡ Ok value) }
{
    match called {
        Ok(value) => Ok(value),
        Err(_) => Err(AllocError),
    }
}

/// The proxy of this number, whose new pool has these nodes, with room for 8 requests.
pub fn core_of(alloc: Global, number: u32, new: &[&[u8]]) -> Result<ProxyCore, AllocError>
    ensures { IfOk result IsFresh }
{
    core_with_room(alloc, number, new, 8)
}

/// The same with room for so many requests.
pub fn core_with_room(
    alloc: Global,
    number: u32,
    new: &[&[u8]],
    room: u64,
) -> Result<ProxyCore, AllocError>
    ensures { IfOk result IsFresh }
{
    let schedule = or_no_memory(Schedule::new(1000, 100))?;
    let routing = or_no_memory(routing(alloc, new, NamedHash::Sum))?;
    Ok(ProxyCore::new(alloc, number, 0, routing, schedule, room))
}

/// The same with a book, which keeps at most so many steps.
pub fn recorded_proxy<C: Carrier>(
    alloc: Global,
    number: u32,
    new: &[&[u8]],
    limit: u64,
) -> Result<RecordedProxy<C>, AllocError> {
    or_no_memory(RecordedProxy::new(alloc, core_of(alloc, number, new)?, limit))
}
