//! What stands in the place of a cache while the clock gives no reading.

use crate::node::cache::Cache;
use mr_text::{Cause, Reply, Request};
use std::alloc::Global;

/// It does nothing, and each request comes to a fault of the clock.
#[derive(Drop)]
pub(crate) struct NoReading;

impl Cache for NoReading {
    ghost use Rattle.mr_loop.specs.node.Cache.{clock_fails};

    ghost does = { clock_fails };

    fn answer(&mut self, _alloc: Global, _now: u64, _request: Request) -> Reply {
        Reply::ServerError(Cause::ClockFault)
    }
}
