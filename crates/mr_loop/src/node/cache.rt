//! What a loop asks of a cache.
ghost use Rattle.mr_node.specs.Output.{IsServed};
ghost use Rattle.mr_loop.specs.node.Cache.{Does};

use mr_node::{CacheNode, answer_on};
use mr_text::{Reply, Request};
use std::alloc::Global;

/// A cache as a loop sees it. Each request is one call and one step, however many keys it has, so that a cache that several
/// loops share takes its lock once for it.
pub trait Cache {
    /// What a request comes to: the cache before it, the reading of the clock in seconds since the epoch, the request, its
    /// outcome, and the cache after it.
    ghost does: { Does Self };

    /// Does what a request asks, at one reading of the clock, in seconds since the epoch. It gives what that comes to, whether
    /// or not its client wants an answer.
    fn answer(&mut self, alloc: Global, now: u64, request: Request) -> Reply
        requires { IsServed request }
        ensures { does self.old now request result self.new };
}

impl Cache for CacheNode {
    ghost use Rattle.std.specs.Prelude.{◌≡◌};
    ghost use Rattle.mr_node.specs.Outcome.{OutcomeAt};
    ghost use Rattle.mr_node.specs.Recency.{RecencyStep};

    ghost does = { OutcomeAt RecencyStep (λ old _ _ new. new ≡ old) };

    fn answer(&mut self, alloc: Global, now: u64, request: Request) -> Reply {
        answer_on(alloc, self, now, request)
    }
}
