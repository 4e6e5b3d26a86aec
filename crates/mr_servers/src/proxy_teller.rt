//! What a proxy on loops tells of itself to those that scrape it.
ghost use Rattle.std.specs.Prelude.{IfOk};
ghost use Rattle.mr_counting.specs.Telling.{TellsProxy, who_is};

use crate::reports::totals_of;
use mr_clock::Clock;
use mr_counting::{LoopTotals, ProxyIdentity, ServiceTime, proxy_told};
use mr_driver::{Doors, LoopReport};
use mr_http::Tells;
use std::alloc::{AllocError, Global};
use std::sync::Wait;
use std::time;

/// What a proxy on loops tells of itself to those that scrape it.
pub(crate) struct ProxyTeller<'a, K: Clock + Clone, R: Wait + time::Clock> {
    /// What may wait for the loops to answer.
    pub(crate) rt: &'a R,
    /// Who the proxy is.
    pub(crate) identity: ProxyIdentity<'a>,
    /// By which its loops are asked.
    pub(crate) doors: &'a Doors<LoopReport>,
    /// How its clock runs.
    pub(crate) time: &'a ServiceTime,
    /// Its clock.
    pub(crate) clock: &'a K,
}

impl<'a, K: Clock + Clone, R: Wait + time::Clock> Drop for ProxyTeller<'a, K, R> {
    fn drop(self) {
        let Self {
            rt: _,
            identity: _,
            doors: _,
            time: _,
            clock: _,
        } = self;
    }
}

/// What a proxy tells whose loops count this together, and whose clients wait or don't.
fn told_of<K: Clock + Clone>(
    alloc: Global,
    identity: &ProxyIdentity<'_>,
    time: &ServiceTime,
    clock: &K,
    totals: &LoopTotals,
    clients_wait: bool,
) -> Result<Vec<u8>, AllocError>
    ensures { IfOk result (λ text. TellsProxy (who_is identity.now) text.items) }
{
    let clients = totals.clients();
    let service = time.snapshot(clock, identity.version, clients.came, clients.left);
    proxy_told(alloc, identity, service, totals, clients_wait)
}

impl<'a, K: Clock + Clone, R: Wait + time::Clock> Tells for ProxyTeller<'a, K, R> {
    ghost use Rattle.mr_counting.specs.Telling.{TellsProxy, who_is};

    ghost told = { λ t text. TellsProxy (who_is t.identity) text };

    fn tell(&self, alloc: Global) -> Result<Vec<u8>, AllocError> {
        let reports = self.doors.ask(self.rt, alloc)?;
        let totals = totals_of(alloc, self.identity.routing, reports.as_slice())?;
        told_of(
            alloc,
            &self.identity,
            self.time,
            self.clock,
            &totals,
            self.doors.is_full(),
        )
    }
}
