//! What owns a connection to a node, and carries what comes over the links to it.
ghost use Rattle.std.specs.Prelude.{◌≡◌, ◌+◌, MatchOption};
ghost use Rattle.mr_proxy.specs.declared.sheet.LegBack.{LegBack};
ghost use Rattle.mr_desks.specs.Direct.{CarriesOnce};

use crate::link_job::LinkJob;
use crossbeam_channel::Receiver;
use mr_desks::{Carrier, Gate};
use mr_text::GhostCount;
use std::sync::Wait;

/// How many jobs a worker took, and how many of these it carried, as contracts see it.
#[derive(Drop)]
pub(crate) struct WorkerCounts {
    pub(crate) taken: GhostCount,
    pub(crate) carried: GhostCount,
}

impl WorkerCounts {
    /// Nothing was taken yet.
    fn new() -> WorkerCounts
        ensures taken { result.taken ≡ 0 }
        ensures carried { result.carried ≡ 0 }
    {
        WorkerCounts {
            taken: GhostCount::new(),
            carried: GhostCount::new(),
        }
    }

    /// Waits for the next job. None where the last of the links is gone.
    fn take<C: Carrier, R: Wait>(
        &mut self,
        rt: &R,
        jobs: &Receiver<LinkJob<C>>,
    ) -> Option<LinkJob<C>>
        ensures taken { MatchOption result (self.new.taken ≡ self.old.taken)
            (λ _. self.new.taken ≡ self.old.taken + 1) }
        ensures carried { self.new.carried ≡ self.old.carried }
    {
        let job = jobs.recv(rt).ok()?;
        self.taken.add_one();
        Some(job)
    }

    /// Carries a job that was taken.
    fn carry<C: Carrier, R: Wait>(&mut self, rt: &R, job: LinkJob<C>, carrier: &mut C)
        ensures once { (back : LegBack) × (back.sheet ≡ job)
            × CarriesOnce C.carries C.faults carrier.old back carrier.new }
        ensures taken { self.new.taken ≡ self.old.taken }
        ensures carried { self.new.carried ≡ self.old.carried + 1 }
    {
        self.carried.add_one();
        job.carry(rt, carrier);
    }
}

/// Carries the legs that come over the links to one node, one after the other, until the last of these links is gone. The
/// gate is called before each is carried. None that was taken is dropped.
pub(crate) fn run_worker<C: Carrier + Drop, G: Gate, R: Wait>(
    rt: &R,
    mut carrier: C,
    jobs: Receiver<LinkJob<C>>,
    gate: &G,
) -> WorkerCounts
    ensures { result.carried ≡ result.taken }
{
    let mut counts = WorkerCounts::new();
    for _ in rt.forever() {
        let Some(job) = counts.take(rt, &jobs) else {
            break;
        };
        gate.before_carry(job.sheet());
        counts.carry(rt, job, &mut carrier);
    }
    counts
}
