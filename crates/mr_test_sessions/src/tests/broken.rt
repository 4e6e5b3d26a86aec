//! Carriers that never reach their nodes.
use crate::tests::must;
use mr_desks::{Carrier, DirectCarriers, WorkerError};
use mr_join::LegReply;
use mr_proxy::LegSheet;
use mr_text::GhostCount;
use std::alloc::Global;
use std::process::Abort;

/// A carrier that never reaches its node.
#[derive(Drop)]
pub(super) struct Broken {
    faults: GhostCount,
}

impl Broken {
    pub(super) fn new() -> Broken {
        Broken {
            faults: GhostCount::new(),
        }
    }
}

impl Carrier for Broken {
    ghost use Rattle.std.specs.Prelude.{◌≡◌, ◌+◌};

    ghost gave = { λ _ _. Unit {0} };

    ghost faults = { λ c. c.faults };

    ghost carries = { λ _ _ _ _. Unit {0} };

    ghost loses = { λ _. tt };

    fn carry(&mut self, _sheet: &LegSheet) -> Result<LegReply, WorkerError> {
        self.faults.add_one();
        Err(WorkerError::LinkBroken)
    }
}

/// So many such carriers for each pool.
pub(super) fn broken_carriers(
    rt: &impl Abort,
    alloc: Global,
    counts: &[usize],
) -> DirectCarriers<Broken> {
    let mut pools = Vec::new(alloc);
    for count in counts {
        must(rt, pools.push(broken_links(rt, alloc, *count)));
    }
    DirectCarriers::new(alloc, pools)
}

/// So many such carriers for one pool.
fn broken_links(rt: &impl Abort, alloc: Global, count: usize) -> Vec<Broken> {
    let mut links = Vec::new(alloc);
    for _ in 0..count {
        must(rt, links.push(Broken::new()));
    }
    links
}
