//! What a loop tells of itself.
ghost use Rattle.std.specs.Prelude.{◌≡◌, IfOk};
ghost use Rattle.mr_driver.specs.Reports.{link_reports, TellsOf};

use mr_counting::{ClientCounts, ProxyCounts};
use mr_loop::{LinkCounts, ProxyLoop};
use std::alloc::{AllocError, Global};

/// What a loop tells of the link to a node.
#[derive(Clone, Copy, Debug)]
pub struct LinkReport {
    /// Whether there is a connection.
    pub is_up: bool,
    /// What is counted of it.
    pub counts: LinkCounts,
}

/// What a loop tells of itself when it is asked.
#[derive(Debug, Drop)]
pub struct LoopReport {
    /// What came of its requests.
    pub counts: ProxyCounts,
    /// How often clients came and left, and how many of their requests were held back.
    pub clients: ClientCounts,
    /// Of each node, pool by pool, in the order of each pool.
    pub links: Vec<LinkReport>,
}

/// What is told of the link to each node.
fn links_of(alloc: Global, machine: &ProxyLoop) -> Result<Vec<LinkReport>, AllocError>
    ensures { IfOk result (λ reports. reports.items ≡ link_reports machine.now) }
{
    let mut reports = Vec::with_capacity(alloc, machine.links())?;
    for node in 0..machine.links() {
        reports.push(LinkReport {
            is_up: machine.is_up(node),
            counts: machine.link_counts(node),
        })?;
    }
    Ok(reports)
}

/// What a machine tells.
pub(crate) fn report_of(alloc: Global, machine: &ProxyLoop) -> Result<LoopReport, AllocError>
    ensures { IfOk result (TellsOf machine.now) }
{
    Ok(LoopReport {
        counts: machine.counts(),
        clients: machine.client_counts(),
        links: links_of(alloc, machine)?,
    })
}
