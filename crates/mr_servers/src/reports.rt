//! What the loops of a proxy report of themselves, added up.
ghost use Rattle.std.specs.Prelude.{◌≡◌, IfOk};
ghost use Rattle.mr_counting.specs.LoopTotals.{nodes_in, no_totals};
ghost use Rattle.mr_servers.specs.Reports.{link_counted, with_links, with_report, with_reports, room_of};

use mr_counting::{LinkTotals, LoopTotals, sum_of};
use mr_driver::{LinkReport, LoopReport};
use mr_loop::ProxyLoop;
use mr_pools::Routing;
use std::alloc::{AllocError, Global};

/// What a loop counts of its link to a node.
fn link_of(link: &LinkReport) -> LinkTotals
    ensures { result ≡ link_counted link.now }
{
    LinkTotals {
        up: if link.is_up { 1 } else { 0 },
        carried: link.counts.carried,
        lost: link.counts.lost,
        breaks: link.counts.breaks,
        dials: link.counts.dials,
    }
}

/// Adds the links of a loop, each to what is counted of its node.
fn add_links(totals: &mut LoopTotals, links: &[LinkReport])
    ensures { totals.new ≡ with_links 0 links.now totals.old }
{
    let mut number: usize = 0;
    for link in links {
        totals.add_link(number, link_of(link), &link.counts.times);
        number += 1;
    }
}

/// Adds a loop.
fn add_report(totals: &mut LoopTotals, report: &LoopReport)
    ensures { totals.new ≡ with_report report.now totals.old }
{
    totals.add_loop(report.counts, report.clients);
    add_links(totals, report.links.as_slice());
}

/// What these loops count together, node by node of a routing.
pub(crate) fn totals_of(
    alloc: Global,
    routing: &Routing,
    reports: &[LoopReport],
) -> Result<LoopTotals, AllocError>
    ensures { IfOk result (λ totals. totals ≡ with_reports reports.now (no_totals (nodes_in routing.now))) }
{
    let mut totals = LoopTotals::new(alloc, routing)?;
    for report in reports {
        add_report(&mut totals, report);
    }
    Ok(totals)
}

/// How many requests may be under way at once in these machines together.
pub(crate) fn room_of(machines: &[ProxyLoop]) -> u64
    ensures { result ≡ room_of machines.now }
{
    let mut room: u64 = 0;
    for machine in machines {
        room = sum_of(room, machine.core().room());
    }
    room
}
