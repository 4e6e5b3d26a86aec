//! What the loops of a node report of themselves, added up.
ghost use Rattle.std.specs.Prelude.{◌≡◌};
ghost use Rattle.mr_loop.specs.node.Counts.{nothing_served};
ghost use Rattle.mr_servers.specs.NodeTelling.{served_sum, with_served};

use mr_counting::sum_of;
use mr_loop::ServedCounts;

/// What two loops count together.
fn sum_served(counts: ServedCounts, more: &ServedCounts) -> ServedCounts
    ensures { result ≡ served_sum counts more.now }
{
    ServedCounts {
        came: sum_of(counts.came, more.came),
        left: sum_of(counts.left, more.left),
        hits: sum_of(counts.hits, more.hits),
        misses: sum_of(counts.misses, more.misses),
        stored: sum_of(counts.stored, more.stored),
        deleted: sum_of(counts.deleted, more.deleted),
        not_found: sum_of(counts.not_found, more.not_found),
        failed: sum_of(counts.failed, more.failed),
    }
}

/// What these loops count together.
pub(crate) fn served_by(reports: &[ServedCounts]) -> ServedCounts
    ensures { result ≡ with_served reports.now nothing_served }
{
    let mut served = ServedCounts::NONE;
    for report in reports {
        served = sum_served(served, report);
    }
    served
}
