//! What services on loops have in common: what bounds them, and what they tell of themselves.
ghost use Rattle.std.specs.Prelude.{◌≡◌};
ghost use Rattle.mr_tool.specs.OnLoops.{driver_bounds, metrics_of};
ghost use Rattle.mr_words.specs.Version.{told_number};
ghost use Rattle.mr_words.specs.Words.{path_in};

use mr_driver::DriverBounds;
use mr_servers::Telling;
use mr_sockets::Patience;
use mr_words::{LoopValues, version_number};

/// The most bytes of a client's own answers that it hasn't read: with more no further request of it is begun.
pub(crate) const MOST_UNREAD: usize = 1_048_576;

/// What bounds a service on loops: how many clients it has, in all and at once, and how long it waits.
pub(crate) fn driver_bounds(clients: u64, loops: &LoopValues, patience: Patience) -> DriverBounds
    ensures { result ≡ driver_bounds clients loops.now patience }
{
    DriverBounds {
        clients,
        most_clients: loops.max_clients,
        client_seconds: patience.client_seconds,
        leg_millis: patience.leg_millis,
    }
}

/// What a service on loops tells of itself, of this version of the program, and where.
pub(crate) fn telling_of<'a>(loops: &LoopValues, metrics: Option<&'a str>) -> Telling<'a>
    ensures version { result.version.now ≡ told_number }
    ensures metrics { path_in result.metrics ≡ path_in metrics.entry }
    ensures quiet { result.quiet ≡ loops.now.quiet }
{
    Telling {
        version: version_number(),
        metrics,
        quiet: loops.quiet,
    }
}

/// Where a service tells its metrics, if it does: on loops alone.
pub(crate) fn metrics_of<'a>(
    on_loops: &Option<LoopValues>,
    metrics: Option<&'a str>,
) -> Option<&'a str>
    ensures { path_in result ≡ metrics_of on_loops.now (path_in metrics.entry) }
{
    match on_loops {
        Some(_) => metrics,
        None => None,
    }
}
