//! What nodes and proxies alike tell of themselves.
ghost use Rattle.std.specs.Prelude.{◌≡◌, ◌++◌, OnOk};
ghost use Rattle.mr_metrics.specs.Service.{version_family, began_family, connected_family, accepted_family, clock_family, steps_back_family, service_text};

use crate::exposition::Kind;
use crate::families::{push_info, push_one, push_perhaps};
use std::alloc::AllocError;

/// What is known at a moment of a service, be it a node's or a proxy's.
#[derive(Clone, Copy, Debug)]
pub struct ServiceSnapshot<'a> {
    /// The version of the program.
    pub version: &'a str,
    /// When it began, by its own clock, in seconds since the epoch.
    pub began: Option<u64>,
    /// How many connections are open.
    pub connected: u64,
    /// How many connections were accepted since it began.
    pub accepted: u64,
    /// What its clock says now, in seconds since the epoch.
    pub clock: Option<u64>,
    /// How often its clock gave a reading before the one that it gave last.
    pub steps_back: u64,
}

/// Adds the version.
fn push_version(text: &mut Vec<u8>, version: &str) -> Result<(), AllocError>
    ensures { OnOk result (text.new.items ≡ text.old.items ++ version_family version.now) }
{
    push_info(
        text,
        "migctl_build_info",
        "The version of the program.",
        "version",
        version,
    )
}

/// Adds when it began.
fn push_began(text: &mut Vec<u8>, began: Option<u64>) -> Result<(), AllocError>
    ensures { OnOk result (text.new.items ≡ text.old.items ++ began_family began) }
{
    push_perhaps(
        text,
        "migctl_start_time_seconds",
        "When the service began, in seconds since the epoch.",
        began,
    )
}

/// Adds how many connections are open.
fn push_connected(text: &mut Vec<u8>, connected: u64) -> Result<(), AllocError>
    ensures { OnOk result (text.new.items ≡ text.old.items ++ connected_family connected) }
{
    push_one(
        text,
        "migctl_open_connections",
        "Connections of clients that are open.",
        Kind::Gauge,
        connected,
    )
}

/// Adds how many connections were accepted.
fn push_accepted(text: &mut Vec<u8>, accepted: u64) -> Result<(), AllocError>
    ensures { OnOk result (text.new.items ≡ text.old.items ++ accepted_family accepted) }
{
    push_one(
        text,
        "migctl_connections_total",
        "Connections of clients that were accepted.",
        Kind::Counter,
        accepted,
    )
}

/// Adds what the clock says.
fn push_clock(text: &mut Vec<u8>, clock: Option<u64>) -> Result<(), AllocError>
    ensures { OnOk result (text.new.items ≡ text.old.items ++ clock_family clock) }
{
    push_perhaps(
        text,
        "migctl_clock_seconds",
        "What the clock of the service says, in seconds since the epoch.",
        clock,
    )
}

/// Adds how often the clock went back.
fn push_steps_back(text: &mut Vec<u8>, steps_back: u64) -> Result<(), AllocError>
    ensures { OnOk result (text.new.items ≡ text.old.items ++ steps_back_family steps_back) }
{
    push_one(
        text,
        "migctl_clock_steps_back_total",
        "How often the clock gave a reading before the one that it gave last.",
        Kind::Counter,
        steps_back,
    )
}

/// Adds what is known of a service.
pub(crate) fn push_service(
    text: &mut Vec<u8>,
    snapshot: &ServiceSnapshot<'_>,
) -> Result<(), AllocError>
    ensures { OnOk result (text.new.items ≡ text.old.items ++ service_text snapshot.now) }
{
    push_version(text, snapshot.version)?;
    push_began(text, snapshot.began)?;
    push_connected(text, snapshot.connected)?;
    push_accepted(text, snapshot.accepted)?;
    push_clock(text, snapshot.clock)?;
    push_steps_back(text, snapshot.steps_back)?;
    Ok(())
}
