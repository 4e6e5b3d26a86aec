//! What a proxy tells of itself.
ghost use Rattle.std.specs.Prelude.{◌≡◌, ◌++◌, IfOk, OnOk};
ghost use Rattle.mr_metrics.specs.Exposition.{family_head};
ghost use Rattle.mr_metrics.specs.Proxy.{config_family, held_back_family, leg_times_family, under_way_family, room_family, last_issue_family, hop_family, state_of, phase_state, phase_states, phase_family, next_phase_family, loops_family, max_clients_family, flag_number, clients_wait_family, asked_text, carried_text, traffic_text, schedule_text, loops_text, proxy_text};
ghost use Rattle.mr_metrics.specs.declared.exposition.Kind.TheVariants.{Gauge};

use crate::counts::{AnswerCount, RequestCount, push_answers, push_requests};
use crate::exposition::{Kind, push_family};
use crate::families::{push_info, push_labelled, push_one, push_perhaps};
use crate::links::{LinkCount, push_legs, push_links};
use crate::service::{ServiceSnapshot, push_service};
use crate::times::{Times, push_times};
use mr_phases::PhaseName;
use std::alloc::{AllocError, Global};

/// What is known of a proxy at a moment.
#[derive(Clone, Copy, Debug)]
pub struct ProxySnapshot<'a> {
    /// What is known of its service.
    pub service: ServiceSnapshot<'a>,
    /// The SHA-256 of its configuration as transcripts write it, in hexadecimal digits.
    pub config: &'a str,
    /// How many requests came to an answer, by command and phase.
    pub requests: &'a [RequestCount],
    /// What clients were answered, by kind.
    pub answers: &'a [AnswerCount],
    /// How often a request was held back.
    pub held_back: u64,
    /// What became of legs, and how its links stand, by node.
    pub links: &'a [LinkCount<'a>],
    /// How long legs took that were sent, lost ones among them.
    pub leg_times: Times<'a>,
    /// How many requests are under way.
    pub under_way: u64,
    /// How many may be at once.
    pub room: u64,
    /// The latest reading by which an answered request was judged, in seconds since the epoch.
    pub last_issue: Option<u64>,
    /// The migration in force at the larger of its clock and its last issue, counted from 0.
    pub hop: u64,
    /// The phase in force at the same reading.
    pub phase: PhaseName,
    /// When the next phase begins, in seconds since the epoch.
    pub next_phase: Option<u64>,
    /// How many loops carry its requests.
    pub loops: u64,
    /// How many clients are served at once at most.
    pub max_clients: u64,
    /// Whether clients aren't accepted, since as many are served as may be.
    pub clients_wait: bool,
}

/// Adds the digest of the configuration.
fn push_config(text: &mut Vec<u8>, config: &str) -> Result<(), AllocError>
    ensures { OnOk result (text.new.items ≡ text.old.items ++ config_family config.now) }
{
    push_info(
        text,
        "migctl_proxy_config_info",
        "The SHA-256 of the configuration as transcripts write it.",
        "sha256",
        config,
    )
}

/// Adds how often requests were held back.
fn push_held_back(text: &mut Vec<u8>, held_back: u64) -> Result<(), AllocError>
    ensures { OnOk result (text.new.items ≡ text.old.items ++ held_back_family held_back) }
{
    push_one(
        text,
        "migctl_proxy_requests_held_back_total",
        "Requests that were held back until there was room for them.",
        Kind::Counter,
        held_back,
    )
}

/// Adds how many requests are under way.
fn push_under_way(text: &mut Vec<u8>, under_way: u64) -> Result<(), AllocError>
    ensures { OnOk result (text.new.items ≡ text.old.items ++ under_way_family under_way) }
{
    push_one(
        text,
        "migctl_proxy_requests_under_way",
        "Requests that are under way.",
        Kind::Gauge,
        under_way,
    )
}

/// Adds how many requests may be under way.
fn push_room(text: &mut Vec<u8>, room: u64) -> Result<(), AllocError>
    ensures { OnOk result (text.new.items ≡ text.old.items ++ room_family room) }
{
    push_one(
        text,
        "migctl_proxy_room_requests",
        "Requests that may be under way at once.",
        Kind::Gauge,
        room,
    )
}

/// Adds at which reading the last request was issued.
fn push_last_issue(text: &mut Vec<u8>, last_issue: Option<u64>) -> Result<(), AllocError>
    ensures { OnOk result (text.new.items ≡ text.old.items ++ last_issue_family last_issue) }
{
    push_perhaps(
        text,
        "migctl_proxy_last_issue_seconds",
        "The latest reading by which an answered request was judged, in seconds since the epoch.",
        last_issue,
    )
}

/// Adds which migration is in force.
fn push_hop(text: &mut Vec<u8>, hop: u64) -> Result<(), AllocError>
    ensures { OnOk result (text.new.items ≡ text.old.items ++ hop_family hop) }
{
    push_one(
        text,
        "migctl_proxy_hop",
        "The migration in force, counted from 0.",
        Kind::Gauge,
        hop,
    )
}

/// Adds when the next phase begins.
fn push_next_phase(text: &mut Vec<u8>, next_phase: Option<u64>) -> Result<(), AllocError>
    ensures { OnOk result (text.new.items ≡ text.old.items ++ next_phase_family next_phase) }
{
    push_perhaps(
        text,
        "migctl_proxy_next_phase_seconds",
        "When the next phase begins, in seconds since the epoch.",
        next_phase,
    )
}

/// Adds how long legs took.
fn push_leg_times(text: &mut Vec<u8>, times: &Times<'_>) -> Result<(), AllocError>
    ensures { OnOk result (text.new.items ≡ text.old.items ++ leg_times_family times.now) }
{
    push_times(
        text,
        "migctl_proxy_leg_seconds",
        "How long legs took, carried and lost ones, in seconds.",
        times,
    )
}

/// 1 where this phase is the one in force, else 0.
fn state_of(in_force: PhaseName, phase: PhaseName) -> u64
    ensures { result ≡ state_of in_force phase }
{
    if in_force == phase { 1 } else { 0 }
}

/// Adds 1 for this phase where it is the one in force, else 0.
fn push_state(
    text: &mut Vec<u8>,
    name: &str,
    in_force: PhaseName,
    phase: PhaseName,
) -> Result<(), AllocError>
    ensures { OnOk result (text.new.items ≡ text.old.items ++ phase_state name.now in_force phase) }
{
    push_labelled(
        text,
        name,
        "phase",
        phase.as_str(),
        state_of(in_force, phase),
    )
}

/// Adds the state of each phase, in the order in which they follow one another.
fn push_states(text: &mut Vec<u8>, name: &str, in_force: PhaseName) -> Result<(), AllocError>
    ensures { OnOk result (text.new.items ≡ text.old.items ++ phase_states name.now in_force) }
{
    push_state(text, name, in_force, PhaseName::OldOnly)?;
    push_state(text, name, in_force, PhaseName::BothReadOld)?;
    push_state(text, name, in_force, PhaseName::BothReadNew)?;
    push_state(text, name, in_force, PhaseName::NewOnly)?;
    Ok(())
}

/// Adds a family that tells the phase in force.
fn push_phase_at(
    text: &mut Vec<u8>,
    name: &str,
    help: &str,
    in_force: PhaseName,
) -> Result<(), AllocError>
    ensures { OnOk result (text.new.items ≡ text.old.items
        ++ (family_head name.now help.now Gauge ++ phase_states name.now in_force)) }
{
    push_family(text, name, help, Kind::Gauge)?;
    push_states(text, name, in_force)?;
    Ok(())
}

/// Adds which phase is in force.
fn push_phase(text: &mut Vec<u8>, in_force: PhaseName) -> Result<(), AllocError>
    ensures { OnOk result (text.new.items ≡ text.old.items ++ phase_family in_force) }
{
    push_phase_at(
        text,
        "migctl_proxy_phase",
        "1 for the phase in force, 0 for each other.",
        in_force,
    )
}

/// Adds how many loops there are.
fn push_loops(text: &mut Vec<u8>, loops: u64) -> Result<(), AllocError>
    ensures { OnOk result (text.new.items ≡ text.old.items ++ loops_family loops) }
{
    push_one(
        text,
        "migctl_proxy_loops",
        "Loops that carry requests, each of which is a proxy of the fleet.",
        Kind::Gauge,
        loops,
    )
}

/// Adds how many clients are served at once at most.
fn push_max_clients(text: &mut Vec<u8>, max_clients: u64) -> Result<(), AllocError>
    ensures { OnOk result (text.new.items ≡ text.old.items ++ max_clients_family max_clients) }
{
    push_one(
        text,
        "migctl_proxy_max_clients",
        "Clients that may be served at once.",
        Kind::Gauge,
        max_clients,
    )
}

/// 1 for what is so, 0 for what isn't.
fn flag_number(flag: bool) -> u64
    ensures { result ≡ flag_number flag }
{
    if flag { 1 } else { 0 }
}

/// Adds whether clients aren't accepted.
fn push_clients_wait(text: &mut Vec<u8>, wait: bool) -> Result<(), AllocError>
    ensures { OnOk result (text.new.items ≡ text.old.items ++ clients_wait_family wait) }
{
    push_one(
        text,
        "migctl_proxy_clients_wait",
        "1 while clients aren't accepted since as many are served as may be, else 0.",
        Kind::Gauge,
        flag_number(wait),
    )
}

/// Adds what came of requests, and which were held back.
fn push_asked(text: &mut Vec<u8>, snapshot: &ProxySnapshot<'_>) -> Result<(), AllocError>
    ensures { OnOk result (text.new.items ≡ text.old.items ++ asked_text snapshot.now) }
{
    push_requests(text, snapshot.requests)?;
    push_answers(text, snapshot.answers)?;
    push_held_back(text, snapshot.held_back)?;
    Ok(())
}

/// Adds what became of legs, and how many requests are under way.
fn push_carried(text: &mut Vec<u8>, snapshot: &ProxySnapshot<'_>) -> Result<(), AllocError>
    ensures { OnOk result (text.new.items ≡ text.old.items ++ carried_text snapshot.now) }
{
    push_legs(text, snapshot.links)?;
    push_leg_times(text, &snapshot.leg_times)?;
    push_under_way(text, snapshot.under_way)?;
    push_room(text, snapshot.room)?;
    Ok(())
}

/// Adds what is known of requests and their legs.
fn push_traffic(text: &mut Vec<u8>, snapshot: &ProxySnapshot<'_>) -> Result<(), AllocError>
    ensures { OnOk result (text.new.items ≡ text.old.items ++ traffic_text snapshot.now) }
{
    push_asked(text, snapshot)?;
    push_carried(text, snapshot)?;
    Ok(())
}

/// Adds what is known of its place in the schedule.
fn push_schedule(text: &mut Vec<u8>, snapshot: &ProxySnapshot<'_>) -> Result<(), AllocError>
    ensures { OnOk result (text.new.items ≡ text.old.items ++ schedule_text snapshot.now) }
{
    push_config(text, snapshot.config)?;
    push_last_issue(text, snapshot.last_issue)?;
    push_hop(text, snapshot.hop)?;
    push_phase(text, snapshot.phase)?;
    push_next_phase(text, snapshot.next_phase)?;
    Ok(())
}

/// Adds what is known of its loops, their clients and their links.
fn push_all_loops(text: &mut Vec<u8>, snapshot: &ProxySnapshot<'_>) -> Result<(), AllocError>
    ensures { OnOk result (text.new.items ≡ text.old.items ++ loops_text snapshot.now) }
{
    push_loops(text, snapshot.loops)?;
    push_max_clients(text, snapshot.max_clients)?;
    push_clients_wait(text, snapshot.clients_wait)?;
    push_links(text, snapshot.links)?;
    Ok(())
}

/// What a proxy tells of itself, in the text exposition format of version 0.0.4.
pub fn proxy_metrics(alloc: Global, snapshot: &ProxySnapshot<'_>) -> Result<Vec<u8>, AllocError>
    ensures { IfOk result (λ text. text.items ≡ proxy_text snapshot.now) }
{
    let mut text = Vec::new(alloc);
    push_service(&mut text, &snapshot.service)?;
    push_schedule(&mut text, snapshot)?;
    push_traffic(&mut text, snapshot)?;
    push_all_loops(&mut text, snapshot)?;
    Ok(text)
}
