//! When the next phase begins, and how far it is.
ghost use Rattle.std.specs.Prelude.{◌≡◌, ◌++◌, ◌<◌, ◌≤◌, ◌+◌, ◌*◌, ◌^◌, length, Some, None, IfSome, OnOk, decimal};
ghost use Rattle.mr_phases.specs.Schedule.{hop_of, phase_of};
ghost use Rattle.mr_watch.specs.Next.{next_at, next_after, next_of, full_cells, bar_of, bar_text, moment_text, schedule_text};

use crate::shown::{Colour, push_coloured, push_short};
use itoa::Buffer;
use mr_phases::{PhaseName, Schedule, judge};
use std::alloc::AllocError;

/// How many cells a bar has.
const CELLS: u64 = 10;

/// A phase that begins later.
#[derive(Clone, Copy, Debug)]
pub struct Next {
    /// Its hop, counted from 0.
    pub hop: u32,
    /// Its name.
    pub phase: PhaseName,
    /// In how many seconds it begins.
    pub seconds: u64,
    /// The interval of its hop, in seconds.
    pub interval: u64,
}

/// The phase of a hop that begins so many intervals after its start.
fn next_at(schedule: &Schedule, at: u64, hop: u32, phase: PhaseName, intervals: u64) -> Next
    requires hop { hop < length schedule.now }
    requires intervals { intervals ≤ 2 }
    ensures next { result ≡ next_at schedule.now at hop phase intervals }
    ensures lasts { 0 < result.interval }
{
    let interval = schedule.interval(hop);
    let begins = schedule.start(hop) + intervals * interval;
    Next {
        hop,
        phase,
        seconds: begins.saturating_sub(at),
        interval,
    }
}

/// The phase that follows one of a hop.
fn next_after(schedule: &Schedule, at: u64, hop: u32, phase: PhaseName) -> Option<Next>
    requires { hop < length schedule.now }
    ensures next { result ≡ next_after schedule.now at hop phase }
    ensures lasts { IfSome result (λ next. 0 < next.interval) }
{
    let hops = schedule.hops();
    match phase {
        PhaseName::OldOnly => Some(next_at(schedule, at, hop, PhaseName::BothReadOld, 0)),
        PhaseName::BothReadOld => Some(next_at(schedule, at, hop, PhaseName::BothReadNew, 1)),
        PhaseName::BothReadNew => Some(next_at(schedule, at, hop, PhaseName::NewOnly, 2)),
        PhaseName::NewOnly if hop + 1 < hops => {
            Some(next_at(schedule, at, hop + 1, PhaseName::BothReadOld, 0))
        }
        PhaseName::NewOnly => None,
    }
}

/// The phase that is next at a second, and when it begins. None in the last phase of the last hop.
pub fn next_of(schedule: &Schedule, at: u64) -> Option<Next>
    ensures next { result ≡ next_of schedule.now at }
    ensures lasts { IfSome result (λ next. 0 < next.interval) }
{
    let judged = judge(schedule.copy(), at);
    next_after(schedule, at, judged.hop(), judged.name())
}

/// Adds a bar of which so many cells are full.
fn push_bar(text: &mut Vec<u8>, full: u64) -> Result<(), AllocError>
    ensures { OnOk result (text.new.items ≡ text.old.items ++ bar_of full) }
{
    let full_count = full.min(CELLS) as usize;
    let empty_count = CELLS.saturating_sub(full).min(CELLS) as usize;
    text.extend_from_slice(b"[")?;
    text.extend_from_slice(&b"##########"[..full_count])?;
    text.extend_from_slice(&b"----------"[..empty_count])?;
    text.extend_from_slice(b"] ")?;
    Ok(())
}

/// How many cells of its bar are full.
fn full_cells(next: &Next) -> u64
    requires { 0 < next.now.interval }
    ensures { result ≡ full_cells next.now }
{
    let interval = next.interval;
    let passed = interval.saturating_sub(next.seconds);
    let full = u128::from(CELLS) * u128::from(passed) / u128::from(interval);
    full as u64
}

/// Adds the number of something, in decimal digits.
pub(crate) fn push_decimal(text: &mut Vec<u8>, number: u64) -> Result<(), AllocError>
    ensures { OnOk result (text.new.items ≡ text.old.items ++ decimal number) }
{
    let mut buffer = Buffer::new();
    text.extend_from_slice(buffer.format(number).as_bytes())?;
    Ok(())
}

/// Adds the bar to a phase.
fn push_bar_to(text: &mut Vec<u8>, colours: bool, next: &Next) -> Result<(), AllocError>
    requires { 0 < next.now.interval }
    ensures { OnOk result (text.new.items ≡ text.old.items ++ bar_text colours (Some next.now)) }
{
    push_bar(text, full_cells(next))?;
    push_short(text, next.seconds)?;
    text.extend_from_slice(b" s to ")?;
    push_coloured(text, colours, Colour::Cyan, next.phase.as_str())?;
    text.extend_from_slice(b" of hop ")?;
    push_decimal(text, u64::from(next.hop))?;
    text.extend_from_slice(b"\n")?;
    Ok(())
}

/// Adds that no phase follows.
fn push_last_bar(text: &mut Vec<u8>, colours: bool) -> Result<(), AllocError>
    ensures { OnOk result (text.new.items ≡ text.old.items ++ bar_text colours None) }
{
    push_bar(text, CELLS)?;
    text.extend_from_slice(b"no phase follows\n")?;
    Ok(())
}

/// Adds the bar to the next phase.
fn push_next(
    text: &mut Vec<u8>,
    colours: bool,
    schedule: &Schedule,
    at: u64,
) -> Result<(), AllocError>
    ensures { OnOk result (text.new.items ≡ text.old.items ++ bar_text colours (next_of schedule.now at)) }
{
    match next_of(schedule, at) {
        Some(next) => push_bar_to(text, colours, &next),
        None => push_last_bar(text, colours),
    }
}

/// Adds the second of a look, with its hop and its phase.
fn push_moment(
    text: &mut Vec<u8>,
    colours: bool,
    at: u64,
    hop: u32,
    phase: PhaseName,
) -> Result<(), AllocError>
    ensures { OnOk result (text.new.items ≡ text.old.items ++ moment_text colours at hop phase) }
{
    text.extend_from_slice(b"second ")?;
    push_decimal(text, at)?;
    text.extend_from_slice(b", hop ")?;
    push_decimal(text, u64::from(hop))?;
    text.extend_from_slice(b", ")?;
    push_coloured(text, colours, Colour::Cyan, phase.as_str())?;
    text.extend_from_slice(b"\n")?;
    Ok(())
}

/// Adds what the schedule says of a second.
#[tactic(auto, unfolding(crate::specs::Next::schedule_text))]
pub(crate) fn push_schedule(
    text: &mut Vec<u8>,
    colours: bool,
    schedule: &Schedule,
    at: u64,
) -> Result<(), AllocError>
    ensures { OnOk result (text.new.items ≡ text.old.items ++ schedule_text colours schedule.now at) }
{
    let judged = judge(schedule.copy(), at);
    push_moment(text, colours, at, judged.hop(), judged.name())?;
    push_next(text, colours, schedule, at)?;
    Ok(())
}
