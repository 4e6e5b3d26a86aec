//! The lines that commands print.
ghost use Rattle.std.specs.Prelude.{◌≡◌, ◌++◌, ℕ, codes, OnOk, decimal};
ghost use Rattle.mr_phases.specs.PhaseText.{phase_text};
ghost use Rattle.mr_configs.specs.Timeline.{AdviceView};
ghost use Rattle.mr_proxy.specs.Sheets.{IsPlaced};
ghost use Rattle.mr_printing.specs.HopText.{told_hop, of_hop, hop_mark};
ghost use Rattle.mr_printing.specs.PlanText.{phase_line, leg_line};
ghost use Rattle.mr_printing.specs.TimelineText.{none_line, span_line, since_line, old_only_line, new_only_line, reading_line, near_text, spread_line};

use itoa::Buffer;
use mr_configs::{Advice, NewOnlyTime, Span};
use mr_phases::PhaseName;
use mr_pools::Routing;
use mr_proxy::LegSheet;
use std::alloc::AllocError;

/// Adds a number in decimal digits.
pub fn push_number(text: &mut Vec<u8>, number: u64) -> Result<(), AllocError>
    ensures { OnOk result (text.new.items ≡ text.old.items ++ decimal number) }
{
    let mut buffer = Buffer::new();
    text.extend_from_slice(buffer.format(number).as_bytes())?;
    Ok(())
}

/// Adds the name of a phase.
fn push_phase(text: &mut Vec<u8>, phase: PhaseName) -> Result<(), AllocError>
    ensures { OnOk result (text.new.items ≡ text.old.items ++ phase_text phase) }
{
    text.extend_from_slice(phase.as_str().as_bytes())?;
    Ok(())
}

/// The hop that a line tells, of so many and of this number: none where it is the only one.
pub fn told_hop(hops: u32, number: u32) -> Option<u32>
    ensures { result ≡ told_hop hops number }
{
    if hops > 1 { Some(number) } else { None }
}

/// Adds, behind a phase, the hop that it is of.
fn push_of_hop(text: &mut Vec<u8>, hop: Option<u32>) -> Result<(), AllocError>
    ensures { OnOk result (text.new.items ≡ text.old.items ++ of_hop hop) }
{
    if let Some(number) = hop {
        text.extend_from_slice(b" of hop ")?;
        push_number(text, u64::from(number))?;
    }
    Ok(())
}

/// Adds what a line of a timeline begins with: the hop that it is of.
fn push_hop_mark(text: &mut Vec<u8>, hop: Option<u32>) -> Result<(), AllocError>
    ensures { OnOk result (text.new.items ≡ text.old.items ++ hop_mark hop) }
{
    if let Some(number) = hop {
        text.extend_from_slice(b"hop ")?;
        push_number(text, u64::from(number))?;
        text.extend_from_slice(b" ")?;
    }
    Ok(())
}

/// Adds the line of the phase, and of its hop where that is told, at a reading.
pub fn push_phase_line(
    text: &mut Vec<u8>,
    phase: PhaseName,
    hop: Option<u32>,
    reading: u64,
) -> Result<(), AllocError>
    ensures { OnOk result (text.new.items ≡ text.old.items ++ phase_line phase hop reading) }
{
    text.extend_from_slice(b"phase ")?;
    push_phase(text, phase)?;
    push_of_hop(text, hop)?;
    text.extend_from_slice(b" at ")?;
    push_number(text, reading)?;
    text.extend_from_slice(b"\n")?;
    Ok(())
}

/// Adds the line of a leg, whose node the routing has.
pub fn push_leg_line(
    text: &mut Vec<u8>,
    routing: &Routing,
    sheet: &LegSheet,
) -> Result<(), AllocError>
    requires { IsPlaced routing.now sheet.now }
    ensures { OnOk result (text.new.items ≡ text.old.items ++ leg_line routing.now sheet.now) }
{
    let Some(name) = sheet.node_name(routing) else {
        unreachable!()
    };
    text.extend_from_slice(b"leg ")?;
    push_number(text, u64::from(sheet.id.place))?;
    text.extend_from_slice(b" ")?;
    text.extend_from_slice(sheet.side.as_str().as_bytes())?;
    text.extend_from_slice(b" ")?;
    text.extend_from_slice(name.as_bytes())?;
    text.extend_from_slice(b"\n")?;
    Ok(())
}

/// Adds the line of a phase that no second has.
fn push_none_line(text: &mut Vec<u8>, hop: Option<u32>, phase: PhaseName) -> Result<(), AllocError>
    ensures { OnOk result (text.new.items ≡ text.old.items ++ none_line hop phase) }
{
    push_hop_mark(text, hop)?;
    push_phase(text, phase)?;
    text.extend_from_slice(b" none\n")?;
    Ok(())
}

/// Adds the line of a phase from its first second to its last.
pub fn push_span_line(
    text: &mut Vec<u8>,
    hop: Option<u32>,
    phase: PhaseName,
    span: Span,
) -> Result<(), AllocError>
    ensures { OnOk result (text.new.items ≡ text.old.items ++ span_line hop phase span) }
{
    push_hop_mark(text, hop)?;
    push_phase(text, phase)?;
    text.extend_from_slice(b" ")?;
    push_number(text, span.first)?;
    text.extend_from_slice(b" ")?;
    push_number(text, span.last)?;
    text.extend_from_slice(b"\n")?;
    Ok(())
}

/// Adds the line of a phase from its first second on.
fn push_since_line(
    text: &mut Vec<u8>,
    hop: Option<u32>,
    phase: PhaseName,
    first: u64,
) -> Result<(), AllocError>
    ensures { OnOk result (text.new.items ≡ text.old.items ++ since_line hop phase first) }
{
    push_hop_mark(text, hop)?;
    push_phase(text, phase)?;
    text.extend_from_slice(b" ")?;
    push_number(text, first)?;
    text.extend_from_slice(b"\n")?;
    Ok(())
}

/// Adds the line of the phase before a hop, which no second has where that starts at 0.
pub fn push_old_only_line(
    text: &mut Vec<u8>,
    hop: Option<u32>,
    span: Option<Span>,
) -> Result<(), AllocError>
    ensures { OnOk result (text.new.items ≡ text.old.items ++ old_only_line hop span) }
{
    match span {
        Some(span) => push_span_line(text, hop, PhaseName::OldOnly, span),
        None => push_none_line(text, hop, PhaseName::OldOnly),
    }
}

/// Adds the line of the phase after a hop, which no second has where the next one starts at once.
pub fn push_new_only_line(
    text: &mut Vec<u8>,
    hop: Option<u32>,
    time: NewOnlyTime,
) -> Result<(), AllocError>
    ensures { OnOk result (text.new.items ≡ text.old.items ++ new_only_line hop time) }
{
    match time {
        NewOnlyTime::Never => push_none_line(text, hop, PhaseName::NewOnly),
        NewOnlyTime::Within(span) => push_span_line(text, hop, PhaseName::NewOnly, span),
        NewOnlyTime::Since(first) => push_since_line(text, hop, PhaseName::NewOnly, first),
    }
}

/// Adds the line of a clock's reading: its phase, and that one's hop where that is told.
pub fn push_reading_line(
    text: &mut Vec<u8>,
    place: u64,
    reading: u64,
    phase: PhaseName,
    hop: Option<u32>,
) -> Result<(), AllocError>
    ensures { OnOk result (text.new.items ≡ text.old.items ++ reading_line place reading phase hop) }
{
    text.extend_from_slice(b"reading ")?;
    push_number(text, place)?;
    text.extend_from_slice(b" ")?;
    push_number(text, reading)?;
    text.extend_from_slice(b" ")?;
    push_phase(text, phase)?;
    push_of_hop(text, hop)?;
    text.extend_from_slice(b"\n")?;
    Ok(())
}

/// Adds the line of the spread.
pub fn push_spread_line(text: &mut Vec<u8>, advice: &Advice) -> Result<(), AllocError>
    ensures { OnOk result (text.new.items ≡ text.old.items ++ spread_line advice.now) }
{
    text.extend_from_slice(b"spread ")?;
    push_number(text, advice.spread())?;
    text.extend_from_slice(b" allowed ")?;
    push_number(text, advice.interval())?;
    let end: &[u8] = if advice.near() {
        b" ok\n"
    } else {
        b" too far\n"
    };
    text.extend_from_slice(end)?;
    Ok(())
}
