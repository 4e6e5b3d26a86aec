//! The text of a timeline.
ghost use Rattle.std.specs.Prelude.{◌≡◌, ◌++◌, IfOk, OnOk, IsErrOf, length};
ghost use Rattle.mr_words.specs.Printing.{WritesAtOnce};
ghost use Rattle.mr_printing.specs.TimelineText.{before_line, hop_lines, times_text, reading_lines, advice_on, timeline_shown};

use crate::line::{
    push_new_only_line, push_old_only_line, push_reading_line, push_span_line, push_spread_line,
    told_hop,
};
use mr_configs::{ChainTimes, Config, PhaseTimes, Span, Standing, advise, timeline};
use mr_phases::PhaseName;
use mr_text::Sink;
use mr_words::{PrintFault, write_at_once};
use std::alloc::{AllocError, Global};

/// Adds the line of the phase before the hop of a number, which the first hop alone has.
fn push_before_line(
    text: &mut Vec<u8>,
    number: u32,
    hop: Option<u32>,
    span: Option<Span>,
) -> Result<(), AllocError>
    ensures { OnOk result (text.new.items ≡ text.old.items ++ before_line number hop span) }
{
    if number == 0 {
        push_old_only_line(text, hop, span)?;
    }
    Ok(())
}

/// Adds the lines of the hop of a number, each with the hop that it tells.
fn push_hop_lines(
    text: &mut Vec<u8>,
    number: u32,
    hop: Option<u32>,
    times: &PhaseTimes,
) -> Result<(), AllocError>
    ensures { OnOk result (text.new.items ≡ text.old.items ++ hop_lines number hop times.now) }
{
    push_before_line(text, number, hop, times.old_only)?;
    push_span_line(text, hop, PhaseName::BothReadOld, times.both_read_old)?;
    push_span_line(text, hop, PhaseName::BothReadNew, times.both_read_new)?;
    push_new_only_line(text, hop, times.new_only)?;
    Ok(())
}

/// Adds the lines of all hops, in order.
fn push_times(text: &mut Vec<u8>, times: &ChainTimes) -> Result<(), AllocError>
    ensures { OnOk result (text.new.items ≡ text.old.items ++ times_text times.now) }
{
    let hops = times.hops();
    for number in 0..hops {
        push_hop_lines(text, number, told_hop(hops, number), &times.of(number))?;
    }
    Ok(())
}

/// Adds the lines of readings with where each stands, in one of so many hops.
fn push_reading_lines(
    text: &mut Vec<u8>,
    hops: u32,
    readings: &[u64],
    standings: &[Standing],
) -> Result<(), AllocError>
    requires { length standings.now ≡ length readings.now }
    ensures { OnOk result (text.new.items ≡ text.old.items ++ reading_lines hops 0 readings.now standings.now) }
{
    for place in 0..readings.len() {
        let standing = standings[place];
        let hop = told_hop(hops, standing.hop);
        push_reading_line(text, place as u64, readings[place], standing.phase, hop)?;
    }
    Ok(())
}

/// Adds what is said of clocks' readings.
fn push_advice(
    alloc: Global,
    text: &mut Vec<u8>,
    config: &Config,
    readings: &[u64],
) -> Result<(), AllocError>
    ensures { OnOk result (text.new.items ≡ text.old.items ++ advice_on config.now.schedule readings.now) }
{
    let Ok(advice) = advise(alloc, config, readings) else {
        return Err(AllocError);
    };
    let hops = config.schedule().hops();
    push_reading_lines(text, hops, readings, advice.standings())?;
    push_spread_line(text, &advice)?;
    Ok(())
}

/// The text of a timeline, whole.
fn text_of_timeline(
    alloc: Global,
    config: &Config,
    readings: Option<&[u64]>,
) -> Result<Vec<u8>, AllocError>
    ensures { IfOk result (λ text. text.items ≡ timeline_shown config.now readings.entry) }
{
    let mut text = Vec::new(alloc);
    push_times(&mut text, &timeline(config))?;
    if let Some(readings) = readings {
        push_advice(alloc, &mut text, config, readings)?;
    }
    Ok(text)
}

/// Writes when each phase of each hop of a configuration is, in seconds since the epoch, and below it, where there are
/// clocks' readings, the phase and the hop of each and whether they are near enough. Hops are told where there is more than
/// one. The text is whole before the one call that writes it.
pub fn write_timeline<W: Sink>(
    alloc: Global,
    config: &Config,
    readings: Option<&[u64]>,
    writer: &mut W,
) -> Result<(), PrintFault>
    ensures timeline { WritesAtOnce (timeline_shown config.now readings.entry) (W.told writer.old) result (W.told writer.new) }

    // The writer is not even touched where memory is refused.
    ensures memory { IsErrOf result PrintFault.Memory → writer.new ≡ writer.old }
{
    let text = text_of_timeline(alloc, config, readings)?;
    write_at_once(text.as_slice(), writer)
}
