//! The line of a second.
ghost use Rattle.std.specs.Prelude.{◌≡◌, ◌++◌, fold, OnOk, IfOk, IfSome, ◌<◌, codes};
ghost use Rattle.mr_counting.specs.Counting.{sum_of};
ghost use Rattle.mr_sightings.specs.Percentile.{time_said};
ghost use Rattle.mr_sightings.specs.Second.{median_of, slowest_said, gets_text, times_text, errors_of, error_text, each_error, errors_text, back_text, came_back_part, head_text, second_text};

use crate::percentile::{bound_said, percentile_of, slowest_of};
use crate::shown::{push_millis, push_number, push_number_of, push_place};
use crate::tally::Tally;
use crate::trouble::Trouble;
use mr_counting::sum_of;
use mr_phases::PhaseName;
use std::alloc::{AllocError, Global};

/// A second of a canary.
#[derive(Clone, Copy, Debug, PartialEq, Eq)]
pub struct Second {
    /// Which one, in seconds since the epoch.
    pub at: u64,
    /// The migration in force, counted from 0.
    pub hop: u32,
    /// The phase in force.
    pub phase: PhaseName,
    /// What was counted of the requests that came to something in it.
    pub tally: Tally,
    /// How many hits showed what was deleted.
    pub came_back: u64,
}

/// The place of the bucket of the middle answer.
pub(crate) fn median_of(tally: &Tally) -> Option<usize>
    ensures place { result ≡ median_of tally.now }
    ensures within { IfSome result (λ place. place < 16) }
{
    percentile_of(&tally.times, 50)
}

/// Adds the longest time of a bucket.
fn push_time(text: &mut Vec<u8>, place: Option<usize>) -> Result<(), AllocError>
    requires { IfSome place (λ place. place < 16) }
    ensures { OnOk result (text.new.items ≡ text.old.items ++ time_said place) }
{
    text.extend_from_slice(bound_said(place).as_bytes())?;
    if place.is_some() {
        text.extend_from_slice(b" ms")?;
    }
    Ok(())
}

/// Adds how long the slowest answer took.
fn push_slowest(text: &mut Vec<u8>, slowest: Option<u64>) -> Result<(), AllocError>
    ensures { OnOk result (text.new.items ≡ text.old.items ++ slowest_said slowest) }
{
    match slowest {
        Some(micros) => {
            push_millis(text, micros)?;
            text.extend_from_slice(b" ms")?;
        }
        None => text.extend_from_slice(b"-")?,
    }
    Ok(())
}

/// Adds how many requests there were, and what gets found.
#[tactic(auto, unfolding(crate::specs::Second::gets_text))]
fn push_gets(text: &mut Vec<u8>, tally: &Tally) -> Result<(), AllocError>
    ensures { OnOk result (text.new.items ≡ text.old.items ++ gets_text tally.now) }
{
    push_number_of(text, tally.requests, "request", "requests")?;
    text.extend_from_slice(b", ")?;
    push_number_of(text, tally.hits, "hit", "hits")?;
    text.extend_from_slice(b", ")?;
    push_number_of(text, tally.misses, "miss", "misses")?;
    Ok(())
}

/// Adds how long answers took.
#[tactic(auto, unfolding(crate::specs::Second::times_text))]
fn push_times(text: &mut Vec<u8>, tally: &Tally) -> Result<(), AllocError>
    ensures { OnOk result (text.new.items ≡ text.old.items ++ times_text tally.now) }
{
    let median = median_of(tally);
    text.extend_from_slice(b", median ")?;
    push_time(text, median)?;
    text.extend_from_slice(b", greatest ")?;
    push_slowest(text, slowest_of(median, tally.greatest))?;
    Ok(())
}

/// How many requests came to nothing.
fn errors_of(troubles: &[u64; 11]) -> u64
    ensures { result ≡ errors_of troubles.now }
{
    let mut errors = 0;
    for count in troubles {
        errors = sum_of(errors, *count);
    }
    errors
}

/// Adds a reason, and how often it was seen, behind what stands before it.
fn push_error(
    text: &mut Vec<u8>,
    before: &[u8],
    count: u64,
    trouble: Trouble,
) -> Result<(), AllocError>
    ensures { OnOk result (text.new.items ≡ text.old.items ++ error_text before.now count trouble) }
{
    text.extend_from_slice(before)?;
    push_number(text, count)?;
    text.extend_from_slice(b" ")?;
    text.extend_from_slice(trouble.as_str().as_bytes())?;
    Ok(())
}

/// Adds each of these reasons that was seen.
fn push_each_error(
    text: &mut Vec<u8>,
    reasons: &[Trouble],
    troubles: &[u64; 11],
) -> Result<(), AllocError>
    ensures { OnOk result (text.new.items ≡ text.old.items ++ each_error (codes ": ") reasons.now troubles.now) }
{
    let mut before: &[u8] = b": ";
    for reason in reasons {
        let count = troubles[reason.place()];
        if count > 0 {
            push_error(text, before, count, *reason)?;
            before = b", ";
        }
    }
    Ok(())
}

/// Adds how many requests came to nothing, and why, where some did.
#[tactic(auto, unfolding(crate::specs::Second::errors_text))]
fn push_errors(text: &mut Vec<u8>, troubles: &[u64; 11]) -> Result<(), AllocError>
    ensures { OnOk result (text.new.items ≡ text.old.items ++ errors_text troubles.now) }
{
    let errors = errors_of(troubles);
    if errors > 0 {
        text.extend_from_slice(b", errors ")?;
        push_number(text, errors)?;
        push_each_error(text, &Trouble::ALL, troubles)?;
    }
    Ok(())
}

/// Adds how often what was deleted came back.
fn push_back(text: &mut Vec<u8>, count: u64) -> Result<(), AllocError>
    ensures { OnOk result (text.new.items ≡ text.old.items ++ back_text count) }
{
    text.extend_from_slice(b", came back ")?;
    push_number(text, count)?;
    Ok(())
}

/// Adds the same where it did.
#[tactic(auto, unfolding(crate::specs::Second::came_back_part))]
fn push_came_back(text: &mut Vec<u8>, count: u64) -> Result<(), AllocError>
    ensures { OnOk result (text.new.items ≡ text.old.items ++ came_back_part count) }
{
    if count > 0 {
        push_back(text, count)?;
    }
    Ok(())
}

/// Adds which second it is, and in which phase.
#[tactic(auto, unfolding(crate::specs::Second::head_text))]
fn push_head(text: &mut Vec<u8>, second: &Second) -> Result<(), AllocError>
    ensures { OnOk result (text.new.items ≡ text.old.items ++ head_text second.now) }
{
    text.extend_from_slice(b"second ")?;
    push_number(text, second.at)?;
    text.extend_from_slice(b" ")?;
    push_place(text, second.phase, second.hop)?;
    text.extend_from_slice(b": ")?;
    Ok(())
}

/// Adds the line.
#[tactic(auto, unfolding(crate::specs::Second::second_text))]
fn push_second(text: &mut Vec<u8>, second: &Second) -> Result<(), AllocError>
    ensures { OnOk result (text.new.items ≡ text.old.items ++ second_text second.now) }
{
    push_head(text, second)?;
    push_gets(text, &second.tally)?;
    push_times(text, &second.tally)?;
    push_errors(text, &second.tally.troubles)?;
    push_came_back(text, second.came_back)?;
    text.extend_from_slice(b"\n")?;
    Ok(())
}

/// A second as a line.
pub fn second_line(alloc: Global, second: &Second) -> Result<Vec<u8>, AllocError>
    ensures { IfOk result (λ text. text.items ≡ second_text second.now) }
{
    let mut text = Vec::new(alloc);
    push_second(&mut text, second)?;
    Ok(text)
}
