//! What a canary comes to.
ghost use Rattle.std.specs.Prelude.{◌≡◌, ◌++◌, OnOk, IfOk};
ghost use Rattle.mr_sightings.specs.Verdict.{nothing_text, found_text, finding_text, asked_text, acknowledged_text, left_text, verdict_text};

use crate::shown::{push_great_number_of, push_noun};
use std::alloc::{AllocError, Global};

/// What a canary comes to.
#[derive(Clone, Copy, Debug, PartialEq, Eq)]
pub struct Verdict {
    /// How many hits showed what an acknowledged delete should have taken away.
    pub came_back: u64,
    /// How many requests came to something.
    pub requests: u64,
    /// How many proxies were asked.
    pub proxies: u64,
    /// How many deletes were acknowledged.
    pub acknowledged: u64,
    /// How many keys weren't deleted in the end.
    pub left: u64,
}

/// Adds that it found nothing.
#[tactic(auto, unfolding(crate::specs::Verdict::nothing_text))]
fn push_nothing(text: &mut Vec<u8>) -> Result<(), AllocError>
    ensures { OnOk result (text.new.items ≡ text.old.items ++ nothing_text) }
{
    text.extend_from_slice(b"nothing that was deleted came back")?;
    Ok(())
}

/// Adds how often it found something.
fn push_found(text: &mut Vec<u8>, count: u64) -> Result<(), AllocError>
    ensures { OnOk result (text.new.items ≡ text.old.items ++ found_text count) }
{
    text.extend_from_slice(b"what was deleted came back ")?;
    push_great_number_of(text, count, "time", "times")?;
    Ok(())
}

/// Adds what it found.
#[tactic(auto, unfolding(crate::specs::Verdict::finding_text))]
fn push_finding(text: &mut Vec<u8>, count: u64) -> Result<(), AllocError>
    ensures { OnOk result (text.new.items ≡ text.old.items ++ finding_text count) }
{
    if count == 0 {
        push_nothing(text)
    } else {
        push_found(text, count)
    }
}

/// Adds whom it asked, and how often.
#[tactic(auto, unfolding(crate::specs::Verdict::asked_text))]
fn push_asked(text: &mut Vec<u8>, verdict: &Verdict) -> Result<(), AllocError>
    ensures { OnOk result (text.new.items ≡ text.old.items ++ asked_text verdict.now) }
{
    push_great_number_of(text, verdict.requests, "request", "requests")?;
    text.extend_from_slice(b" at ")?;
    push_great_number_of(text, verdict.proxies, "proxy", "proxies")?;
    text.extend_from_slice(b", ")?;
    Ok(())
}

/// Adds how many deletes were acknowledged.
#[tactic(auto, unfolding(crate::specs::Verdict::acknowledged_text))]
fn push_acknowledged(text: &mut Vec<u8>, count: u64) -> Result<(), AllocError>
    ensures { OnOk result (text.new.items ≡ text.old.items ++ acknowledged_text count) }
{
    push_great_number_of(text, count, "delete", "deletes")?;
    text.extend_from_slice(b" acknowledged\n")?;
    Ok(())
}

/// Adds how many keys it leaves, where it leaves some.
#[tactic(auto, unfolding(crate::specs::Verdict::left_text))]
fn push_left_keys(text: &mut Vec<u8>, count: u64) -> Result<(), AllocError>
    ensures { OnOk result (text.new.items ≡ text.old.items ++ left_text count) }
{
    if count > 0 {
        push_great_number_of(text, count, "key", "keys")?;
        push_noun(
            text,
            count,
            " wasn't deleted: it expires within an hour\n",
            " weren't deleted: they expire within an hour\n",
        )?;
    }
    Ok(())
}

/// Adds all of it.
#[tactic(auto, unfolding(crate::specs::Verdict::verdict_text))]
fn push_verdict(text: &mut Vec<u8>, verdict: &Verdict) -> Result<(), AllocError>
    ensures { OnOk result (text.new.items ≡ text.old.items ++ verdict_text verdict.now) }
{
    push_finding(text, verdict.came_back)?;
    text.extend_from_slice(b": ")?;
    push_asked(text, verdict)?;
    push_acknowledged(text, verdict.acknowledged)?;
    push_left_keys(text, verdict.left)?;
    Ok(())
}

/// A verdict in a line, and a second one where keys are left.
pub fn verdict_text(alloc: Global, verdict: &Verdict) -> Result<Vec<u8>, AllocError>
    ensures { IfOk result (λ text. text.items ≡ verdict_text verdict.now) }
{
    let mut text = Vec::new(alloc);
    push_verdict(&mut text, verdict)?;
    Ok(text)
}
