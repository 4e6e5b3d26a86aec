//! The text of a line.
ghost use Rattle.std.specs.Prelude.{◌≡◌, ◌++◌, OnOk, IfOk};
ghost use Rattle.mr_log.specs.Lines.{link_text, config_text, listens_text, entered_text, back_text, wait_text, happening_text, more_text, IsLine};

use crate::happening::Happening;
use crate::log::Said;
use crate::nodes::node_at;
use crate::number::push_number;
use crate::time::time_of;
use mr_phases::PhaseName;
use mr_pools::Pool;
use std::alloc::{AllocError, Global};

/// A service, as its lines name it.
#[derive(Clone, Copy, Debug)]
pub struct Service<'a> {
    /// The version of the program.
    pub version: &'a str,
    /// Where clients connect: a host and a port, with a colon between them.
    pub address: &'a str,
    /// The digest of its configuration, if it has one: a proxy does.
    pub config: Option<&'a str>,
    /// Its pools, whose nodes are counted pool by pool. It has none where it has no configuration.
    pub pools: &'a [Pool],
}

/// Adds words.
fn push_words(text: &mut Vec<u8>, words: &str) -> Result<(), AllocError>
    ensures { OnOk result (text.new.items ≡ text.old.items ++ words.now) }
{
    text.extend_from_slice(words.as_bytes())
}

/// Adds the link to the node of a number. Where no node has it, the number stands for the node.
fn push_link(text: &mut Vec<u8>, pools: &[Pool], number: usize) -> Result<(), AllocError>
    ensures { OnOk result (text.new.items ≡ text.old.items ++ link_text pools.now number) }
{
    match node_at(pools, number) {
        None => {
            push_words(text, "link to node ")?;
            push_number(text, number as u64)
        }
        Some(node) => {
            push_words(text, "link to ")?;
            push_words(text, node.name)?;
            push_words(text, " of pool ")?;
            push_number(text, node.pool as u64)
        }
    }
}

/// Adds the configuration of a service that has one.
fn push_config(text: &mut Vec<u8>, config: Option<&str>) -> Result<(), AllocError>
    ensures { OnOk result (text.new.items ≡ text.old.items ++ config_text config.entry) }
{
    let Some(config) = config else {
        return Ok(());
    };
    push_words(text, ", configuration ")?;
    push_words(text, config)
}

/// Adds that the service listens.
fn push_listens(text: &mut Vec<u8>, service: &Service<'_>, loops: u64) -> Result<(), AllocError>
    ensures { OnOk result (text.new.items ≡ text.old.items ++ listens_text service.now loops) }
{
    push_words(text, "listens at ")?;
    push_words(text, service.address)?;
    push_words(text, ", loops ")?;
    push_number(text, loops)?;
    push_config(text, service.config)?;
    push_words(text, ", version ")?;
    push_words(text, service.version)
}

/// Adds the phase that the clock came to.
fn push_entered(text: &mut Vec<u8>, hop: u32, phase: PhaseName) -> Result<(), AllocError>
    ensures { OnOk result (text.new.items ≡ text.old.items ++ entered_text hop phase) }
{
    push_words(text, "the clock is in phase ")?;
    push_words(text, phase.as_str())?;
    push_words(text, " of hop ")?;
    push_number(text, u64::from(hop))
}

/// Adds that the clock went back, from one reading to another.
fn push_back(text: &mut Vec<u8>, from: u64, to: u64) -> Result<(), AllocError>
    ensures { OnOk result (text.new.items ≡ text.old.items ++ back_text from to) }
{
    push_words(text, "the clock went back from ")?;
    push_number(text, from)?;
    push_words(text, " to ")?;
    push_number(text, to)
}

/// Adds that new clients wait.
fn push_wait(text: &mut Vec<u8>, most: u64) -> Result<(), AllocError>
    ensures { OnOk result (text.new.items ≡ text.old.items ++ wait_text most) }
{
    push_words(text, "new clients wait: ")?;
    push_number(text, most)?;
    push_words(text, " are served, as many as may be")
}

/// Adds what happened.
fn push_happening(
    text: &mut Vec<u8>,
    service: &Service<'_>,
    happening: Happening,
) -> Result<(), AllocError>
    ensures { OnOk result (text.new.items ≡ text.old.items ++ happening_text service.now happening) }
{
    match happening {
        Happening::Listens { loops } => push_listens(text, service, loops),
        Happening::PhaseEntered { hop, phase } => push_entered(text, hop, phase),
        Happening::LinkDown { node, why } => {
            push_link(text, service.pools, node)?;
            push_words(text, " is down: ")?;
            push_words(text, why.as_str())
        }
        Happening::LinkUp { node } => {
            push_link(text, service.pools, node)?;
            push_words(text, " is up")
        }
        Happening::ClientsHeldBack => {
            push_words(
                text,
                "requests of clients are held back until there is room",
            )
        }
        Happening::ClientsWait { most } => push_wait(text, most),
        Happening::NoMemory => push_words(text, "memory is short"),
        Happening::NoDescriptors => push_words(text, "descriptors are short"),
        Happening::NoClock => push_words(text, "the clock gives no reading"),
        Happening::ClockWentBack { from, to } => push_back(text, from, to),
    }
}

/// Adds how many more of a kind came, if any did.
fn push_more(text: &mut Vec<u8>, more: u64) -> Result<(), AllocError>
    ensures { OnOk result (text.new.items ≡ text.old.items ++ more_text more) }
{
    if more == 0 {
        return Ok(());
    }
    push_words(text, " (")?;
    push_number(text, more)?;
    push_words(text, " more)")
}

/// The text of a line, with its line end. `at` is when it is said, in seconds since the epoch; None where there is no clock to
/// tell it, and a hyphen stands for the time then.
pub fn line_of(
    alloc: Global,
    said: &Said,
    at: Option<u64>,
    service: &Service<'_>,
) -> Result<Vec<u8>, AllocError>
    ensures { IfOk result (λ line. IsLine service.now at said.now line.items) }
{
    let time = time_of(at);
    let mut line = Vec::from_slice(alloc, time.as_bytes())?;
    push_words(&mut line, " ")?;
    push_happening(&mut line, service, said.happening)?;
    push_more(&mut line, said.more)?;
    push_words(&mut line, "\n")?;
    Ok(line)
}
