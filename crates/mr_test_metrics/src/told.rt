//! What the texts of services in a row tell.
use crate::words::Words;
use mr_phases::PhaseName;
use mr_watch::{NodeTold, ProxyTold, StatsTold, Told, read_stats, read_told};
use std::alloc::Global;
use std::test::Fail;

/// A number that may be none, as a word.
fn word_of(alloc: Global, number: Option<u64>) -> Result<String, Fail> {
    match number {
        Some(number) => Ok(format!(in alloc; "{number}")?),
        None => Ok(String::from_str(alloc, "-")?),
    }
}

/// The words of what a proxy told.
fn proxy_words(alloc: Global, told: &ProxyTold<'_>) -> Result<String, Fail> {
    let digest = hex::encode(alloc, told.digest)?;
    let clock = word_of(alloc, told.clock)?;
    let next_phase = word_of(alloc, told.place.next_phase)?;
    let phase: PhaseName = told.place.phase;
    let front = format!(in alloc;
        "proxy -{digest} {clock} {} {} {phase} {next_phase}",
        told.steps_back, told.place.hop
    )?;
    let traffic = told.traffic;
    let held_back = word_of(alloc, traffic.held_back)?;
    Ok(format!(in alloc;
        "{front} {} {} {} {held_back}",
        traffic.requests, traffic.hits, traffic.lost
    )?)
}

/// The words of what a node told.
fn node_words(alloc: Global, told: &NodeTold<'_>) -> Result<String, Fail> {
    let address = hex::encode(alloc, told.address)?;
    Ok(format!(in alloc; "node -{address} {} {}", told.items, told.hits)?)
}

/// The words of what a service told.
fn told_words(alloc: Global, told: Option<Told<'_>>) -> Result<String, Fail> {
    match told {
        Some(Told::Proxy(proxy)) => proxy_words(alloc, &proxy),
        Some(Told::Node(node)) => node_words(alloc, &node),
        None => Ok(String::from_str(alloc, "nothing")?),
    }
}

/// The words of what a memcached told.
fn stats_words(alloc: Global, told: Option<StatsTold>) -> Result<String, Fail> {
    match told {
        Some(stats) => Ok(format!(in alloc; "stats {} {}", stats.items, stats.hits)?),
        None => Ok(String::from_str(alloc, "nothing")?),
    }
}

/// What the text of a service of a row tells.
pub fn told_of_text(alloc: Global, words: &mut Words<'_>) -> Result<Vec<u8>, Fail> {
    let bytes = words.bytes(alloc)?;
    let shown = told_words(alloc, read_told(bytes.as_slice()))?;
    Ok(Vec::from_slice(alloc, shown.as_bytes())?)
}

/// What the answer of a memcached of a row tells.
pub fn told_of_stats(alloc: Global, words: &mut Words<'_>) -> Result<Vec<u8>, Fail> {
    let bytes = words.bytes(alloc)?;
    let shown = stats_words(alloc, read_stats(bytes.as_slice()))?;
    Ok(Vec::from_slice(alloc, shown.as_bytes())?)
}
