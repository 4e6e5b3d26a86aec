//! Tells what nodes and proxies tell of themselves, what scrapers are answered, what comes of asking them, the digests of
//! configurations, and what a watcher makes of all that, a row on the standard input for each: `node` or `proxy` with what is known
//! of it, `scrape` with the bytes of a request, `fetch` or `ask` with those of an answer, `digest` with those of a configuration,
//! `told` or `stats` with what a service tells, or `look` with what a watcher saw. For each row a line is printed: the text that it
//! comes to, in hexadecimal digits.
#![tactic(auto)]

mod digests;
mod digits;
mod fetches;
mod looks;
mod nodes;
mod proxies;
mod scrapes;
mod told;
mod words;

use digests::told_of_digest;
use fetches::{told_of_asking, told_of_fetch};
use looks::told_of_look;
use nodes::told_of_node;
use proxies::told_of_proxy;
use scrapes::told_of_scrape;
use std::alloc::Global;
use std::test::Fail;
use told::{told_of_stats, told_of_text};
use words::Words;

/// The text that a row is answered by.
fn told_of(alloc: Global, row: &str) -> Result<Vec<u8>, Fail> {
    let mut words = Words::of(alloc, row, ' ')?;
    match words.word()? {
        "node" => told_of_node(alloc, &mut words),
        "proxy" => told_of_proxy(alloc, &mut words),
        "fetch" => told_of_fetch(alloc, &mut words),
        "ask" => told_of_asking(alloc, &mut words),
        "digest" => told_of_digest(alloc, &mut words),
        "told" => told_of_text(alloc, &mut words),
        "stats" => told_of_stats(alloc, &mut words),
        "look" => told_of_look(alloc, &mut words),
        _ => told_of_scrape(alloc, &mut words),
    }
}

fn main(rt: HostRuntime) -> Result<(), Fail> {
    for row in rt.lines(rt.alloc()) {
        let told = told_of(rt.alloc(), row?.as_str())?;
        let digits = hex::encode(rt.alloc(), told.as_slice())?;
        println!(rt; "{digits}")?;
    }
    Ok(())
}
