//! Plays runs of fleets whose proxies and nodes are loops, with the bytes that are on their way between them, a row on the standard
//! input for each: the script of a fleet without events, in hexadecimal digits; the bounds of its loops; and what happens, with
//! commas between. The machines are those that serve; each connection gives the bytes of each direction in their order. For each
//! row a line is printed: what the judge says of the history, whether the premises held, what was counted, the bytes that the
//! client of each visit was told, and the events of the world that come to the same.
#![tactic(auto)]

mod bounds;
mod clients;
mod connection;
mod events;
mod fleet;
mod links;
mod making;
mod nodes;
mod pieces;
mod proxies;
mod record;
mod trips;
mod visit;
mod words;

use bounds::Bounds;
use events::play;
use fleet::Fleet;
use std::alloc::Global;
use std::io::{BufRead, BufReader};
use std::test::Fail;
use words::{Words, bytes_of};

/// The line that a row is answered by.
fn told_of(alloc: Global, row: &str) -> Result<String, Fail> {
    let mut words = Words::of(alloc, row, ' ')?;
    let script = bytes_of(alloc, words.word()?)?;
    let bounds = Bounds::of(&mut Words::of(alloc, words.word()?, ':')?)?;
    let mut fleet = Fleet::of(alloc, script.as_slice(), bounds)?;
    for event in words.word()?.split(',') {
        play(&mut fleet, &mut Words::of(alloc, event, ':')?)?;
    }
    fleet.told()
}

fn main(rt: HostRuntime) -> Result<(), Fail> {
    for row in BufReader::new(rt.alloc(), rt.reader())?.lines(rt.alloc()) {
        let told = told_of(rt.alloc(), row?.as_str())?;
        println!(rt; "{told}")?;
    }
    Ok(())
}
