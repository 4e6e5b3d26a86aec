//! What a canary counts and prints, beside rows that were worked out from the page on the formats.
mod counts;
mod memory;
mod seconds;
mod tables;
mod tellings;

use super::must;
use mr_sightings::{Outcome, Tally};
use std::alloc::Global;
use std::process::Abort;

/// What requests came to, after so many microseconds each, and how many they were.
type Step = (Outcome, u64, u64);

/// What is counted of these.
fn tally_of(steps: &[Step]) -> Tally {
    let mut tally = Tally::NONE;
    for (outcome, micros, times) in steps {
        for _ in 0..*times {
            tally.add(*outcome, *micros);
        }
    }
    tally
}

/// Whether a text is made of these lines.
fn has_lines(rt: &impl Abort, alloc: Global, text: &[u8], lines: &[&str]) -> bool {
    let mut wanted = Vec::new(alloc);
    for line in lines {
        must(rt, wanted.extend_from_slice(line.as_bytes()));
        must(
            rt,
            wanted.extend_from_slice(
                b"
",
            ),
        );
    }
    text == wanted.as_slice()
}
