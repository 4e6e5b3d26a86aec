//! The tests of the canary's judge (`mr_canary`) and of what a canary counts and prints (`mr_sightings`): worked rows of notes with
//! their verdicts, a long run, worked texts, and refused memory.
#![tactic(auto)]

#[cfg(test)]
mod tests;
