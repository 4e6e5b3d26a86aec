//! The tests of pictures (`mr_drawing`): one run of a fleet, its steps, its shapes and its text.
#![tactic(auto)]

#[cfg(test)]
mod tests;
