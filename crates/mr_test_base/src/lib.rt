//! The tests of what a text, a schedule and a pool are: of the text protocol (`mr_text`), `mr_phases` and `mr_pools`. They are a
//! crate of their own, so that they are proved over the libraries and these aren't proved with them again.
#![tactic(auto)]

#[cfg(test)]
mod tests;
