//! The tests of what a service says of itself (`mr_log`). They are a crate of their own, so that they are proved over the library
//! and it isn't proved with them again.
#![tactic(auto)]

#[cfg(test)]
mod tests;
