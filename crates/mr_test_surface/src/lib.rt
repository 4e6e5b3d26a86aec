//! A library user's program over the core and the threaded layer. It imports each public name from the crate on whose surface a
//! user looks for it, whichever crate does the work: a name that such a crate doesn't give, this one can't be compiled with. A
//! module for each of these crates uses its names a little, by type or by call. `mr_test_tool` does so over those above.
#![tactic(auto)]

#[cfg(test)]
mod tests;
