//! The tests of `mr_loop`: worked runs of a proxy's loop, with what clients and nodes are told. They are a crate of their own,
//! so that they are proved over the libraries and these aren't proved with them again.
#![tactic(auto)]

#[cfg(test)]
mod tests;
