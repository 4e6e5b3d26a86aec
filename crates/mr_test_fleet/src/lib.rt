//! The tests of fleets of real threads: in memory (`mr_fleet`) and on sockets of this machine (`mr_sockets`). They are a crate
//! of their own, so that they are proved over the libraries and these aren't proved with them again.
#![tactic(auto)]

#[cfg(test)]
mod tests;
