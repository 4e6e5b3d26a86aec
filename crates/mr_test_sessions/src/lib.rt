//! The tests of what threads share, in memory: of desks and books (`mr_desks`), and of sessions and links (`mr_sessions`). They
//! are a crate of their own, so that they are proved over the libraries and these aren't proved with them again.
#![tactic(auto)]

#[cfg(test)]
mod tests;
