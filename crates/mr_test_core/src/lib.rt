//! The tests of what stands on texts, schedules and pools: of `mr_clock`, `mr_join`, `mr_history`, a node (`mr_node`) and the
//! core of a proxy (`mr_proxy`). They are a crate of their own, so that they are proved over the libraries and these aren't
//! proved with them again.
#![tactic(auto)]

#[cfg(test)]
mod tests;
