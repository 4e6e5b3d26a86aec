//! The premises of the promise, as a run kept them.

/// Whether the premises hold under which acknowledged deletes hold.
#[derive(Clone, Copy, Debug, PartialEq, Eq)]
pub struct Premises {
    /// All proxies have one routing and one schedule.
    pub same: bool,
    /// No node of a pool that a proxy moves to held an item at the beginning.
    pub new_empty: bool,
    /// No clock was ever set back.
    pub forward: bool,
    /// No two clocks ever differed by more than the least interval.
    pub near: bool,
}
