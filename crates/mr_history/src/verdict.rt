//! What a judged history comes to.
use crate::op_id::OpId;
use mr_text::Key;

/// What a history says of its acknowledged deletes.
#[derive(Clone, Copy, Debug)]
pub enum Verdict<'a> {
    /// Each hit was stored before its answer, and after the issue of every delete of its key that was acknowledged
    /// before the get was issued.
    Safe,
    /// The first bad hit shows an item that was stored last before the issue of a delete which was acknowledged before
    /// the get was issued.
    Stale {
        /// The get.
        get: OpId,
        /// The item's key.
        key: &'a Key,
        /// The delete; of several the one issued first.
        delete: OpId,
    },
    /// The first bad hit shows an item that nothing had stored.
    Invented {
        /// The get.
        get: OpId,
        /// The item's key.
        key: &'a Key,
    },
}
