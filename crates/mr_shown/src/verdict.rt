//! What a history says of its acknowledged deletes, kept for itself.
ghost use Rattle.std.specs.Prelude.{◌≡◌, IfOk};
ghost use Rattle.mr_history.specs.Judgement.{Judges};
ghost use Rattle.mr_shown.specs.Verdict.{JudgesSo};

use mr_history::{HistoryError, OpId, Verdict, judge_indexed};
use mr_text::Key;
use mr_world::World;
use std::alloc::{AllocError, Global};

/// A verdict over a history, with a key of its own.
#[derive(Debug, Drop)]
pub enum KeptVerdict {
    /// Each hit was stored before its answer, and after the issue of every delete of its key that was acknowledged
    /// before the get was issued.
    Safe,
    /// The first bad hit shows an item that was stored last before the issue of a delete which was acknowledged before
    /// the get was issued.
    Stale {
        /// The get.
        get: OpId,
        /// The item's key.
        key: Key,
        /// The delete; of several the one issued first.
        delete: OpId,
    },
    /// The first bad hit shows an item that nothing had stored.
    Invented {
        /// The get.
        get: OpId,
        /// The item's key.
        key: Key,
    },
}

/// The verdict with a copy of its key.
fn keep_verdict(verdict: &Verdict) -> Result<KeptVerdict, AllocError>
    ensures { IfOk result (λ kept. (history : _) → Judges history verdict.now → JudgesSo history kept) }
{
    Ok(match verdict {
        Verdict::Safe => KeptVerdict::Safe,
        Verdict::Stale { get, key, delete } => KeptVerdict::Stale {
            get: *get,
            key: key.copy()?,
            delete: *delete,
        },
        Verdict::Invented { get, key } => KeptVerdict::Invented {
            get: *get,
            key: key.copy()?,
        },
    })
}

impl KeptVerdict {
    /// What the history of a fleet says of its acknowledged deletes.
    pub fn on(alloc: Global, world: &World) -> Result<KeptVerdict, AllocError>
        ensures { IfOk result (JudgesSo world.now.history) }
    {
        match judge_indexed(alloc, world.history()) {
            Ok(verdict) => keep_verdict(&verdict),
            Err(HistoryError::OutOfMemory) => Err(AllocError),
        }
    }

    /// An equal verdict.
    pub fn copy(&self) -> Result<KeptVerdict, AllocError>
        ensures { IfOk result (λ verdict. verdict ≡ self.now) }
    {
        Ok(match self {
            KeptVerdict::Safe => KeptVerdict::Safe,
            KeptVerdict::Stale { get, key, delete } => KeptVerdict::Stale {
                get: *get,
                key: key.copy()?,
                delete: *delete,
            },
            KeptVerdict::Invented { get, key } => KeptVerdict::Invented {
                get: *get,
                key: key.copy()?,
            },
        })
    }
}
