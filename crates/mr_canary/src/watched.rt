//! What a judge keeps of one key: the values that no acknowledged delete convicts, and the delete that convicts the others.
ghost use Rattle.std.specs.Prelude.{◌≡◌, ◌+◌, ◌<◌, [], map, length, IfOk, OnOk, OnErr};
ghost use Rattle.mr_canary.specs.steps.Watched.{acknowledged, convicting, is_later, keeps, marked, outlives, with_set};

use crate::note::Probe;
use std::alloc::{AllocError, Global};
use std::marker::Model;

/// A value of a key that an acknowledged delete doesn't convict.
#[derive(Clone, Copy, Debug)]
pub(crate) struct Kept {
    /// The value.
    pub(crate) value: u64,
    /// The number of notes before the one that its set was answered with STORED.
    pub(crate) stored: Option<u64>,
}

impl Kept {
    /// The same value, where it was stored by then: noted as stored where it is this one.
    fn marked(self, value: u64, place: u64) -> Kept
        ensures { result ≡ marked value place self }
    {
        if self.value == value && self.stored.is_none() {
            Kept {
                value,
                stored: Some(place),
            }
        } else {
            self
        }
    }

    /// Whether its set wasn't answered before the delete of this number was issued.
    fn outlives(&self, delete: u64) -> bool
        ensures { result ≡ outlives delete self.now }
    {
        match self.stored {
            Some(place) => delete <= place,
            None => true,
        }
    }
}

/// What is kept of one key.
#[derive(Debug, Drop)]
pub(crate) struct Watched {
    /// How many sets of it there were.
    sets: u64,
    /// Of their values those that the delete doesn't convict.
    kept: Vec<Kept>,
    /// Of its acknowledged deletes the one that was issued last.
    deleted: Option<Probe>,
}

impl Model for Watched {
    ghost use Rattle.mr_canary.specs.steps.Watched.{WatchedView};

    ghost Value = { WatchedView };

    ghost view = { λ w. record { sets = w.sets; kept = w.kept.items; deleted = w.deleted } };
}

impl Watched {
    ghost use Rattle.std.specs.Prelude.{◌^◌, None};
    ghost use Rattle.mr_canary.specs.declared.watched.Kept.{Kept};

    /// No set and no delete.
    pub(crate) fn new(alloc: Global) -> Watched
        ensures { result ≡ record { sets = 0; kept = []; deleted = None } }
    {
        Watched {
            sets: 0,
            kept: Vec::new(alloc),
            deleted: None,
        }
    }

    /// An equal one.
    pub(crate) fn copy(&self) -> Result<Watched, AllocError>
        ensures { IfOk result (λ watched. watched ≡ self.now) }
    {
        Ok(Watched {
            sets: self.sets,
            kept: self.kept.clone()?,
            deleted: self.deleted,
        })
    }

    /// How many sets there were.
    pub(crate) fn sets(&self) -> u64
        ensures { result ≡ self.now.sets }
    {
        self.sets
    }

    /// How many values are kept.
    pub(crate) fn kept(&self) -> usize
        ensures { result ≡ length self.now.kept }
    {
        self.kept.len()
    }

    /// One more set was issued. Without memory nothing changes.
    pub(crate) fn add_set(&mut self) -> Result<(), AllocError>
        requires { self.old.sets + 1 < 2 ^ 64 }
        ensures ok { OnOk result (self.new ≡ with_set self.old) }
        ensures err { OnErr result (self.new ≡ self.old) }
    {
        self.kept.push(Kept {
            value: self.sets,
            stored: None,
        })?;
        self.sets += 1;
        Ok(())
    }

    /// The value's set was answered with STORED, with so many notes before.
    pub(crate) fn mark(&mut self, value: u64, place: u64)
        ensures { self.new ≡ record self.old { kept = map (marked value place) self.old.kept } }
    {
        for kept in self.kept.iter_mut() {
            *kept = kept.marked(value, place);
        }
    }

    /// The delete was acknowledged: what it convicts is kept no more.
    pub(crate) fn acknowledge(&mut self, delete: Probe)
        ensures { self.new ≡ acknowledged self.old delete }
    {
        if is_later(self.deleted, delete) {
            self.deleted = Some(delete);
            self.kept.retain(|kept| kept.outlives(delete.number));
        }
    }

    /// Whether the value is kept.
    fn keeps(&self, value: u64) -> bool
        ensures { result ≡ keeps self.now.kept value }
    {
        self.kept.iter().any(|kept| kept.value == value)
    }

    /// The delete that convicts a hit of the value.
    pub(crate) fn convicting(&self, value: u64) -> Option<Probe>
        ensures { result ≡ convicting self.now value }
    {
        if value < self.sets && !self.keeps(value) {
            self.deleted
        } else {
            None
        }
    }
}

/// Whether the delete was issued after that one.
fn is_later(deleted: Option<Probe>, delete: Probe) -> bool
    ensures { result ≡ is_later deleted delete }
{
    match deleted {
        Some(latest) => latest.number < delete.number,
        None => true,
    }
}
