//! How many requests came to an answer, by command and by phase.
ghost use Rattle.std.specs.Prelude.{◌≡◌};
ghost use Rattle.mr_counting.specs.ProxyCounts.{phase_counted, request_counted};
ghost use Rattle.mr_counting.specs.Sums.{phases_sum, requests_sum};

use crate::counting::{one_more, sum_of};
use mr_phases::PhaseName;
use mr_text::Request;

/// A count for each phase.
#[derive(Clone, Copy, Debug, PartialEq, Eq)]
pub struct PhaseCounts {
    /// Before the start.
    pub old_only: u64,
    /// While reads go to the old pool and deletes to both.
    pub both_read_old: u64,
    /// While reads go to the new pool and deletes to both.
    pub both_read_new: u64,
    /// From the end on.
    pub new_only: u64,
}

impl PhaseCounts {
    /// Nothing yet.
    pub const NONE: PhaseCounts = PhaseCounts {
        old_only: 0,
        both_read_old: 0,
        both_read_new: 0,
        new_only: 0,
    };

    /// Counts one more in a phase.
    #[inline(always)]
    fn add(&mut self, phase: PhaseName)
        ensures { self.new ≡ phase_counted phase self.old }
    {
        match phase {
            PhaseName::OldOnly => self.old_only = one_more(self.old_only),
            PhaseName::BothReadOld => self.both_read_old = one_more(self.both_read_old),
            PhaseName::BothReadNew => self.both_read_new = one_more(self.both_read_new),
            PhaseName::NewOnly => self.new_only = one_more(self.new_only),
        }
    }

    /// Both together.
    pub fn plus(self, more: PhaseCounts) -> PhaseCounts
        ensures { result ≡ phases_sum self more }
    {
        PhaseCounts {
            old_only: sum_of(self.old_only, more.old_only),
            both_read_old: sum_of(self.both_read_old, more.both_read_old),
            both_read_new: sum_of(self.both_read_new, more.both_read_new),
            new_only: sum_of(self.new_only, more.new_only),
        }
    }
}

/// A count for each command and phase.
#[derive(Clone, Copy, Debug, PartialEq, Eq)]
pub struct RequestCounts {
    /// Of gets.
    pub gets: PhaseCounts,
    /// Of sets.
    pub sets: PhaseCounts,
    /// Of deletes.
    pub deletes: PhaseCounts,
}

impl RequestCounts {
    /// Nothing yet.
    pub const NONE: RequestCounts = RequestCounts {
        gets: PhaseCounts::NONE,
        sets: PhaseCounts::NONE,
        deletes: PhaseCounts::NONE,
    };

    /// Counts a request in the phase that was in force.
    #[inline(always)]
    pub fn add(&mut self, request: &Request, phase: PhaseName)
        ensures { self.new ≡ request_counted request.now phase self.old }
    {
        match request {
            Request::Get { .. } => self.gets.add(phase),
            Request::Set { .. } => self.sets.add(phase),
            Request::Delete { .. } => self.deletes.add(phase),
            Request::Quit => {}
        }
    }

    /// Both together.
    pub fn plus(self, more: RequestCounts) -> RequestCounts
        ensures { result ≡ requests_sum self more }
    {
        RequestCounts {
            gets: self.gets.plus(more.gets),
            sets: self.sets.plus(more.sets),
            deletes: self.deletes.plus(more.deletes),
        }
    }
}
