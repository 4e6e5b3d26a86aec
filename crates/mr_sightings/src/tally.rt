//! What is counted of requests.
ghost use Rattle.std.specs.Prelude.{◌≡◌};
ghost use Rattle.mr_counting.specs.Sums.{sums_of};
ghost use Rattle.mr_sightings.specs.Tally.{outcome_counted, time_counted, counted, tally_sum};

use crate::outcome::Outcome;
use crate::trouble::Trouble;
use mr_counting::{LegTimes, one_more, sum_of};

/// What was counted of some requests, each count as far as 64 bits go.
#[derive(Clone, Copy, Debug, PartialEq, Eq)]
pub struct Tally {
    /// How many came to something.
    pub requests: u64,
    /// Gets that found a value.
    pub hits: u64,
    /// Gets that found none.
    pub misses: u64,
    /// Sets that were done.
    pub stored: u64,
    /// Deletes that were done, or found nothing to delete.
    pub acknowledged: u64,
    /// How many came to nothing, for each reason in the order of `Trouble`.
    pub troubles: [u64; 11],
    /// How long answers took, errors among them, in microseconds.
    pub times: LegTimes,
    /// How long the slowest answer took, in microseconds; 0 where none came.
    pub greatest: u64,
}

impl Tally {
    /// Of no request.
    pub const NONE: Tally = Tally {
        requests: 0,
        hits: 0,
        misses: 0,
        stored: 0,
        acknowledged: 0,
        troubles: [0; 11],
        times: LegTimes::NONE,
        greatest: 0,
    };

    /// Counts what a request came to.
    fn add_outcome(&mut self, outcome: Outcome)
        ensures { self.new ≡ outcome_counted outcome self.old }
    {
        match outcome {
            Outcome::Hit => self.hits = one_more(self.hits),
            Outcome::Miss => self.misses = one_more(self.misses),
            Outcome::Stored => self.stored = one_more(self.stored),
            Outcome::Acknowledged => self.acknowledged = one_more(self.acknowledged),
            Outcome::Failed(trouble) => {
                let place = trouble.place();
                self.troubles[place] = one_more(self.troubles[place]);
            }
        }
    }

    /// Counts how long a request took, where an answer came.
    fn add_time(&mut self, answered: bool, micros: u64)
        ensures { self.new ≡ time_counted answered micros self.old }
    {
        if answered {
            self.times.add_leg(micros);
            self.greatest = self.greatest.max(micros);
        }
    }

    /// Counts a request, and what it came to after so many microseconds. The time of an answer alone counts, be it an error.
    pub fn add(&mut self, outcome: Outcome, micros: u64)
        ensures { self.new ≡ counted outcome micros self.old }
    {
        self.requests = one_more(self.requests);
        self.add_outcome(outcome);
        self.add_time(outcome.is_answer(), micros);
    }

    /// Counts others too, as if each had been added.
    pub fn plus(&mut self, more: &Tally)
        ensures { self.new ≡ tally_sum self.old more.now }
    {
        self.requests = sum_of(self.requests, more.requests);
        self.hits = sum_of(self.hits, more.hits);
        self.misses = sum_of(self.misses, more.misses);
        self.stored = sum_of(self.stored, more.stored);
        self.acknowledged = sum_of(self.acknowledged, more.acknowledged);
        add_each(&mut self.troubles, &more.troubles);
        self.times.add(&more.times);
        self.greatest = self.greatest.max(more.greatest);
    }
}

/// Adds counts to counts, place by place.
fn add_each(counts: &mut [u64; 11], more: &[u64; 11])
    ensures { counts.new ≡ sums_of counts.old more.now }
{
    for place in 0..11 {
        counts[place] = sum_of(counts[place], more[place]);
    }
}
