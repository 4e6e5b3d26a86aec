//! How long legs took, carried and lost ones, by how long each did.
ghost use Rattle.std.specs.Prelude.{◌≡◌, ◌<◌, ◌≤◌, length, map, slice_index};
ghost use Rattle.mr_counting.specs.LegTimes.{bound_texts, place_in, bucket_said, bucket_rows, timed};
ghost use Rattle.mr_counting.specs.Sums.{times_sum};

use crate::counting::{one_more, sum_of};
use mr_metrics::Bucket;

/// The longest times that are told apart, in microseconds.
const BOUNDS: [u64; 15] = [
    100, 250, 500, 1_000, 2_500, 5_000, 10_000, 25_000, 50_000, 100_000, 250_000, 500_000,
    1_000_000, 2_500_000, 5_000_000,
];

/// How many counts there are: one for each bound, and one for what took longer.
const BUCKETS: usize = 16;

/// The place of the first of these bounds that a time isn't longer than; behind the last where it is longer than all.
#[inline(always)]
fn place_among(bounds: &[u64], micros: u64) -> usize
    ensures place { result ≡ place_in bounds.now micros }
    ensures within { result ≤ length bounds.now }
{
    let mut place = 0;
    for bound in bounds {
        if micros <= *bound {
            break;
        }
        place += 1;
    }
    place
}

/// How long legs took, carried and lost ones.
#[derive(Clone, Copy, Debug, PartialEq, Eq)]
pub struct LegTimes {
    /// How many took no longer than a bound, and longer than the one before it: by the bounds that are told, of which the last
    /// is none.
    pub counts: [u64; BUCKETS],
    /// How long they took in all, in microseconds.
    pub micros: u64,
}

impl LegTimes {
    /// No leg went.
    pub const NONE: LegTimes = LegTimes {
        counts: [0; BUCKETS],
        micros: 0,
    };

    /// Counts a leg that took so many microseconds.
    #[inline(always)]
    pub fn add_leg(&mut self, micros: u64)
        ensures { self.new ≡ timed micros self.old }
    {
        let place = place_among(&BOUNDS, micros);
        self.counts[place] = one_more(self.counts[place]);
        self.micros = sum_of(self.micros, micros);
    }

    /// Adds others, as far as 64 bits count.
    pub fn add(&mut self, more: &LegTimes)
        ensures { self.new ≡ times_sum self.old more.now }
    {
        for place in 0..BUCKETS {
            self.counts[place] = sum_of(self.counts[place], more.counts[place]);
        }
        self.micros = sum_of(self.micros, more.micros);
    }

    /// How often they took how long, by a bound in seconds and its place.
    fn bucket(&self, bound: &'static str, place: usize) -> Bucket<'static>
        requires { place < 16 }
        ensures bound { result.bound.now ≡ bound.entry.now }
        ensures count { result.count ≡ slice_index self.now.counts place }
    {
        Bucket {
            bound,
            count: self.counts[place],
        }
    }

    /// How often they took how long, by rising bounds in seconds.
    pub fn buckets(&self) -> [Bucket<'static>; BUCKETS]
        ensures { map bucket_said result ≡ bucket_rows 0 bound_texts self.now.counts }
    {
        [
            self.bucket("0.0001", 0),
            self.bucket("0.00025", 1),
            self.bucket("0.0005", 2),
            self.bucket("0.001", 3),
            self.bucket("0.0025", 4),
            self.bucket("0.005", 5),
            self.bucket("0.01", 6),
            self.bucket("0.025", 7),
            self.bucket("0.05", 8),
            self.bucket("0.1", 9),
            self.bucket("0.25", 10),
            self.bucket("0.5", 11),
            self.bucket("1", 12),
            self.bucket("2.5", 13),
            self.bucket("5", 14),
            self.bucket("+Inf", 15),
        ]
    }
}
