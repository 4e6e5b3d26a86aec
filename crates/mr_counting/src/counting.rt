//! Counts that go on as far as 64 bits do.
ghost use Rattle.std.specs.Prelude.{◌≡◌};
ghost use Rattle.mr_counting.specs.Counting.{one_more, sum_of};

/// One more, as far as 64 bits count.
pub fn one_more(count: u64) -> u64
    ensures { result ≡ one_more count }
{
    count.saturating_add(1)
}

/// Both counts together, as far as 64 bits count.
pub fn sum_of(count: u64, more: u64) -> u64
    ensures { result ≡ sum_of count more }
{
    count.saturating_add(more)
}
