//! How long answers took, by the bounds that are told apart.
ghost use Rattle.std.specs.Prelude.{◌≡◌, ◌*◌, ◌^◌, ◌<◌, ◌≤◌, sum, slice_get, IfSome};
ghost use Rattle.mr_counting.specs.LegTimes.{bounds};
ghost use Rattle.mr_sightings.specs.Percentile.{each_place, percentile_of, bound_said, bound_micros, slowest_of};

use mr_counting::LegTimes;

/// The longest time of each bucket, as it is told in milliseconds. Nothing bounds the last.
const BOUND_TEXTS: [&str; 16] = [
    "0.1",
    "0.25",
    "0.5",
    "1",
    "2.5",
    "5",
    "10",
    "25",
    "50",
    "100",
    "250",
    "500",
    "1000",
    "2500",
    "5000",
    "over 5000",
];

/// The same in microseconds, of those that have one.
const BOUNDS: [u64; 15] = [
    100, 250, 500, 1_000, 2_500, 5_000, 10_000, 25_000, 50_000, 100_000, 250_000, 500_000,
    1_000_000, 2_500_000, 5_000_000,
];

/// How many answers there were.
fn answers_in(counts: &[u64; 16]) -> u128
    ensures answers { result ≡ sum counts.now }
    ensures bound { result ≤ 16 * 2 ^ 64 }
{
    let mut answers = 0u128;
    for count in counts {
        answers += u128::from(*count);
    }
    answers
}

/// The place of the bucket of the answer that so many are no slower than. None where there are no more.
fn place_behind(counts: &[u64; 16], before: u128) -> Option<usize>
    ensures place { result ≡ slice_get (each_place 0 counts.now) before }
    ensures within { IfSome result (λ place. place < 16) }
{
    let mut left = before;
    let mut place = 0;
    for count in counts {
        let here = u128::from(*count);
        if left < here {
            return Some(place);
        }
        left -= here;
        place += 1;
    }
    None
}

/// The place of the bucket of the first answer that so many percent come up to. None where there was no answer.
#[tactic(auto, unfolding(crate::specs::Percentile::percentile_of))]
pub(crate) fn percentile_of(times: &LegTimes, percent: u8) -> Option<usize>
    ensures place { result ≡ percentile_of percent times.now.counts }
    ensures within { IfSome result (λ place. place < 16) }
{
    let rank = (answers_in(&times.counts) * u128::from(percent) + 99) / 100;
    place_behind(&times.counts, rank.saturating_sub(1))
}

/// The text of a bucket's bound.
fn text_at(place: usize) -> &'static str
    requires { place < 16 }
    ensures { result.now ≡ bound_said (Some place) }
{
    BOUND_TEXTS[place]
}

/// The longest time of a bucket, in milliseconds; a dash where there is none.
pub(crate) fn bound_said(place: Option<usize>) -> &'static str
    requires { IfSome place (λ place. place < 16) }
    ensures { result.now ≡ bound_said place }
{
    match place {
        Some(place) => text_at(place),
        None => "-",
    }
}

/// The longest time of a bucket, in microseconds: that of the slowest answer where nothing bounds it.
pub(crate) fn bound_micros(place: Option<usize>, greatest: u64) -> Option<u64>
    ensures { result ≡ bound_micros greatest place }
{
    match place {
        Some(place) if place < 15 => Some(BOUNDS[place]),
        Some(_) => Some(greatest),
        None => None,
    }
}

/// How long the slowest answer took, where there was one.
pub(crate) fn slowest_of(place: Option<usize>, greatest: u64) -> Option<u64>
    ensures { result ≡ slowest_of greatest place }
{
    match place {
        Some(_) => Some(greatest),
        None => None,
    }
}
