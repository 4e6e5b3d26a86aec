//! Where a proxy stands in its schedule.
ghost use Rattle.std.specs.Prelude.{◌≡◌, ◌<◌, ◌+◌, ◌*◌, ◌^◌, [], ◌∷◌, nat_lt};
ghost use Rattle.std.specs.List.{find};
ghost use Rattle.mr_counting.specs.Telling.{next_bound, reading_in_force};

use mr_phases::Schedule;

/// The reading by which a request would be judged now: the larger of the clock's and that of the last issue, in seconds since
/// the epoch.
pub(crate) fn reading_in_force(clock: Option<u64>, last_issue: Option<u64>) -> u64
    ensures { result ≡ reading_in_force clock last_issue }
{
    match (clock, last_issue) {
        (Some(clock), Some(last)) => clock.max(last),
        (Some(clock), None) => clock,
        (None, Some(last)) => last,
        (None, None) => 0,
    }
}

/// The second at which the next phase of a hop begins after a reading.
fn next_in(start: u64, interval: u64, now: u64) -> Option<u64>
    requires { start + 2 * interval < 2 ^ 64 }
    ensures { result ≡ find (nat_lt now) (start ∷ (start + interval) ∷ (start + 2 * interval) ∷ []) }
{
    if now < start {
        Some(start)
    } else if now < start + interval {
        Some(start + interval)
    } else if now < start + 2 * interval {
        Some(start + 2 * interval)
    } else {
        None
    }
}

/// The second at which the next phase begins after a reading, in seconds since the epoch. None in the last phase.
#[tactic(auto, using(crate::proofs::StandingLemmas::next_from))]
pub(crate) fn next_phase(schedule: &Schedule, now: u64) -> Option<u64>
    ensures { result ≡ next_bound schedule.now now }
{
    for hop in 0..schedule.hops() {
        if let Some(next) = next_in(schedule.start(hop), schedule.interval(hop), now) {
            return Some(next);
        }
    }
    None
}
