//! What a proxy counts of what it is asked and of what it answers.
ghost use Rattle.std.specs.Prelude.{◌≡◌};
ghost use Rattle.mr_counting.specs.ProxyCounts.{later_of};
ghost use Rattle.mr_counting.specs.Sums.{latest_of, counts_sum};

use crate::answer_counts::AnswerCounts;
use crate::counting::sum_of;
use crate::request_counts::RequestCounts;

/// What a proxy was asked and has answered since it began.
#[derive(Clone, Copy, Debug, PartialEq, Eq)]
pub struct ProxyCounts {
    /// Requests that came to an answer, by command and by the phase of their reading.
    pub requests: RequestCounts,
    /// What clients were answered.
    pub answers: AnswerCounts,
    /// Requests that are under way.
    pub under_way: u64,
    /// The latest reading by which a request was judged that came to an answer, in seconds since the epoch.
    pub last_issue: Option<u64>,
}

/// The later of the readings so far and this one.
#[inline(always)]
pub fn later_of(last: Option<u64>, reading: u64) -> Option<u64>
    ensures { result ≡ later_of last reading }
{
    match last {
        Some(last) => Some(last.max(reading)),
        None => Some(reading),
    }
}

/// The later of two readings, either of which there may not be.
fn latest_of(last: Option<u64>, other: Option<u64>) -> Option<u64>
    ensures { result ≡ latest_of last other }
{
    match other {
        Some(reading) => later_of(last, reading),
        None => last,
    }
}

impl ProxyCounts {
    /// Nothing yet.
    pub const NONE: ProxyCounts = ProxyCounts {
        requests: RequestCounts::NONE,
        answers: AnswerCounts::NONE,
        under_way: 0,
        last_issue: None,
    };

    /// Both together: the sums of their counts, and the later of their last issues.
    pub fn plus(self, more: ProxyCounts) -> ProxyCounts
        ensures { result ≡ counts_sum self more }
    {
        ProxyCounts {
            requests: self.requests.plus(more.requests),
            answers: self.answers.plus(more.answers),
            under_way: sum_of(self.under_way, more.under_way),
            last_issue: latest_of(self.last_issue, more.last_issue),
        }
    }
}
