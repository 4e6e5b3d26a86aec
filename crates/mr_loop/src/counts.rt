//! What a loop counts of its requests, each count since the loop began and as far as 64 bits go.
ghost use Rattle.std.specs.Prelude.{◌≡◌};
ghost use Rattle.mr_loop.specs.Counts.{no_counts, with_counted, with_denied};

use mr_counting::{AnswerCounts, RequestCounts, later_of};
use mr_phases::{Schedule, judge};
use mr_proxy::Answer;
use mr_text::Cause;

/// What came of the requests that clients asked.
#[derive(Clone, Copy, Debug, PartialEq, Eq)]
pub struct LoopCounts {
    /// Requests that came to an answer, by command and by the phase of their reading.
    pub requests: RequestCounts,
    /// What they were answered, and why others weren't begun, whether or not an answer was wanted.
    pub answers: AnswerCounts,
    /// The latest reading by which a request was judged that came to an answer, in seconds since the epoch.
    pub last_issue: Option<u64>,
}

impl LoopCounts {
    /// Nothing yet.
    pub(crate) fn new() -> LoopCounts
        ensures { result ≡ no_counts }
    {
        LoopCounts {
            requests: RequestCounts::NONE,
            answers: AnswerCounts::NONE,
            last_issue: None,
        }
    }

    /// Counts an answer, and its request in the phase of its own reading.
    #[inline(always)]
    pub(crate) fn add_answer(&mut self, schedule: Schedule, answer: &Answer)
        ensures { self.new ≡ with_counted schedule answer.now self.old }
    {
        let phase = judge(schedule, answer.reading()).name();
        self.requests.add(answer.request(), phase);
        self.answers.add_answer(answer);
        self.last_issue = later_of(self.last_issue, answer.reading());
    }

    /// Counts a request that wasn't begun for this cause.
    pub(crate) fn add_denial(&mut self, cause: &Cause)
        ensures { self.new ≡ with_denied cause.now self.old }
    {
        self.answers.add_cause(cause);
    }
}
