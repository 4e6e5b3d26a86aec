//! What a running service counts: its clock, which is watched, and what the loops of a proxy count together; and what a proxy tells
//! of all that.
#![tactic(auto)]

mod answer_counts;
mod client_counts;
mod counting;
mod leg_times;
mod link_totals;
mod loop_totals;
mod proxy_counts;
mod proxy_telling;
mod request_counts;
mod rows;
mod service_time;
mod standing;
mod watched_clock;

pub use answer_counts::AnswerCounts;
pub use client_counts::ClientCounts;
pub use counting::{one_more, sum_of};
pub use leg_times::LegTimes;
pub use link_totals::LinkTotals;
pub use loop_totals::LoopTotals;
pub use proxy_counts::{ProxyCounts, later_of};
pub use proxy_telling::{ProxyIdentity, proxy_told};
pub use request_counts::{PhaseCounts, RequestCounts};
pub use service_time::ServiceTime;
pub use watched_clock::{ClockWatch, WatchedClock};
