//! What the program reads and says: the words of its command line and what they ask for, the line that is printed of each
//! refusal, what it means, and how a whole text is handed over.
#![tactic(auto)]

mod canary_words;
mod explain;
mod explanations;
mod help;
mod lines;
mod loop_words;
mod options;
mod plan_words;
mod printing;
mod readings;
mod service_words;
mod version;
mod watch_words;
mod words;

pub use canary_words::{CanaryValues, Span};
pub use explain::{Explanation, find_explanation};
pub use lines::{node_line, plan_line, pool_line, schedule_line, text_line};
pub use loop_words::LoopValues;
pub use plan_words::{MigrationWords, PlanValues, Planned};
pub use printing::{PrintFault, write_at_once};
pub use readings::split_at_commas;
pub use service_words::{NodeValues, ProxyValues};
pub use version::{version_line, version_number};
pub use watch_words::WatchValues;
pub use words::{TimelineValues, Wanted, WordsFault, read_words};
