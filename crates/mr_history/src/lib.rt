//! What happened in a fleet of proxies, in one list of entries, and a judge that reads this list alone.
#![tactic(auto)]

mod convict;
mod deletes;
mod entry;
mod error;
mod history;
mod index;
mod indexed;
mod judge;
pub mod laws;
mod op_id;
mod search;
mod verdict;

pub use entry::{Author, Entry};
pub use error::HistoryError;
pub use history::History;
pub use indexed::judge_indexed;
pub use judge::judge_history;
pub use op_id::{OpId, is_same_op};
pub use verdict::Verdict;
