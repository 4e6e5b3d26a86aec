//! What a canary counts of the requests of its clients, and all texts that it prints.
#![tactic(auto)]

mod came_back;
mod json;
pub mod laws;
mod outcome;
mod percentile;
mod second;
mod shown;
mod table;
mod tally;
mod trouble;
mod verdict;

pub use came_back::{CameBack, Deed, came_back_text};
pub use json::{came_back_json, second_json, verdict_json};
pub use outcome::Outcome;
pub use second::{Second, second_line};
pub use table::{Row, Table, table_text};
pub use tally::Tally;
pub use trouble::Trouble;
pub use verdict::{Verdict, verdict_text};
