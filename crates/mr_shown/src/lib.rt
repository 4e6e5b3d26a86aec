//! The two formats of scripts and transcripts, and how data and keys stand in their texts; and what a play of events shows, as
//! JSON values: what became of each event, the history, the premises and the verdict.
#![tactic(auto)]

mod arrays;
mod characters;
mod data;
mod entries;
mod format;
pub mod laws;
mod notes;
mod objects;
mod parts;
mod replies;
mod requests;
mod verdict;

pub use characters::{are_bytes, bytes_of_characters};
pub use data::{bytes_of_data, is_data, text_of_data};
pub use entries::history_value;
pub use format::{Format, MAX_DATA_ONE};
pub use notes::{notes_value, premises_value, verdict_value};
pub use verdict::KeptVerdict;
