//! The transcripts of plays of scripts, which anyone can check.
#![tactic(auto)]

mod check;
mod least;
mod play;
mod seen;
mod transcript;

pub use check::{Checked, Outcome, check_transcript};
pub use seen::{Seen, see_transcript};
pub use transcript::write_transcript;
