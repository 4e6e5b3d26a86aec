//! When a chain of migrations reads and deletes where: a schedule, the four phases as types, and the laws that tie
//! the readings of two clocks.
#![tactic(auto)]

mod error;
mod hop;
mod judged;
pub mod laws;
mod phase;
mod phase_name;
mod plain_phase;
mod schedule;
mod side;
mod sides;

pub use error::ScheduleError;
pub use judged::{Judged, judge};
pub use phase::{BothReadNew, BothReadOld, NewOnly, OldOnly, Phase, PhaseKind};
pub use phase_name::PhaseName;
pub use schedule::{MAX_HOPS, Schedule};
pub use side::{RequestKind, Side};
pub use sides::{OneSide, SideCount, Sides, TwoSides};
