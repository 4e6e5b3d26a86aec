//! The picture of a transcript: its events as steps, the shapes of these, and their text as one SVG. A proxy and a node have a
//! lane each, an event has a column, a request has a bar from its issue to its answer, and a leg a line to its node and one back.
#![tactic(auto)]

mod blame;
mod elements;
mod escape;
mod labels;
pub mod laws;
mod names;
mod over;
mod picture;
mod places;
mod rows;
mod shapes;
mod steps;
mod style;
mod under;

pub use blame::{Blame, blame_of};
pub use escape::push_shown;
pub use names::node_names;
pub use picture::{MOST_COLUMNS, Scene, draw};
pub use shapes::{Shape, shapes_of};
pub use steps::{Back, Issue, Leg, Outcome, Reach, Step, steps_of};
