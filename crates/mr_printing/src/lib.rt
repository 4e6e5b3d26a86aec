//! What the program prints: the text of a plan, of a timeline, of a check and of an explanation, each handed to its writer in
//! one call.
#![tactic(auto)]

mod check_text;
mod drawing;
mod explain;
mod line;
mod plan;
mod timeline;

pub use check_text::write_check;
pub use drawing::write_drawing;
pub use explain::write_explanation;
pub use line::push_number;
pub use plan::write_plan;
pub use timeline::write_timeline;
