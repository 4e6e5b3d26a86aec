//! What a service says of itself while it runs: what happened, when a line of it may be said, and the text of that line.
//! Nothing here reads a clock or writes: values come in, values go out.
#![tactic(auto)]

mod happening;
mod kind;
pub mod laws;
mod line;
mod log;
mod nodes;
mod number;
mod time;
mod watcher;

pub use happening::{Happening, Trouble};
pub use kind::{KINDS, Kind};
pub use line::{Service, line_of};
pub use log::{Log, PAUSE, Said};
pub use watcher::{Seen, Watcher};
