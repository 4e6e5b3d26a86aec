//! The machine of a canary: which requests its clients send, what the replies say, and what is noted and counted of both. It owns no
//! socket and reads no clock; what it is told of connections, bytes and time decides all that it does.
#![tactic(auto)]

mod answering;
mod asking;
mod canary;
mod choosing;
mod client;
mod course;
mod dice;
mod digits;
mod heard;
mod naming;
mod notebook;
mod pace;
mod round;
mod stamp;
mod unsent;
mod wish;

pub use answering::Said;
pub use canary::{Canary, Goes, Plan};
pub use choosing::{ChosenKeys, choose_keys};
pub use client::{Asking, Client, Hearing, Waiting};
pub use course::Course;
pub use dice::Dice;
pub use heard::Heard;
pub use naming::{KeyError, name_key};
pub use notebook::{Found, Notebook};
pub use pace::Pace;
pub use stamp::{Stamp, read_stamp, stamp_text};
pub use unsent::Unsent;
pub use wish::{Kind, Wish};
