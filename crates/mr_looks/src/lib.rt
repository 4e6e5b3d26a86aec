//! The watch of a migration: which services a look asks, over the sockets of the machine, what it saw of them, how looks are
//! shown, and when the watch ends.
#![tactic(auto)]

mod answers;
mod last_lines;
mod looking;
mod manner;
mod posts;
mod watching;

pub use watching::watch;
