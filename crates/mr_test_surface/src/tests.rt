//! A module for each crate, in the order in which they stand on each other.
mod clock;
mod history;
mod join;
mod node;
mod phases;
mod pools;
mod proxy;
mod text;
mod workers;
mod world;
