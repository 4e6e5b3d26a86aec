//! Worked runs of a node's loop with two places for clients.
mod denying;
mod evicting;
mod memory;
mod playing;
mod serving;
mod texts;
