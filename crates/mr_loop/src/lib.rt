//! A proxy as a machine that an event loop drives: its core, its clients, and one link to each node, over which the legs of
//! all clients go. And a node as one: its cache and its clients. Neither owns a socket or reads a clock; what it is told of bytes
//! and time decides all that it does.
#![tactic(auto)]

mod asker;
mod asking;
mod clearing;
mod client;
mod complaint;
mod counts;
mod denying;
mod front;
mod inbox;
pub mod laws;
mod link;
mod link_counts;
mod node;
mod numbering;
mod out_buffer;
mod out_sink;
mod proxy_loop;
mod sending;
mod sent_legs;
mod taking;
mod turns;
mod unread;

pub use asker::{Asker, Limits};
pub use asking::Pause;
pub use client::Client;
pub use counts::LoopCounts;
pub use front::Front;
pub use inbox::{Fetched, Inbox, Input};
pub use link::{Link, LinkEnd};
pub use link_counts::LinkCounts;
pub use node::{Cache, CountingCache, NodeClient, NodeLoop, NodePause, ServedCounts};
pub use out_buffer::OutBuffer;
pub use proxy_loop::ProxyLoop;
pub use sending::Mark;
pub use sent_legs::{MoreLegs, SentLeg, SentLegs};
pub use turns::{Turn, Turns};
