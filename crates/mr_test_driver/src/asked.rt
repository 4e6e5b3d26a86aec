//! What the program was asked to do.

use mr_driver::DriverBounds;
use mr_node::NodeError;
use mr_phases::ScheduleError;
use mr_pools::PoolError;
use std::alloc::{AllocError, AllocFailed};
use std::io;
use thiserror::Error;

/// Why the program can't do what it was asked.
#[derive(Debug, Drop, Error)]
pub(crate) enum Misuse {
    /// The words are none of the program's.
    #[error("the words are none of the program's")]
    Words,
    /// The pools are none.
    #[error("the pools are none")]
    Pools,
    /// The schedule is none.
    #[error("the schedule is none")]
    Schedule,
    /// Memory was refused.
    #[error("out of memory")]
    OutOfMemory,
    /// A socket can't be had, or a line can't be written.
    #[error("a socket failed")]
    Io,
}

impl From<AllocError> for Misuse {
    fn from(_: AllocError) -> Misuse {
        Misuse::OutOfMemory
    }
}

impl<T: Drop> From<AllocFailed<T>> for Misuse {
    fn from(failed: AllocFailed<T>) -> Misuse {
        drop(failed);
        Misuse::OutOfMemory
    }
}

impl From<PoolError> for Misuse {
    fn from(_: PoolError) -> Misuse {
        Misuse::Pools
    }
}

impl From<ScheduleError> for Misuse {
    fn from(_: ScheduleError) -> Misuse {
        Misuse::Schedule
    }
}

impl From<NodeError> for Misuse {
    fn from(error: NodeError) -> Misuse {
        match error {
            NodeError::OutOfMemory => Misuse::OutOfMemory,
            _ => Misuse::Words,
        }
    }
}

impl From<io::Error> for Misuse {
    fn from(error: io::Error) -> Misuse {
        drop(error);
        Misuse::Io
    }
}

/// The number that a word is.
fn number_of(word: &String) -> Result<u64, Misuse> {
    match word.as_str().parse::<u64>() {
        Ok(number) => Ok(number),
        Err(_) => Err(Misuse::Words),
    }
}

/// The number of loops that a word is, of which there are 64 at most.
fn loops_of(word: &String) -> Result<u32, Misuse> {
    Ok(number_of(word)?.min(64) as u32)
}

/// A number of clients, of which 0 is any.
fn unbounded_at_0(clients: u64) -> u64 {
    if clients == 0 { u64::MAX } else { clients }
}

/// What the program was asked to serve.
#[derive(Clone, Copy, Debug)]
pub(crate) enum Asked<'a> {
    /// A proxy.
    Proxy(AskedProxy<'a>),
    /// A node.
    Node(AskedNode<'a>),
}

impl<'a> Asked<'a> {
    /// What these words ask, of which the first is the program's name, and the second is what it serves.
    pub(crate) fn of(words: &'a [String]) -> Result<Asked<'a>, Misuse> {
        let [_, kind, words @ ..] = words else {
            return Err(Misuse::Words);
        };
        match kind.as_str() {
            "proxy" => Ok(Asked::Proxy(AskedProxy::of(words)?)),
            "node" => Ok(Asked::Node(AskedNode::of(words)?)),
            _ => Err(Misuse::Words),
        }
    }

    /// The address where clients come.
    pub(crate) fn listen(&self) -> &'a str {
        match self {
            Asked::Proxy(asked) => asked.listen,
            Asked::Node(asked) => asked.listen,
        }
    }

    /// How many clients are served, and how long is waited.
    pub(crate) fn bounds(&self) -> DriverBounds {
        match self {
            Asked::Proxy(asked) => asked.bounds(),
            Asked::Node(asked) => asked.bounds(),
        }
    }
}

/// What is asked of a proxy, in the order of the words.
#[derive(Clone, Copy, Debug)]
pub(crate) struct AskedProxy<'a> {
    pub(crate) listen: &'a str,
    pub(crate) loops: u32,
    pub(crate) clients: u64,
    pub(crate) most_clients: u64,
    pub(crate) room: u64,
    pub(crate) start: u64,
    pub(crate) interval: u64,
    pub(crate) leg_millis: u64,
    pub(crate) client_seconds: u64,
    pub(crate) most_legs: u64,
    pub(crate) most_unread: u64,
    pub(crate) old: &'a str,
    pub(crate) new: &'a str,
}

impl<'a> AskedProxy<'a> {
    /// What these words ask.
    fn of(words: &'a [String]) -> Result<AskedProxy<'a>, Misuse> {
        let [
            listen,
            loops,
            clients,
            most_clients,
            room,
            start,
            interval,
            leg_millis,
            client_seconds,
            most_legs,
            most_unread,
            old,
            new,
        ] = words
        else {
            return Err(Misuse::Words);
        };
        Ok(AskedProxy {
            listen: listen.as_str(),
            loops: loops_of(loops)?,
            clients: unbounded_at_0(number_of(clients)?),
            most_clients: unbounded_at_0(number_of(most_clients)?),
            room: number_of(room)?,
            start: number_of(start)?,
            interval: number_of(interval)?,
            leg_millis: number_of(leg_millis)?,
            client_seconds: number_of(client_seconds)?,
            most_legs: number_of(most_legs)?,
            most_unread: number_of(most_unread)?,
            old: old.as_str(),
            new: new.as_str(),
        })
    }

    /// How many clients are served, and how long is waited.
    fn bounds(&self) -> DriverBounds {
        DriverBounds {
            clients: self.clients,
            most_clients: self.most_clients,
            client_seconds: self.client_seconds,
            leg_millis: self.leg_millis,
        }
    }
}

/// What is asked of a node, in the order of the words.
#[derive(Clone, Copy, Debug)]
pub(crate) struct AskedNode<'a> {
    pub(crate) listen: &'a str,
    pub(crate) loops: u32,
    pub(crate) clients: u64,
    pub(crate) most_clients: u64,
    pub(crate) capacity: u64,
    pub(crate) client_seconds: u64,
    pub(crate) most_unread: u64,
}

impl<'a> AskedNode<'a> {
    /// What these words ask.
    fn of(words: &'a [String]) -> Result<AskedNode<'a>, Misuse> {
        let [
            listen,
            loops,
            clients,
            most_clients,
            capacity,
            client_seconds,
            most_unread,
        ] = words
        else {
            return Err(Misuse::Words);
        };
        Ok(AskedNode {
            listen: listen.as_str(),
            loops: loops_of(loops)?,
            clients: unbounded_at_0(number_of(clients)?),
            most_clients: unbounded_at_0(number_of(most_clients)?),
            capacity: number_of(capacity)?,
            client_seconds: number_of(client_seconds)?,
            most_unread: number_of(most_unread)?,
        })
    }

    /// How many clients are served, and how long is waited.
    fn bounds(&self) -> DriverBounds {
        DriverBounds {
            clients: self.clients,
            most_clients: self.most_clients,
            client_seconds: self.client_seconds,
            leg_millis: 0,
        }
    }
}
