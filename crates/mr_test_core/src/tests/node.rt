//! Worked rows of a cache, and of the service of requests over it.
mod cache;
mod devices;
mod hashing;
mod memory;
mod service;
mod values;

use super::leg_replies::word_of;
use super::{are, count_is, holds, is, says};
use mr_node::{CacheNode, NodeCommand};
use mr_text::{Block, Key, TextError};
use std::alloc::Global;

/// When the item of a key expires, if it does and if there is one.
fn expiry(node: &CacheNode, key: &Key) -> Option<Option<u64>> {
    match node.peek(key) {
        Some(item) => Some(item.expires_at),
        None => None,
    }
}

/// A reply without its data.
#[derive(Clone, Copy)]
enum Came {
    /// The flags 5 and the data `v`.
    Hit,
    Miss,
    Stored,
    Deleted,
    NotFound,
}

impl Came {
    /// The word of such a reply.
    fn word(self) -> &'static str {
        match self {
            Came::Hit => "hit",
            Came::Miss => "miss",
            Came::Stored => "STORED",
            Came::Deleted => "DELETED",
            Came::NotFound => "NOT_FOUND",
        }
    }
}

/// A command without its name, which has one byte.
#[derive(Clone, Copy)]
enum Told {
    Get,
    /// A set of the flags 5 and the data `v`, with this exptime.
    Set(i64),
    Delete,
}

impl Told {
    /// This command of a name.
    fn of(self, alloc: Global, name: u8) -> Result<NodeCommand, TextError> {
        let key = Key::new(alloc, &[name])?;
        Ok(match self {
            Told::Get => NodeCommand::Get(key),
            Told::Set(exptime) => NodeCommand::Set {
                key,
                flags: 5,
                exptime,
                block: Block::new(alloc, b"v")?,
            },
            Told::Delete => NodeCommand::Delete(key),
        })
    }
}
