//! What clients ask for.
ghost use Rattle.std.specs.Prelude.{◌≡◌, ◌↔◌, IsTrue, IfOk};

use crate::block::Block;
use crate::key::Key;
use crate::key_list::KeyList;
use std::alloc::AllocError;

/// What a client asks for.
#[derive(Debug, Drop)]
pub enum Request {
    /// The items under these keys, in order, repeats kept.
    Get {
        /// The keys.
        keys: KeyList,
    },
    /// To keep an item.
    Set {
        /// The name.
        key: Key,
        /// A number given back with the item.
        flags: u32,
        /// When the item expires: 0 never; a negative number at once; up to 2,592,000 so many seconds from now;
        /// above that at this moment, in seconds since the epoch.
        exptime: i64,
        /// The data.
        block: Block,
        /// The client wants no answer.
        noreply: bool,
    },
    /// To drop an item.
    Delete {
        /// The name.
        key: Key,
        /// The client wants no answer.
        noreply: bool,
    },
    /// To end the connection.
    Quit,
}

impl Request {
    /// Whether the other request is equal.
    pub fn same_as(&self, other: &Request) -> bool
        ensures { IsTrue result ↔ (self.now ≡ other.now) }
    {
        match (self, other) {
            (Request::Get { keys }, Request::Get { keys: others }) => keys.same_as(others),
            (
                Request::Set {
                    key,
                    flags,
                    exptime,
                    block,
                    noreply,
                },
                Request::Set {
                    key: other_key,
                    flags: other_flags,
                    exptime: other_exptime,
                    block: other_block,
                    noreply: other_noreply,
                },
            ) => {
                key.same_as(other_key)
                    && flags == other_flags
                    && exptime == other_exptime
                    && block.same_as(other_block)
                    && noreply == other_noreply
            }
            (
                Request::Delete { key, noreply },
                Request::Delete {
                    key: other_key,
                    noreply: other_noreply,
                },
            ) => key.same_as(other_key) && noreply == other_noreply,
            (Request::Quit, Request::Quit) => true,
            _ => false,
        }
    }

    /// An equal request.
    pub fn copy(&self) -> Result<Request, AllocError>
        ensures { IfOk result (λ request. request ≡ self.now) }
    {
        Ok(match self {
            Request::Get { keys } => Request::Get { keys: keys.copy()? },
            Request::Set {
                key,
                flags,
                exptime,
                block,
                noreply,
            } => Request::Set {
                key: key.copy()?,
                flags: *flags,
                exptime: *exptime,
                block: block.copy()?,
                noreply: *noreply,
            },
            Request::Delete { key, noreply } => Request::Delete {
                key: key.copy()?,
                noreply: *noreply,
            },
            Request::Quit => Request::Quit,
        })
    }
}
