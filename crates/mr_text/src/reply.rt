//! What servers answer.
ghost use Rattle.std.specs.Prelude.{◌≡◌, IfOk, ◌↔◌, IsTrue};

use crate::cause::Cause;
use crate::item_list::ItemList;
use std::alloc::AllocError;

/// What a server answers.
#[derive(Debug, Drop)]
pub enum Reply {
    /// The items that a get found, in order.
    Items(ItemList),
    /// A set was performed.
    Stored,
    /// A delete found an item.
    Deleted,
    /// A delete found no item.
    NotFound,
    /// The command isn't known.
    Error,
    /// The client's request was wrong.
    ClientError(Cause),
    /// The server couldn't do what was asked.
    ServerError(Cause),
}

impl Reply {
    /// Whether the other reply is equal.
    pub fn same_as(&self, other: &Reply) -> bool
        ensures { IsTrue result ↔ (self.now ≡ other.now) }
    {
        match (self, other) {
            (Reply::Items(items), Reply::Items(others)) => items.same_as(others),
            (Reply::ClientError(cause), Reply::ClientError(other))
            | (Reply::ServerError(cause), Reply::ServerError(other)) => cause.same_as(other),
            (Reply::Stored, Reply::Stored)
            | (Reply::Deleted, Reply::Deleted)
            | (Reply::NotFound, Reply::NotFound)
            | (Reply::Error, Reply::Error) => true,
            _ => false,
        }
    }

    /// An equal reply.
    pub fn copy(&self) -> Result<Reply, AllocError>
        ensures { IfOk result (λ reply. reply ≡ self.now) }
    {
        Ok(match self {
            Reply::Items(items) => Reply::Items(items.copy()?),
            Reply::Stored => Reply::Stored,
            Reply::Deleted => Reply::Deleted,
            Reply::NotFound => Reply::NotFound,
            Reply::Error => Reply::Error,
            Reply::ClientError(cause) => Reply::ClientError(cause.copy()?),
            Reply::ServerError(cause) => Reply::ServerError(cause.copy()?),
        })
    }
}
