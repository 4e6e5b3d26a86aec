//! What a node's loop counts, each count since the loop began and as far as 64 bits go.
ghost use Rattle.std.specs.Prelude.{◌≡◌};
ghost use Rattle.mr_counting.specs.Counting.{one_more};
ghost use Rattle.mr_loop.specs.node.Counts.{keys_asked, reply_counted};

use mr_counting::{one_more, sum_of};
use mr_text::{Reply, Request};

/// What a node's loop counts of its clients and of what it told them.
#[derive(Clone, Copy, Debug, PartialEq, Eq)]
pub struct ServedCounts {
    /// How often a client came to a place of the loop.
    pub came: u64,
    /// How often one left its place.
    pub left: u64,
    /// Keys that were asked for and found.
    pub hits: u64,
    /// Keys that were asked for and not found.
    pub misses: u64,
    /// Values that were stored.
    pub stored: u64,
    /// Keys that were deleted.
    pub deleted: u64,
    /// Keys that were to be deleted and not found.
    pub not_found: u64,
    /// Requests that came to an error.
    pub failed: u64,
}

impl ServedCounts {
    /// Nothing yet.
    pub const NONE: ServedCounts = ServedCounts {
        came: 0,
        left: 0,
        hits: 0,
        misses: 0,
        stored: 0,
        deleted: 0,
        not_found: 0,
        failed: 0,
    };

    /// A client came.
    pub(crate) fn add_coming(&mut self)
        ensures { self.new ≡ record self.old { came = one_more self.old.came } }
    {
        self.came = one_more(self.came);
    }

    /// A client left.
    pub(crate) fn add_leaving(&mut self)
        ensures { self.new ≡ record self.old { left = one_more self.old.left } }
    {
        self.left = one_more(self.left);
    }

    /// Counts what was told of a request that asked for so many keys.
    pub(crate) fn add_reply(&mut self, keys: u64, told: &Reply)
        ensures { self.new ≡ reply_counted keys told.now self.old }
    {
        match told {
            Reply::Items(items) => {
                let found = items.as_slice().len() as u64;
                self.hits = sum_of(self.hits, found);
                self.misses = sum_of(self.misses, keys.saturating_sub(found));
            }
            Reply::Stored => self.stored = one_more(self.stored),
            Reply::Deleted => self.deleted = one_more(self.deleted),
            Reply::NotFound => self.not_found = one_more(self.not_found),
            Reply::Error | Reply::ClientError(_) | Reply::ServerError(_) => {
                self.failed = one_more(self.failed);
            }
        }
    }
}

/// For how many keys a request asks.
pub(crate) fn keys_asked(request: &Request) -> u64
    ensures { result ≡ keys_asked request.now }
{
    match request {
        Request::Get { keys } => keys.as_slice().len() as u64,
        Request::Set { .. } | Request::Delete { .. } | Request::Quit => 0,
    }
}
