//! What stands under a key: data, flags, and the moment at which it expires.
ghost use Rattle.std.specs.Prelude.{◌≡◌, IfOk};

use mr_text::Block;
use std::alloc::AllocError;

/// What a cache keeps under a key.
#[derive(Debug, Drop)]
pub struct CachedItem {
    /// A number that the client chose, given back as it came.
    pub flags: u32,
    /// The data.
    pub block: Block,
    /// The moment from which on the item is expired, in seconds since the epoch. With none it never expires.
    pub expires_at: Option<u64>,
}

impl CachedItem {
    /// An equal item.
    pub fn copy(&self) -> Result<CachedItem, AllocError>
        ensures { IfOk result (λ item. item ≡ self.now) }
    {
        Ok(CachedItem {
            flags: self.flags,
            block: self.block.copy()?,
            expires_at: self.expires_at,
        })
    }
}
