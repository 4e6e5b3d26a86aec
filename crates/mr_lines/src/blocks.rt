//! What stands behind a block.
ghost use Rattle.std.specs.Prelude.{◌≡◌, ◌+◌, ◌^◌, ◌<◌, ◌≤◌, length};
ghost use Rattle.mr_lines.specs.Blocks.{block_end};

/// What stands behind a block whose length is known.
#[derive(Clone, Copy, Debug, PartialEq, Eq)]
pub enum BlockEnd {
    /// Not all of the block and its line end is there yet, and what is there is right.
    Awaited,
    /// A carriage return and a line feed, as it has to be.
    Found,
    /// Something else.
    Wrong,
}

/// What stands behind the block of this length at the front of the bytes.
#[inline(always)]
#[tactic(auto, unfolding(crate::specs::Blocks::block_end))]
pub fn block_end(block_length: usize, bytes: &[u8]) -> BlockEnd
    requires { block_length + 2 < 2 ^ 64 }
    ensures end { result ≡ block_end block_length bytes.now }
    ensures within { result ≡ BlockEnd.Found → block_length + 2 ≤ length bytes.now }
{
    if bytes.len() <= block_length {
        return BlockEnd::Awaited;
    }
    if bytes[block_length] != b'\r' {
        return BlockEnd::Wrong;
    }
    if bytes.len() <= block_length + 1 {
        return BlockEnd::Awaited;
    }
    if bytes[block_length + 1] == b'\n' {
        return BlockEnd::Found;
    }
    BlockEnd::Wrong
}
