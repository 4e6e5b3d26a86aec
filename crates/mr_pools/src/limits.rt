//! The limits of pools.

/// The longest name of a node, in bytes.
pub const MAX_NAME: usize = 255;

/// The most nodes of one pool.
pub const MAX_NODES: usize = 1024;

/// The most pools of one routing: those of four migrations in a row.
pub const MAX_POOLS: usize = 5;
