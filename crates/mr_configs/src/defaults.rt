//! What a configuration leaves unsaid.

/// How long each of the two middle phases lasts where a configuration doesn't say it, in seconds.
pub const DEFAULT_INTERVAL: u64 = 3600;
