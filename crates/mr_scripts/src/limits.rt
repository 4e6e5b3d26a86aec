//! The limits of scripts and transcripts.

/// The largest script or transcript, in bytes.
pub const MAX_SCRIPT: usize = 16_777_216;

/// The most events of a script.
pub const MAX_EVENTS: usize = 65_536;

/// The most items that are held at the beginning.
pub const MAX_HELD: usize = 65_536;

/// The most proxies.
pub const MAX_PROXIES: usize = 64;
