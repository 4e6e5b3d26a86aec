//! The limits of the text, in bytes but for the count of items.

/// The longest key.
pub const MAX_KEY: usize = 250;

/// The longest line, without its line end.
pub const MAX_LINE: usize = 8192;

/// The longest block.
pub const MAX_BLOCK: usize = 1_048_576;

/// The longest text of an error that has no name: what a line has room for behind its word and a space.
pub const MAX_ERROR_TEXT: usize = 8179;

/// The most items of one reply.
pub const MAX_ITEMS: usize = 4094;

/// How many bytes of a text are gathered before they go out, so that a text of so many goes out in one call; and how many
/// bytes there is room for in each read.
pub const FIXED_BUFFER: usize = 4096;

/// The least length of a large block: one that takes the room along in which it came, and whose copies share its bytes.
pub(crate) const LARGE_BLOCK: usize = 16_384;

/// The greatest length of a short key: one that stands in its value, so that none takes memory for it.
pub(crate) const SHORT_KEY: usize = 40;
