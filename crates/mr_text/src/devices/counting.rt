//! Counts and texts that only contracts see: they never overflow and take no memory, since a program stores none of them.

mod count;
mod least;
mod roll;

pub use count::GhostCount;
pub use least::GhostLeast;
pub use roll::GhostBytes;
