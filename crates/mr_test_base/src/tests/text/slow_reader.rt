//! Each reader beside a slow one that follows the protocol's words byte by byte.
mod agreement;
mod slow;
