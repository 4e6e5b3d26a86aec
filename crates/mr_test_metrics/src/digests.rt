//! The digest of a configuration of a row.
use crate::words::Words;
use mr_configs::{PlanError, config_digest};
use std::alloc::Global;
use std::test::Fail;

/// The digest of the bytes that a word says; a line that tells why there is none.
pub fn told_of_digest(alloc: Global, words: &mut Words<'_>) -> Result<Vec<u8>, Fail> {
    let config = words.bytes(alloc)?;
    match config_digest(alloc, config.as_slice()) {
        Ok(digest) => Ok(digest.into_bytes()),
        Err(PlanError::NotJson) => Ok(Vec::from_slice(alloc, b"not JSON\n")?),
        Err(_) => Err(Fail::from("there is memory for a digest")),
    }
}
