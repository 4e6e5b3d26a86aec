//! Bytes that are given by a rule.
use crate::add_repeated;
use std::alloc::{AllocError, Global};

/// Bytes by a rule: what they begin with, what follows so many times, and what stands behind.
pub type Rule = (&'static [u8], &'static [u8], usize, &'static [u8]);

/// The bytes of a rule.
pub fn bytes_of_rule(alloc: Global, rule: Rule) -> Result<Vec<u8>, AllocError> {
    let (front, unit, count, end) = rule;
    let mut bytes = Vec::from_slice(alloc, front)?;
    for _ in 0..count {
        bytes.extend_from_slice(unit)?;
    }
    bytes.extend_from_slice(end)?;
    Ok(bytes)
}

/// So many equal bytes.
pub fn equal_bytes(alloc: Global, byte: u8, count: usize) -> Result<Vec<u8>, AllocError> {
    let mut bytes = Vec::new(alloc);
    add_repeated(&mut bytes, byte, count)?;
    Ok(bytes)
}
