//! Names and copies where memory is refused: the same call made again gives what it gives with ample memory.
use super::routing;
use crate::tests::{are, holds, is, must};
use mr_pools::{NamedHash, NodeName, PoolError};
use mr_test_support::at_last;
use std::alloc::{AllocError, Global};
use std::env::Env;
use std::process::Abort;

/// Asserts whether bytes are a name, also where memory for it was refused once.
fn is_name(
    rt: &(impl Abort + Env),
    row: usize,
    alloc: Global,
    bytes: &[u8],
    refusal: Option<PoolError>,
) {
    let name = at_last!(rt, NodeName::new(alloc, bytes), Err(PoolError::OutOfMemory));
    is(rt, row, name.as_ref().err().copied(), refusal);
    if let Ok(name) = name {
        are(rt, row, name.as_bytes(), bytes);
    }
}

#[test]
fn refused_memory_makes_a_name_later(rt: HostRuntime) {
    let long = [b'x'; 256];
    is_name(&rt, 0, rt.alloc(), b"7001", None);
    is_name(&rt, 1, rt.alloc(), &long[..255], None);
    is_name(&rt, 2, rt.alloc(), &long, Some(PoolError::BadName));
    is_name(&rt, 3, rt.alloc(), b"", Some(PoolError::BadName));
}

/// A routing has two pools, and a pool its names.
#[test]
fn refused_memory_copies_a_routing_later(rt: HostRuntime) {
    let routing = routing(&rt, rt.alloc(), NamedHash::Fnv);
    let copy = must(&rt, at_last!(&rt, routing.copy(), Err(AllocError)));
    holds(&rt, 0, routing.same_as(&copy), true);
}
