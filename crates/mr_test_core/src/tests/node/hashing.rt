//! Which keys fall together: those whose hashes agree in the bits that a map of some thousand keys goes by.
use super::is;
use crate::tests::must;
use mr_text::Key;
use std::alloc::Global;
use std::hash::{BuildHasher, BuildHasherDefault, DefaultHasher, RandomState};
use std::process::Abort;
use std::test::Fail;

/// Keys that were chosen to fall together where keys are hashed without a seed.
static TOGETHER: [&[u8]; 8] = [
    b"HzAaa", b"75Eaa", b"a8Eaa", b"84Iba", b"pFPba", b"uxYba", b"nxZba", b"ns4ba",
];

/// The bits of a key's hash that a map of some thousand keys goes by.
fn place<S: BuildHasher>(rt: &impl Abort, alloc: Global, hashing: &S, name: &[u8]) -> u64 {
    let hash = hashing.hash_one(must(rt, Key::new(alloc, name)));
    (hash ^ (hash >> 32)) & 0xFF00_00FF
}

#[test]
fn keys_that_fall_together_without_a_seed_do_not_with_one(rt: HostRuntime) -> Result<(), Fail> {
    let unseeded = BuildHasherDefault::<DefaultHasher>::new();
    for (row, name) in TOGETHER.iter().enumerate() {
        let came = place(&rt, rt.alloc(), &unseeded, name);
        is(&rt, row, came, 0x0700_0000);
    }
    let seeded = RandomState::new(&rt)?;
    let first = place(&rt, rt.alloc(), &seeded, TOGETHER[0]);
    let mut apart = false;
    for name in TOGETHER.iter() {
        if place(&rt, rt.alloc(), &seeded, name) != first {
            apart = true;
        }
    }
    is(&rt, TOGETHER.len(), apart, true);
    Ok(())
}
