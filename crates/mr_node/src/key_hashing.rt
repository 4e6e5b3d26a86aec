//! How a cache hashes its keys. They come from strangers, who may choose them so that many fall together.
ghost use Rattle.std.specs.Prelude.{◌≡◌};

use std::hash::{BuildHasher, DefaultHasher, RandomState};

/// How keys are hashed. Both ways use SipHash-1-3.
#[derive(Clone, Copy)]
pub(crate) enum KeyHashing {
    /// The same in each process, so that whoever chooses keys can choose ones that fall together.
    Fixed,
    /// By a seed that nobody else knows.
    Seeded(RandomState),
}

impl BuildHasher for KeyHashing {
    ghost use Rattle.mr_node.specs.Hashing.{hasher_of};

    type Hasher = DefaultHasher;

    ghost build_hasher = { hasher_of };

    fn build_hasher(&self) -> DefaultHasher {
        match self {
            KeyHashing::Fixed => DefaultHasher::new(),
            KeyHashing::Seeded(state) => state.build_hasher(),
        }
    }
}
