//! The hashes that place keys, and their names.
ghost use Rattle.std.specs.Prelude.{◌≡◌, ◌≢◌, ℕ, List, true, IfSome, IfNone};

use mr_text::Key;

/// Where the 32-bit hash by Fowler, Noll and Vo starts.
const FNV_OFFSET_BASIS: u32 = 2166136261;

/// What that hash multiplies by at each byte.
const FNV_PRIME: u32 = 16777619;

/// A hash of keys, by which a pool places them.
pub trait KeyHash: Eq + Copy {
    ghost spot_of: { Self → List ℕ → ℕ };

    /// The hash of a key.
    fn spot(&self, key: &Key) -> u32
        ensures { result ≡ spot_of self.now key.now };

    // equal hashes place every key alike
    ghost agrees: { (a b : Self) (key : List ℕ) → Self.eq a b ≡ true → spot_of a key ≡ spot_of b key };
}

/// The sum of a key's bytes, wrapped to 32 bits.
#[derive(Clone, Copy, Debug, PartialEq, Eq)]
pub struct SumHash;

impl KeyHash for SumHash {
    ghost use Rattle.std.specs.Prelude.{refl};
    ghost use Rattle.mr_pools.specs.Hash.{sum_of_bytes};

    ghost spot_of = { λ _ key. sum_of_bytes key };

    ghost agrees = { λ _ _ _ _. refl };

    fn spot(&self, key: &Key) -> u32 {
        let mut sum = 0u32;
        for byte in key.as_bytes() {
            sum = sum.wrapping_add(u32::from(*byte));
        }
        sum
    }
}

/// The hash FNV-1a of a key's bytes, of 32 bits: for each byte exclusive-or, then times the prime.
#[derive(Clone, Copy, Debug, PartialEq, Eq)]
pub struct Fnv1a32;

impl KeyHash for Fnv1a32 {
    ghost use Rattle.std.specs.Prelude.{refl};
    ghost use Rattle.mr_pools.specs.Hash.{fnv1a32_of};

    ghost spot_of = { λ _ key. fnv1a32_of key };

    ghost agrees = { λ _ _ _ _. refl };

    fn spot(&self, key: &Key) -> u32 {
        let mut hash = FNV_OFFSET_BASIS;
        for byte in key.as_bytes() {
            hash = (hash ^ u32::from(*byte)).wrapping_mul(FNV_PRIME);
        }
        hash
    }
}

/// A hash that a configuration names.
#[derive(Clone, Copy, Debug, PartialEq, Eq)]
pub enum NamedHash {
    /// [`SumHash`], by the name `sum`.
    Sum,
    /// [`Fnv1a32`], by the name `fnv1a32`.
    Fnv,
}

impl KeyHash for NamedHash {
    ghost use Rattle.std.proofs.Common.{rules};
    ghost use Rattle.mr_pools.specs.Hash.{spot_by};

    ghost spot_of = { spot_by };

    ghost agrees = { Prim.search rules };

    fn spot(&self, key: &Key) -> u32 {
        match self {
            NamedHash::Sum => SumHash.spot(key),
            NamedHash::Fnv => Fnv1a32.spot(key),
        }
    }
}

impl NamedHash {
    ghost use Rattle.mr_pools.specs.Hash.{name_of_hash};
    ghost use Rattle.mr_pools.specs.declared.hash.NamedHash.{NamedHash};

    /// The hash of this name, or None where no hash has it.
    pub fn from_name(name: &str) -> Option<NamedHash>
        ensures named { IfSome result (λ hash. name.now ≡ name_of_hash hash) }
        ensures unknown { IfNone result ((hash : NamedHash) → name.now ≢ name_of_hash hash) }
    {
        match name {
            "sum" => Some(NamedHash::Sum),
            "fnv1a32" => Some(NamedHash::Fnv),
            _ => None,
        }
    }

    /// The hash's name.
    pub fn as_str(self) -> &'static str
        ensures { result.now ≡ name_of_hash self }
    {
        match self {
            NamedHash::Sum => "sum",
            NamedHash::Fnv => "fnv1a32",
        }
    }
}
