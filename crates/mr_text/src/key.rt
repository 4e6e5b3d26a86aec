//! The names of items.
ghost use Rattle.std.specs.Prelude.{◌≡◌, ◌≤◌, length, IfOk, ◌↔◌, IsTrue};
ghost use Rattle.std.specs.List.{list_all};
ghost use Rattle.mr_text.specs.Key.{IsKey, key_byte_test, key_test};
ghost use Rattle.mr_text.specs.declared.error.TextError.TheVariants.{BadKey};
ghost use Rattle.mr_text.specs.steps.KeyPlace.{key_at, IsFilled};

use crate::error::TextError;
use crate::limits::{MAX_KEY, SHORT_KEY};
use std::alloc::{AllocError, Global};
use std::hash::{Hash, Hasher};
use std::marker::Model;

/// Where the bytes of a key stand.
#[derive(Debug, Drop)]
pub(crate) enum KeyPlace {
    /// In the key itself, so many of these.
    Within([u8; SHORT_KEY], usize),
    /// In memory of their own.
    Apart(Vec<u8>),
}

/// The name of an item: 1 to 250 bytes without a space or a control character. A short one takes no memory.
#[derive(Debug)]
pub struct Key {
    place: KeyPlace,
}

// By hand, so that who drops a key needs to know nothing of its places.
impl Drop for Key {
    fn drop(self) {
        let Key { place: _ } = self;
    }
}

impl Model for Key {
    ghost use Rattle.std.specs.Prelude.{ℕ, List};
    ghost use Rattle.mr_text.specs.Key.{IsKey};
    ghost use Rattle.mr_text.specs.steps.KeyPlace.{key_at, IsFilled};

    ghost Value = { List ℕ };

    ghost view = { λ k. key_at k.place };

    ghost invariant = { λ k. IsFilled k.place × IsKey (key_at k.place) };
}

/// Whether a byte may stand in a key.
#[inline(always)]
fn is_key_byte(byte: u8) -> bool
    ensures { result ≡ key_byte_test byte }
{
    byte > b' ' && byte != 0x7f
}

/// Whether each byte may stand in a key. It looks at all of them, several at once, which costs less than to stop at one that may not.
#[inline(always)]
fn are_key_bytes(bytes: &[u8]) -> bool
    ensures { result ≡ list_all key_byte_test bytes.now }
{
    let mut all = true;
    for byte in bytes {
        all = all & is_key_byte(*byte);
    }
    all
}

/// Whether the bytes are a key.
#[inline(always)]
#[tactic(auto, unfolding(crate::specs::Key::key_test))]
pub(crate) fn is_key(bytes: &[u8]) -> bool
    ensures { result ≡ key_test bytes.now }
{
    !bytes.is_empty() && bytes.len() <= MAX_KEY && are_key_bytes(bytes)
}

/// These bytes, which have room in a key itself.
#[inline(always)]
fn within(bytes: &[u8]) -> KeyPlace
    requires { length bytes.now ≤ 40 }
    ensures filled { IsFilled result }
    ensures bytes { key_at result ≡ bytes.now }
{
    let mut room = [0; SHORT_KEY];
    room[..bytes.len()].copy_from_slice(bytes);
    KeyPlace::Within(room, bytes.len())
}

impl Key {
    ghost use Rattle.mr_text.specs.Making.{MadeWhere};

    /// The key of these bytes, or BadKey where they are none.
    #[tactic(auto, using(crate::proofs::Keys::key_lemmas))]
    pub fn new(alloc: Global, bytes: &[u8]) -> Result<Key, TextError>
        ensures { MadeWhere (IsKey bytes.now) BadKey bytes.now result }
    {
        if !is_key(bytes) {
            return Err(TextError::BadKey);
        }
        Ok(Key::of(alloc, bytes)?)
    }

    /// The key of bytes that are known to be one.
    #[inline(always)]
    pub(crate) fn of(alloc: Global, bytes: &[u8]) -> Result<Key, AllocError>
        requires { IsKey bytes.now }
        ensures { IfOk result (λ key. key ≡ bytes.now) }
    {
        let place = if bytes.len() <= SHORT_KEY {
            within(bytes)
        } else {
            KeyPlace::Apart(Vec::from_slice(alloc, bytes)?)
        };
        Ok(Key { place })
    }

    /// The bytes of the key.
    #[inline(always)]
    pub fn as_bytes(&self) -> &[u8]
        ensures bytes { result.now ≡ self.now }
        ensures key { IsKey result.now }
    {
        match &self.place {
            KeyPlace::Within(room, count) => &room[..*count],
            KeyPlace::Apart(bytes) => bytes.as_slice(),
        }
    }

    /// How many bytes the key has.
    #[inline(always)]
    pub fn len(&self) -> usize
        ensures length { result ≡ length self.now }
        ensures some { 1 ≤ result }
        ensures short { result ≤ MAX_KEY }
    {
        self.as_bytes().len()
    }

    /// Whether the other key is equal.
    #[inline(always)]
    pub fn same_as(&self, other: &Key) -> bool
        ensures { IsTrue result ↔ (self.now ≡ other.now) }
    {
        self.as_bytes() == other.as_bytes()
    }

    /// An equal key.
    #[inline(always)]
    pub fn copy(&self) -> Result<Key, AllocError>
        ensures { IfOk result (λ key. key ≡ self.now) }
    {
        let place = match &self.place {
            KeyPlace::Within(room, count) => KeyPlace::Within(*room, *count),
            KeyPlace::Apart(bytes) => {
                KeyPlace::Apart(Vec::from_slice(*bytes.allocator(), bytes.as_slice())?)
            }
        };
        Ok(Key { place })
    }
}

impl PartialEq for Key {
    ghost use Rattle.std.specs.Str.{bytes_eq};
    ghost use Rattle.std.proofs.Common.{rules};

    ghost eq = { bytes_eq };

    ghost laws = { Prim.search rules };

    fn eq(&self, other: &Key) -> bool {
        self.as_bytes() == other.as_bytes()
    }
}

impl Eq for Key {
    ghost use Rattle.std.proofs.Common.{rules};

    ghost laws = { Prim.search rules };
}

// The length and then all bytes at once, so that a key of which another begins is fed differently.
impl Hash for Key {
    ghost use Rattle.std.specs.Prelude.{[], ◌∷◌, ◌++◌};
    ghost use Rattle.std.specs.Hash as fed;
    ghost use Rattle.std.specs.Cmp.Rules.{comparing, hashing};
    ghost use Rattle.std.proofs.Common.{rules};

    ghost hash_input = { λ k. fed.usize (length k) ++ (k ∷ []) };

    ghost respects_eq = { Prim.search (hashing, rules) };

    fn hash<H: Hasher>(&self, state: &mut H) {
        state.write_usize(self.len());
        state.write(self.as_bytes());
    }
}
