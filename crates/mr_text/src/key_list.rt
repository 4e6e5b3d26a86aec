//! The keys of one get.
ghost use Rattle.std.specs.Prelude.{◌≡◌, ◌↔◌, ℕ, List, IsTrue, IfOk};
ghost use Rattle.mr_text.specs.Key.{HasKey, FitLine, AreFew};

use crate::error::TextError;
use crate::key::Key;
use crate::limits::MAX_LINE;
use std::alloc::AllocError;
use std::marker::Model;

/// The keys of one `get`, in order, repeats kept: at least one, and so few that they fit a line. So there are at most
/// 4,094, as many as a reply may have items.
#[derive(Debug, Drop)]
pub struct KeyList {
    keys: Vec<Key>,
}

impl Model for KeyList {
    ghost use Rattle.std.specs.Prelude.{ℕ, List};
    ghost use Rattle.mr_text.specs.Key.{HasKey, FitLine, AreFew};

    ghost Value = { List (List ℕ) };

    ghost view = { λ k. k.keys.items };

    ghost invariant = { λ k. HasKey k.keys.items × FitLine k.keys.items × AreFew k.keys.items };
}

/// The bytes of a `get` line before its first space.
const COMMAND_LENGTH: usize = 3;

/// Whether the keys, each with a space before it, fit a `get` line.
fn fit_line(keys: &[Key]) -> bool
    ensures fits { IsTrue result ↔ FitLine keys.now }
    ensures few { IsTrue result → AreFew keys.now }
{
    let mut room = MAX_LINE - COMMAND_LENGTH;
    for key in keys {
        let length = key.len();
        if room <= length {
            return false;
        }
        room -= length + 1;
    }
    true
}

impl KeyList {
    ghost use Rattle.mr_text.specs.Key.{IsKeyListOf};

    /// The list of these keys. WrongWords where there is none, LineTooLong where they don't fit a line.
    pub fn new(keys: Vec<Key>) -> Result<KeyList, TextError>
        ensures { IsKeyListOf keys.items result }
    {
        if keys.is_empty() {
            return Err(TextError::WrongWords);
        }
        if !fit_line(&keys) {
            return Err(TextError::LineTooLong);
        }
        Ok(KeyList { keys })
    }

    /// The list of keys that are known to be one's.
    #[inline(always)]
    pub(crate) fn of(keys: Vec<Key>) -> KeyList
        requires has_key { HasKey keys.items }
        requires fit_line { FitLine keys.items }
        requires few { AreFew keys.items }
        ensures { result ≡ keys.items }
    {
        KeyList { keys }
    }

    /// The keys in order.
    #[inline(always)]
    pub fn as_slice(&self) -> &[Key]
        ensures keys { result.now ≡ self.now }
        ensures has_key { HasKey result.now }
        ensures fit_line { FitLine result.now }
        ensures few { AreFew result.now }
    {
        self.keys.as_slice()
    }

    /// The keys, given back without taking memory.
    pub fn into_vec(self) -> Vec<Key>
        ensures keys { result.items ≡ self }
        ensures has_key { HasKey result.items }
        ensures fit_line { FitLine result.items }
        ensures few { AreFew result.items }
    {
        self.keys
    }

    /// Whether the other list is equal.
    pub fn same_as(&self, other: &KeyList) -> bool
        ensures { IsTrue result ↔ (self.now ≡ other.now) }
    {
        same_keys(self.as_slice(), other.as_slice())
    }

    /// An equal list.
    pub fn copy(&self) -> Result<KeyList, AllocError>
        ensures { IfOk result (λ list. list ≡ self.now) }
    {
        let mut keys = Vec::with_capacity(*self.keys.allocator(), self.keys.len())?;
        for key in &self.keys {
            keys.push(key.copy()?)?;
        }
        Ok(KeyList { keys })
    }
}

/// Whether both lists are equal.
fn same_keys(keys: &[Key], others: &[Key]) -> bool
    ensures { IsTrue result ↔ (keys.now ≡ others.now) }
{
    if keys.len() != others.len() {
        return false;
    }
    for (place, key) in keys.iter().enumerate() {
        if !key.same_as(&others[place]) {
            return false;
        }
    }
    true
}
