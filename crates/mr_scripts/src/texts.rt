//! Keys that texts of JSON stand for: each character is one byte, its code point.
ghost use Rattle.std.specs.Prelude.{◌≡◌, Ok, Err, IfOk, IfErr, length};
ghost use Rattle.std.specs.List.{list_all};
ghost use Rattle.std.specs.Str.{chars};
ghost use Rattle.serde_json.specs.View.{view};
ghost use Rattle.mr_text.specs.Key.{key_byte_test, key_test};
ghost use Rattle.mr_scripts.specs.Texts.{key_of_text, key_of};

use mr_configs::PlanError;
use mr_configs::fields::text;
use mr_shown::{are_bytes, bytes_of_characters};
use mr_text::{Key, MAX_KEY, TextError};
use serde_json::Value;
use std::alloc::{AllocError, Global};

/// Whether each character may stand in a key.
fn are_key_bytes(text: &str) -> bool
    ensures { result ≡ list_all key_byte_test (chars text.now) }
{
    for point in text.chars() {
        if point <= ' ' || point == '\x7f' {
            return false;
        }
    }
    true
}

/// How many characters a text has.
pub fn length_of(text: &str) -> usize
    ensures { result ≡ length (chars text.now) }
{
    text.chars().count()
}

/// Whether the characters are a key.
#[tactic(auto, unfolding(mr_text::specs::Key::key_test))]
fn is_key(text: &str) -> bool
    ensures { result ≡ key_test (chars text.now) }
{
    let length = length_of(text);
    1 <= length && length <= MAX_KEY && are_key_bytes(text)
}

/// The text of the key that a value is.
pub fn key_text(value: &Value) -> Result<&str, PlanError>
    ensures key { IfOk result (λ text. key_of (view value.now) ≡ Ok (chars text.now)) }
    ensures stands { IfOk result (λ text. key_of_text text.now ≡ Ok (chars text.now)) }
    ensures refused { IfErr result (λ e. key_of (view value.now) ≡ Err e) }
{
    let text = text(value)?;
    if !are_bytes(text) || !is_key(text) {
        return Err(PlanError::WrongKind);
    }
    Ok(text)
}

/// The key that a text stands for.
#[tactic(auto, using(crate::proofs::TextLemmas::key_made))]
pub fn make_key(alloc: Global, text: &str) -> Result<Key, AllocError>
    requires { key_of_text text.now ≡ Ok (chars text.now) }
    ensures { IfOk result (λ key. key ≡ chars text.now) }
{
    let bytes = bytes_of_characters(alloc, text)?;
    match Key::new(alloc, bytes.as_slice()) {
        Ok(key) => Ok(key),
        Err(TextError::OutOfMemory) => Err(AllocError),
        Err(_) => unreachable!(),
    }
}
