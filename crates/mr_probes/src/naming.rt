//! The names of a canary's keys.
ghost use Rattle.std.specs.Prelude.{◌≡◌, IfOk};
ghost use Rattle.mr_probes.specs.Naming.{key_text, IsKeyOf};

use crate::digits::put_word;
use itoa::Buffer;
use mr_text::{Key, TextError};
use std::alloc::{AllocError, Global};
use thiserror::Error;

/// Why a key isn't made.
#[derive(Clone, Copy, Debug, PartialEq, Eq, Error)]
pub enum KeyError {
    /// With this prefix its name is longer than a key may be, or has a byte that none may have.
    #[error("the prefix makes no key")]
    BadPrefix,
    /// Memory was refused.
    #[error("out of memory")]
    OutOfMemory,
}

impl From<AllocError> for KeyError {
    ghost use Rattle.std.specs.Prelude.{◌≡◌, IfOk};
    ghost use Rattle.mr_probes.specs.declared.naming.KeyError.TheVariants.{OutOfMemory};

    ghost from_gives = { λ _ e. e ≡ OutOfMemory };

    fn from(_e: AllocError) -> KeyError {
        KeyError::OutOfMemory
    }
}

/// The text of a key's name.
fn key_text(alloc: Global, prefix: &str, run: u64, number: u64) -> Result<Vec<u8>, AllocError>
    ensures { IfOk result (λ text. text.items ≡ key_text prefix.now run number) }
{
    let mut buffer = Buffer::new();
    let mut text = Vec::from_slice(alloc, prefix.as_bytes())?;
    put_word(&mut text, run)?;
    text.extend_from_slice(buffer.format(number).as_bytes())?;
    Ok(text)
}

/// The key of a number: its name is the prefix, the run as 16 hexadecimal digits, a dash, and the number.
pub fn name_key(alloc: Global, prefix: &str, run: u64, number: u64) -> Result<Key, KeyError>
    ensures { IsKeyOf (key_text prefix.now run number) result }
{
    let text = key_text(alloc, prefix, run, number)?;
    match Key::new(alloc, &text) {
        Ok(key) => Ok(key),
        Err(TextError::BadKey) => Err(KeyError::BadPrefix),
        Err(_) => Err(KeyError::OutOfMemory),
    }
}
