//! The digest of a configuration, by which those that say the same are known as the same.
ghost use Rattle.std.specs.Prelude.{◌≡◌, false, string_bytes, IfOk, IfErr};
ghost use Rattle.serde_json.specs.Data.{Data};
ghost use Rattle.serde_json.specs.Written.{has_float, compact_text};
ghost use Rattle.mr_configs.specs.Config.{IsJson, IsNoJson};
ghost use Rattle.mr_configs.specs.Digest.{IsDigest, digits_of_text};

use crate::config::json_of;
use crate::error::PlanError;
use sha2::{Digest, Sha256};
use std::alloc::{AllocError, Global};

/// The SHA-256 of a text, in lower-case hexadecimal digits.
fn digits_of_text(alloc: Global, text: &str) -> Result<String, AllocError>
    ensures { IfOk result (λ digits. string_bytes digits ≡ digits_of_text text.now) }
{
    let digest = Sha256::digest(text);
    hex::encode(alloc, digest.as_slice())
}

/// The digest of a configuration, in 64 lower-case hexadecimal digits: the SHA-256 of its JSON value written without spaces, the
/// keys of each object in the order of their bytes, as transcripts write it. Bytes that say the same have one digest, however
/// they are laid out.
///
/// NotJson where the bytes are no JSON text in UTF-8, OutOfMemory.
pub fn config_digest(alloc: Global, bytes: &[u8]) -> Result<String, PlanError>
    ensures digest { IfOk result (λ digest. IsDigest bytes.now (string_bytes digest)) }
    ensures exact { IfOk result (λ digest. (value : Data) → IsJson bytes.now value → has_float value ≡ false
        → string_bytes digest ≡ digits_of_text (compact_text value)) }
    ensures refused { IfErr result (λ e. IsNoJson bytes.now e) }
{
    let value = json_of(alloc, bytes)?;
    let text = value.to_string(alloc)?;
    Ok(digits_of_text(alloc, text.as_str())?)
}
