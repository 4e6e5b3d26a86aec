//! Numbers and truth values that JSON values hold.
ghost use Rattle.std.specs.Prelude.{◌≡◌, Ok, Err, IfOk, IfErr};
ghost use Rattle.serde_json.specs.Find.{get};
ghost use Rattle.serde_json.specs.View.{view};
ghost use Rattle.mr_scripts.specs.Numbers.{small_number, signed_whole_number, flag_of};

use mr_configs::PlanError;
use mr_configs::fields::whole_number;
use serde_json::Value;

/// A whole number of 32 bits.
pub fn small_number(value: &Value) -> Result<u32, PlanError>
    ensures { result ≡ small_number (view value.now) }
{
    u32::try_from(whole_number(value)?).map_err(|_| PlanError::WrongKind)
}

/// A whole number of 64 bits that may be negative.
pub fn signed_whole_number(value: &Value) -> Result<i64, PlanError>
    ensures { result ≡ signed_whole_number (view value.now) }
{
    value.as_i64().ok_or(PlanError::WrongKind)
}

/// The truth value of a key that may be absent, and is then false.
pub fn flag(value: &Value, key: &str) -> Result<bool, PlanError>
    ensures { result ≡ flag_of (get key.now (view value.now)) }
{
    match value.get(key) {
        None => Ok(false),
        Some(flag) => flag.as_bool().ok_or(PlanError::WrongKind),
    }
}
