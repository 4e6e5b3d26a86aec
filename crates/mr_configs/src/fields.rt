//! Looking into JSON values.
ghost use Rattle.std.specs.Prelude.{◌≡◌, Ok, Err, IfOk, IfErr, map};
ghost use Rattle.serde_json.specs.View.{view, members_view};
ghost use Rattle.mr_configs.specs.Fields.{is_one_of, have_only, object_check, field, whole_number, text_of, list_of};

use crate::error::PlanError;
use serde_json::{Map, Value};

/// Whether the key is one of these.
fn is_one_of(keys: &[&str], key: &str) -> bool
    ensures { result ≡ is_one_of (map (λ known. known.now) keys.now) key.now }
{
    for known in keys {
        if *known == key {
            return true;
        }
    }
    false
}

/// Whether each key of the members is one of these.
fn have_only(keys: &[&str], members: &Map<String, Value>) -> bool
    ensures { result ≡ have_only (map (λ known. known.now) keys.now) (members_view members.now.entries) }
{
    for (key, _) in members {
        if !is_one_of(keys, key.as_str()) {
            return false;
        }
    }
    true
}

/// Looks whether the value is an object that has no key but these: WrongKind, then UnknownKey.
pub fn check_object(value: &Value, keys: &[&str]) -> Result<(), PlanError>
    ensures { result ≡ object_check (map (λ known. known.now) keys.now) (view value.now) }
{
    let members = value.as_object().ok_or(PlanError::WrongKind)?;
    if !have_only(keys, members) {
        return Err(PlanError::UnknownKey);
    }
    Ok(())
}

/// The value of a key that has to be there.
pub fn field<'a>(value: &'a Value, key: &str) -> Result<&'a Value, PlanError>
    ensures found { IfOk result (λ found. field key.now (view value.now) ≡ Ok (view found.now)) }
    ensures missing { IfErr result (λ e. field key.now (view value.now) ≡ Err e) }
{
    value.get(key).ok_or(PlanError::MissingKey)
}

/// A whole number of 64 bits.
pub fn whole_number(value: &Value) -> Result<u64, PlanError>
    ensures { result ≡ whole_number (view value.now) }
{
    value.as_u64().ok_or(PlanError::WrongKind)
}

/// A text.
pub fn text(value: &Value) -> Result<&str, PlanError>
    ensures read { IfOk result (λ text. text_of (view value.now) ≡ Ok text.now) }
    ensures refused { IfErr result (λ e. text_of (view value.now) ≡ Err e) }
{
    value.as_str().ok_or(PlanError::WrongKind)
}

/// The values of a list.
#[tactic(auto, using(crate::proofs::FieldLemmas::values_in_items))]
pub fn list(value: &Value) -> Result<&[Value], PlanError>
    ensures read { IfOk result (λ values. list_of (view value.now) ≡ Ok (map view values.now)) }
    ensures refused { IfErr result (λ e. list_of (view value.now) ≡ Err e) }
{
    match value.as_array() {
        Some(values) => Ok(values.as_slice()),
        None => Err(PlanError::WrongKind),
    }
}
