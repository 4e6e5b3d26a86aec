//! What stands under a key of a JSON value, taken out and put in.
ghost use Rattle.std.specs.Prelude.{◌≡◌, IfOk, OnOk, MatchOption, option_map};
ghost use Rattle.serde_json.specs.Data.{Data, put};
ghost use Rattle.serde_json.specs.Find.{get, get_member};
ghost use Rattle.serde_json.specs.View.{view, members_view};
ghost use Rattle.mr_scripts.specs.Upgrade.{with_member, says_at};

use serde_json::{Map, Value};
use std::alloc::{AllocError, Global};

/// Puts a value among members in the place of the one under its key, and gives that one.
fn exchange(
    members: &mut Map<String, Value>,
    alloc: Global,
    key: &str,
    value: Value,
) -> Result<Option<Value>, AllocError>
    ensures members { OnOk result (members_view members.new.entries ≡ put key.now (view value) (members_view members.old.entries)) }
    ensures held { IfOk result (λ held. option_map view held ≡ get_member key.now (members_view members.old.entries)) }
{
    let name = String::from_str(alloc, key)?;
    Ok(members.insert(name, value)?)
}

/// A value and what it holds under a key, which null stands for then; or the value as it is, where it holds nothing there.
pub fn without_member(
    alloc: Global,
    value: Value,
    key: &str,
) -> Result<(Value, Option<Value>), AllocError>
    ensures held { IfOk result (λ parts. option_map view parts.1 ≡ get key.now (view value)) }
    ensures others { IfOk result (λ parts. MatchOption parts.1 (view parts.0 ≡ view value)
        (λ _. (held : Data) → with_member key.now held (view parts.0) ≡ with_member key.now held (view value))) }
{
    let mut members = match value {
        Value::Object(members) => members,
        other => return Ok((other, None)),
    };
    if !members.contains_key(key) {
        return Ok((Value::Object(members), None));
    }
    let held = exchange(&mut members, alloc, key, Value::Null)?;
    Ok((Value::Object(members), held))
}

/// A value with another under a key, in the place of what stood there.
pub fn with_member(alloc: Global, value: Value, key: &str, held: Value) -> Result<Value, AllocError>
    ensures { IfOk result (λ made. view made ≡ with_member key.now (view held) (view value)) }
{
    match value {
        Value::Object(mut members) => {
            exchange(&mut members, alloc, key, held)?;
            Ok(Value::Object(members))
        }
        other => Ok(other),
    }
}

/// Whether the text under a key is this one.
pub fn says_at(key: &str, text: &str, value: &Value) -> bool
    ensures { result ≡ says_at key.now text.now (view value.now) }
{
    match value.get(key) {
        Some(Value::String(said)) => said.as_str() == text,
        _ => false,
    }
}
