//! Whether two JSON values say the same.
ghost use Rattle.std.specs.Prelude.{◌≡◌, ◌==◌};
ghost use Rattle.serde_json.specs.View.{view, number_view, items_view, members_view};
ghost use Rattle.mr_scripts.specs.Values.{same_number, count_members, is_same, are_same, stand_in};

use serde_json::{Map, Number, Value};

/// Whether both are the same whole number. A number that isn't whole is the same as none.
fn same_number(number: &Number, other: &Number) -> bool
    ensures { result ≡ same_number (number_view number.now) (number_view other.now) }
{
    match (number.as_u64(), other.as_u64()) {
        (Some(number), Some(other)) => number == other,
        (None, None) => match (number.as_i64(), other.as_i64()) {
            (Some(number), Some(other)) => number == other,
            _ => false,
        },
        _ => false,
    }
}

/// Whether both have as many members.
#[tactic(auto, using(crate::proofs::ValueLemmas::members_counted))]
fn are_as_many(members: &Map<String, Value>, others: &Map<String, Value>) -> bool
    ensures { result ≡
        (count_members (members_view members.now.entries) == count_members (members_view others.now.entries)) }
{
    members.len() == others.len()
}

/// Whether both values have the same kind and say the same; the order of an object's members is no matter.
#[cycle(same)]
pub fn is_same(value: &Value, other: &Value) -> bool
    ensures { result ≡ is_same (view value.now) (view other.now) }
{
    match (value, other) {
        (Value::Null, Value::Null) => true,
        (Value::Bool(truth), Value::Bool(other)) => truth == other,
        (Value::Number(number), Value::Number(other)) => same_number(number, other),
        (Value::String(text), Value::String(other)) => text.as_str() == other.as_str(),
        (Value::Array(items), Value::Array(others)) => are_same(items, others),
        (Value::Object(members), Value::Object(others)) => {
            are_as_many(members, others) && stand_in(members, other)
        }
        _ => false,
    }
}

#[cycle(same)]
#[tactic(auto, using(crate::proofs::ValueLemmas::differ_in_length))]
fn are_same(items: &Vec<Value>, others: &Vec<Value>) -> bool
    ensures { result ≡ are_same (items_view items.now.items) (items_view others.now.items) }
{
    if items.len() != others.len() {
        return false;
    }
    for (index, item) in items.iter().enumerate() {
        if !is_same(item, &others[index]) {
            return false;
        }
    }
    true
}

/// Whether each member stands in the other value.
#[cycle(same)]
fn stand_in(members: &Map<String, Value>, other: &Value) -> bool
    ensures { result ≡ stand_in (members_view members.now.entries) (view other.now) }
{
    for (key, value) in members {
        let is_there = match other.get(key.as_str()) {
            Some(found) => is_same(value, found),
            None => false,
        };
        if !is_there {
            return false;
        }
    }
    true
}
