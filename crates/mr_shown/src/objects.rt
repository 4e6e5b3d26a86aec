//! Objects that are made of plain parts, which need no drop: the one place where members are put into a map.
ghost use Rattle.std.specs.Prelude.{◌≡◌, IfOk};
ghost use Rattle.serde_json.specs.Data.{Data, object, no_members, put as with_member};
ghost use Rattle.serde_json.specs.View.{view, members_view};
ghost use Rattle.mr_shown.specs.Objects.{part_json, members_json};

use crate::arrays::array_of;
use crate::format::Format;
use crate::parts::{author_value, bytes_value, data_value, op_value};
use mr_history::{Author, OpId};
use mr_text::Key;
use serde_json::{Map, Value, put};
use std::alloc::{AllocError, Global};

/// What the value of a member is made of.
#[derive(Clone, Copy)]
pub enum Part<'a> {
    /// A text.
    Text(&'a str),
    /// Bytes that are the same text in each format: a key, or what an error says.
    Bytes(&'a [u8]),
    /// Data, and the format of its text.
    Data(Format, &'a [u8]),
    /// A number that is not negative.
    Number(u64),
    /// A number, which may be negative.
    Signed(i64),
    /// Whether something holds.
    Flag(bool),
    /// The name of a request.
    Op(OpId),
    /// Who stored an item.
    Author(Author),
    /// Numbers in order.
    Numbers(&'a [u64]),
    /// Keys in order.
    Keys(&'a [Key]),
}

/// A member of an object: its name and its value.
pub type Member<'a> = (&'a str, Part<'a>);

fn part_value(alloc: Global, part: Part<'_>) -> Result<Value, AllocError>
    ensures { IfOk result (λ value. view value ≡ part_json part.entry) }
{
    match part {
        Part::Text(text) => Value::try_from_str(alloc, text),
        Part::Bytes(bytes) => bytes_value(alloc, bytes),
        Part::Data(format, bytes) => data_value(alloc, format, bytes),
        Part::Number(number) => Ok(Value::from(number)),
        Part::Signed(number) => Ok(Value::from(number)),
        Part::Flag(flag) => Ok(Value::Bool(flag)),
        Part::Op(op) => op_value(alloc, op),
        Part::Author(by) => author_value(alloc, by),
        Part::Numbers(numbers) => array_of(alloc, (), numbers),
        Part::Keys(keys) => array_of(alloc, (), keys),
    }
}

fn map_of(alloc: Global, members: &[Member<'_>]) -> Result<Map<String, Value>, AllocError>
    ensures { IfOk result (λ map. members_view map.entries ≡ members_json members.now no_members) }
{
    let mut map = Map::new(alloc);
    for (name, part) in members {
        put(&mut map, alloc, name, part_value(alloc, *part)?)?;
    }
    Ok(map)
}

/// The object with these members.
pub fn object_of(alloc: Global, members: &[Member<'_>]) -> Result<Value, AllocError>
    ensures { IfOk result (λ value. view value ≡ object (members_json members.now no_members)) }
{
    Ok(Value::Object(map_of(alloc, members)?))
}

/// The object with these members and then one more.
pub fn object_with(
    alloc: Global,
    members: &[Member<'_>],
    name: &str,
    value: Result<Value, AllocError>,
) -> Result<Value, AllocError>
    ensures { (json : Data) → IfOk value (λ last. view last ≡ json)
        → IfOk result (λ value. view value ≡ object (with_member name.now json (members_json members.now no_members))) }
{
    let value = value?;
    let mut map = map_of(alloc, members)?;
    put(&mut map, alloc, name, value)?;
    Ok(Value::Object(map))
}
