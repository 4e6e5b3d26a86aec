//! What requests, entries and notes are made of.
ghost use Rattle.std.specs.Prelude.{◌≡◌, IfOk};
ghost use Rattle.serde_json.specs.View.{view};
ghost use Rattle.mr_shown.specs.Shown.{author_json, bytes_json, data_json, number_json, op_json};

use crate::arrays::{Shown, array_of};
use crate::data::text_of_data;
use crate::format::Format;
use mr_history::{Author, OpId};
use mr_text::Key;
use serde_json::Value;
use std::alloc::{AllocError, Global};

/// Bytes as a text of which each character is one byte, its code point being the byte, as data is in format 1.
pub fn bytes_value(alloc: Global, bytes: &[u8]) -> Result<Value, AllocError>
    ensures { IfOk result (λ value. view value ≡ bytes_json bytes.now) }
{
    data_value(alloc, Format::One, bytes)
}

/// Data as its text in a format.
pub fn data_value(alloc: Global, format: Format, bytes: &[u8]) -> Result<Value, AllocError>
    ensures { IfOk result (λ value. view value ≡ data_json format bytes.now) }
{
    Ok(Value::String(text_of_data(alloc, format, bytes)?))
}

/// The name of a request: its proxy, the proxy's incarnation and its number.
pub fn op_value(alloc: Global, op: OpId) -> Result<Value, AllocError>
    ensures { IfOk result (λ value. view value ≡ op_json op) }
{
    array_of(alloc, (), &[op.proxy as u64, op.incarnation, op.number])
}

/// Who stored an item.
pub fn author_value(alloc: Global, by: Author) -> Result<Value, AllocError>
    ensures { IfOk result (λ value. view value ≡ author_json by) }
{
    match by {
        Author::Beginning => Value::try_from_str(alloc, "beginning"),
        Author::By(op) => op_value(alloc, op),
    }
}

impl Shown for u64 {
    type Style = ();

    ghost json = { λ _ number. number_json number };

    fn value(&self, _alloc: Global, _style: ()) -> Result<Value, AllocError> {
        Ok(Value::from(*self))
    }
}

impl Shown for Key {
    type Style = ();

    ghost json = { λ _ key. bytes_json key };

    fn value(&self, alloc: Global, _style: ()) -> Result<Value, AllocError> {
        bytes_value(alloc, self.as_bytes())
    }
}
