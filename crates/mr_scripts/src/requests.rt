//! Requests that JSON values are.
ghost use Rattle.std.specs.Prelude.{◌≡◌, true, [], ◌∷◌, Ok, Err, IfOk, IfErr, map, nat_le};
ghost use Rattle.std.specs.Str.{chars};
ghost use Rattle.serde_json.specs.View.{view};
ghost use Rattle.mr_text.specs.Key.{get_line_length};
ghost use Rattle.mr_scripts.specs.Requests.{are_keys, keys_in, keys_of, get_of, set_of, delete_of, request_of};
ghost use Rattle.mr_scripts.specs.RequestDraft.{request_drafted, IsRequestReady};

use crate::blocks::{BlockDraft, block_draft};
use crate::numbers::{flag, signed_whole_number, small_number};
use crate::texts::{key_text, length_of, make_key};
use mr_configs::PlanError;
use mr_configs::fields::{check_object, field, list, text};
use mr_shown::Format;
use mr_text::{Key, KeyList, MAX_LINE, Request};
use serde_json::Value;
use std::alloc::{AllocError, Global};

/// The keys of a get.
const GET_KEYS: [&str; 2] = ["keys", "kind"];

/// The keys of a set.
const SET_KEYS: [&str; 6] = ["data", "exptime", "flags", "key", "kind", "noreply"];

/// The keys of a delete.
const DELETE_KEYS: [&str; 3] = ["key", "kind", "noreply"];

/// The bytes of a `get` line before its first space.
const COMMAND_LENGTH: usize = 3;

/// A request that was looked at whole, and is yet to be made.
#[derive(Clone, Copy)]
pub enum RequestDraft<'a> {
    /// A get of the keys that these values are.
    Get {
        /// The keys in order.
        keys: &'a [Value],
    },
    /// A set.
    Set {
        /// The text of the key.
        key: &'a str,
        /// A number given back with the item.
        flags: u32,
        /// When the item expires.
        exptime: i64,
        /// The block.
        block: BlockDraft<'a>,
        /// The client wants no answer.
        noreply: bool,
    },
    /// A delete.
    Delete {
        /// The text of the key.
        key: &'a str,
        /// The client wants no answer.
        noreply: bool,
    },
}

/// Whether each value is a key.
fn are_keys(values: &[Value]) -> bool
    ensures { result ≡ are_keys (map view values.now) }
{
    for value in values {
        if key_text(value).is_err() {
            return false;
        }
    }
    true
}

/// The text that a value holds; none where it is no text.
fn text_in(value: &Value) -> &str
    ensures { keys_in (view value.now ∷ []) ≡ chars result.now ∷ [] }
{
    value.as_str().unwrap_or("")
}

/// Whether the keys, each with a space before it, fit a `get` line.
fn fit_line(values: &[Value]) -> bool
    ensures { result ≡ nat_le (get_line_length (keys_in (map view values.now))) MAX_LINE }
{
    let mut room = MAX_LINE - COMMAND_LENGTH;
    for value in values {
        let length = length_of(text_in(value));
        if room <= length {
            return false;
        }
        room -= length + 1;
    }
    true
}

/// The get that a value is.
fn get_draft(value: &Value) -> Result<RequestDraft<'_>, PlanError>
    ensures request { IfOk result (λ draft. get_of (view value.now) ≡ Ok (request_drafted draft)) }
    ensures ready { IfOk result (λ draft. IsRequestReady draft) }
    ensures refused { IfErr result (λ e. get_of (view value.now) ≡ Err e) }
{
    check_object(value, &GET_KEYS)?;
    let keys = list(field(value, "keys")?)?;
    if !are_keys(keys) || keys.is_empty() || !fit_line(keys) {
        return Err(PlanError::WrongKind);
    }
    Ok(RequestDraft::Get { keys })
}

/// The set that a value is.
fn set_draft(format: Format, value: &Value) -> Result<RequestDraft<'_>, PlanError>
    ensures request { IfOk result (λ draft. set_of format (view value.now) ≡ Ok (request_drafted draft)) }
    ensures ready { IfOk result (λ draft. IsRequestReady draft) }
    ensures refused { IfErr result (λ e. set_of format (view value.now) ≡ Err e) }
{
    check_object(value, &SET_KEYS)?;
    let block = block_draft(format, field(value, "data")?)?;
    let exptime = signed_whole_number(field(value, "exptime")?)?;
    let flags = small_number(field(value, "flags")?)?;
    let key = key_text(field(value, "key")?)?;
    let noreply = flag(value, "noreply")?;
    Ok(RequestDraft::Set {
        key,
        flags,
        exptime,
        block,
        noreply,
    })
}

/// The delete that a value is.
fn delete_draft(value: &Value) -> Result<RequestDraft<'_>, PlanError>
    ensures request { IfOk result (λ draft. delete_of (view value.now) ≡ Ok (request_drafted draft)) }
    ensures ready { IfOk result (λ draft. IsRequestReady draft) }
    ensures refused { IfErr result (λ e. delete_of (view value.now) ≡ Err e) }
{
    check_object(value, &DELETE_KEYS)?;
    let key = key_text(field(value, "key")?)?;
    let noreply = flag(value, "noreply")?;
    Ok(RequestDraft::Delete { key, noreply })
}

/// Looks at a request whole, without taking memory, and tells the first refusal.
pub fn request_draft(format: Format, value: &Value) -> Result<RequestDraft<'_>, PlanError>
    ensures request { IfOk result (λ draft. request_of format (view value.now) ≡ Ok (request_drafted draft)) }
    ensures ready { IfOk result (λ draft. IsRequestReady draft) }
    ensures refused { IfErr result (λ e. request_of format (view value.now) ≡ Err e) }
{
    let kind = text(field(value, "kind")?)?;
    if kind == "get" {
        get_draft(value)
    } else if kind == "set" {
        set_draft(format, value)
    } else if kind == "delete" {
        delete_draft(value)
    } else {
        Err(PlanError::WrongKind)
    }
}

/// The keys that values are.
fn make_keys(alloc: Global, values: &[Value]) -> Result<Vec<Key>, AllocError>
    requires { are_keys (map view values.now) ≡ true }
    ensures { IfOk result (λ keys. keys.items ≡ keys_in (map view values.now)) }
{
    let mut keys = Vec::with_capacity(alloc, values.len())?;
    for value in values {
        keys.push(make_key(alloc, text_in(value))?)?;
    }
    Ok(keys)
}

/// The list of keys that values are.
fn make_key_list(alloc: Global, values: &[Value]) -> Result<KeyList, AllocError>
    requires { keys_of (map view values.now) ≡ Ok (keys_in (map view values.now)) }
    ensures { IfOk result (λ keys. keys ≡ keys_in (map view values.now)) }
{
    match KeyList::new(make_keys(alloc, values)?) {
        Ok(keys) => Ok(keys),
        Err(_) => unreachable!(),
    }
}

impl RequestDraft<'_> {
    /// The request, made.
    pub fn make(&self, alloc: Global) -> Result<Request, AllocError>
        requires { IsRequestReady self.now }
        ensures { IfOk result (λ request. request ≡ request_drafted self.now) }
    {
        Ok(match self {
            RequestDraft::Get { keys } => Request::Get {
                keys: make_key_list(alloc, keys)?,
            },
            RequestDraft::Set {
                key,
                flags,
                exptime,
                block,
                noreply,
            } => Request::Set {
                key: make_key(alloc, key)?,
                flags: *flags,
                exptime: *exptime,
                block: block.make(alloc)?,
                noreply: *noreply,
            },
            RequestDraft::Delete { key, noreply } => Request::Delete {
                key: make_key(alloc, key)?,
                noreply: *noreply,
            },
        })
    }
}
