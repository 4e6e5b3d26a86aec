//! The entries of a history as JSON.
ghost use Rattle.std.specs.Prelude.{◌≡◌, IfOk};
ghost use Rattle.serde_json.specs.Data.{array};
ghost use Rattle.serde_json.specs.View.{view};
ghost use Rattle.mr_shown.specs.Shown.{entry_json, entries_json};

use crate::arrays::{Shown, array_of};
use crate::format::Format;
use crate::objects::{Part, object_of, object_with};
use crate::replies::reply_value;
use crate::requests::request_value;
use mr_history::Entry;
use serde_json::Value;
use std::alloc::{AllocError, Global};

impl Shown for Entry {
    type Style = Format;

    ghost json = { entry_json };

    fn value(&self, alloc: Global, format: Format) -> Result<Value, AllocError> {
        match self {
            Entry::Issued { op, proxy, request } => {
                let members = [
                    ("entry", Part::Text("issued")),
                    ("op", Part::Op(*op)),
                    ("proxy", Part::Number(*proxy as u64)),
                ];
                object_with(
                    alloc,
                    &members,
                    "request",
                    request_value(alloc, format, request),
                )
            }
            Entry::Stored {
                by,
                key,
                flags,
                block,
            } => object_of(
                alloc,
                &[
                    ("by", Part::Author(*by)),
                    ("data", Part::Data(format, block.as_bytes())),
                    ("entry", Part::Text("stored")),
                    ("flags", Part::Number(*flags as u64)),
                    ("key", Part::Bytes(key.as_bytes())),
                ],
            ),
            Entry::Removed { op, side, key } => object_of(
                alloc,
                &[
                    ("entry", Part::Text("removed")),
                    ("key", Part::Bytes(key.as_bytes())),
                    ("op", Part::Op(*op)),
                    ("side", Part::Text(side.as_str())),
                ],
            ),
            Entry::Answered { op, reply } => {
                let members = [("entry", Part::Text("answered")), ("op", Part::Op(*op))];
                object_with(alloc, &members, "reply", reply_value(alloc, format, reply))
            }
        }
    }
}

/// A history, entry by entry, its data in a format.
pub fn history_value(alloc: Global, format: Format, entries: &[Entry]) -> Result<Value, AllocError>
    ensures { IfOk result (λ value. view value ≡ array (entries_json format entries.now)) }
{
    array_of(alloc, format, entries)
}
