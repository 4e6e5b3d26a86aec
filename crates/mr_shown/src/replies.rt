//! Replies as JSON.
ghost use Rattle.std.specs.Prelude.{◌≡◌, IfOk};
ghost use Rattle.serde_json.specs.View.{view};
ghost use Rattle.mr_shown.specs.Shown.{item_json, reply_json};

use crate::arrays::{Shown, array_of};
use crate::format::Format;
use crate::objects::{Part, object_of, object_with};
use mr_text::{Item, Reply};
use serde_json::Value;
use std::alloc::{AllocError, Global};

impl Shown for Item {
    type Style = Format;

    ghost json = { item_json };

    fn value(&self, alloc: Global, format: Format) -> Result<Value, AllocError> {
        object_of(
            alloc,
            &[
                ("data", Part::Data(format, self.block.as_bytes())),
                ("flags", Part::Number(self.flags as u64)),
                ("key", Part::Bytes(self.key.as_bytes())),
            ],
        )
    }
}

/// An answer.
pub fn reply_value(alloc: Global, format: Format, reply: &Reply) -> Result<Value, AllocError>
    ensures { IfOk result (λ value. view value ≡ reply_json format reply.now) }
{
    match reply {
        Reply::Items(items) => {
            let items = array_of(alloc, format, items.as_slice());
            object_with(alloc, &[], "items", items)
        }
        Reply::Stored => Value::try_from_str(alloc, "stored"),
        Reply::Deleted => Value::try_from_str(alloc, "deleted"),
        Reply::NotFound => Value::try_from_str(alloc, "not_found"),
        Reply::ServerError(cause) => {
            object_of(alloc, &[("server_error", Part::Bytes(cause.text()))])
        }
        Reply::ClientError(cause) => {
            object_of(alloc, &[("client_error", Part::Bytes(cause.text()))])
        }
        Reply::Error => Value::try_from_str(alloc, "error"),
    }
}
