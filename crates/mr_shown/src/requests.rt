//! Requests as JSON.
ghost use Rattle.std.specs.Prelude.{◌≡◌, IfOk};
ghost use Rattle.serde_json.specs.View.{view};
ghost use Rattle.mr_shown.specs.Shown.{request_json};

use crate::format::Format;
use crate::objects::{Part, object_of};
use mr_text::Request;
use serde_json::Value;
use std::alloc::{AllocError, Global};

/// A request with all that it asks for.
pub fn request_value(alloc: Global, format: Format, request: &Request) -> Result<Value, AllocError>
    ensures { IfOk result (λ value. view value ≡ request_json format request.now) }
{
    match request {
        Request::Get { keys } => object_of(
            alloc,
            &[
                ("keys", Part::Keys(keys.as_slice())),
                ("kind", Part::Text("get")),
            ],
        ),
        Request::Set {
            key,
            flags,
            exptime,
            block,
            noreply,
        } => object_of(
            alloc,
            &[
                ("data", Part::Data(format, block.as_bytes())),
                ("exptime", Part::Signed(*exptime)),
                ("flags", Part::Number(*flags as u64)),
                ("key", Part::Bytes(key.as_bytes())),
                ("kind", Part::Text("set")),
                ("noreply", Part::Flag(*noreply)),
            ],
        ),
        Request::Delete { key, noreply } => object_of(
            alloc,
            &[
                ("key", Part::Bytes(key.as_bytes())),
                ("kind", Part::Text("delete")),
                ("noreply", Part::Flag(*noreply)),
            ],
        ),
        Request::Quit => object_of(alloc, &[("kind", Part::Text("quit"))]),
    }
}
