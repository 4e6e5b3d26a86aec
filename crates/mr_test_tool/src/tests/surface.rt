//! A library user's program over `mr_plan` and `mr_tool`: it imports each public name that a user looks for there, and uses it
//! a little, by type or by call. `mr_test_surface` does so over the crates below.
ghost use Rattle.std.specs.Prelude.{◌≢◌, IfOk};
ghost use Rattle.mr_text.specs.declared.request.Request.{Request};

mod plan;
mod tool;

use mr_text::{Key, KeyList, Request, TextError};
use std::alloc::Global;

/// The get of the key of one byte, `k`.
fn get(alloc: Global) -> Result<Request, TextError>
    ensures { IfOk result (λ request. request ≢ Request.Quit) }
{
    let mut keys = Vec::new(alloc);
    keys.push(Key::new(alloc, b"k")?)?;
    Ok(Request::Get {
        keys: KeyList::new(keys)?,
    })
}
