//! The room that an answer needs, made before anything changes.
ghost use Rattle.std.specs.Prelude.{◌≡◌, IfOk, vec_capacity};
ghost use Rattle.mr_proxy.specs.steps.Room.{HasRoomFor, room_needed};

use mr_text::{Item, Key, Request};
use std::alloc::AllocError;

/// For how many items there has to be room, where these keys are asked for: a single one stands in its list itself.
#[inline(always)]
fn room_needed(keys: &[Key]) -> usize
    ensures { result ≡ room_needed keys.now }
{
    match keys {
        [_] => 0,
        keys => keys.len(),
    }
}

/// Room for the items of the answer to this request, in a list whose own are dropped.
#[inline(always)]
pub(crate) fn room_for(mut items: Vec<Item>, request: &Request) -> Result<Vec<Item>, AllocError>
    ensures { IfOk result (λ items. HasRoomFor request.now items.items (vec_capacity items)) }
{
    let most = match request {
        Request::Get { keys } => room_needed(keys.as_slice()),
        _ => 0,
    };
    items.clear();
    items.reserve_exact(most)?;
    Ok(items)
}
