//! How many bytes of an answer its client is still to read.
ghost use Rattle.std.specs.Prelude.{◌≡◌, ◌≤◌};
ghost use Rattle.mr_loop.specs.Held.{held_by_slot, held_by_answer};

use mr_join::LegReply;
use mr_proxy::{Answer, Slot};

/// The text of an item has at most so many bytes beside its key and its block: `VALUE`, two numbers, spaces, ends of line.
const BESIDE: u64 = 29;

/// What a leg adds to the text of its request's answer: where its key was found, its item, as long as it may be.
#[inline(always)]
fn held_by_slot(slot: &Slot) -> u64
    ensures { result ≡ held_by_slot slot.now }
{
    match &slot.reply {
        Some(LegReply::Hit { block, .. }) => {
            BESIDE + slot.sheet.command.key().len() as u64 + block.as_bytes().len() as u64
        }
        _ => 0,
    }
}

/// How many bytes the items of an answer have, as long as they may be, as far as 64 bits count.
pub(crate) fn held_by_answer(answer: &Answer) -> u64
    ensures { result ≡ held_by_answer answer.now }
{
    let mut held: u64 = 0;
    for slot in answer.slots() {
        held = held.saturating_add(held_by_slot(slot));
    }
    held
}
