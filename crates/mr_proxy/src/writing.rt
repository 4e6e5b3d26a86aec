//! The canonical text of an answer, written from its legs: no reply is built, and no memory taken.
ghost use Rattle.std.specs.Prelude.{◌≡◌, ◌≤◌, ◌+◌, ◌*◌, [], ◌∷◌, length, map};
ghost use Rattle.mr_text.specs.Canonical.{canonical_reply, items_text};
ghost use Rattle.mr_text.specs.Gathering.{Gathers, Costs, TakesFewCalls, parts_of_reply, owes};
ghost use Rattle.mr_text.specs.Sink.{Writes};
ghost use Rattle.mr_text.specs.declared.reply.Reply.TheVariants.{Items};
ghost use Rattle.mr_join.specs.Join.{reply_by, hits_of, joined_reply};
ghost use Rattle.mr_proxy.specs.Slots.{reply_of_slot};

use crate::join::place_of_worst;
use crate::slot::{LOST, Slot};
use mr_join::LegReply;
use mr_text::{
    Cause, FixedBuffer, Key, Reply, Request, Sink, WriteFault, put_end, put_item, send_reply,
    send_server_error,
};

/// Writes the joined reply of the legs of a request, through a buffer that is lent to it.
#[inline(always)]
#[tactic(auto, using(crate::proofs::JoinLemmas::found_by_worst, crate::proofs::JoinLemmas::failed_by_worst))]
pub(crate) fn write_joined<W: Sink>(
    request: &Request,
    slots: &[Slot],
    buffer: &mut FixedBuffer,
    writer: &mut W,
) -> Result<(), WriteFault>
    requires { 1 ≤ length slots.now }
    ensures text { Writes (canonical_reply (joined_reply request.now (map reply_of_slot slots.now)))
        (W.told writer.old) result (W.told writer.new) }
    ensures calls { TakesFewCalls (canonical_reply (joined_reply request.now (map reply_of_slot slots.now)))
        (parts_of_reply (joined_reply request.now (map reply_of_slot slots.now))) (W.told writer.old) (W.told writer.new) }
{
    let worst = &slots[place_of_worst(slots)];
    match request {
        Request::Get { keys } if !worst.has_failed() => {
            write_found(keys.as_slice(), slots, buffer, writer)
        }
        _ => write_outcome(worst.outcome(&LOST), buffer, writer),
    }
}

/// The items that the legs of these keys found.
#[inline(always)]
fn write_found<W: Sink>(
    keys: &[Key],
    slots: &[Slot],
    buffer: &mut FixedBuffer,
    writer: &mut W,
) -> Result<(), WriteFault>
    ensures text { Writes (canonical_reply (Items (hits_of keys.now (map reply_of_slot slots.now))))
        (W.told writer.old) result (W.told writer.new) }
    ensures calls { TakesFewCalls (canonical_reply (Items (hits_of keys.now (map reply_of_slot slots.now))))
        (length (hits_of keys.now (map reply_of_slot slots.now))) (W.told writer.old) (W.told writer.new) }
{
    buffer.clear();
    put_found(keys, slots, buffer, writer)?;
    buffer.send(writer)
}

/// Puts the items, and what stands behind them.
#[inline(always)]
fn put_found<W: Sink>(
    keys: &[Key],
    slots: &[Slot],
    buffer: &mut FixedBuffer,
    writer: &mut W,
) -> Result<(), WriteFault>
    ensures text { Gathers (canonical_reply (Items (hits_of keys.now (map reply_of_slot slots.now)))) buffer.old
        (W.told writer.old) result buffer.new (W.told writer.new) }
    ensures calls { (W.told writer.new).calls ≤ (W.told writer.old).calls + owes buffer.old + 2 * length
        (hits_of keys.now (map reply_of_slot slots.now)) }
{
    put_hits(keys, slots, buffer, writer)?;
    put_end(buffer, writer)
}

/// Puts what the legs of these keys found.
#[inline(always)]
#[tactic(auto, using(crate::proofs::WritingLemmas::hits_keys, crate::proofs::WritingLemmas::hits_slots))]
fn put_hits<W: Sink>(
    keys: &[Key],
    slots: &[Slot],
    buffer: &mut FixedBuffer,
    writer: &mut W,
) -> Result<(), WriteFault>
    ensures text { Gathers (items_text (hits_of keys.now (map reply_of_slot slots.now))) buffer.old
        (W.told writer.old) result buffer.new (W.told writer.new) }
    ensures calls { Costs (2 * length (hits_of keys.now (map reply_of_slot slots.now))) buffer.old
        (W.told writer.old) result buffer.new (W.told writer.new) }
{
    for (place, key) in keys.iter().enumerate() {
        if place >= slots.len() {
            break;
        }
        put_hit(key, &slots[place], buffer, writer)?;
    }
    Ok(())
}

/// Puts what the leg of this key found, if it did.
#[inline(always)]
fn put_hit<W: Sink>(
    key: &Key,
    slot: &Slot,
    buffer: &mut FixedBuffer,
    writer: &mut W,
) -> Result<(), WriteFault>
    ensures text { Gathers (items_text (hits_of (key.now ∷ []) (reply_of_slot slot.now ∷ []))) buffer.old
        (W.told writer.old) result buffer.new (W.told writer.new) }
    ensures calls { Costs (2 * length (hits_of (key.now ∷ []) (reply_of_slot slot.now ∷ []))) buffer.old
        (W.told writer.old) result buffer.new (W.told writer.new) }
{
    match slot.outcome(&LOST) {
        LegReply::Hit { flags, block } => put_item(key, *flags, block, buffer, writer),
        _ => Ok(()),
    }
}

/// The reply to a set or a delete whose worst leg came to this, or to a get that failed by it.
#[tactic(auto, using(crate::proofs::WritingLemmas::parts_by))]
fn write_outcome<W: Sink>(
    outcome: &LegReply,
    buffer: &mut FixedBuffer,
    writer: &mut W,
) -> Result<(), WriteFault>
    ensures text { Writes (canonical_reply (reply_by outcome.now)) (W.told writer.old) result (W.told writer.new) }
    ensures calls { TakesFewCalls (canonical_reply (reply_by outcome.now))
        (parts_of_reply (reply_by outcome.now)) (W.told writer.old) (W.told writer.new) }
{
    match outcome {
        LegReply::Stored => send_reply(&Reply::Stored, buffer, writer),
        LegReply::Deleted => send_reply(&Reply::Deleted, buffer, writer),
        LegReply::NotFound => send_reply(&Reply::NotFound, buffer, writer),
        LegReply::Failed(cause) => send_server_error(cause, buffer, writer),
        LegReply::Hit { .. } | LegReply::Miss => send_server_error(&Cause::LegLost, buffer, writer),
    }
}
