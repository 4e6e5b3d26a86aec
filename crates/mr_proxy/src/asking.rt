//! What a node is asked for a leg, and what its reply says of the leg.
ghost use Rattle.std.specs.Prelude.{◌≡◌, ◌≤◌, MatchOption, is_some, map, drop, length};
ghost use Rattle.std.specs.Prelude.{◌∷◌, flat_map};
ghost use Rattle.mr_text.specs.Canonical.{canonical_request, spaced};
ghost use Rattle.mr_text.specs.Gathering.{TakesFewCalls, Gathers};
ghost use Rattle.mr_text.specs.declared.request.Request.TheVariants.{Get};
ghost use Rattle.mr_text.specs.Sink.{Writes};
ghost use Rattle.mr_join.specs.declared.leg_reply.LegReply.{LegReply};
ghost use Rattle.mr_proxy.specs.NodeReplies.{IsAnswer, FindsItemOf, dealt};
ghost use Rattle.mr_proxy.specs.NodeRequests.{text_for, text_with, key_of};
ghost use Rattle.mr_proxy.specs.steps.Dealing.{left_by};

use crate::leg::Leg;
use mr_join::LegReply;
use mr_node::NodeCommand;
use mr_text::{
    Cause, FixedBuffer, Item, ItemList, Key, Reply, Sink, WriteFault, put_get, put_key,
    put_line_end, send_delete, send_get, send_set,
};

/// Writes the request of a command, which wants an answer, as `mr_text` writes requests: gathered in the buffer, in which what
/// stood before is forgotten. The command isn't copied. At a fault a beginning of the request is written, and the call that
/// failed is the last.
#[inline(always)]
pub fn write_command<W: Sink>(
    command: &NodeCommand,
    buffer: &mut FixedBuffer,
    writer: &mut W,
) -> Result<(), WriteFault>
    ensures text { Writes (text_for command.now) (W.told writer.old) result (W.told writer.new) }
    ensures calls { TakesFewCalls (text_for command.now) 1 (W.told writer.old) (W.told writer.new) }
{
    match command {
        NodeCommand::Get(key) => send_get(key, buffer, writer),
        NodeCommand::Set {
            key,
            flags,
            exptime,
            block,
        } => send_set(key, *flags, *exptime, block, buffer, writer),
        NodeCommand::Delete(key) => send_delete(key, buffer, writer),
    }
}

/// Puts the keys of legs behind a get's word.
fn put_keys<W: Sink>(
    legs: &[Leg],
    buffer: &mut FixedBuffer,
    writer: &mut W,
) -> Result<(), WriteFault>
    ensures { Gathers (flat_map spaced (map key_of legs.now)) buffer.old (W.told writer.old) result buffer.new (W.told writer.new) }
{
    for leg in legs {
        put_key(leg.sheet().command.key(), buffer, writer)?;
    }
    Ok(())
}

/// Puts one get of this key and of those of legs behind it.
fn put_gets<W: Sink>(
    key: &Key,
    others: &[Leg],
    buffer: &mut FixedBuffer,
    writer: &mut W,
) -> Result<(), WriteFault>
    ensures { Gathers (canonical_request (Get (key.now ∷ map key_of others.now))) buffer.old (W.told writer.old) result buffer.new (W.told writer.new) }
{
    put_get(key, buffer, writer)?;
    put_keys(others, buffer, writer)?;
    put_line_end(buffer, writer)
}

/// Writes one get of these keys, as `write_command` writes that of one.
fn write_gets<W: Sink>(
    key: &Key,
    others: &[Leg],
    buffer: &mut FixedBuffer,
    writer: &mut W,
) -> Result<(), WriteFault>
    ensures { Writes (canonical_request (Get (key.now ∷ map key_of others.now))) (W.told writer.old) result (W.told writer.new) }
{
    buffer.clear();
    put_gets(key, others, buffer, writer)?;
    buffer.send(writer)
}

/// Writes the request of a command as `write_command` does, and of gets behind it, where it is a get: they are one request.
#[inline(always)]
pub fn write_legs<W: Sink>(
    command: &NodeCommand,
    others: &[Leg],
    buffer: &mut FixedBuffer,
    writer: &mut W,
) -> Result<(), WriteFault>
    ensures { Writes (text_with command.now others.now) (W.told writer.old) result (W.told writer.new) }
{
    match command {
        NodeCommand::Get(key) if !others.is_empty() => write_gets(key, others, buffer, writer),
        _ => write_command(command, buffer, writer),
    }
}

/// Whether items are what gets of the keys of a leg and of those behind it find.
pub fn are_dealt(leg: &Leg, others: &[Leg], items: &[Item]) -> bool
    ensures { result ≡ is_some (dealt (key_of leg.now ∷ map key_of others.now) items.now) }
{
    let mut place = next_place(leg, items, 0);
    for other in others {
        place = next_place(other, items, place);
    }
    place == items.len()
}

/// The place behind that of the next item, where that is of the leg's key; else its own place.
#[inline(always)]
fn next_place(leg: &Leg, items: &[Item], place: usize) -> usize
    requires { place ≤ length items.now }
    ensures left { drop result items.now ≡ left_by (key_of leg.now) (drop place items.now) }
    ensures within { result ≤ length items.now }
{
    if place < items.len() && items[place].key == *leg.sheet().command.key() {
        place + 1
    } else {
        place
    }
}

/// What a node's reply says of the command's leg. None where it is no answer to the command.
#[inline(always)]
pub fn leg_reply_of(command: &NodeCommand, reply: Reply) -> Option<LegReply>
    ensures { MatchOption result ((said : LegReply) → ¬ IsAnswer command.now reply said) (IsAnswer command.now reply) }
{
    match (command, reply) {
        (_, Reply::ServerError(cause)) => Some(LegReply::Failed(cause)),
        (_, Reply::ClientError(cause)) => Some(LegReply::Failed(cause)),
        (_, Reply::Error) => Some(LegReply::Failed(Cause::NodeRefused)),
        (NodeCommand::Get(key), Reply::Items(items)) => reply_to_get(key, items),
        (NodeCommand::Set { .. }, Reply::Stored) => Some(LegReply::Stored),
        (NodeCommand::Delete(_), Reply::Deleted) => Some(LegReply::Deleted),
        (NodeCommand::Delete(_), Reply::NotFound) => Some(LegReply::NotFound),
        _ => None,
    }
}

/// What the items of a reply say of a get of one key: a miss where there are none, a hit where there is one of that key.
#[inline(always)]
fn reply_to_get(key: &Key, items: ItemList) -> Option<LegReply>
    ensures { MatchOption result ((said : LegReply) → ¬ FindsItemOf key.now items said) (FindsItemOf key.now items) }
{
    if items.as_slice().is_empty() {
        return Some(LegReply::Miss);
    }
    let item = items.into_only()?;
    if !item.key.same_as(key) {
        return None;
    }
    Some(LegReply::Hit {
        flags: item.flags,
        block: item.block,
    })
}
