//! The canonical spelling of requests and replies, written to any sink.
ghost use Rattle.std.specs.Prelude.{◌≡◌, ◌+◌, ◌*◌, ◌≤◌, ◌∷◌, ◌++◌, [], false, codes, flat_map, length};
ghost use Rattle.mr_text.specs.Canonical.{canonical_request, canonical_reply, line_end, noreply_text, spaced, set_line_text, value_line_text, item_text, error_text, items_text};
ghost use Rattle.mr_text.specs.Gathering.{Costs, Gathers, TakesFewCalls, parts_of_request, parts_of_reply, owes};
ghost use Rattle.mr_text.specs.Sink.{Writes};
ghost use Rattle.mr_text.specs.declared.reply.Reply.TheVariants.{ServerError};
ghost use Rattle.mr_text.specs.declared.request.Request.TheVariants.{Get, Set, Delete};

mod gathering;

use crate::block::Block;
use crate::cause::Cause;
use crate::devices::Sink;
use crate::error::WriteFault;
use crate::item::Item;
use crate::key::Key;
use crate::reply::Reply;
use crate::request::Request;
use crate::writing::gathering::LINE_END;
pub use gathering::FixedBuffer;
use itoa::Buffer;

/// Writes a request. It takes memory only as the writer does. At a fault a beginning of the text is written, and the
/// call that failed is the last. A text of up to 4,096 bytes goes out in one call.
pub fn write_request<W: Sink>(request: &Request, writer: &mut W) -> Result<(), WriteFault>
    ensures text { Writes (canonical_request request.now) (W.told writer.old) result (W.told writer.new) }
    ensures calls { TakesFewCalls (canonical_request request.now)
        (parts_of_request request.now) (W.told writer.old) (W.told writer.new) }
{
    let mut buffer = FixedBuffer::new();
    put_request(request, &mut buffer, writer)?;
    buffer.send(writer)
}

/// Writes a reply. It takes memory only as the writer does. At a fault a beginning of the text is written, and the call
/// that failed is the last. A text of up to 4,096 bytes goes out in one call.
pub fn write_reply<W: Sink>(reply: &Reply, writer: &mut W) -> Result<(), WriteFault>
    ensures text { Writes (canonical_reply reply.now) (W.told writer.old) result (W.told writer.new) }
    ensures calls { TakesFewCalls (canonical_reply reply.now)
        (parts_of_reply reply.now) (W.told writer.old) (W.told writer.new) }
{
    send_reply(reply, &mut FixedBuffer::new(), writer)
}

/// Writes a reply as `write_reply` does, through a buffer that is lent to it. What stands in that before is forgotten.
pub fn send_reply<W: Sink>(
    reply: &Reply,
    buffer: &mut FixedBuffer,
    writer: &mut W,
) -> Result<(), WriteFault>
    ensures text { Writes (canonical_reply reply.now) (W.told writer.old) result (W.told writer.new) }
    ensures calls { TakesFewCalls (canonical_reply reply.now)
        (parts_of_reply reply.now) (W.told writer.old) (W.told writer.new) }
{
    buffer.clear();
    put_reply(reply, buffer, writer)?;
    buffer.send(writer)
}

/// Writes the reply SERVER_ERROR with a cause, as `send_reply` does.
pub fn send_server_error<W: Sink>(
    cause: &Cause,
    buffer: &mut FixedBuffer,
    writer: &mut W,
) -> Result<(), WriteFault>
    ensures text { Writes (canonical_reply (ServerError cause.now)) (W.told writer.old) result (W.told writer.new) }
    ensures calls { TakesFewCalls (canonical_reply (ServerError cause.now)) 1 (W.told writer.old) (W.told writer.new) }
{
    buffer.clear();
    put_error(b"SERVER_ERROR ", cause, buffer, writer)?;
    buffer.send(writer)
}

/// Writes a get of one key as `write_request` does, through a buffer that is lent to it, as `send_reply` does.
#[inline(always)]
pub fn send_get<W: Sink>(
    key: &Key,
    buffer: &mut FixedBuffer,
    writer: &mut W,
) -> Result<(), WriteFault>
    ensures text { Writes (canonical_request (Get (key.now ∷ []))) (W.told writer.old) result (W.told writer.new) }
    ensures calls { TakesFewCalls (canonical_request (Get (key.now ∷ []))) 1 (W.told writer.old) (W.told writer.new) }
{
    buffer.clear();
    buffer.put_line(&[b"get ", key.as_bytes(), LINE_END], writer)?;
    buffer.send(writer)
}

/// Writes a set that is answered, as `send_get` does.
#[inline(always)]
pub fn send_set<W: Sink>(
    key: &Key,
    flags: u32,
    exptime: i64,
    block: &Block,
    buffer: &mut FixedBuffer,
    writer: &mut W,
) -> Result<(), WriteFault>
    ensures text { Writes (canonical_request (Set key.now flags exptime block.now false))
        (W.told writer.old) result (W.told writer.new) }
    ensures calls { TakesFewCalls (canonical_request (Set key.now flags exptime block.now false)) 1
        (W.told writer.old) (W.told writer.new) }
{
    buffer.clear();
    put_set(key, flags, exptime, block, false, buffer, writer)?;
    buffer.send(writer)
}

/// Writes a delete that is answered, as `send_get` does.
#[inline(always)]
pub fn send_delete<W: Sink>(
    key: &Key,
    buffer: &mut FixedBuffer,
    writer: &mut W,
) -> Result<(), WriteFault>
    ensures text { Writes (canonical_request (Delete key.now false)) (W.told writer.old) result (W.told writer.new) }
    ensures calls { TakesFewCalls (canonical_request (Delete key.now false)) 1 (W.told writer.old) (W.told writer.new) }
{
    buffer.clear();
    put_delete(key, false, buffer, writer)?;
    buffer.send(writer)
}

/// Puts an item of a get's reply behind what is gathered: its line, and the block behind it.
#[inline(always)]
pub fn put_item<W: Sink>(
    key: &Key,
    flags: u32,
    block: &Block,
    buffer: &mut FixedBuffer,
    writer: &mut W,
) -> Result<(), WriteFault>
    ensures text { Gathers (item_text (record { key = key.now; flags = flags; block = block.now }))
        buffer.old (W.told writer.old) result buffer.new (W.told writer.new) }
    ensures calls { Costs 2 buffer.old (W.told writer.old) result buffer.new (W.told writer.new) }
{
    put_value_line(key, flags, block.as_bytes().len(), buffer, writer)?;
    buffer.put_block(block.as_bytes(), writer)
}

#[inline(always)]
fn put_value_line<W: Sink>(
    key: &Key,
    flags: u32,
    block_length: usize,
    buffer: &mut FixedBuffer,
    writer: &mut W,
) -> Result<(), WriteFault>
    ensures text { Gathers (value_line_text key.now flags block_length)
        buffer.old (W.told writer.old) result buffer.new (W.told writer.new) }
    ensures calls { (W.told writer.new).calls ≤ (W.told writer.old).calls + owes buffer.old }
{
    let mut flags_text = Buffer::new();
    let mut length_text = Buffer::new();
    buffer.put_line(
        &[
            b"VALUE ",
            key.as_bytes(),
            b" ",
            flags_text.format(flags).as_bytes(),
            b" ",
            length_text.format(block_length).as_bytes(),
            LINE_END,
        ],
        writer,
    )
}

fn put_items<W: Sink>(
    items: &[Item],
    buffer: &mut FixedBuffer,
    writer: &mut W,
) -> Result<(), WriteFault>
    ensures text { Gathers (items_text items.now) buffer.old (W.told writer.old) result buffer.new (W.told writer.new) }
    ensures calls { Costs (2 * length items.now) buffer.old (W.told writer.old) result buffer.new (W.told writer.new) }
{
    for item in items {
        put_item(&item.key, item.flags, &item.block, buffer, writer)?;
    }
    Ok(())
}

/// Puts what stands behind the items of a reply.
#[inline(always)]
pub fn put_end<W: Sink>(buffer: &mut FixedBuffer, writer: &mut W) -> Result<(), WriteFault>
    ensures text { Gathers (codes "END" ++ line_end)
        buffer.old (W.told writer.old) result buffer.new (W.told writer.new) }
    ensures calls { (W.told writer.new).calls ≤ (W.told writer.old).calls + owes buffer.old }
{
    buffer.put_line(&[b"END", LINE_END], writer)
}

/// Puts an error: its word with a space, the text and the line end.
fn put_error<W: Sink>(
    word: &[u8],
    cause: &Cause,
    buffer: &mut FixedBuffer,
    writer: &mut W,
) -> Result<(), WriteFault>
    requires { length word.now ≤ 16 }
    ensures text { Gathers (error_text word.now cause.now)
        buffer.old (W.told writer.old) result buffer.new (W.told writer.new) }
    ensures calls { Costs 2 buffer.old (W.told writer.old) result buffer.new (W.told writer.new) }
{
    buffer.put_line(&[word], writer)?;
    buffer.put_block(cause.text(), writer)
}

/// Puts a reply.
fn put_reply<W: Sink>(
    reply: &Reply,
    buffer: &mut FixedBuffer,
    writer: &mut W,
) -> Result<(), WriteFault>
    ensures text { Gathers (canonical_reply reply.now)
        buffer.old (W.told writer.old) result buffer.new (W.told writer.new) }
    ensures calls { (W.told writer.new).calls ≤
        (W.told writer.old).calls + owes buffer.old + 2 * parts_of_reply reply.now }
{
    match reply {
        Reply::Items(items) => {
            put_items(items.as_slice(), buffer, writer)?;
            put_end(buffer, writer)
        }
        Reply::Stored => buffer.put_line(&[b"STORED", LINE_END], writer),
        Reply::Deleted => buffer.put_line(&[b"DELETED", LINE_END], writer),
        Reply::NotFound => buffer.put_line(&[b"NOT_FOUND", LINE_END], writer),
        Reply::Error => buffer.put_line(&[b"ERROR", LINE_END], writer),
        Reply::ClientError(cause) => put_error(b"CLIENT_ERROR ", cause, buffer, writer),
        Reply::ServerError(cause) => put_error(b"SERVER_ERROR ", cause, buffer, writer),
    }
}

/// The word behind a command whose client wants no answer.
fn noreply_word<'a>(noreply: bool) -> &'a [u8]
    ensures { result.now ≡ noreply_text noreply }
{
    if noreply { b" noreply" } else { b"" }
}

#[inline(always)]
fn put_set_line<W: Sink>(
    key: &Key,
    flags: u32,
    exptime: i64,
    block_length: usize,
    noreply: bool,
    buffer: &mut FixedBuffer,
    writer: &mut W,
) -> Result<(), WriteFault>
    ensures text { Gathers (set_line_text key.now flags exptime block_length noreply)
        buffer.old (W.told writer.old) result buffer.new (W.told writer.new) }
    ensures calls { (W.told writer.new).calls ≤ (W.told writer.old).calls + owes buffer.old }
{
    let mut flags_text = Buffer::new();
    let mut exptime_text = Buffer::new();
    let mut length_text = Buffer::new();
    buffer.put_line(
        &[
            b"set ",
            key.as_bytes(),
            b" ",
            flags_text.format(flags).as_bytes(),
            b" ",
            exptime_text.format(exptime).as_bytes(),
            b" ",
            length_text.format(block_length).as_bytes(),
            noreply_word(noreply),
            LINE_END,
        ],
        writer,
    )
}

/// Puts a set: its line, and the block behind it.
#[inline(always)]
fn put_set<W: Sink>(
    key: &Key,
    flags: u32,
    exptime: i64,
    block: &Block,
    noreply: bool,
    buffer: &mut FixedBuffer,
    writer: &mut W,
) -> Result<(), WriteFault>
    ensures text { Gathers (canonical_request (Set key.now flags exptime block.now noreply))
        buffer.old (W.told writer.old) result buffer.new (W.told writer.new) }
    ensures calls { Costs 2 buffer.old (W.told writer.old) result buffer.new (W.told writer.new) }
{
    let block = block.as_bytes();
    put_set_line(key, flags, exptime, block.len(), noreply, buffer, writer)?;
    buffer.put_block(block, writer)
}

fn put_delete<W: Sink>(
    key: &Key,
    noreply: bool,
    buffer: &mut FixedBuffer,
    writer: &mut W,
) -> Result<(), WriteFault>
    ensures text { Gathers (canonical_request (Delete key.now noreply))
        buffer.old (W.told writer.old) result buffer.new (W.told writer.new) }
    ensures calls { (W.told writer.new).calls ≤ (W.told writer.old).calls + owes buffer.old }
{
    buffer.put_line(
        &[b"delete ", key.as_bytes(), noreply_word(noreply), LINE_END],
        writer,
    )
}

/// Puts what a get of several keys begins with: its word and its first key.
#[inline(always)]
pub fn put_get<W: Sink>(
    key: &Key,
    buffer: &mut FixedBuffer,
    writer: &mut W,
) -> Result<(), WriteFault>
    ensures { Gathers (codes "get" ++ spaced key.now) buffer.old (W.told writer.old) result buffer.new (W.told writer.new) }
{
    buffer.put_line(&[b"get ", key.as_bytes()], writer)
}

/// Puts one more key of a get.
#[inline(always)]
pub fn put_key<W: Sink>(
    key: &Key,
    buffer: &mut FixedBuffer,
    writer: &mut W,
) -> Result<(), WriteFault>
    ensures text { Gathers (spaced key.now) buffer.old (W.told writer.old) result buffer.new (W.told writer.new) }
    ensures calls { (W.told writer.new).calls ≤ (W.told writer.old).calls + 1 }
{
    buffer.put_line(&[b" ", key.as_bytes()], writer)
}

/// Puts the end of a line.
#[inline(always)]
pub fn put_line_end<W: Sink>(buffer: &mut FixedBuffer, writer: &mut W) -> Result<(), WriteFault>
    ensures text { Gathers line_end buffer.old (W.told writer.old) result buffer.new (W.told writer.new) }
    ensures calls { (W.told writer.new).calls ≤ (W.told writer.old).calls + owes buffer.old }
{
    buffer.put_line(&[LINE_END], writer)
}

fn put_keys<W: Sink>(
    keys: &[Key],
    buffer: &mut FixedBuffer,
    writer: &mut W,
) -> Result<(), WriteFault>
    ensures text { Gathers (flat_map spaced keys.now)
        buffer.old (W.told writer.old) result buffer.new (W.told writer.new) }
    ensures calls { (W.told writer.new).calls ≤ (W.told writer.old).calls + length keys.now }
{
    for key in keys {
        put_key(key, buffer, writer)?;
    }
    Ok(())
}

/// Puts a request.
fn put_request<W: Sink>(
    request: &Request,
    buffer: &mut FixedBuffer,
    writer: &mut W,
) -> Result<(), WriteFault>
    ensures text { Gathers (canonical_request request.now)
        buffer.old (W.told writer.old) result buffer.new (W.told writer.new) }
    ensures calls { (W.told writer.new).calls ≤
        (W.told writer.old).calls + owes buffer.old + 2 * parts_of_request request.now }
{
    match request {
        Request::Get { keys } => {
            buffer.put_line(&[b"get"], writer)?;
            put_keys(keys.as_slice(), buffer, writer)?;
            buffer.put_line(&[LINE_END], writer)
        }
        Request::Set {
            key,
            flags,
            exptime,
            block,
            noreply,
        } => put_set(key, *flags, *exptime, block, *noreply, buffer, writer),
        Request::Delete { key, noreply } => put_delete(key, *noreply, buffer, writer),
        Request::Quit => buffer.put_line(&[b"quit", LINE_END], writer),
    }
}
