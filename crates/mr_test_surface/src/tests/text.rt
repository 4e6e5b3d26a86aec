//! Keys, items, requests and replies, and the devices that they are read from and written to.
ghost use Rattle.std.specs.Prelude.{◌≢◌, IfOk};
ghost use Rattle.mr_text.specs.declared.request.Request.{Request};

use mr_text::{
    Block, Cause, FailsAt, Item, ItemList, Key, KeyList, Line, OverReader, OverWriter, ReadFault,
    Reply, ReplyReader, Request, RequestReader, Sink, Source, TextError, WriteFault, write_reply,
    write_request,
};
use std::alloc::Global;
use std::test::Fail;

/// The key of one byte, `k`.
pub(super) fn key(alloc: Global) -> Result<Key, TextError> {
    Key::new(alloc, b"k")
}

/// The get of that key.
pub(super) fn get(alloc: Global) -> Result<Request, TextError>
    ensures { IfOk result (λ request. request ≢ Request.Quit) }
{
    let mut keys = Vec::new(alloc);
    keys.push(key(alloc)?)?;
    Ok(Request::Get {
        keys: KeyList::new(keys)?,
    })
}

/// The request that a device gives in one read.
fn read_request<S: Source>(alloc: Global, source: &mut S) -> Result<Option<Request>, Fail> {
    let mut buffer = [0; 64];
    let read: Result<usize, ReadFault> = source.read(&mut buffer);
    let mut reader = RequestReader::new(alloc);
    reader.feed(&buffer[..read?])?;
    Ok(reader.next()?)
}

/// Writes a request and a reply.
fn write_both<W: Sink>(request: &Request, reply: &Reply, sink: &mut W) -> Result<(), WriteFault> {
    write_request(request, sink)?;
    write_reply(reply, sink)
}

/// A list of one item.
fn one_item(alloc: Global) -> Result<ItemList, TextError> {
    let mut items = Vec::new(alloc);
    items.push(Item {
        key: key(alloc)?,
        flags: 0,
        block: Block::new(alloc, b"v")?,
    })?;
    Ok(ItemList::new(items))
}

/// A cause that has no name.
fn other_cause(alloc: Global) -> Result<Cause, TextError> {
    Ok(Cause::Other(Line::new(alloc, b"later")?))
}

#[test]
fn a_request_is_read_and_written_with_its_reply(rt: HostRuntime) -> Result<(), Fail> {
    let mut source = OverReader::new(&b"get k\r\n"[..]);
    let Some(request) = read_request(rt.alloc(), &mut source)? else {
        return Err(Fail::from("no request"));
    };
    let mut sink = FailsAt::new(OverWriter::new(Vec::new(rt.alloc())), 3);
    write_both(&request, &Reply::Items(one_item(rt.alloc())?), &mut sink)?;
    let written = sink.into_inner().into_inner();
    assert_eq!(rt;
        written.as_slice(),
        b"get k\r\nVALUE k 0 1\r\nv\r\nEND\r\n".as_slice()
    );
    Ok(())
}

#[test]
fn a_reply_is_read(rt: HostRuntime) -> Result<(), Fail> {
    let mut reader = ReplyReader::new(rt.alloc());
    reader.feed(b"SERVER_ERROR later\r\n")?;
    let wanted = Reply::ServerError(other_cause(rt.alloc())?);
    assert!(rt; matches!(reader.next()?, Some(reply) if reply.same_as(&wanted)));
    Ok(())
}
