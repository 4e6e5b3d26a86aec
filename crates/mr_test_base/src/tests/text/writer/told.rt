//! What is written, as rows of a table say it.
use super::{equal_bytes, item};
use crate::tests::must;
use mr_test_support::{TakesHalf, repeated_keys};
use mr_text::{
    Block, Cause, FixedBuffer, ItemList, Key, KeyList, Line, MAX_ITEMS, OverWriter, Reply, Request,
    WriteFault, send_delete, send_get, send_reply, send_server_error, send_set, write_request,
};
use std::alloc::Global;
use std::process::Abort;

/// A request or a reply in few words. Each key is `k`, but for the last of two.
#[derive(Clone, Copy)]
pub(super) enum Told {
    /// A get of so many keys.
    Gets(usize),
    /// A get of `k` and `b`.
    GetTwo,
    /// A set: the flags, the moment, how many bytes `x` of data, and whether no answer is wanted.
    Set(u32, i64, usize, bool),
    /// A set of data with a line end.
    SetLines,
    /// A delete, and whether no answer is wanted.
    Delete(bool),
    Quit,
    Stored,
    Deleted,
    NotFound,
    Error,
    /// The error of a client with this cause.
    BadKey,
    /// The error of a server with this cause.
    LegLost,
    /// The error of a server with a text of so many bytes `x`.
    Other(usize),
    /// The error of a server with a text that a space begins and a carriage return ends.
    OtherSpaced,
    /// Items of these flags, with data of so many bytes `x`.
    Items(u32, &'static [usize]),
    /// A get, written from its key.
    OneGet,
    /// A set of the flags 7, the moment -1 and the data `v`, written from its parts.
    OneSet,
    /// A delete, written from its key.
    OneDelete,
    /// The error of a server that is busy, written from its cause.
    OneError,
}

/// What is written: a value, or the parts of one command or error.
#[derive(Drop)]
pub(super) enum Written {
    OfRequest(Request),
    OfReply(Reply),
    OneGet(Key),
    OneSet(Key, Block),
    OneDelete(Key),
    OneError(Cause),
}

impl Written {
    /// Writes it, through this buffer unless it is a request.
    pub(super) fn write(
        &self,
        buffer: &mut FixedBuffer,
        sink: &mut OverWriter<TakesHalf>,
    ) -> Result<(), WriteFault> {
        match self {
            Written::OfRequest(request) => write_request(request, sink),
            Written::OfReply(reply) => send_reply(reply, buffer, sink),
            Written::OneGet(key) => send_get(key, buffer, sink),
            Written::OneSet(key, block) => send_set(key, 7, -1, block, buffer, sink),
            Written::OneDelete(key) => send_delete(key, buffer, sink),
            Written::OneError(cause) => send_server_error(cause, buffer, sink),
        }
    }

    pub(super) fn copy(&self, rt: &impl Abort) -> Written {
        match self {
            Written::OfRequest(request) => Written::OfRequest(must(rt, request.copy())),
            Written::OfReply(reply) => Written::OfReply(must(rt, reply.copy())),
            Written::OneGet(key) => Written::OneGet(must(rt, key.copy())),
            Written::OneSet(key, block) => {
                Written::OneSet(must(rt, key.copy()), must(rt, block.copy()))
            }
            Written::OneDelete(key) => Written::OneDelete(must(rt, key.copy())),
            Written::OneError(cause) => Written::OneError(must(rt, cause.copy())),
        }
    }
}

fn key(rt: &impl Abort, alloc: Global, name: &[u8]) -> Key {
    must(rt, Key::new(alloc, name))
}

fn block(rt: &impl Abort, alloc: Global, data: &[u8]) -> Block {
    must(rt, Block::new(alloc, data))
}

fn get(rt: &impl Abort, keys: Vec<Key>) -> Written {
    Written::OfRequest(Request::Get {
        keys: must(rt, KeyList::new(keys)),
    })
}

/// A get of `k` and `b`.
fn get_two(rt: &impl Abort, alloc: Global) -> Written {
    let mut keys = Vec::new(alloc);
    must(rt, keys.push(key(rt, alloc, b"k")));
    must(rt, keys.push(key(rt, alloc, b"b")));
    get(rt, keys)
}

fn set(
    rt: &impl Abort,
    alloc: Global,
    flags: u32,
    exptime: i64,
    data: &[u8],
    noreply: bool,
) -> Written {
    Written::OfRequest(Request::Set {
        key: key(rt, alloc, b"k"),
        flags,
        exptime,
        block: block(rt, alloc, data),
        noreply,
    })
}

fn other(rt: &impl Abort, alloc: Global, text: &[u8]) -> Reply {
    Reply::ServerError(Cause::Other(must(rt, Line::new(alloc, text))))
}

/// Items with data of these lengths.
fn items(rt: &impl Abort, alloc: Global, flags: u32, lengths: &[usize]) -> Reply {
    let mut items = Vec::new(alloc);
    for length in lengths {
        let data = equal_bytes(rt, alloc, b'x', *length);
        must(rt, items.push(item(rt, alloc, b"k", flags, &data)));
    }
    if items.len() > MAX_ITEMS {
        rt.panic("too many items");
    }
    Reply::Items(ItemList::new(items))
}

/// The reply of a row that is no request.
fn reply_of(rt: &impl Abort, alloc: Global, told: Told) -> Reply {
    match told {
        Told::Stored => Reply::Stored,
        Told::Deleted => Reply::Deleted,
        Told::NotFound => Reply::NotFound,
        Told::BadKey => Reply::ClientError(Cause::BadKey),
        Told::LegLost => Reply::ServerError(Cause::LegLost),
        Told::Other(length) => other(rt, alloc, &equal_bytes(rt, alloc, b'x', length)),
        Told::OtherSpaced => other(rt, alloc, b" a\r"),
        Told::Items(flags, lengths) => items(rt, alloc, flags, lengths),
        _ => Reply::Error,
    }
}

/// What a row says.
pub(super) fn written_of(rt: &impl Abort, alloc: Global, told: Told) -> Written {
    match told {
        Told::Gets(count) => get(rt, must(rt, repeated_keys(alloc, b"k", count))),
        Told::GetTwo => get_two(rt, alloc),
        Told::Set(flags, exptime, length, noreply) => {
            let data = equal_bytes(rt, alloc, b'x', length);
            set(rt, alloc, flags, exptime, &data, noreply)
        }
        Told::SetLines => set(rt, alloc, 0, 10, b"a\r\nb", true),
        Told::Delete(noreply) => Written::OfRequest(Request::Delete {
            key: key(rt, alloc, b"k"),
            noreply,
        }),
        Told::Quit => Written::OfRequest(Request::Quit),
        Told::OneGet => Written::OneGet(key(rt, alloc, b"k")),
        Told::OneSet => Written::OneSet(key(rt, alloc, b"k"), block(rt, alloc, b"v")),
        Told::OneDelete => Written::OneDelete(key(rt, alloc, b"k")),
        Told::OneError => Written::OneError(Cause::Busy),
        _ => Written::OfReply(reply_of(rt, alloc, told)),
    }
}
