//! Events in a few words, and what each has to come to.
use crate::tests::must;
use mr_history::OpId;
use mr_pools::NodeName;
use mr_text::{Block, Key, KeyList, Request};
use mr_world::{Event, Note, World, WorldError};
use std::alloc::Global;
use std::process::Abort;
use std::test::Fail;

/// What a client asks for, of a key of one byte. An answer is wanted where the second part isn't true.
#[derive(Clone, Copy)]
pub enum Asked {
    /// A get of the key.
    Get(u8),
    /// A set of the data `v`.
    Set(u8, bool),
    /// A delete of the key.
    Delete(u8, bool),
    /// A quit.
    Quit,
}

/// A get of `k`.
pub const GET: Asked = Asked::Get(b'k');

/// A set of `k` to `v` that wants an answer.
pub const SET: Asked = Asked::Set(b'k', false);

/// A delete of `k` that wants an answer.
pub const DELETE: Asked = Asked::Delete(b'k', false);

/// An event in a few words.
#[derive(Clone, Copy)]
pub enum Move {
    /// The clock of this proxy shows this reading.
    Clock(u32, u64),
    /// A client asks this proxy.
    Client(u32, Asked),
    /// The message of this number reaches its node at this reading.
    Deliver(usize, u64),
    /// The reply of this number reaches its proxy.
    Return(usize),
    /// The request of this name is given up.
    GiveUp(OpId),
    /// The node of this name loses all that it holds.
    NodeRestart(&'static [u8]),
    /// The proxy of this number forgets all requests under way.
    ProxyRestart(u32),
}

/// A move, and what becomes of it.
pub type Row = (Move, Result<Note, WorldError>);

fn get_of(alloc: Global, key: Key) -> Result<Request, Fail> {
    Ok(Request::Get {
        keys: KeyList::new(vec![in alloc; key]?)?,
    })
}

fn set_of(alloc: Global, key: Key, noreply: bool) -> Result<Request, Fail> {
    Ok(Request::Set {
        key,
        flags: 0,
        exptime: 0,
        block: Block::new(alloc, b"v")?,
        noreply,
    })
}

fn delete_of(key: Key, noreply: bool) -> Request {
    Request::Delete { key, noreply }
}

fn key_of(alloc: Global, key: u8) -> Result<Key, Fail> {
    Ok(Key::new(alloc, &[key])?)
}

/// The request for what is asked.
fn request_of(alloc: Global, asked: Asked) -> Result<Request, Fail> {
    match asked {
        Asked::Get(key) => get_of(alloc, key_of(alloc, key)?),
        Asked::Set(key, noreply) => set_of(alloc, key_of(alloc, key)?, noreply),
        Asked::Delete(key, noreply) => Ok(delete_of(key_of(alloc, key)?, noreply)),
        Asked::Quit => Ok(Request::Quit),
    }
}

fn client(alloc: Global, proxy: u32, asked: Asked) -> Result<Event, Fail> {
    Ok(Event::Client {
        proxy,
        request: request_of(alloc, asked)?,
    })
}

fn restart_of(alloc: Global, name: &[u8]) -> Result<Event, Fail> {
    Ok(Event::NodeRestart {
        node: NodeName::new(alloc, name)?,
    })
}

/// The event of a move.
pub fn event_of(alloc: Global, it: Move) -> Result<Event, Fail> {
    match it {
        Move::Clock(proxy, reading) => Ok(Event::Clock { proxy, reading }),
        Move::Client(proxy, asked) => client(alloc, proxy, asked),
        Move::Deliver(message, now) => Ok(Event::Deliver { message, now }),
        Move::Return(reply) => Ok(Event::Return { reply }),
        Move::GiveUp(op) => Ok(Event::GiveUp { op }),
        Move::NodeRestart(name) => restart_of(alloc, name),
        Move::ProxyRestart(proxy) => Ok(Event::ProxyRestart { proxy }),
    }
}

/// The events of moves.
pub fn events_of(rt: &impl Abort, alloc: Global, moves: &[Move]) -> Vec<Event> {
    let mut events = Vec::new(alloc);
    for it in moves {
        must(rt, events.push(must(rt, event_of(alloc, *it))));
    }
    events
}

/// What a move comes to.
pub fn note_of(
    alloc: Global,
    world: &mut World,
    it: Move,
) -> Result<Result<Note, WorldError>, Fail> {
    Ok(world.step(event_of(alloc, it)?))
}

/// Whether a move comes to what it has to.
fn comes_so(alloc: Global, world: &mut World, row: &Row) -> Result<bool, Fail> {
    Ok(note_of(alloc, world, row.0)? == row.1)
}

/// Plays moves until one comes to something else than it has to, and tells the place of that one.
pub fn first_other(alloc: Global, world: &mut World, rows: &[Row]) -> Result<Option<usize>, Fail> {
    for (place, row) in rows.iter().enumerate() {
        if !comes_so(alloc, world, row)? {
            return Ok(Some(place));
        }
    }
    Ok(None)
}
