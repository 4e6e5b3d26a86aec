//! What histories say, in a few words.
use mr_history::{Author, Entry, History, OpId};
use mr_phases::Side;
use mr_text::{Cause, Reply, Request};

/// What a history says in one entry, with keys and blocks of one byte.
#[derive(Clone, Copy, PartialEq, Eq)]
pub enum Told {
    /// A get of the key was issued.
    Got(OpId, u8),
    /// A set of the key to the data was issued.
    Set(OpId, u8, u8),
    /// A delete of the key was issued.
    Deleted(OpId, u8),
    /// The data was stored under the key.
    Stored(Author, u8, u8),
    /// The delete of the key was performed on this side.
    Removed(OpId, Side, u8),
    /// A get was answered by one item: the key and the data.
    Hit(OpId, u8, u8),
    /// A request was answered by this line.
    Answered(OpId, &'static str),
    /// Anything else.
    Other,
}

/// The only byte; 0 where there are more, or none.
pub fn only(bytes: &[u8]) -> u8 {
    match bytes {
        [byte] => *byte,
        _ => 0,
    }
}

/// What the entry of an issued request says. `Other` is a quit, or a get of more keys than one.
pub fn tell_request(op: OpId, request: &Request) -> Told {
    match request {
        Request::Get { keys } => match keys.as_slice() {
            [key] => Told::Got(op, only(key.as_bytes())),
            _ => Told::Other,
        },
        Request::Set { key, block, .. } => {
            Told::Set(op, only(key.as_bytes()), only(block.as_bytes()))
        }
        Request::Delete { key, .. } => Told::Deleted(op, only(key.as_bytes())),
        Request::Quit => Told::Other,
    }
}

/// The line of a server's error.
fn tell_cause(cause: &Cause) -> &'static str {
    match cause {
        Cause::LegLost => "SERVER_ERROR leg lost",
        _ => "SERVER_ERROR",
    }
}

/// What the entry of an answer says. `Other` is an answer of more items than one, or one that no world of these tests gives.
pub fn tell_reply(op: OpId, reply: &Reply) -> Told {
    match reply {
        Reply::Items(items) => match items.as_slice() {
            [] => Told::Answered(op, "END"),
            [item] => Told::Hit(op, only(item.key.as_bytes()), only(item.block.as_bytes())),
            _ => Told::Other,
        },
        Reply::Stored => Told::Answered(op, "STORED"),
        Reply::Deleted => Told::Answered(op, "DELETED"),
        Reply::NotFound => Told::Answered(op, "NOT_FOUND"),
        Reply::ServerError(cause) => Told::Answered(op, tell_cause(cause)),
        _ => Told::Other,
    }
}

/// What an entry says.
fn tell(entry: &Entry) -> Told {
    match entry {
        Entry::Issued { op, request, .. } => tell_request(*op, request),
        Entry::Stored { by, key, block, .. } => {
            Told::Stored(*by, only(key.as_bytes()), only(block.as_bytes()))
        }
        Entry::Removed { op, side, key } => Told::Removed(*op, *side, only(key.as_bytes())),
        Entry::Answered { op, reply } => tell_reply(*op, reply),
    }
}

/// Whether the history says just this.
pub fn says(history: &History, expected: &[Told]) -> bool {
    let entries = history.entries();
    if entries.len() != expected.len() {
        return false;
    }
    for (place, entry) in entries.iter().enumerate() {
        if tell(entry) != expected[place] {
            return false;
        }
    }
    true
}
