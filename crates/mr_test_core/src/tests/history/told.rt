//! Entries and verdicts as plain values. A key and data have one byte each.
use super::*;
use crate::tests::{must, says};

/// The key and the data of an item, whose flags are 0.
pub type Found = (u8, u8);

/// An entry in few words: the op, the key, the data.
#[derive(Clone, Copy)]
pub enum Told {
    Get(OpId, u8),
    Set(OpId, u8, u8),
    Delete(OpId, u8),
    /// The proxy of this number issued a quit.
    Quit(OpId, u32),
    Stored(Author, u8, u8),
    Removed(OpId, Side, u8),
    /// A get was answered by these items.
    Items(OpId, &'static [Found]),
    IsStored(OpId),
    IsDeleted(OpId),
    NotFound(OpId),
}

/// The op of a proxy that was never restarted.
pub fn op(proxy: u32, number: u64) -> OpId {
    OpId {
        proxy,
        incarnation: 0,
        number,
    }
}

fn key_of(rt: &impl Abort, alloc: Global, name: u8) -> Key {
    must(rt, Key::new(alloc, &[name]))
}

fn block_of(rt: &impl Abort, alloc: Global, data: u8) -> Block {
    must(rt, Block::new(alloc, &[data]))
}

/// A get of one key.
fn get(rt: &impl Abort, alloc: Global, name: u8) -> Request {
    let mut keys = Vec::new(alloc);
    must(rt, keys.push(key_of(rt, alloc, name)));
    Request::Get {
        keys: must(rt, KeyList::new(keys)),
    }
}

/// A set with the flags 0, which wants an answer.
fn set(rt: &impl Abort, alloc: Global, name: u8, data: u8) -> Request {
    Request::Set {
        key: key_of(rt, alloc, name),
        flags: 0,
        exptime: 0,
        block: block_of(rt, alloc, data),
        noreply: false,
    }
}

/// A delete, which wants an answer.
fn delete(rt: &impl Abort, alloc: Global, name: u8) -> Request {
    Request::Delete {
        key: key_of(rt, alloc, name),
        noreply: false,
    }
}

/// The entry of a request that the op's own proxy issued.
fn entry_of_issue(op: OpId, request: Request) -> Entry {
    Entry::Issued {
        op,
        proxy: op.proxy,
        request,
    }
}

fn entry_of_item(rt: &impl Abort, alloc: Global, by: Author, name: u8, data: u8) -> Entry {
    Entry::Stored {
        by,
        key: key_of(rt, alloc, name),
        flags: 0,
        block: block_of(rt, alloc, data),
    }
}

/// An item with the flags 0.
fn item(rt: &impl Abort, alloc: Global, found: Found) -> Item {
    Item {
        key: key_of(rt, alloc, found.0),
        flags: 0,
        block: block_of(rt, alloc, found.1),
    }
}

/// A reply of these items, eight at most.
fn items(rt: &impl Abort, alloc: Global, found: &[Found]) -> Reply {
    let mut items = Vec::new(alloc);
    for it in found {
        must(rt, items.push(item(rt, alloc, *it)));
    }
    if items.len() > 8 {
        rt.panic("too many items");
    }
    Reply::Items(ItemList::new(items))
}

/// The entry that this is.
fn entry_of(rt: &impl Abort, alloc: Global, told: Told) -> Entry {
    let (op, reply) = match told {
        Told::Get(op, name) => return entry_of_issue(op, get(rt, alloc, name)),
        Told::Set(op, name, data) => return entry_of_issue(op, set(rt, alloc, name, data)),
        Told::Delete(op, name) => return entry_of_issue(op, delete(rt, alloc, name)),
        Told::Quit(op, proxy) => {
            return Entry::Issued {
                op,
                proxy,
                request: Request::Quit,
            };
        }
        Told::Stored(by, name, data) => return entry_of_item(rt, alloc, by, name, data),
        Told::Removed(op, side, name) => {
            return Entry::Removed {
                op,
                side,
                key: key_of(rt, alloc, name),
            };
        }
        Told::Items(op, found) => (op, items(rt, alloc, found)),
        Told::IsStored(op) => (op, Reply::Stored),
        Told::IsDeleted(op) => (op, Reply::Deleted),
        Told::NotFound(op) => (op, Reply::NotFound),
    };
    Entry::Answered { op, reply }
}

/// Appends the entry where it fits, and tells whether it did.
pub fn push_where_it_fits(
    rt: &impl Abort,
    alloc: Global,
    history: &mut History,
    told: Told,
) -> bool {
    must(rt, history.reserve(1));
    let entry = entry_of(rt, alloc, told);
    let fits = history.fits(&entry);
    if fits {
        history.push(entry);
    }
    fits
}

/// A verdict: its word, the get, the key's byte and the delete.
pub type Said = (&'static str, Option<OpId>, Option<u8>, Option<OpId>);

/// What is said of a history without a bad hit.
pub const SAFE: Said = ("safe", None, None, None);

/// What a verdict says, of a key of one byte.
pub fn words_of_verdict(verdict: Verdict) -> Said {
    match verdict {
        Verdict::Safe => SAFE,
        Verdict::Stale { get, key, delete } => {
            (
                "stale",
                Some(get),
                key.as_bytes().first().copied(),
                Some(delete),
            )
        }
        Verdict::Invented { get, key } => {
            ("invented", Some(get), key.as_bytes().first().copied(), None)
        }
    }
}

/// Asserts which verdict there is.
pub fn is_said(rt: &impl Abort, row: usize, found: &Said, wanted: &Said) {
    says(rt, row, found.0, wanted.0);
    is(rt, row, found.1, wanted.1);
    is(rt, row, found.2, wanted.2);
    is(rt, row, found.3, wanted.3);
}
