//! Searches in a list of entries. None of them takes memory.
ghost use Rattle.std.specs.Prelude.{◌≡◌, length, position, MatchOption};
ghost use Rattle.std.specs.List.{list_any};
ghost use Rattle.mr_history.specs.OpIds.{is_same_op};
ghost use Rattle.mr_history.specs.steps.Tests.{is_issued, is_answered, is_get, is_issued_get, is_stored, acknowledges, is_acknowledged, issued_delete, NonePasses, LastPasses, NoConvict, FirstConvict};

use crate::entry::Entry;
use crate::op_id::{OpId, is_same_op};
use mr_text::{Item, Key, Reply, Request};

fn is_issued(entry: &Entry, op: OpId) -> bool
    ensures { result ≡ is_issued op entry.now }
{
    match entry {
        Entry::Issued { op: issued, .. } => is_same_op(*issued, op),
        _ => false,
    }
}

fn is_answered(entry: &Entry, op: OpId) -> bool
    ensures { result ≡ is_answered op entry.now }
{
    match entry {
        Entry::Answered { op: answered, .. } => is_same_op(*answered, op),
        _ => false,
    }
}

fn is_get(request: &Request) -> bool
    ensures { result ≡ is_get request.now }
{
    match request {
        Request::Get { .. } => true,
        _ => false,
    }
}

pub(crate) fn is_issued_get(entry: &Entry, op: OpId) -> bool
    ensures { result ≡ is_issued_get op entry.now }
{
    match entry {
        Entry::Issued {
            op: issued,
            request,
            ..
        } => is_get(request) && is_same_op(*issued, op),
        _ => false,
    }
}

pub(crate) fn acknowledges(reply: &Reply) -> bool
    ensures { result ≡ acknowledges reply.now }
{
    match reply {
        Reply::Deleted | Reply::NotFound => true,
        _ => false,
    }
}

fn is_acknowledged(entry: &Entry, op: OpId) -> bool
    ensures { result ≡ is_acknowledged op entry.now }
{
    match entry {
        Entry::Answered {
            op: answered,
            reply,
        } => acknowledges(reply) && is_same_op(*answered, op),
        _ => false,
    }
}

pub(crate) fn is_stored(entry: &Entry, item: &Item) -> bool
    ensures { result ≡ is_stored item.now entry.now }
{
    match entry {
        Entry::Stored {
            key,
            flags,
            block,
            ..
        } => {
            *flags == item.flags
                && key.as_bytes() == item.key.as_bytes()
                && block.as_bytes() == item.block.as_bytes()
        }
        _ => false,
    }
}

/// The op that the entry issues, where it is a delete of this key.
pub(crate) fn delete_of(entry: &Entry, key: &Key) -> Option<OpId>
    ensures { result ≡ issued_delete key.now entry.now }
{
    match entry {
        Entry::Issued {
            op,
            request: Request::Delete { key: deleted, .. },
            ..
        } if deleted.as_bytes() == key.as_bytes() => Some(*op),
        _ => None,
    }
}

/// Whether the op was issued.
pub(crate) fn was_issued(entries: &[Entry], op: OpId) -> bool
    ensures { result ≡ list_any (is_issued op) entries.now }
{
    entries.iter().any(|entry| is_issued(entry, op))
}

/// Whether the op was answered.
pub(crate) fn was_answered(entries: &[Entry], op: OpId) -> bool
    ensures { result ≡ list_any (is_answered op) entries.now }
{
    entries.iter().any(|entry| is_answered(entry, op))
}

/// Whether the delete was acknowledged.
fn was_acknowledged(entries: &[Entry], delete: OpId) -> bool
    ensures { result ≡ list_any (is_acknowledged delete) entries.now }
{
    entries.iter().any(|entry| is_acknowledged(entry, delete))
}

/// The place of the op's Issued entry, where it is a get.
pub(crate) fn issue_of_get(entries: &[Entry], get: OpId) -> Option<usize>
    ensures { result ≡ position (is_issued_get get) entries.now }
{
    entries.iter().position(|entry| is_issued_get(entry, get))
}

/// The last place that stored the item.
pub(crate) fn last_stored(entries: &[Entry], item: &Item) -> Option<usize>
    ensures { MatchOption result
        (NonePasses (is_stored item.now) entries.now 0)
        (LastPasses (is_stored item.now) entries.now) }
{
    let mut place = entries.len();
    while place > 0 {
        place -= 1;
        if is_stored(&entries[place], item) {
            return Some(place);
        }
    }
    None
}

/// Of the deletes of the key that are issued and acknowledged among the entries, the one issued first.
pub(crate) fn first_convict(entries: &[Entry], key: &Key) -> Option<OpId>
    ensures { MatchOption result
        (NoConvict entries.now key.now (length entries.now))
        (FirstConvict entries.now key.now) }
{
    for entry in entries {
        if let Some(delete) = delete_of(entry, key) {
            if was_acknowledged(entries, delete) {
                return Some(delete);
            }
        }
    }
    None
}
