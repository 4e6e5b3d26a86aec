//! The delete that a stale hit betrays, by one pass over the entries.
ghost use Rattle.std.specs.Prelude.{◌≡◌, length, IfOk, MatchOption};
ghost use Rattle.std.specs.List.{list_any};
ghost use Rattle.std.specs.HashSet.{contains};
ghost use Rattle.mr_history.specs.declared.op_id.OpId.{OpId};
ghost use Rattle.mr_history.specs.steps.Tests.{is_acknowledged, NoConvict, FirstConvict};
ghost use Rattle.mr_history.specs.steps.Index.{acknowledged_op, op_eq};

use crate::entry::Entry;
use crate::op_id::OpId;
use crate::search::{acknowledges, delete_of};
use mr_text::Key;
use std::alloc::{AllocError, Global};
use std::collections::HashSet;

/// The op that the entry acknowledges.
fn acknowledged_op(entry: &Entry) -> Option<OpId>
    ensures { result ≡ acknowledged_op entry.now }
{
    match entry {
        Entry::Answered { op, reply } if acknowledges(reply) => Some(*op),
        _ => None,
    }
}

/// The ops that are acknowledged among the entries.
fn acknowledged_ops(alloc: Global, entries: &[Entry]) -> Result<HashSet<OpId>, AllocError>
    ensures { IfOk result (λ ops. (op : OpId) → contains op_eq ops op ≡ list_any (is_acknowledged op) entries.now) }
{
    let mut ops = HashSet::new(alloc);
    for entry in entries {
        if let Some(op) = acknowledged_op(entry) {
            ops.insert(op)?;
        }
    }
    Ok(ops)
}

/// Of the deletes of the key that are issued and acknowledged among the entries, the one issued first.
pub(crate) fn find_convict(
    alloc: Global,
    entries: &[Entry],
    key: &Key,
) -> Result<Option<OpId>, AllocError>
    ensures { IfOk result (λ found. MatchOption found
        (NoConvict entries.now key.now (length entries.now))
        (FirstConvict entries.now key.now)) }
{
    let acknowledged = acknowledged_ops(alloc, entries)?;
    for entry in entries {
        if let Some(delete) = delete_of(entry, key) {
            if acknowledged.contains(&delete) {
                return Ok(Some(delete));
            }
        }
    }
    Ok(None)
}
