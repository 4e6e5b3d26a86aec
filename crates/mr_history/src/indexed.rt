//! The judge of a history by an index over it, in time that is nearly linear.
ghost use Rattle.std.specs.Prelude.{◌≡◌, ◌+◌, ◌<◌, ◌≤◌, length, IfOk, IfErr, MatchOption};
ghost use Rattle.mr_text.specs.declared.reply.Reply.TheVariants.{Items};
ghost use Rattle.mr_history.specs.declared.entry.Entry.TheVariants.{Answered};
ghost use Rattle.mr_history.specs.declared.error.HistoryError.TheVariants.{OutOfMemory};
ghost use Rattle.mr_history.specs.History.{IsWellFormed};
ghost use Rattle.mr_history.specs.Places.{At};
ghost use Rattle.mr_history.specs.Judgement.{Judges, FindsItem, AreFreshBefore};
ghost use Rattle.mr_history.specs.steps.Index.{IsIndexOf};

use crate::convict::find_convict;
use crate::entry::Entry;
use crate::error::HistoryError;
use crate::history::History;
use crate::index::Index;
use crate::judge::Finding;
use crate::op_id::OpId;
use crate::search::last_stored;
use crate::verdict::Verdict;
use mr_text::{Item, Reply};
use std::alloc::{AllocError, Global};

/// Judges an item of the answer to a get by passes over the entries.
fn find_item(
    alloc: Global,
    entries: &[Entry],
    item: &Item,
    issue: usize,
    answer: usize,
) -> Result<Finding, AllocError>
    requires well_formed { IsWellFormed entries.now }
    requires issued { issue < answer }
    requires answered { answer ≤ length entries.now }
    ensures { IfOk result (FindsItem entries.now item.now issue answer) }
{
    let Some(stored) = last_stored(&entries[..answer], item) else {
        return Ok(Finding::Unstored);
    };
    if issue <= stored {
        return Ok(Finding::Fresh);
    }
    Ok(
        match find_convict(alloc, &entries[stored..issue], &item.key)? {
            Some(delete) => Finding::Outdated(delete),
            None => Finding::Fresh,
        },
    )
}

/// The same by the index over the entries before the answer, where it shows that the item is fresh.
fn judge_item<'a>(
    alloc: Global,
    entries: &'a [Entry],
    index: &Index<'a>,
    item: &'a Item,
    issue: usize,
    answer: usize,
) -> Result<Finding, AllocError>
    requires well_formed { IsWellFormed entries.now }
    requires indexed { IsIndexOf entries.now answer index.now }
    requires issued { issue < answer }
    requires answered { answer ≤ length entries.now }
    ensures { IfOk result (FindsItem entries.now item.now issue answer) }
{
    if index.shows_fresh(item, issue) {
        return Ok(Finding::Fresh);
    }
    find_item(alloc, entries, item, issue, answer)
}

/// Judges the items of the answer to a get, where each hit before it is fresh. None where these are fresh too.
fn judge_items<'a>(
    alloc: Global,
    entries: &'a [Entry],
    index: &Index<'a>,
    get: OpId,
    items: &'a [Item],
    answer: usize,
) -> Result<Option<Verdict<'a>>, AllocError>
    requires well_formed { IsWellFormed entries.now }
    requires indexed { IsIndexOf entries.now answer index.now }
    requires fresh { AreFreshBefore entries.now answer }
    requires answered { At entries.now answer (Answered get (Items items.now)) }
    ensures { IfOk result (λ found. MatchOption found (AreFreshBefore entries.now (answer + 1)) (Judges entries.now)) }
{
    let Some(issue) = index.issue_of_get(get) else {
        return Ok(None);
    };
    for item in items {
        match judge_item(alloc, entries, index, item, issue, answer)? {
            Finding::Fresh => {}
            Finding::Unstored => {
                return Ok(Some(Verdict::Invented {
                    get,
                    key: &item.key,
                }));
            }
            Finding::Outdated(delete) => {
                return Ok(Some(Verdict::Stale {
                    get,
                    key: &item.key,
                    delete,
                }));
            }
        }
    }
    Ok(None)
}

/// The same of an answer of any kind.
fn judge_reply<'a>(
    alloc: Global,
    entries: &'a [Entry],
    index: &Index<'a>,
    op: OpId,
    reply: &'a Reply,
    answer: usize,
) -> Result<Option<Verdict<'a>>, AllocError>
    requires well_formed { IsWellFormed entries.now }
    requires indexed { IsIndexOf entries.now answer index.now }
    requires fresh { AreFreshBefore entries.now answer }
    requires answered { At entries.now answer (Answered op reply.now) }
    ensures { IfOk result (λ found. MatchOption found (AreFreshBefore entries.now (answer + 1)) (Judges entries.now)) }
{
    match reply {
        Reply::Items(items) => judge_items(alloc, entries, index, op, items.as_slice(), answer),
        _ => Ok(None),
    }
}

/// The same of any entry.
fn judge_entry<'a>(
    alloc: Global,
    entries: &'a [Entry],
    index: &Index<'a>,
    place: usize,
) -> Result<Option<Verdict<'a>>, AllocError>
    requires well_formed { IsWellFormed entries.now }
    requires indexed { IsIndexOf entries.now place index.now }
    requires within { place < length entries.now }
    requires fresh { AreFreshBefore entries.now place }
    ensures { IfOk result (λ found. MatchOption found (AreFreshBefore entries.now (place + 1)) (Judges entries.now)) }
{
    match &entries[place] {
        Entry::Answered { op, reply } => judge_reply(alloc, entries, index, *op, reply, place),
        _ => Ok(None),
    }
}

/// The verdict of `judge_history`, in time that is nearly linear in the bytes of the history: it takes memory for an index.
/// Its one refusal is OutOfMemory.
pub fn judge_indexed(alloc: Global, history: &History) -> Result<Verdict<'_>, HistoryError>
    ensures judged { IfOk result (Judges history.now.entries) }
    ensures refused { IfErr result (λ e. e ≡ OutOfMemory) }
{
    let entries = history.entries();
    let mut index = Index::new(alloc, entries);
    for place in 0..entries.len() {
        if let Some(verdict) = judge_entry(alloc, entries, &index, place)? {
            return Ok(verdict);
        }
        index.read_next(alloc)?;
    }
    Ok(Verdict::Safe)
}
