//! The judge of a history: nested searches through its entries, which take no memory.
ghost use Rattle.std.specs.Prelude.{◌+◌, ◌<◌, ◌≤◌, length, MatchOption};
ghost use Rattle.mr_history.specs.History.{IsWellFormed};
ghost use Rattle.mr_history.specs.Places.{At};
ghost use Rattle.mr_text.specs.declared.reply.Reply.TheVariants.{Items};
ghost use Rattle.mr_history.specs.declared.entry.Entry.TheVariants.{Answered};
ghost use Rattle.mr_history.specs.Judgement.{Judges, FindsItem, AreFreshBefore};

use crate::entry::Entry;
use crate::history::History;
use crate::op_id::OpId;
use crate::search::{first_convict, issue_of_get, last_stored};
use crate::verdict::Verdict;
use mr_text::{Item, Reply};

/// What was found of one item of an answer.
#[derive(Clone, Copy)]
pub(crate) enum Finding {
    /// It was stored in time.
    Fresh,
    /// Nothing stored it.
    Unstored,
    /// It was stored last before the issue of this delete.
    Outdated(OpId),
}

/// Judges an item of the answer to a get.
fn judge_item(entries: &[Entry], item: &Item, issue: usize, answer: usize) -> Finding
    requires well_formed { IsWellFormed entries.now }
    requires issued { issue < answer }
    requires answered { answer ≤ length entries.now }
    ensures { FindsItem entries.now item.now issue answer result }
{
    let Some(stored) = last_stored(&entries[..answer], item) else {
        return Finding::Unstored;
    };
    if issue <= stored {
        return Finding::Fresh;
    }
    match first_convict(&entries[stored..issue], &item.key) {
        Some(delete) => Finding::Outdated(delete),
        None => Finding::Fresh,
    }
}

/// Judges the items of the answer to a get, where each hit before it is fresh. None where these are fresh too.
fn judge_items<'a>(
    entries: &[Entry],
    get: OpId,
    items: &'a [Item],
    answer: usize,
) -> Option<Verdict<'a>>
    requires well_formed { IsWellFormed entries.now }
    requires fresh { AreFreshBefore entries.now answer }
    requires answered { At entries.now answer (Answered get (Items items.now)) }
    ensures { MatchOption result (AreFreshBefore entries.now (answer + 1)) (Judges entries.now) }
{
    let Some(issue) = issue_of_get(entries, get) else {
        return None;
    };
    for item in items {
        match judge_item(entries, item, issue, answer) {
            Finding::Fresh => {}
            Finding::Unstored => {
                return Some(Verdict::Invented {
                    get,
                    key: &item.key,
                });
            }
            Finding::Outdated(delete) => {
                return Some(Verdict::Stale {
                    get,
                    key: &item.key,
                    delete,
                });
            }
        }
    }
    None
}

/// The same of an answer of any kind.
fn judge_reply<'a>(
    entries: &[Entry],
    op: OpId,
    reply: &'a Reply,
    answer: usize,
) -> Option<Verdict<'a>>
    requires well_formed { IsWellFormed entries.now }
    requires fresh { AreFreshBefore entries.now answer }
    requires answered { At entries.now answer (Answered op reply.now) }
    ensures { MatchOption result (AreFreshBefore entries.now (answer + 1)) (Judges entries.now) }
{
    match reply {
        Reply::Items(items) => judge_items(entries, op, items.as_slice(), answer),
        _ => None,
    }
}

/// The same of any entry.
fn judge_entry(entries: &[Entry], place: usize) -> Option<Verdict<'_>>
    requires well_formed { IsWellFormed entries.now }
    requires within { place < length entries.now }
    requires fresh { AreFreshBefore entries.now place }
    ensures { MatchOption result (AreFreshBefore entries.now (place + 1)) (Judges entries.now) }
{
    match &entries[place] {
        Entry::Answered { op, reply } => judge_reply(entries, *op, reply, place),
        _ => None,
    }
}

/// Whether each hit was stored before its answer, and after the issue of every delete of its key that was acknowledged
/// before the get was issued; else the first bad hit, by the place of its answer and then that of its item. It takes no
/// memory, and time by the cube of the history's length at worst.
pub fn judge_history(history: &History) -> Verdict<'_>
    ensures { Judges history.now.entries result }
{
    let entries = history.entries();
    for place in 0..entries.len() {
        if let Some(verdict) = judge_entry(entries, place) {
            return verdict;
        }
    }
    Verdict::Safe
}
