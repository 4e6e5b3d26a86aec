//! Both judges beside the definition's own words: every hit, every Stored entry, every delete.
use super::dice::Dice;
use super::told::*;
use super::*;
use crate::tests::must;

/// Whether the op was issued as a get here.
fn is_get(entry: Told, get: OpId) -> bool {
    matches!(entry, Told::Get(op, _) if op == get)
}

/// The op that is issued here as a delete of the key.
fn deletes(entry: Told, name: u8) -> Option<OpId> {
    match entry {
        Told::Delete(op, key) if key == name => Some(op),
        _ => None,
    }
}

fn stores(entry: Told, wanted: Found) -> bool {
    matches!(entry, Told::Stored(_, key, data) if key == wanted.0 && data == wanted.1)
}

/// Whether the delete is acknowledged here.
fn acknowledges(entry: Told, delete: OpId) -> bool {
    matches!(entry, Told::IsDeleted(op) | Told::NotFound(op) if op == delete)
}

/// Whether the delete was acknowledged before this place.
fn is_acknowledged(entries: &[Told], delete: OpId, before: usize) -> bool {
    for (place, entry) in entries.iter().enumerate() {
        if place < before && acknowledges(*entry, delete) {
            return true;
        }
    }
    false
}

/// The delete of the key, issued behind this place and first of those, that was acknowledged before the get's issue.
fn first_betrayed_delete(entries: &[Told], name: u8, behind: usize, issue: usize) -> Option<OpId> {
    for (start, entry) in entries.iter().enumerate() {
        if let Some(delete) = deletes(*entry, name) {
            if start > behind && is_acknowledged(entries, delete, issue) {
                return Some(delete);
            }
        }
    }
    None
}

/// Whether some Stored entry before the answer stands behind the issue of each such delete; and the last that there is.
fn judge_hit(
    entries: &[Told],
    wanted: Found,
    issue: usize,
    answer: usize,
) -> (bool, Option<usize>) {
    let mut last = None;
    let mut fresh = false;
    for (place, entry) in entries.iter().enumerate() {
        if place < answer && stores(*entry, wanted) {
            last = Some(place);
            fresh = fresh || first_betrayed_delete(entries, wanted.0, place, issue).is_none();
        }
    }
    (fresh, last)
}

/// What is said of an item that a get was answered with.
fn judge_item(entries: &[Told], get: OpId, wanted: Found, issue: usize, answer: usize) -> Said {
    match judge_hit(entries, wanted, issue, answer) {
        (_, None) => ("invented", Some(get), Some(wanted.0), None),
        (false, Some(place)) => {
            let delete = first_betrayed_delete(entries, wanted.0, place, issue);
            ("stale", Some(get), Some(wanted.0), delete)
        }
        _ => SAFE,
    }
}

/// What is said of the first bad item of an answer to a get that was issued at this place, if there is one.
fn judge_items(entries: &[Told], get: OpId, found: &[Found], issue: usize, answer: usize) -> Said {
    for wanted in found {
        let said = judge_item(entries, get, *wanted, issue, answer);
        if said.1.is_some() {
            return said;
        }
    }
    SAFE
}

/// The same, wherever the get was issued.
fn judge_answer(entries: &[Told], get: OpId, found: &[Found], answer: usize) -> Said {
    for (issue, entry) in entries.iter().enumerate() {
        if is_get(*entry, get) {
            let said = judge_items(entries, get, found, issue, answer);
            if said.1.is_some() {
                return said;
            }
        }
    }
    SAFE
}

/// The verdict, by going through every hit.
fn judge_slowly(entries: &[Told]) -> Said {
    for (answer, entry) in entries.iter().enumerate() {
        if let Told::Items(op, found) = *entry {
            let said = judge_answer(entries, op, found, answer);
            if said.1.is_some() {
                return said;
            }
        }
    }
    SAFE
}

/// Appends an entry where it fits, to what is judged slowly too.
fn add(rt: &impl Abort, alloc: Global, history: &mut History, told: Told, entries: &mut Vec<Told>) {
    if push_where_it_fits(rt, alloc, history, told) {
        must(rt, entries.push(told));
    }
}

/// Adds two items held at the beginning, and what fits of eighty entries.
fn add_all(
    rt: &impl Abort,
    alloc: Global,
    dice: &mut Dice,
    history: &mut History,
    entries: &mut Vec<Told>,
) {
    for name in [b'a', b'b'] {
        add(
            rt,
            alloc,
            history,
            Told::Stored(Author::Beginning, name, b'v'),
            entries,
        );
    }
    for _ in 0..80 {
        add(rt, alloc, history, dice.entry(), entries);
    }
}

/// Asserts that a random history is judged by the definition, with an index too, and gives the verdict's word.
fn is_judged(rt: &impl Abort, alloc: Global, row: usize, dice: &mut Dice) -> &'static str {
    let mut history = must(rt, History::new(alloc));
    let mut entries = Vec::new(alloc);
    add_all(rt, alloc, dice, &mut history, &mut entries);
    count_is(rt, row, history.entries().len(), entries.len());
    let verdict = words_of_verdict(judge_history(&history));
    is_said(rt, row, &verdict, &judge_slowly(&entries));
    let indexed = must(rt, judge_indexed(alloc, &history));
    is_said(rt, row, &words_of_verdict(indexed), &verdict);
    verdict.0
}

/// How often each verdict was met.
#[derive(Clone, Copy)]
struct Met {
    safe: usize,
    stale: usize,
    invented: usize,
}

impl Met {
    fn count(&mut self, word: &str) {
        self.safe = self.safe.saturating_add(usize::from(word == "safe"));
        self.stale = self.stale.saturating_add(usize::from(word == "stale"));
        self.invented = self
            .invented
            .saturating_add(usize::from(word == "invented"));
    }
}

/// Asserts that random histories are judged by the definition, and counts their verdicts.
fn meet(rt: &impl Abort, alloc: Global, met: &mut Met) {
    let mut dice = Dice { state: 7 };
    for row in 0..600 {
        met.count(is_judged(rt, alloc, row, &mut dice));
    }
}

#[test]
fn judge_agrees_with_the_definition(rt: HostRuntime) {
    let mut met = Met {
        safe: 0,
        stale: 0,
        invented: 0,
    };
    meet(&rt, rt.alloc(), &mut met);
    // Each verdict was met often.
    holds(&rt, 0, met.safe >= 40, true);
    holds(&rt, 1, met.stale >= 40, true);
    holds(&rt, 2, met.invented >= 40, true);
}
