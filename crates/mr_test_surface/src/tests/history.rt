//! What happened, entry by entry, and what it says of acknowledged deletes.
use super::text::key;
use mr_history::{
    Author, Entry, History, HistoryError, OpId, Verdict, judge_history, judge_indexed,
};
use mr_text::Block;
use std::alloc::Global;
use std::test::Fail;

/// The first request of the first proxy.
pub(super) const FIRST: OpId = OpId {
    proxy: 0,
    incarnation: 0,
    number: 0,
};

/// A history that is empty, with room for one entry.
fn roomy_history(alloc: Global) -> Result<History, HistoryError> {
    let mut history = History::new(alloc)?;
    history.reserve(1)?;
    Ok(history)
}

/// An item that was held from the beginning on.
fn held_item(alloc: Global) -> Result<Entry, Fail> {
    Ok(Entry::Stored {
        by: Author::Beginning,
        key: key(alloc)?,
        flags: 0,
        block: Block::new(alloc, b"v")?,
    })
}

#[test]
fn a_history_is_judged(rt: HostRuntime) -> Result<(), Fail> {
    let history = roomy_history(rt.alloc())?;
    assert!(rt; history.fits(&held_item(rt.alloc())?));
    assert!(rt; matches!(judge_history(&history), Verdict::Safe));
    let indexed = judge_indexed(rt.alloc(), &history)?;
    assert!(rt; matches!(indexed, Verdict::Safe));
    Ok(())
}
