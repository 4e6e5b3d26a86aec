//! The replies of legs, and how those of both sides become one.
use mr_join::{Joined, Joining, LegReply, One, Two, worse};
use mr_phases::Side;
use std::test::Fail;

/// What awaits the old side, once the new one has replied.
fn old_awaited(awaits: Joining<Two>, new: LegReply) -> Joining<One> {
    awaits.take(Side::New, new)
}

/// What both sides replied.
fn join(old: LegReply, new: LegReply) -> Result<Joined, Fail> {
    match old_awaited(Joining::two(), new).take(Side::Old, old) {
        Ok(joined) => Ok(joined),
        Err(_) => Err(Fail::from("not awaited")),
    }
}

#[test]
fn the_worse_reply_is_the_answer(rt: HostRuntime) -> Result<(), Fail> {
    let joined = join(LegReply::Deleted, LegReply::NotFound)?;
    assert!(rt; matches!(joined.into_worst(), LegReply::NotFound));
    assert!(rt; matches!(worse(LegReply::Deleted, LegReply::Miss), LegReply::Deleted));
    Ok(())
}
