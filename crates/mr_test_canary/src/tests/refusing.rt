//! What is refused, by its error, and that nothing changes then.
use super::{holds, must};
use mr_canary::{Answer, CanaryError, Judge};
use mr_test_support::at_last;
use std::alloc::Global;
use std::process::Abort;

/// A key takes as many sets as there is room for, and more once a delete is acknowledged.
fn fills(rt: &impl Abort, alloc: Global) {
    let mut judge = must(rt, Judge::new(alloc, 1, 2));
    let first = must(rt, judge.issue_set(0, 1, 0)).0;
    let second = must(rt, judge.issue_set(0, 2, 0)).0;
    let full = judge.issue_set(0, 3, 0);
    holds(rt, full == Err(CanaryError::KeyIsFull), "no room");
    must(rt, judge.answered(first.number, Answer::Stored));
    must(rt, judge.answered(second.number, Answer::Unanswered));
    let delete = must(rt, judge.issue_delete(0, 4, 0));
    must(rt, judge.answered(delete.number, Answer::Deleted));
    holds(rt, judge.kept(0) == 1, "what was answered is forgotten");
    let (third, value) = must(rt, judge.issue_set(0, 5, 0));
    holds(rt, value == 2, "the third value");
    holds(rt, third.number == 6, "behind six notes");
}

/// A key that isn't there, and answers that nobody waits for.
fn refuses(rt: &impl Abort, alloc: Global) {
    let mut judge = must(rt, Judge::new(alloc, 1, 2));
    let away = judge.issue_get(0, 1, 1);
    holds(rt, away == Err(CanaryError::NoSuchKey), "no such key");
    let early = judge.answered(0, Answer::Miss);
    holds(rt, early == Err(CanaryError::NotWaiting), "nobody waits");
    let get = must(rt, judge.issue_get(0, 1, 0));
    must(rt, judge.answered(get.number, Answer::Miss));
    let again = judge.answered(get.number, Answer::Miss);
    holds(rt, again == Err(CanaryError::NotWaiting), "answered once");
}

#[test]
fn keys_fill(rt: HostRuntime) {
    fills(&rt, rt.alloc());
}

#[test]
fn answers_are_waited_for(rt: HostRuntime) {
    refuses(&rt, rt.alloc());
}

#[test]
fn refused_memory_notes_later(rt: HostRuntime) {
    let mut judge = must(
        &rt,
        at_last!(
            &rt,
            Judge::new(rt.alloc(), 2, 9),
            Err(CanaryError::OutOfMemory)
        ),
    );
    let first = at_last!(&rt, judge.issue_set(0, 1, 1), Err(CanaryError::OutOfMemory));
    let set = must(&rt, first).0;
    must(&rt, judge.answered(set.number, Answer::Stored));
    let next = at_last!(
        &rt,
        judge.issue_delete(0, 2, 1),
        Err(CanaryError::OutOfMemory)
    );
    let delete = must(&rt, next);
    must(&rt, judge.answered(delete.number, Answer::NotFound));
    let last = at_last!(&rt, judge.issue_get(0, 3, 1), Err(CanaryError::OutOfMemory));
    let get = must(&rt, last);
    holds(&rt, get.number == 4, "behind four notes");
    let found = must(&rt, judge.answered(get.number, Answer::Hit { value: 0 }));
    holds(&rt, found.is_some(), "what was deleted came back");
}
