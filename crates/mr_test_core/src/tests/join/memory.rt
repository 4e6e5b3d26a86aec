//! Copies where memory is refused: the same call made again gives what it gives with ample memory.
use crate::tests::leg_replies::{Came, reply_of, word_of};
use crate::tests::{holds, must, says};
use mr_join::Joining;
use mr_phases::Side;
use mr_test_support::at_last;
use std::alloc::AllocError;

#[test]
fn refused_memory_copies_a_reply_later(rt: HostRuntime) {
    let reply = reply_of(&rt, rt.alloc(), Came::Found(b'a', 3));
    let copy = must(&rt, at_last!(&rt, reply.copy(), Err(AllocError)));
    holds(&rt, 0, reply.same_as(&copy), true);
}

/// One that awaits a side, and then what both came to.
#[test]
fn refused_memory_copies_a_join_later(rt: HostRuntime) {
    let found = reply_of(&rt, rt.alloc(), Came::Found(b'a', 3));
    let one = Joining::two().take(Side::Old, found);
    let copy = must(&rt, at_last!(&rt, one.copy(), Err(AllocError)));
    let lost = reply_of(&rt, rt.alloc(), Came::Lost);
    let joined = must(&rt, copy.take(Side::New, lost));
    let copy = must(&rt, at_last!(&rt, joined.copy(), Err(AllocError)));
    says(&rt, 0, word_of(copy.worst()), "SERVER_ERROR leg lost");
}
