//! What clients are told while the clock gives no reading.
use super::playing::Step::{self, *};
use super::playing::play;
use super::{WIDE, is};
use mr_loop::{Limits, LinkEnd, Pause};

/// Requests of all kinds come behind one that is under way: no node is asked, and each client is told so in its turn, unless it wants
/// no answer. What isn't whole is begun once the clock reads again.
static ALL_KINDS: [Step; 14] = [
    Sends(0, b"get k\r\n", Pause::NeedsBytes),
    Asked(1, b"get k\r\n"),
    SendsUnread(
        0,
        b"get k b\r\nset k 0 0 1\r\nx\r\nset k 0 0 1 noreply\r\nx\r\nnonsense\r\ndelete k\r\nget",
        Pause::NeedsBytes,
    ),
    Asked(0, b""),
    Asked(1, b""),
    Told(0, b""),
    Says(1, b"END\r\n", LinkEnd::Whole),
    Told(
        0,
        b"END\r\nSERVER_ERROR clock fault\r\nSERVER_ERROR clock fault\r\nERROR\r\nSERVER_ERROR clock fault\r\n",
    ),
    Sends(0, b" k\r\n", Pause::NeedsBytes),
    Asked(1, b"get k\r\n"),
    Says(1, b"END\r\n", LinkEnd::Whole),
    EndsUnread(0, Pause::IsDone),
    Told(0, b"END\r\n"),
    IsFinished(0, true),
];

#[test]
fn without_a_reading_each_request_is_told_so(rt: HostRuntime) {
    let run = play(&rt, rt.alloc(), 8, WIDE, &ALL_KINDS);
    let counts = run.proxy.counts();
    let answers = counts.answers;
    is(&rt, 20, (answers.clock_fault, answers.misses), (4, 2));
    is(
        &rt,
        21,
        (counts.under_way, counts.last_issue),
        (0, Some(999)),
    );
}

/// What was held back for want of room comes to that too, once it is tried again; so does what is whole when its client ends.
static HELD_BACK: [Step; 9] = [
    Sends(0, b"get k\r\n", Pause::NeedsBytes),
    Sends(1, b"get a\r\nget b\r\n", Pause::NeedsRoom),
    HeldBack(1),
    SendsUnread(1, b"", Pause::NeedsBytes),
    EndsUnread(1, Pause::IsDone),
    Told(
        1,
        b"SERVER_ERROR clock fault\r\nSERVER_ERROR clock fault\r\n",
    ),
    IsFinished(1, true),
    HeldBack(1),
    IsFinished(0, false),
];

#[test]
fn what_was_held_back_is_told_of_the_clock(rt: HostRuntime) {
    let _ = play(&rt, rt.alloc(), 1, WIDE, &HELD_BACK);
}

/// Of two requests that a client isn't told of yet, and no more.
const FEW: Limits = Limits {
    most_begun: 2,
    ..WIDE
};

/// Who isn't told yet of as many requests as may be is told of no further one.
static BEHIND: [Step; 4] = [
    SendsUnread(0, b"get k\r\nget k\r\nget k\r\n", Pause::NeedsReader),
    Told(
        0,
        b"SERVER_ERROR clock fault\r\nSERVER_ERROR clock fault\r\n",
    ),
    SendsUnread(0, b"", Pause::NeedsBytes),
    Told(0, b"SERVER_ERROR clock fault\r\n"),
];

#[test]
fn who_is_behind_is_told_later_of_the_clock(rt: HostRuntime) {
    let _ = play(&rt, rt.alloc(), 8, FEW, &BEHIND);
}
