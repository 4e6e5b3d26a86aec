//! Whose reply each reply of a link is, and what comes of one that can't be.
use super::WIDE;
use super::playing::Step::{self, *};
use super::playing::play;
use mr_loop::{LinkEnd, Pause};
use mr_text::TextError;

/// Two clients ask over one link; its replies come in pieces.
static TWO_CLIENTS: [Step; 11] = [
    Sends(0, b"get k\r\n", Pause::NeedsBytes),
    Sends(1, b"get a\r\n", Pause::NeedsBytes),
    Asked(1, b"get k\r\nget a\r\n"),
    Says(1, b"VALUE k 0 1\r\nx", LinkEnd::Whole),
    Told(0, b""),
    Says(1, b"\r\nEND\r\nEN", LinkEnd::Whole),
    Touched(Some(0)),
    Touched(None),
    Told(0, b"VALUE k 0 1\r\nx\r\nEND\r\n"),
    Says(1, b"D\r\n", LinkEnd::Whole),
    Told(1, b"END\r\n"),
];

#[test]
fn first_leg_has_first_reply(rt: HostRuntime) {
    let _ = play(&rt, rt.alloc(), 8, WIDE, &TWO_CLIENTS);
}

/// A reply that no leg awaits ends the link, whose connection isn't used again.
static SURPLUS: [Step; 8] = [
    Sends(0, b"get k\r\n", Pause::NeedsBytes),
    Says(1, b"END\r\nEND\r\n", LinkEnd::Surplus),
    IsUp(1, false),
    Told(0, b"END\r\n"),
    Says(1, b"END\r\n", LinkEnd::Down),
    Says(0, b"STORED\r\n", LinkEnd::Surplus),
    IsUp(0, false),
    IsUp(4, true),
];

#[test]
fn surplus_reply_ends_the_link(rt: HostRuntime) {
    let _ = play(&rt, rt.alloc(), 8, WIDE, &SURPLUS);
}

/// What is no reply ends the link, and the requests of all of its legs.
static NONSENSE: [Step; 8] = [
    Sends(0, b"get k\r\n", Pause::NeedsBytes),
    Sends(1, b"get a\r\n", Pause::NeedsBytes),
    Says(
        1,
        b"END\r\nHELLO\r\nEND\r\n",
        LinkEnd::Refused(TextError::UnknownCommand { closes: true }),
    ),
    IsUp(1, false),
    Told(0, b"END\r\n"),
    Told(1, b"SERVER_ERROR leg lost\r\n"),
    Touched(Some(1)),
    Touched(Some(0)),
];

#[test]
fn nonsense_ends_the_link(rt: HostRuntime) {
    let _ = play(&rt, rt.alloc(), 8, WIDE, &NONSENSE);
}

/// So does a reply that its leg can't have: of another kind, or of another key.
static MISMATCHES: [Step; 9] = [
    Sends(0, b"get k\r\n", Pause::NeedsBytes),
    Sends(1, b"get a\r\n", Pause::NeedsBytes),
    Says(1, b"STORED\r\nEND\r\n", LinkEnd::Mismatch),
    IsUp(1, false),
    Told(0, b"SERVER_ERROR leg lost\r\n"),
    Told(1, b"SERVER_ERROR leg lost\r\n"),
    Sends(0, b"get b\r\n", Pause::NeedsBytes),
    Says(0, b"VALUE k 0 1\r\nx\r\nEND\r\n", LinkEnd::Mismatch),
    Told(0, b"SERVER_ERROR leg lost\r\n"),
];

#[test]
fn mismatch_ends_the_link(rt: HostRuntime) {
    let _ = play(&rt, rt.alloc(), 8, WIDE, &MISMATCHES);
}

/// A node that doesn't know what it was asked may answer twice: its client is told, and the link ends.
static COMPLAINTS: [Step; 9] = [
    Sends(0, b"get k\r\n", Pause::NeedsBytes),
    Sends(1, b"get a\r\n", Pause::NeedsBytes),
    Says(1, b"ERROR\r\nERROR\r\n", LinkEnd::Complaint),
    IsUp(1, false),
    Told(0, b"SERVER_ERROR node refused\r\n"),
    Told(1, b"SERVER_ERROR leg lost\r\n"),
    Sends(0, b"get b\r\n", Pause::NeedsBytes),
    Says(0, b"CLIENT_ERROR bad key\r\n", LinkEnd::Complaint),
    Told(0, b"SERVER_ERROR bad key\r\n"),
];

#[test]
fn complaint_is_told_and_ends_the_link(rt: HostRuntime) {
    let _ = play(&rt, rt.alloc(), 8, WIDE, &COMPLAINTS);
}

/// A node that fails at a request answers it, and is asked on.
static FAILURES: [Step; 7] = [
    Sends(0, b"set k 0 0 1\r\nx\r\n", Pause::NeedsBytes),
    Sends(1, b"get a\r\n", Pause::NeedsBytes),
    Asked(1, b"set k 0 0 1\r\nx\r\nget a\r\n"),
    Says(1, b"SERVER_ERROR out of memory\r\nEND\r\n", LinkEnd::Whole),
    IsUp(1, true),
    Told(0, b"SERVER_ERROR out of memory\r\n"),
    Told(1, b"END\r\n"),
];

#[test]
fn failure_of_a_node_is_told(rt: HostRuntime) {
    let _ = play(&rt, rt.alloc(), 8, WIDE, &FAILURES);
}
