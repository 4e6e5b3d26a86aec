//! Links that break, and those that are silent for too long.
use super::WIDE;
use super::playing::Step::{self, *};
use super::playing::play;
use mr_loop::{LinkEnd, Pause};

/// Each request whose leg went over a link that breaks is given up, in order, and nothing of the connection is left.
static BREAK: [Step; 15] = [
    Sends(0, b"get k\r\n", Pause::NeedsBytes),
    Sends(1, b"get a\r\n", Pause::NeedsBytes),
    Says(1, b"VALUE k 0 1\r\n", LinkEnd::Whole),
    Breaks(1),
    IsUp(1, false),
    Told(0, b"SERVER_ERROR leg lost\r\n"),
    Told(1, b"SERVER_ERROR leg lost\r\n"),
    Sends(0, b"get k\r\n", Pause::NeedsBytes),
    Told(0, b"SERVER_ERROR leg lost\r\n"),
    Up(1),
    Asked(1, b""),
    Sends(0, b"get k\r\n", Pause::NeedsBytes),
    Asked(1, b"get k\r\n"),
    Says(1, b"END\r\n", LinkEnd::Whole),
    Told(0, b"END\r\n"),
];

#[test]
fn broken_link_gives_its_requests_up(rt: HostRuntime) {
    let _ = play(&rt, rt.alloc(), 8, WIDE, &BREAK);
}

/// A connection that is made anew doesn't take on what the one before it had.
static ANEW: [Step; 6] = [
    Sends(0, b"get k\r\n", Pause::NeedsBytes),
    Says(1, b"VALUE k 0 1\r\nx", LinkEnd::Whole),
    Up(1),
    Told(0, b"SERVER_ERROR leg lost\r\n"),
    Asked(1, b""),
    Says(
        1,
        b"\r\nEND\r\n",
        LinkEnd::Refused(mr_text::TextError::UnknownCommand { closes: true }),
    ),
];

#[test]
fn new_connection_begins_anew(rt: HostRuntime) {
    let _ = play(&rt, rt.alloc(), 8, WIDE, &ANEW);
}

/// The first leg of a link may take a second, and no microsecond more.
static SILENCE: [Step; 14] = [
    At(5),
    Sends(0, b"get k\r\n", Pause::NeedsBytes),
    At(6),
    Sends(1, b"get b\r\nget a\r\n", Pause::NeedsBytes),
    At(1_000_005),
    Ticks,
    IsUp(1, true),
    At(1_000_006),
    Ticks,
    IsUp(1, false),
    IsUp(0, true),
    Told(0, b"SERVER_ERROR leg lost\r\n"),
    Says(0, b"END\r\n", LinkEnd::Whole),
    Told(1, b"END\r\nSERVER_ERROR leg lost\r\n"),
];

#[test]
fn silent_link_breaks(rt: HostRuntime) {
    let _ = play(&rt, rt.alloc(), 8, WIDE, &SILENCE);
}

/// A delete whose second leg has no link is given up at once; the reply of its first leg is the first one's all the same.
static NO_SECOND_LINK: [Step; 8] = [
    Breaks(4),
    Reads(1000),
    Sends(0, b"delete k\r\nget k\r\n", Pause::NeedsBytes),
    Asked(1, b"delete k\r\nget k\r\n"),
    Asked(4, b""),
    Told(0, b"SERVER_ERROR leg lost\r\n"),
    Says(1, b"DELETED\r\nVALUE k 0 1\r\nx\r\nEND\r\n", LinkEnd::Whole),
    Told(0, b"VALUE k 0 1\r\nx\r\nEND\r\n"),
];

#[test]
fn leg_without_a_link_is_lost(rt: HostRuntime) {
    let _ = play(&rt, rt.alloc(), 8, WIDE, &NO_SECOND_LINK);
}
