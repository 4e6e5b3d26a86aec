//! Clients that leave while requests of theirs are under way.
use super::WIDE;
use super::playing::Step::{self, *};
use super::playing::play;
use mr_loop::{LinkEnd, Pause};

/// What a client asked who left is told to nobody, and not to who comes to its place.
static LEAVES: [Step; 12] = [
    Comes(0),
    Comes(1),
    Sends(0, b"get k\r\nget", Pause::NeedsBytes),
    Sends(1, b"get a\r\n", Pause::NeedsBytes),
    Leaves(0),
    Comes(0),
    Sends(0, b"get c\r\n", Pause::NeedsBytes),
    Asked(1, b"get k\r\nget a\r\nget c\r\n"),
    Says(
        1,
        b"VALUE k 0 1\r\nx\r\nEND\r\nVALUE a 0 1\r\ny\r\nEND\r\n",
        LinkEnd::Whole,
    ),
    Told(0, b""),
    Told(1, b"VALUE a 0 1\r\ny\r\nEND\r\n"),
    Says(1, b"VALUE c 0 1\r\nz\r\nEND\r\n", LinkEnd::Whole),
];

#[test]
fn what_was_left_is_told_to_nobody(rt: HostRuntime) {
    let mut run = play(&rt, rt.alloc(), 8, WIDE, &LEAVES);
    super::playing::is_told(&rt, 12, &mut run.proxy, 0, b"VALUE c 0 1\r\nz\r\nEND\r\n");
    super::number_is(&rt, 13, run.proxy.client_counts().came, 3);
    super::number_is(&rt, 14, run.proxy.client_counts().left, 1);
}
