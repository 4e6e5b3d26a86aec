//! Texts that are no requests, and ends.
use super::playing::Step::{self, *};
use super::playing::play;
use mr_loop::NodePause;

/// A quit ends what is read, and its client may be closed once it was told all.
static QUIT: [Step; 6] = [
    Sends(0, b"get k\r\nquit\r\nget k\r\n", NodePause::IsDone),
    IsFinished(0, false),
    Told(0, b"END\r\n"),
    IsFinished(0, true),
    Sends(0, b"get k\r\n", NodePause::IsDone),
    Told(0, b""),
];

#[test]
fn quit_ends_what_is_read(rt: HostRuntime) {
    let _ = play(&rt, rt.alloc(), 8, 4096, &QUIT);
}

/// A line with an unknown command is answered, and so is an empty one; reading goes on.
static UNKNOWN: [Step; 2] = [
    Sends(0, b"gets k\r\n\r\nget k\r\n", NodePause::NeedsBytes),
    Told(0, b"ERROR\r\nERROR\r\nEND\r\n"),
];

/// Each of these ends what is read, once it is answered.
static CLOSING: [(&[u8], &[u8]); 7] = [
    (b"cas k 0 0 1 5\r\nget k\r\n", b"ERROR\r\n"),
    (
        b"set k 0 0 1\r\nv\nget k\r\n",
        b"CLIENT_ERROR bad data end\r\n",
    ),
    (b"set k 0 0 1048577\r\n", b"CLIENT_ERROR data too long\r\n"),
    (b"set k 4294967296 0 1\r\n", b"CLIENT_ERROR bad number\r\n"),
    (b"delete k 5\r\nget k\r\n", b"CLIENT_ERROR wrong words\r\n"),
    (b"set \x7F 0 0 1 noreply\r\n", b"CLIENT_ERROR bad key\r\n"),
    (b"quit\r\n", b""),
];

#[test]
fn texts_that_are_no_requests_are_answered(rt: HostRuntime) {
    let _ = play(&rt, rt.alloc(), 8, 4096, &UNKNOWN);
    for (text, answer) in CLOSING {
        let steps = [
            Sends(0, text, NodePause::IsDone),
            Sends(0, b"get k\r\n", NodePause::IsDone),
            Told(0, answer),
            IsFinished(0, true),
        ];
        let _ = play(&rt, rt.alloc(), 8, 4096, &steps);
    }
}

/// The end of what a client sends: within a request nothing of that is done or answered.
static ENDS: [Step; 7] = [
    Sends(0, b"get k\r\nset k 0 0 3\r\nab", NodePause::NeedsBytes),
    Ends(0, NodePause::IsDone),
    IsFinished(0, false),
    Told(0, b"END\r\n"),
    IsFinished(0, true),
    Ends(1, NodePause::IsDone),
    IsFinished(1, true),
];

#[test]
fn end_within_a_request_is_silent(rt: HostRuntime) {
    let _ = play(&rt, rt.alloc(), 8, 4096, &ENDS);
}
