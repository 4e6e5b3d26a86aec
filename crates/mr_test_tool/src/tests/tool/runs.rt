//! One run of each command, over a list of files. What else the commands answer to words, files and input is shown by
//! tests/cases.
use super::{
    ACCEPTED, HELD, PLACES, Ran, SCRIPT, TRANSCRIPT, UPGRADED, expect_row, is_in, run_over,
};
use crate::tests::tool::files_at::FilesAt;
use mr_text::OverReader;
use std::alloc::Global;
use std::net::{Net, TcpListener, TcpStream};
use std::process::Abort;
use std::random::RandomSource;
use std::sync::Wait;
use std::thread::Threads;
use std::time::Clock;

/// What a run leaves: it did what was wanted and wrote this, or it told this and ended with that status.
enum Left {
    Wrote(&'static [u8]),
    Told(u8, &'static [u8]),
}

/// A run: its words and its input, how often it asks for a file, and what it leaves.
type Row = (&'static [&'static str], &'static [u8], u32, Left);

static ROWS: [Row; 22] = [
    (
        &["plan", "--config", "fleet.json", "--at", "1000"],
        b"delete k\r\n",
        1,
        Left::Wrote(b"phase both-read-old at 1000\nleg 0 old 7002\nleg 1 new 7103\n"),
    ),
    (
        &[
            "plan",
            "7001,7002",
            "7101,7102,7103",
            "1000",
            "100",
            "sum",
            "1000",
        ],
        b"delete k\r\n",
        0,
        Left::Wrote(b"phase both-read-old at 1000\nleg 0 old 7002\nleg 1 new 7103\n"),
    ),
    (
        &["plan", "7001", "7001", "1000", "100", "sum", "0"],
        b"get k\r\n",
        0,
        Left::Told(1, b"migctl: pools 5 SharedName\n"),
    ),
    (
        &["plan", "7001", "7101", "1000", "0", "sum", "0"],
        b"get k\r\n",
        0,
        Left::Told(1, b"migctl: phases 1 ZeroInterval\n"),
    ),
    (
        &["plan", "7001", "7101", "1000", "100", "crc", "0"],
        b"get k\r\n",
        0,
        Left::Told(
            2,
            b"error: 'plan' takes --config and --at, or six words of which the fifth is sum or fnv1a32: \
            'migctl plan --help' shows both\n\nUsage: migctl <COMMAND>\n\nFor more information, try '--help'.\n",
        ),
    ),
    (
        &["timeline", "--config", "fleet.json"],
        b"",
        1,
        Left::Wrote(
            b"old-only 0 999\nboth-read-old 1000 1099\nboth-read-new 1100 1199\nnew-only 1200\n",
        ),
    ),
    (
        &[
            "timeline",
            "--config",
            "fleet.json",
            "--readings",
            "999,1100",
        ],
        b"",
        1,
        Left::Wrote(
            b"old-only 0 999\nboth-read-old 1000 1099\nboth-read-new 1100 1199\nnew-only 1200\n\
            reading 0 999 old-only\nreading 1 1100 both-read-new\nspread 101 allowed 100 too far\n",
        ),
    ),
    (&["run"], SCRIPT, 0, Left::Wrote(TRANSCRIPT)),
    (
        &["run", "script.json"],
        b"no JSON",
        1,
        Left::Wrote(TRANSCRIPT),
    ),
    (&["check"], TRANSCRIPT, 0, Left::Wrote(ACCEPTED)),
    (
        &["check", "transcript.json"],
        b"no JSON",
        1,
        Left::Wrote(ACCEPTED),
    ),
    (&["upgrade"], HELD, 0, Left::Wrote(UPGRADED)),
    (
        &["upgrade", "held.json"],
        b"no JSON",
        1,
        Left::Wrote(UPGRADED),
    ),
    (
        &["explain", "plan", "8"],
        b"",
        0,
        Left::Wrote(
            b"plan 8 BadHash\nThe hash is neither sum nor fnv1a32. Look at hash, which may be left out for fnv1a32.\n",
        ),
    ),
    (
        &["node", "--listen", "127.0.0.1:0", "--clients", "0"],
        b"",
        0,
        Left::Wrote(b"served 0\n"),
    ),
    (
        &[
            "proxy",
            "--config",
            "fleet.json",
            "--listen",
            "127.0.0.1:0",
            "--clients",
            "0",
        ],
        b"",
        1,
        Left::Wrote(b"served 0\n"),
    ),
    (
        &[
            "proxy",
            "--config",
            "fleet.json",
            "--listen",
            "127.0.0.1:0",
            "--metrics",
            "127.0.0.1:0",
            "--loops",
            "2",
            "--clients",
            "0",
        ],
        b"",
        1,
        Left::Wrote(b"served 0\n"),
    ),
    (
        &["plan", "--config", "no.json", "--at", "1000"],
        b"get k\r\n",
        1,
        Left::Told(1, b"migctl: file no.json\n"),
    ),
    (
        &["node", "--listen", "nowhere"],
        b"",
        0,
        Left::Told(1, b"migctl: net nowhere\n"),
    ),
    (
        &["node", "--listen", "nowhere", "--capacity", "0"],
        b"",
        0,
        Left::Told(1, b"migctl: node 1 ZeroCapacity\n"),
    ),
    (
        &["timeline", "--config", "fleet.json", "--readings", "x"],
        b"",
        0,
        Left::Told(2, b"migctl: words --readings\n"),
    ),
    (
        &["move"],
        b"get k\r\n",
        0,
        Left::Told(
            2,
            b"error: unrecognized subcommand 'move'\n\nUsage: migctl <COMMAND>\n\nFor more information, try '--help'.\n",
        ),
    ),
];

/// Asserts what the run of a row left.
fn expect_left(rt: &impl Abort, place: usize, ran: &Ran, left: &Left) {
    match left {
        Left::Wrote(output) => expect_row(rt, place, ran, 0, output, b""),
        Left::Told(status, faults) => expect_row(rt, place, ran, *status, b"", faults),
    }
}

/// Runs the words of a row, and asserts what they leave.
fn runs_as<
    R: Abort
        + Net<Listener = TcpListener, Stream = TcpStream>
        + Threads
        + Wait
        + Clock
        + RandomSource
        + Sync,
>(rt: &R, alloc: Global, place: usize, row: &Row) {
    let mut files = FilesAt::new(PLACES.as_slice());
    let (words, input, loads, left) = row;
    let ran = run_over(rt, alloc, words, &mut files, &mut OverReader::new(*input));
    expect_left(rt, place, &ran, left);
    is_in(rt, place, files.calls(), *loads);
}

#[test]
fn each_command_runs(rt: HostRuntime) {
    for (place, row) in ROWS.iter().enumerate() {
        runs_as(&rt, rt.alloc(), place, row);
    }
}
