//! What is left where an output fails.
use super::{ACCEPTED, HELD, PLACES, SCRIPT, TRANSCRIPT, UPGRADED, is_in};
use crate::tests::tool::files_at::FilesAt;
use mr_servers::HostServers;
use mr_test_support::TakesHalf;
use mr_text::{OverReader, OverWriter};
use mr_tool::run_words;
use std::alloc::Global;
use std::net::{Net, TcpListener, TcpStream};
use std::process::Abort;
use std::random::RandomSource;
use std::sync::Wait;
use std::thread::Threads;
use std::time::Clock;

/// What is handed to a device: a text that it takes whole, or takes half of, and then fails; or nothing.
enum Handed {
    Whole(&'static [u8]),
    Half(&'static [u8]),
    Nothing,
}

/// A run: its words and its input, its status, and what is handed to its output and to its faults.
type Row = (&'static [&'static str], &'static [u8], u8, Handed, Handed);

const PLAN: &[&str] = &["plan", "--config", "fleet.json", "--at", "999"];

const GET: &[u8] = b"get k\r\n";

const LEGS: &[u8] = b"phase old-only at 999\nleg 0 old 7002\n";

const WRONG: &[u8] = b"migctl: text 4 WrongWords\n";

const TIMELINE: &[&str] = &["timeline", "--config", "fleet.json"];

const TIMES: &[u8] =
    b"old-only 0 999\nboth-read-old 1000 1099\nboth-read-new 1100 1199\nnew-only 1200\n";

const ABSENT: &[&str] = &["timeline", "--config", "none.json"];

const NO_FILE: &[u8] = b"migctl: file none.json\n";

const FAILED: &[u8] = b"migctl: output\n";

static ROWS: [Row; 16] = [
    (PLAN, GET, 0, Handed::Whole(LEGS), Handed::Nothing),
    (PLAN, GET, 1, Handed::Half(LEGS), Handed::Whole(FAILED)),
    (PLAN, GET, 1, Handed::Half(LEGS), Handed::Half(FAILED)),
    (PLAN, b"get\r\n", 1, Handed::Nothing, Handed::Whole(WRONG)),
    (PLAN, b"get\r\n", 1, Handed::Nothing, Handed::Half(WRONG)),
    (TIMELINE, b"", 0, Handed::Whole(TIMES), Handed::Nothing),
    (TIMELINE, b"", 1, Handed::Half(TIMES), Handed::Whole(FAILED)),
    (ABSENT, b"", 1, Handed::Nothing, Handed::Whole(NO_FILE)),
    (ABSENT, b"", 1, Handed::Nothing, Handed::Half(NO_FILE)),
    (
        &["run"],
        SCRIPT,
        1,
        Handed::Half(TRANSCRIPT),
        Handed::Whole(FAILED),
    ),
    (
        &["check"],
        TRANSCRIPT,
        1,
        Handed::Half(ACCEPTED),
        Handed::Whole(FAILED),
    ),
    (
        &["upgrade"],
        HELD,
        1,
        Handed::Half(UPGRADED),
        Handed::Whole(FAILED),
    ),
    (
        &["explain", "clock", "1"],
        b"",
        1,
        Handed::Half(
            b"clock 1 ClockFault\nThe clock gave no reading. Look at the clock of the machine.\n",
        ),
        Handed::Whole(FAILED),
    ),
    (
        &["node", "--listen", "127.0.0.1:0", "--clients", "0"],
        b"",
        1,
        Handed::Half(b"served 0\n"),
        Handed::Whole(FAILED),
    ),
    (
        &["timeline", "--config", "fleet.json", "--readings", "x"],
        b"",
        2,
        Handed::Nothing,
        Handed::Half(b"migctl: words --readings\n"),
    ),
    (
        &["move"],
        b"",
        2,
        Handed::Nothing,
        Handed::Half(
            b"error: unrecognized subcommand 'move'\n\nUsage: migctl <COMMAND>\n\nFor more information, try '--help'.\n",
        ),
    ),
];

/// A device to which that is to be handed.
fn device(alloc: Global, handed: &Handed) -> OverWriter<TakesHalf> {
    let fails_at = match handed {
        Handed::Whole(_) => 2,
        _ => 1,
    };
    OverWriter::new(TakesHalf::new(alloc, fails_at))
}

/// What a device keeps of it, and how often it is called: a second time where it took half.
fn bytes_and_calls(handed: &Handed) -> (&'static [u8], usize) {
    match handed {
        Handed::Whole(text) => (text, 1),
        Handed::Half(text) => (&text[..text.len() / 2], 2),
        Handed::Nothing => (b"", 0),
    }
}

/// Asserts what a device was handed.
fn expect_device(rt: &impl Abort, place: usize, device: OverWriter<TakesHalf>, handed: &Handed) {
    let device = device.into_inner();
    let (bytes, calls) = bytes_and_calls(handed);
    is_in(rt, place, device.kept.as_slice(), bytes);
    is_in(rt, place, device.calls, calls);
}

/// Runs the words of a row, and asserts what they leave.
fn runs_as<
    R: Abort
        + Net<Listener = TcpListener, Stream = TcpStream>
        + Threads
        + Wait
        + Clock
        + RandomSource
        + Sync,
>(rt: &R, alloc: Global, place: usize, row: &Row) {
    let (words, input, wanted, written, told) = row;
    let mut output = device(alloc, written);
    let mut faults = device(alloc, told);
    let status = run_words(
        alloc,
        &mut HostServers::new(rt),
        words,
        &mut FilesAt::new(PLACES.as_slice()),
        &mut OverReader::new(*input),
        &mut output,
        &mut faults,
    );
    is_in(rt, place, status, *wanted);
    expect_device(rt, place, output, written);
    expect_device(rt, place, faults, told);
}

#[test]
fn each_write_fails(rt: HostRuntime) {
    for (place, row) in ROWS.iter().enumerate() {
        runs_as(&rt, rt.alloc(), place, row);
    }
}
