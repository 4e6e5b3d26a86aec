//! What is read of the input, byte by byte.
use super::{PLACES, SCRIPT, TRANSCRIPT, byte_by_byte, expect_row, expect_run, is, run_over};
use crate::tests::must;
use crate::tests::tool::files_at::FilesAt;
use mr_text::{FailsAt, OverReader, Source};
use std::alloc::Global;
use std::net::{Net, TcpListener, TcpStream};
use std::process::Abort;
use std::random::RandomSource;
use std::sync::Wait;
use std::thread::Threads;
use std::time::Clock;

const PLAN: &[&str] = &["plan", "--config", "fleet.json", "--at", "999"];

const LEGS: &[u8] = b"phase old-only at 999\nleg 0 old 7002\n";

/// A request, and the beginning of another.
const REQUESTS: &[u8] = b"get k\r\nget";

/// Asserts that a run ends with a fault of its input where that fails at a call.
fn fails_at<
    R: Abort
        + Net<Listener = TcpListener, Stream = TcpStream>
        + Threads
        + Wait
        + Clock
        + RandomSource
        + Sync,
>(rt: &R, alloc: Global, words: &[&str], bytes: &[u8], call: u64) {
    let mut input = FailsAt::new(byte_by_byte(bytes), call);
    let mut files = FilesAt::new(PLACES.as_slice());
    let ran = run_over(rt, alloc, words, &mut files, &mut input);
    expect_row(rt, call as usize, &ran, 1, b"", b"migctl: input\n");
}

#[test]
fn each_read_fails(rt: HostRuntime) {
    for call in 1..8 {
        fails_at(&rt, rt.alloc(), PLAN, REQUESTS, call);
        fails_at(&rt, rt.alloc(), &["run"], SCRIPT, call);
        fails_at(&rt, rt.alloc(), &["check"], TRANSCRIPT, call);
        fails_at(&rt, rt.alloc(), &["upgrade"], SCRIPT, call);
    }
}

/// Runs a plan over an input, and asserts what is left.
fn plans<
    R: Abort
        + Net<Listener = TcpListener, Stream = TcpStream>
        + Threads
        + Wait
        + Clock
        + RandomSource
        + Sync,
    I: Source,
>(rt: &R, alloc: Global, input: &mut I, status: u8, output: &[u8], faults: &[u8]) {
    let mut files = FilesAt::new(PLACES.as_slice());
    let ran = run_over(rt, alloc, PLAN, &mut files, input);
    expect_run(rt, &ran, status, output, faults);
}

/// The request is whole behind the seventh read, and the eighth, which fails, is another run's first.
#[test]
fn nothing_is_read_behind_a_request(rt: HostRuntime) {
    let mut input = FailsAt::new(byte_by_byte(REQUESTS), 8);
    plans(&rt, rt.alloc(), &mut input, 0, LEGS, b"");
    plans(&rt, rt.alloc(), &mut input, 1, b"", b"migctl: input\n");
}

/// The longest request: a line of 8,192 bytes and a block of 1,048,576, each with its line end.
fn longest_request(rt: &impl Abort, alloc: Global) -> Vec<u8> {
    let mut request = must(rt, Vec::from_slice(alloc, b"set k 0 0 1048576"));
    must(rt, request.resize(8192, b' '));
    must(rt, request.extend_from_slice(b"\r\n"));
    must(rt, request.resize(1_056_770, b'v'));
    must(rt, request.extend_from_slice(b"\r\n"));
    request
}

#[test]
fn longest_request_is_read_byte_by_byte(rt: HostRuntime) {
    let alloc = rt.alloc();
    let mut request = longest_request(&rt, alloc);
    is(&rt, request.len(), 1_056_772);
    plans(
        &rt,
        alloc,
        &mut byte_by_byte(request.as_slice()),
        0,
        LEGS,
        b"",
    );
    let _ = request.pop();
    let line = b"migctl: text 8 Truncated\n";
    plans(
        &rt,
        alloc,
        &mut byte_by_byte(request.as_slice()),
        1,
        b"",
        line,
    );
}
