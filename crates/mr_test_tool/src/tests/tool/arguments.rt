//! The program, from its arguments.
use super::{PLACES, Ran, expect_run, is};
use crate::tests::must;
use crate::tests::tool::files_at::FilesAt;
use mr_servers::HostServers;
use mr_text::{OverReader, OverWriter};
use mr_tool::run_arguments;
use std::alloc::Global;
use std::env::Args;
use std::io;
use std::net::{Net, TcpListener, TcpStream};
use std::random::RandomSource;
use std::sync::Wait;
use std::thread::Threads;
use std::time::Clock;

fn run_with<
    R: Net<Listener = TcpListener, Stream = TcpStream>
        + Threads
        + Wait
        + Clock
        + RandomSource
        + Sync,
>(rt: &R, alloc: Global, arguments: io::Result<Args<Global>>) -> Ran {
    let mut input = OverReader::new(&b"delete k\n"[..]);
    let mut output = OverWriter::new(Vec::new(alloc));
    let mut faults = OverWriter::new(Vec::new(alloc));
    let status = run_arguments(
        alloc,
        &mut HostServers::new(rt),
        arguments,
        &mut FilesAt::new(PLACES.as_slice()),
        &mut input,
        &mut output,
        &mut faults,
    );
    Ran {
        status,
        output: output.into_inner(),
        faults: faults.into_inner(),
    }
}

#[test]
fn words_are_the_arguments_but_the_first(rt: HostRuntime) {
    let alloc = rt.alloc();
    let mut arguments = Vec::new(alloc);
    for argument in ["plan", "plan", "--config", "fleet.json", "--at", "1200"] {
        must(
            &rt,
            arguments.push(must(&rt, String::from_str(alloc, argument))),
        );
    }
    let ran = run_with(&rt, alloc, Ok(arguments.into_iter()));
    let plan: &[u8] = b"phase new-only at 1200\nleg 0 new 7103\n";
    expect_run(&rt, &ran, 0, plan, b"");
    let none: Vec<String> = Vec::new(alloc);
    let ran = run_with(&rt, alloc, Ok(none.into_iter()));
    is(&rt, ran.status, 2);
}

#[test]
fn arguments_that_cannot_be_had_get_a_line(rt: HostRuntime) {
    let alloc = rt.alloc();
    let ran = run_with(&rt, alloc, Err(io::ErrorKind::InvalidData.into()));
    expect_run(&rt, &ran, 2, b"", b"migctl: words are not UTF-8\n");
    let ran = run_with(&rt, alloc, Err(io::ErrorKind::OutOfMemory.into()));
    expect_run(&rt, &ran, 1, b"", b"migctl: memory\n");
}
