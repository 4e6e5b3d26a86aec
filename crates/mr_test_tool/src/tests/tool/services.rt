//! Nodes and proxies as commands that can't begin. What their clients see is looked at from outside.
mod beginnings;
mod seedless;

use super::{Ran, expect_run, run_over};
use crate::tests::tool::files_at::{FilesAt, Place};
use mr_text::{FailsAt, OverReader};
use std::alloc::{AllocError, Global};
use std::net::{Net, SocketAddr, TcpListener, TcpStream};
use std::random::RandomSource;
use std::sync::Wait;
use std::thread::Threads;
use std::time::Clock;

/// Runs a command over files. It doesn't read its input: a read would fail.
fn run<
    R: Net<Listener = TcpListener, Stream = TcpStream>
        + Threads
        + Wait
        + Clock
        + RandomSource
        + Sync,
>(rt: &R, alloc: Global, places: &[Place], words: &[&str]) -> Ran {
    let mut unread = FailsAt::new(OverReader::new(&b""[..]), 1);
    run_over(rt, alloc, words, &mut FilesAt::new(places), &mut unread)
}

/// The address as words have it.
fn word_of(alloc: Global, address: SocketAddr) -> Result<String, AllocError> {
    format!(in alloc; "{address}")
}
