//! Memory that is refused while requests are begun. Each way goes on with ample memory.
use super::playing::{Run, is_told};
use super::{WIDE, holds, loop_of, must};
use mr_loop::{LinkEnd, Pause};
use mr_test_support::{grant_memory, refuse_memory};
use std::alloc::AllocError;
use std::env::Env;
use std::process::Abort;

/// Sends a client's request where memory may be refused.
fn sends(
    rt: &(impl Abort + Env),
    run: &mut Run,
    client: usize,
    piece: &[u8],
) -> Result<Pause, AllocError> {
    if client >= run.proxy.places() {
        rt.panic("no such place");
    }
    refuse_memory(rt);
    let pause = run.proxy.on_client_bytes(client, 1000, 0, piece);
    grant_memory(rt);
    pause
}

/// Goes on with what a client sent, until all of it is begun or denied.
fn goes_on(
    rt: &impl Abort,
    run: &mut Run,
    client: usize,
    piece: &[u8],
    first: Result<Pause, AllocError>,
) {
    if client >= run.proxy.places() {
        rt.panic("no such place");
    }
    let pause = match first {
        Ok(Pause::NeedsMemory) => must(rt, run.proxy.on_client_bytes(client, 1000, 0, b"")),
        Ok(pause) => pause,
        Err(_) => must(rt, run.proxy.on_client_bytes(client, 1000, 0, piece)),
    };
    holds(rt, 0, pause == Pause::NeedsBytes, true);
}

fn comes_up(rt: &impl Abort, run: &mut Run, node: usize) {
    if node >= run.proxy.links() {
        rt.panic("no such link");
    }
    run.proxy.on_link_up(node, 0);
}

/// Whether what stands to be written to a node ends so.
fn is_asked_last(rt: &impl Abort, run: &Run, node: usize, text: &[u8]) -> bool {
    if node >= run.proxy.links() {
        rt.panic("no such link");
    }
    run.proxy.link_output(node).ends_with(text)
}

fn says(rt: &impl Abort, run: &mut Run, node: usize, piece: &[u8]) {
    if node >= run.proxy.links() {
        rt.panic("no such link");
    }
    let end = run.proxy.on_link_bytes(node, 0, piece);
    holds(rt, 1, end == LinkEnd::Whole, true);
}

/// Asserts that the client is told its own reply where its request went, else that memory was refused.
fn is_answered(rt: &impl Abort, run: &mut Run, client: usize, went: bool, reply: &[u8]) {
    let refused = b"SERVER_ERROR out of memory\r\n";
    let wanted = if went { reply } else { refused.as_slice() };
    is_told(rt, 2, &mut run.proxy, client, wanted);
}

/// A delete of both pools, and another client's get over one of the links. Each goes whole or not at all, and each reply is
/// that of its own leg.
#[test]
fn refused_memory_sends_all_legs_or_none(rt: HostRuntime) {
    let mut run = Run {
        proxy: loop_of(&rt, rt.alloc(), 8, WIDE),
        reading: 1000,
        now: 0,
    };
    comes_up(&rt, &mut run, 1);
    comes_up(&rt, &mut run, 4);
    let first = sends(&rt, &mut run, 0, b"delete k\r\n");
    goes_on(&rt, &mut run, 0, b"delete k\r\n", first);
    let deletes = is_asked_last(&rt, &run, 1, b"delete k\r\n");
    holds(
        &rt,
        3,
        is_asked_last(&rt, &run, 4, b"delete k\r\n"),
        deletes,
    );
    let second = sends(&rt, &mut run, 1, b"get a\r\n");
    goes_on(&rt, &mut run, 1, b"get a\r\n", second);
    let gets = is_asked_last(&rt, &run, 1, b"get a\r\n");
    if deletes {
        says(&rt, &mut run, 4, b"DELETED\r\n");
        says(&rt, &mut run, 1, b"DELETED\r\n");
    }
    if gets {
        says(&rt, &mut run, 1, b"VALUE a 0 1\r\ny\r\nEND\r\n");
    }
    is_answered(&rt, &mut run, 0, deletes, b"DELETED\r\n");
    is_answered(&rt, &mut run, 1, gets, b"VALUE a 0 1\r\ny\r\nEND\r\n");
}
