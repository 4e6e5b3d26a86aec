//! Refused memory: what a client may be told then, and that the proxy's book stands.
use super::{NEW, WHOLE, direct, serve};
use crate::tests::{is, must};
use mr_clock::FixedClock;
use mr_desks::{Carrier, RecordedProxy, Share, WorkerError, close};
use mr_node::Ended;
use mr_proxy::Answer;
use mr_sessions::{Served, serve_client};
use mr_test_nodes::{Nodes, ToNode, make_nodes, recorded_proxy};
use mr_test_support::{grant_memory, refuse_memory};
use mr_text::{OverReader, OverWriter};
use std::alloc::Global;
use std::env::Env;
use std::process::Abort;
use std::sync::Wait;

/// How a session may end, what its client may be told then, and how many requests it may have issued.
type Outcome = (Result<Ended, WorkerError>, &'static [u8], u64);

/// The first is where no memory is refused.
static OUTCOMES: [Outcome; 10] = [
    (Ok(Ended::Quit), b"STORED\r\nVALUE k 0 1\r\nv\r\nEND\r\n", 2),
    // The issue of the set was refused, or that of the get.
    (Ok(Ended::Quit), b"SERVER_ERROR out of memory\r\nEND\r\n", 1),
    (
        Ok(Ended::Quit),
        b"STORED\r\nSERVER_ERROR out of memory\r\n",
        1,
    ),
    // The node had no memory for it.
    (Ok(Ended::Quit), b"SERVER_ERROR out of memory\r\nEND\r\n", 2),
    (
        Ok(Ended::Quit),
        b"STORED\r\nSERVER_ERROR out of memory\r\n",
        2,
    ),
    // The carriers had no memory to hold what comes back.
    (Ok(Ended::Quit), b"SERVER_ERROR leg lost\r\nEND\r\n", 2),
    // There was none to put into the book what came back, though the node had done it.
    (
        Ok(Ended::Quit),
        b"SERVER_ERROR leg lost\r\nVALUE k 0 1\r\nv\r\nEND\r\n",
        2,
    ),
    (Ok(Ended::Quit), b"STORED\r\nSERVER_ERROR leg lost\r\n", 2),
    // There was no memory to read with, or none to keep the answer in.
    (Err(WorkerError::OutOfMemory), b"", 0),
    (Err(WorkerError::OutOfMemory), b"STORED\r\n", 1),
];

/// What the client sends.
const SENDS: &[u8] = b"set k 0 0 1\r\nv\r\nget k\r\nquit\r\n";

/// Which of the outcomes a session comes to. Each request that it issued has its answer.
fn place_of(served: &Served, written: &[u8]) -> Option<usize> {
    let issued = served.share.count();
    if served.answers.len() as u64 != issued {
        return None;
    }
    let there = (served.ended, written, issued);
    for (number, outcome) in OUTCOMES.iter().enumerate() {
        if *outcome == there {
            return Some(number);
        }
    }
    None
}

/// What came of a session: which of the outcomes it is, and whether the proxy's book stands with its share and its answers.
type Came = (Option<usize>, bool);

/// The session of a client at a fresh proxy, over these caches.
fn serve_over<'x, R: Wait + Abort + Env>(rt: &'x R, alloc: Global, nodes: &'x Nodes) -> Came {
    let desk: RecordedProxy<ToNode<'x, R>> = must(rt, recorded_proxy(alloc, 0, &NEW, 20));
    let mut carriers = must(rt, direct(rt, alloc, nodes));
    let mut reader = OverReader::new(SENDS);
    let mut writer = OverWriter::new(must(rt, Vec::with_capacity(alloc, 256)));
    let clock = &mut FixedClock(999);
    refuse_memory(rt);
    let served = serve_client(
        rt,
        alloc,
        &desk,
        clock,
        &mut reader,
        &mut writer,
        &mut carriers,
        20,
    );
    grant_memory(rt);
    let place = place_of(&served, &writer.into_inner());
    let Served { share, answers, .. } = served;
    (place, stands(rt, alloc, desk, share, answers))
}

/// Whether the book of a proxy stands with what its one session did.
fn stands<C: Carrier>(
    rt: &impl Abort,
    alloc: Global,
    desk: RecordedProxy<C>,
    share: Share,
    answers: Vec<Answer>,
) -> bool {
    let (mut shares, mut sessions) = (Vec::new(alloc), Vec::new(alloc));
    must(rt, shares.push(share));
    must(rt, sessions.push(answers));
    close(alloc, desk, &shares, &sessions).is_ok()
}

#[test]
fn refused_memory_is_answered_or_ends_the_session(rt: HostRuntime) {
    let nodes = must(&rt, make_nodes(rt.alloc(), 3));
    let (place, stands) = serve_over(&rt, rt.alloc(), &nodes);
    is(&rt, "an outcome", &place.is_some(), &true);
    is(&rt, "a book that stands", &stands, &true);
    if place != Some(0) {
        let nodes = must(&rt, make_nodes(rt.alloc(), 3));
        is(
            &rt,
            "the next outcome",
            &serve_over(&rt, rt.alloc(), &nodes),
            &(Some(0), true),
        );
    }
}

/// What a session of a client that sends nothing may come to: how it ends, and how often it reads. The input is read to its
/// end; or memory for the buffer was refused, and nothing is read.
static IDLE: [(Result<Ended, WorkerError>, u64); 2] = [
    (Ok(Ended::Ended), 1),
    (Err(WorkerError::OutOfMemory), 0),
];

/// What it comes to, over these caches; nothing where memory was refused for the writer. It issues and writes nothing.
fn serve_idle<'x, R: Wait + Abort + Env>(
    rt: &'x R,
    alloc: Global,
    nodes: &'x Nodes,
) -> Option<(Result<Ended, WorkerError>, u64)> {
    let desk: RecordedProxy<ToNode<'x, R>> = must(rt, recorded_proxy(alloc, 0, &NEW, 20));
    let mut carriers = must(rt, direct(rt, alloc, nodes));
    let clock = &mut FixedClock(999);
    refuse_memory(rt);
    let served = serve(rt, alloc, &desk, clock, &mut carriers, b"", WHOLE);
    grant_memory(rt);
    let left = served.ok()?;
    is(rt, "issued", &left.served.share.count(), &0);
    is(rt, "answers", &left.served.answers.len(), &0);
    is(rt, "written", &left.written.len(), &0);
    Some((left.served.ended, left.reads))
}

#[test]
fn refused_memory_for_the_buffer_ends_before_the_first_read(rt: HostRuntime) {
    let nodes = must(&rt, make_nodes(rt.alloc(), 3));
    let first = serve_idle(&rt, rt.alloc(), &nodes);
    if first == Some(IDLE[0]) {
        return;
    }
    is(
        &rt,
        "first",
        &(first == None || first == Some(IDLE[1])),
        &true,
    );
    is(
        &rt,
        "next",
        &serve_idle(&rt, rt.alloc(), &nodes),
        &Some(IDLE[0]),
    );
}
