//! Sessions at one proxy, whose new pool is 7101, 7102 and 7103. So `k` is kept by 7002 and 7103, `a` by 7002 and 7102, and
//! `b` by 7001 and 7103.
mod clocks;
mod differing;
mod ends;
mod faults;
mod losses;
mod memory;
mod noreply;
mod requests;
mod strangers;

use super::devices::{Given, Reads, reader, writer};
use crate::tests::{is_at, must};
use mr_clock::{Clock, ListClock};
use mr_desks::{Carrier, Carriers, Desk, DirectCarriers, RecordedProxy, WorkerError};
use mr_node::Ended;
use mr_proxy::Answer;
use mr_sessions::{Served, serve_client};
use mr_test_nodes::{Nodes, ToNode, carriers_to_all, make_nodes, recorded_proxy};
use std::alloc::{AllocError, Global};
use std::process::Abort;
use std::sync::Wait;

/// The nodes of the new pool.
const NEW: [&[u8]; 3] = [b"7101", b"7102", b"7103"];

/// A client, what it is served with, and how its session has to go.
#[derive(Clone, Copy)]
struct Row {
    /// What the proxy's clock shows, one reading after another; none where it fails.
    clock: &'static [Option<u64>],
    /// How many steps the proxy's book keeps at most.
    limit: u64,
    given: Given,
    sends: &'static [u8],
    ended: Result<Ended, WorkerError>,
    told: &'static str,
    reads: u64,
    /// The answers that are kept, each to a request that was issued.
    kept: &'static [Kept],
    /// How many requests are issued of which no answer is kept.
    unkept: u64,
}

/// An answer: at which reading its request was issued, how many legs that had, and whether it was given up.
#[derive(Clone, Copy, Debug, PartialEq, Eq)]
struct Kept {
    reading: u64,
    legs: usize,
    given_up: bool,
}

/// Input in one piece. No device fails, and there are reads enough.
const WHOLE: Given = Given {
    read_fails: 0,
    write_fails: 0,
    half_at: 0,
    length: 4096,
    turns: 20,
};

/// A client that sends nothing, before the migration.
const SILENT: Row = Row {
    clock: &[Some(999); 8],
    limit: 40,
    given: WHOLE,
    sends: b"",
    ended: Ok(Ended::Ended),
    told: "",
    reads: 1,
    kept: &[],
    unkept: 0,
};

/// The answer to a request of one leg, before the migration, in time.
const IN_TIME: Kept = Kept {
    reading: 999,
    legs: 1,
    given_up: false,
};

impl Kept {
    fn of(answer: &Answer) -> Kept {
        Kept {
            reading: answer.reading(),
            legs: answer.slots().len(),
            given_up: answer.given_up(),
        }
    }
}

/// A session, as it was served.
#[derive(Drop)]
struct Left {
    served: Served,
    written: Vec<u8>,
    reads: u64,
}

/// How a session went: how it ended, what its client was told, how often its reader was called, how many requests were
/// issued, and how many answers are kept.
#[derive(Clone, Copy, Debug, PartialEq, Eq)]
struct Went<'a> {
    ended: Result<Ended, WorkerError>,
    told: &'a str,
    reads: u64,
    issued: u64,
    kept: u64,
}

/// Serves a client that sends this, over devices that are given so. Its answers need no memory of the writer once there is
/// some at first.
fn serve<C: Carrier, D: Desk<C>, K: Clock, L: Carriers<C>, R: Wait>(
    rt: &R,
    alloc: Global,
    desk: &D,
    clock: &mut K,
    carriers: &mut L,
    sends: &[u8],
    given: Given,
) -> Result<Left, AllocError> {
    let reads = Reads::of(sends.len());
    let mut reader = reader(sends, &reads, given);
    let mut writer = writer(Vec::with_capacity(alloc, 256)?, given);
    let served = serve_client(
        rt,
        alloc,
        desk,
        clock,
        &mut reader,
        &mut writer,
        carriers,
        given.turns,
    );
    Ok(Left {
        served,
        written: writer.into_inner().into_inner().kept,
        reads: reads.calls.get(),
    })
}

/// Asserts how the session of a row went.
fn went_so(rt: &impl Abort, number: usize, left: &Left, row: &Row) {
    let went = Went {
        ended: left.served.ended,
        told: must(rt, str::from_utf8(&left.written)),
        reads: left.reads,
        issued: left.served.share.count(),
        kept: left.served.answers.len() as u64,
    };
    let kept = row.kept.len() as u64;
    let wanted = Went {
        ended: row.ended,
        told: row.told,
        reads: row.reads,
        issued: kept.wrapping_add(row.unkept),
        kept,
    };
    is_at(rt, number, "session", &went, &wanted);
}

/// Asserts which answers the session of a row kept.
fn kept_so(rt: &impl Abort, number: usize, left: &Left, row: &Row) {
    for (answer, kept) in left.served.answers.iter().zip(row.kept) {
        is_at(rt, number, "answer", &Kept::of(answer), kept);
    }
}

/// Asserts that the requests of a session are numbered from 0.
fn are_numbered(rt: &impl Abort, number: usize, left: &Left) {
    let mut wanted = 0_u64;
    for answer in &left.served.answers {
        is_at(rt, number, "request", &answer.op().number, &wanted);
        wanted = wanted.wrapping_add(1);
    }
}

/// Asserts how the session of a row goes at a desk.
fn goes_so<C: Carrier, D: Desk<C>, L: Carriers<C>, R: Wait + Abort>(
    rt: &R,
    alloc: Global,
    desk: &D,
    carriers: &mut L,
    number: usize,
    row: &Row,
) -> Left {
    let mut clock = ListClock::new(must(rt, row.clock.to_vec(alloc)));
    let left = must(
        rt,
        serve(rt, alloc, desk, &mut clock, carriers, row.sends, row.given),
    );
    went_so(rt, number, &left, row);
    kept_so(rt, number, &left, row);
    left
}

/// Carriers to the caches of both pools, which a session uses in its own thread.
fn direct<'x, R: Wait>(
    rt: &'x R,
    alloc: Global,
    nodes: &'x Nodes,
) -> Result<DirectCarriers<ToNode<'x, R>>, AllocError> {
    Ok(DirectCarriers::new(alloc, carriers_to_all(rt, alloc, nodes)?))
}

/// Asserts how the session of a row goes at a fresh proxy, over these caches.
fn goes_over<'x, R: Wait + Abort>(
    rt: &'x R,
    alloc: Global,
    nodes: &'x Nodes,
    number: usize,
    row: &Row,
) {
    let desk: RecordedProxy<ToNode<'x, R>> = must(rt, recorded_proxy(alloc, 0, &NEW, row.limit));
    let mut carriers = must(rt, direct(rt, alloc, nodes));
    let left = goes_so(rt, alloc, &desk, &mut carriers, number, row);
    are_numbered(rt, number, &left);
}

/// Asserts how the session of each row goes at a fresh proxy, over fresh caches.
fn are_rows<R: Wait + Abort>(rt: &R, alloc: Global, rows: &[Row]) {
    for (number, row) in rows.iter().enumerate() {
        let nodes = must(rt, make_nodes(alloc, 3));
        goes_over(rt, alloc, &nodes, number, row);
    }
}
