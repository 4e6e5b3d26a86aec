//! Refused memory.
use super::{AMPLE, BY_BYTES, Came, Told, link};
use crate::tests::devices::Reads;
use crate::tests::{is, must};
use mr_desks::{Carrier, WorkerError};
use mr_test_support::{grant_memory, refuse_memory};
use std::alloc::Global;
use std::env::Env;
use std::process::Abort;

/// What a get and a delete may come to, whose answers come a byte at a time. Both are answered, or the one whose memory was
/// refused says so and breaks the link.
static OUTCOMES: [[Came; 2]; 3] = [
    [Came::Hit, Came::Deleted],
    [
        Came::Fault(WorkerError::OutOfMemory),
        Came::Fault(WorkerError::LinkBroken),
    ],
    [Came::Hit, Came::Fault(WorkerError::OutOfMemory)],
];

/// What they come to.
fn carry_both(rt: &(impl Abort + Env), alloc: Global) -> [Came; 2] {
    let get = must(rt, Told::Get.sheet(alloc));
    let delete = must(rt, Told::Delete.sheet(alloc));
    let kept = must(rt, Vec::with_capacity(alloc, 64));
    let input = b"VALUE k 5 1\r\nv\r\nEND\r\nDELETED\r\n";
    let reads = Reads::of(input.len());
    let mut link = link(alloc, input, &reads, kept, BY_BYTES);
    refuse_memory(rt);
    let first = Came::of(&link.carry(&get));
    let second = Came::of(&link.carry(&delete));
    grant_memory(rt);
    [first, second]
}

#[test]
fn refused_memory_breaks_a_link(rt: HostRuntime) {
    let came = carry_both(&rt, rt.alloc());
    if !OUTCOMES.contains(&came) {
        is(&rt, "both", &came, &OUTCOMES[0]);
    }
}

/// What a get may come to at a node that closes the connection, how often its link wrote, and how often it read. The request
/// goes out and the end is read; or memory for the buffer was refused, and neither device is touched.
static CLOSED: [(Came, usize, u64); 2] = [
    (Came::Fault(WorkerError::LinkBroken), 1, 1),
    (Came::Fault(WorkerError::OutOfMemory), 0, 0),
];

/// What it comes to.
fn carry_to_closed(rt: &(impl Abort + Env), alloc: Global) -> (Came, usize, u64) {
    let get = must(rt, Told::Get.sheet(alloc));
    let kept = must(rt, Vec::with_capacity(alloc, 64));
    let reads = Reads::of(0);
    let mut link = link(alloc, b"", &reads, kept, AMPLE);
    refuse_memory(rt);
    let came = Came::of(&link.carry(&get));
    grant_memory(rt);
    let (_, writer) = link.into_parts();
    (
        came,
        writer.into_inner().into_inner().calls,
        reads.calls.get(),
    )
}

#[test]
fn refused_memory_for_the_buffer_touches_no_device(rt: HostRuntime) {
    let came = carry_to_closed(&rt, rt.alloc());
    if came != CLOSED[0] {
        is(&rt, "the leg", &came, &CLOSED[1]);
    }
}
