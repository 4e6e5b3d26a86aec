//! What a loop counts.
use super::playing::Step::{self, *};
use super::playing::{Run, play};
use super::{WIDE, is, number_is};
use mr_loop::{LinkCounts, LinkEnd, Pause};
use std::process::Abort;

/// A get of two keys before the start, one of which is found; a delete of both pools; a set whose node fails, and one that
/// is given up since its link breaks; a get that has no link; one that is under way.
static ALL_KINDS: [Step; 14] = [
    Sends(0, b"get k b\r\n", Pause::NeedsBytes),
    At(100),
    Says(1, b"VALUE k 0 1\r\nx\r\nEND\r\n", LinkEnd::Whole),
    At(101),
    Says(0, b"END\r\n", LinkEnd::Whole),
    Reads(1000),
    Sends(
        0,
        b"delete k\r\nset b 0 0 1\r\nx\r\nset k 0 0 1\r\nx\r\n",
        Pause::NeedsBytes,
    ),
    At(201),
    Says(1, b"DELETED\r\n", LinkEnd::Whole),
    Says(4, b"DELETED\r\n", LinkEnd::Whole),
    Says(0, b"SERVER_ERROR out of memory\r\n", LinkEnd::Whole),
    At(301),
    Breaks(1),
    Sends(0, b"get a\r\nget b\r\n", Pause::NeedsBytes),
];

/// Asserts what came of a link's legs and connections.
fn link_is(rt: &impl Abort, step: usize, counts: LinkCounts, wanted: (u64, u64, u64, u64, u64)) {
    let found = (
        counts.dials,
        counts.breaks,
        counts.carried,
        counts.lost,
        counts.times.micros,
    );
    is(rt, step, found, wanted);
}

fn links_are(rt: &impl Abort, run: &Run) {
    if run.proxy.links() < 5 {
        rt.panic("too few links");
    }
    link_is(rt, 20, run.proxy.link_counts(0), (1, 0, 2, 0, 201));
    link_is(rt, 21, run.proxy.link_counts(1), (1, 1, 2, 2, 400));
    link_is(rt, 22, run.proxy.link_counts(2), (1, 0, 0, 0, 0));
    link_is(rt, 23, run.proxy.link_counts(4), (1, 0, 1, 0, 100));
    let times = run.proxy.link_counts(1).times.counts;
    number_is(rt, 24, times[0], 2);
    number_is(rt, 25, times[1], 1);
}

fn answers_are(rt: &impl Abort, run: &Run) {
    let counts = run.proxy.counts();
    let answers = counts.answers;
    is(rt, 30, (answers.hits, answers.misses), (1, 1));
    is(
        rt,
        31,
        (answers.stored, answers.deleted, answers.not_found),
        (0, 1, 0),
    );
    is(
        rt,
        32,
        (answers.leg_lost, answers.busy, answers.out_of_memory),
        (2, 0, 1),
    );
    is(rt, 33, (answers.clock_fault, answers.other_fault), (0, 0));
    is(
        rt,
        34,
        (counts.under_way, counts.last_issue),
        (1, Some(1000)),
    );
}

fn requests_are(rt: &impl Abort, run: &Run) {
    let requests = run.proxy.counts().requests;
    is(
        rt,
        40,
        (requests.gets.old_only, requests.gets.both_read_old),
        (1, 1),
    );
    is(
        rt,
        41,
        (requests.sets.old_only, requests.sets.both_read_old),
        (0, 2),
    );
    is(
        rt,
        42,
        (requests.deletes.old_only, requests.deletes.both_read_old),
        (0, 1),
    );
}

#[test]
fn what_happened_is_counted(rt: HostRuntime) {
    let run = play(&rt, rt.alloc(), 8, WIDE, &ALL_KINDS);
    links_are(&rt, &run);
    answers_are(&rt, &run);
    requests_are(&rt, &run);
}
