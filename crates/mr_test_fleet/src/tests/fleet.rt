//! Fleets of two proxies over five caches. The new pool is 7101, 7102 and 7103. So `k` is kept by 7002 and 7103, `a` by 7002
//! and 7102, and `b` by 7001 and 7103.
mod at_once;
mod clocks;
mod many;
mod memory;
mod phases;

use super::{is, is_at, must};
use mr_clock::Clock;
use mr_desks::{Carrier, Gate, Share};
use mr_fleet::{FleetClient, FleetEnd, FleetProxy, run_fleet};
use mr_node::Ended;
use mr_proxy::Answer;
use mr_test_nodes::recorded_proxy;
use mr_text::{Sink, Source};
use std::alloc::Global;
use std::process::Abort;
use std::sync::Wait;
use std::thread::Threads;

/// The nodes of the new pool.
const NEW: [&[u8]; 3] = [b"7101", b"7102", b"7103"];

/// The proxy of this number, with these clients and these carriers.
fn proxy_of<C: Carrier, K: Clock, S: Source, W: Sink>(
    rt: &impl Abort,
    alloc: Global,
    number: u32,
    clients: Vec<FleetClient<K, S, W>>,
    carriers: Vec<Vec<C>>,
) -> FleetProxy<C, K, S, W> {
    FleetProxy {
        desk: must(rt, recorded_proxy(alloc, number, &NEW, 100_000)),
        clients,
        carriers,
    }
}

/// Runs a fleet of two proxies.
fn run<
    C: Carrier + Send + Drop,
    K: Clock + Send + Drop,
    S: Source + Send + Drop,
    W: Sink + Send + Drop,
    G: Gate + Sync,
    R: Threads + Wait + Abort + Sync,
>(
    rt: &R,
    alloc: Global,
    first: FleetProxy<C, K, S, W>,
    second: FleetProxy<C, K, S, W>,
    gate: &G,
) -> Vec<FleetEnd<C, K, S, W>> {
    let mut proxies = Vec::new(alloc);
    must(rt, proxies.push(first));
    must(rt, proxies.push(second));
    let ends = must(rt, run_fleet(rt, alloc, proxies, gate));
    is(rt, "ends", &ends.len(), &2);
    ends
}

/// Asserts how many requests each client of a proxy issued.
fn were_issued(rt: &impl Abort, proxy: usize, shares: &[Share], issued: &[u64]) {
    is_at(rt, proxy, "shares", &shares.len(), &issued.len());
    for (share, count) in shares.iter().zip(issued) {
        is_at(rt, proxy, "issued", &share.count(), count);
    }
}

/// Asserts that a client of a proxy took so many answers, none of which was given up.
fn was_answered(rt: &impl Abort, proxy: usize, answers: &[Answer], count: u64) {
    is_at(rt, proxy, "answers", &(answers.len() as u64), &count);
    for answer in answers {
        is_at(rt, proxy, "given up", &answer.given_up(), &false);
    }
}

/// Asserts the same of each client of a proxy.
fn were_answered(rt: &impl Abort, proxy: usize, sessions: &[Vec<Answer>], issued: &[u64]) {
    is_at(rt, proxy, "sessions", &sessions.len(), &issued.len());
    for (answers, count) in sessions.iter().zip(issued) {
        was_answered(rt, proxy, answers, *count);
    }
}

/// Asserts that a proxy's book stands with what its clients did, and that each client read and wrote to the end, issued so
/// many requests, and has the answer to each.
fn went_well<C: Carrier, K: Clock, S: Source, W: Sink>(
    rt: &impl Abort,
    proxy: usize,
    end: &FleetEnd<C, K, S, W>,
    issued: &[u64],
) {
    is_at(rt, proxy, "closed", &end.book.is_ok(), &true);
    were_issued(rt, proxy, &end.shares, issued);
    were_answered(rt, proxy, &end.answers, issued);
    is_at(rt, proxy, "clients", &end.ends.len(), &issued.len());
    for client in &end.ends {
        is_at(rt, proxy, "client", &client.result, &Ok(Ended::Ended));
    }
}

/// Runs a fleet of two proxies, and asserts that its clients went well: how many requests each of either proxy issued.
fn goes_well<
    C: Carrier + Send + Drop,
    K: Clock + Send + Drop,
    S: Source + Send + Drop,
    W: Sink + Send + Drop,
    G: Gate + Sync,
    R: Threads + Wait + Abort + Sync,
>(
    rt: &R,
    alloc: Global,
    first: FleetProxy<C, K, S, W>,
    second: FleetProxy<C, K, S, W>,
    gate: &G,
    issued: &[&[u64]],
) {
    let ends = run(rt, alloc, first, second, gate);
    for (proxy, (end, counts)) in ends.iter().zip(issued).enumerate() {
        went_well(rt, proxy, end, counts);
    }
}
