//! The clocks of caches in memory: each command is performed at a reading of its own.
use super::{proxy_of, went_well};
use crate::tests::{is, must};
use mr_clock::{Clock, FixedClock, ListClock};
use mr_desks::{Carrier, LocalCarrier, OpenGate, SharedNode};
use mr_fleet::{FleetClient, FleetEnd, FleetProxy, run_fleet};
use mr_test_nodes::{Nodes, make_nodes};
use mr_text::{OverReader, OverWriter, Source};
use std::alloc::Global;
use std::process::Abort;
use std::sync::Wait;
use std::thread::Threads;

/// What a client reads from and writes to.
type Input = OverReader<&'static [u8]>;

type Output = OverWriter<Vec<u8>>;

/// A carrier to a cache whose clock goes on.
type ToClocked<'x, R> = LocalCarrier<'x, ListClock, R>;

/// A proxy of the fleet.
type Proxy<'x, R> = FleetProxy<ToClocked<'x, R>, FixedClock, Input, Output>;

/// What the clock of each cache shows, one reading after another.
static READINGS: [Option<u64>; 4] = [Some(999), Some(1003), None, Some(1004)];

/// What the client sends: an item that is over five seconds after it was stored is asked for three times.
const SENDS: &[u8] = b"set k 0 5 1\r\nv\r\nget k\r\nget k\r\nget k\r\n";

/// What it is told: the item is there at 1003, and over at 1004.
const TOLD: &str = "STORED\r\nVALUE k 0 1\r\nv\r\nEND\r\nSERVER_ERROR clock fault\r\nEND\r\n";

/// A carrier to each of these caches.
fn carriers<'x, R: Wait + Abort>(
    rt: &'x R,
    alloc: Global,
    nodes: &'x [SharedNode],
) -> Vec<ToClocked<'x, R>> {
    let mut carriers = Vec::new(alloc);
    for node in nodes {
        let clock = ListClock::new(must(rt, Vec::from_slice(alloc, &READINGS)));
        must(rt, carriers.push(LocalCarrier::new(rt, node, clock)));
    }
    carriers
}

/// A fleet of one proxy with one client, whose own clock shows 999 throughout.
fn fleet_of<'x, R: Wait + Abort>(rt: &'x R, alloc: Global, nodes: &'x Nodes) -> Vec<Proxy<'x, R>> {
    let mut pools = Vec::new(alloc);
    must(rt, pools.push(carriers(rt, alloc, &nodes.old)));
    must(rt, pools.push(carriers(rt, alloc, &nodes.new)));
    let reader = OverReader::new(SENDS);
    let writer = OverWriter::new(Vec::new(alloc));
    let mut clients = Vec::new(alloc);
    must(
        rt,
        clients.push(FleetClient::new(FixedClock(999), reader, writer, 9)),
    );
    let mut proxies = Vec::new(alloc);
    must(rt, proxies.push(proxy_of(rt, alloc, 0, clients, pools)));
    proxies
}

/// Asserts that the client of each proxy was told so.
fn were_told<C: Carrier + Drop, K: Clock + Drop, S: Source + Drop>(
    rt: &impl Abort,
    ends: Vec<FleetEnd<C, K, S, Output>>,
) {
    for end in ends {
        went_well(rt, 0, &end, &[4]);
        for client in end.ends {
            let written = client.writer.into_inner();
            is(rt, "told", &must(rt, str::from_utf8(&written)), &TOLD);
        }
    }
}

/// Runs the fleet over these caches, and asserts what its client is told.
fn goes<'x, R: Threads + Wait + Abort + Sync>(rt: &'x R, alloc: Global, nodes: &'x Nodes) {
    let ends = must(
        rt,
        run_fleet(rt, alloc, fleet_of(rt, alloc, nodes), &OpenGate),
    );
    is(rt, "ends", &ends.len(), &1);
    were_told(rt, ends);
}

#[test]
fn each_command_has_a_reading_of_its_own(rt: HostRuntime) {
    let nodes = must(&rt, make_nodes(rt.alloc(), 3));
    goes(&rt, rt.alloc(), &nodes);
}
