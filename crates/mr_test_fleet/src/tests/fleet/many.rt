//! Fleets of more proxies, more clients and more keys than a small number of each, and the place of each key.
use super::{NEW, went_well};
use crate::tests::{is, is_at, must};
use mr_clock::{Clock, FixedClock};
use mr_desks::{Carrier, OpenGate, RecordedProxy, SharedNode};
use mr_fleet::{FleetClient, FleetEnd, FleetProxy, run_fleet};
use mr_join::LegReply;
use mr_node::Perform;
use mr_test_nodes::{Nodes, ToNode, carriers_to_all, core_with_room, make_nodes, or_no_memory};
use mr_text::{Key, OverReader, OverWriter, Source};
use std::alloc::{AllocError, Global};
use std::process::Abort;
use std::sync::Wait;
use std::thread::Threads;

/// A client's reader.
type Input = OverReader<&'static [u8]>;

/// A client's writer.
type Output = OverWriter<Vec<u8>>;

/// A client of the fleet.
type Client = FleetClient<FixedClock, Input, Output>;

/// A proxy of the fleet.
type Proxy<'x, R> = FleetProxy<ToNode<'x, R>, FixedClock, Input, Output>;

/// A fleet: how many proxies it has, how many clients each of them has, and what each client sends and is told.
#[derive(Clone, Copy)]
struct Row {
    proxies: u32,
    clients: usize,
    sends: &'static [u8],
    issued: u64,
    told: &'static str,
}

/// As many clients, whose clocks show 999, as a row says.
fn clients_of(rt: &impl Abort, alloc: Global, row: &Row) -> Vec<Client> {
    let mut clients = Vec::new(alloc);
    for _ in 0..row.clients {
        let reader = OverReader::new(row.sends);
        let writer = OverWriter::new(Vec::new(alloc));
        must(
            rt,
            clients.push(FleetClient::new(FixedClock(999), reader, writer, 9)),
        );
    }
    clients
}

/// The proxy of this number, with a book, and with room for a request of each client at once.
fn desk_of<'x, R: Wait>(
    alloc: Global,
    number: u32,
) -> Result<RecordedProxy<ToNode<'x, R>>, AllocError> {
    let core = core_with_room(alloc, number, &NEW, 64)?;
    or_no_memory(RecordedProxy::new(alloc, core, 100_000))
}

/// As many proxies as a row says, each with its clients.
fn proxies_of<'x, R: Wait + Abort>(
    rt: &'x R,
    alloc: Global,
    nodes: &'x Nodes,
    row: &Row,
) -> Vec<Proxy<'x, R>> {
    let mut proxies = Vec::new(alloc);
    for number in 0..row.proxies {
        let proxy = FleetProxy {
            desk: must(rt, desk_of(alloc, number)),
            clients: clients_of(rt, alloc, row),
            carriers: must(rt, carriers_to_all(rt, alloc, nodes)),
        };
        must(rt, proxies.push(proxy));
    }
    proxies
}

/// Asserts that each client of a proxy issued as many requests as a row says, and was told what it says.
fn were_told<C: Carrier + Drop, K: Clock + Drop, S: Source + Drop>(
    rt: &impl Abort,
    proxy: usize,
    end: FleetEnd<C, K, S, Output>,
    issued: &[u64],
    row: &Row,
) {
    went_well(rt, proxy, &end, issued);
    for client in end.ends {
        let written = client.writer.into_inner();
        let told = must(rt, str::from_utf8(&written));
        is_at(rt, proxy, "told", &told, &row.told);
    }
}

/// Asserts the same of all proxies.
fn all_were_told<C: Carrier + Drop, K: Clock + Drop, S: Source + Drop>(
    rt: &impl Abort,
    ends: Vec<FleetEnd<C, K, S, Output>>,
    issued: &[u64],
    row: &Row,
) {
    let mut proxy: usize = 0;
    for end in ends {
        were_told(rt, proxy, end, issued, row);
        proxy = proxy.saturating_add(1);
    }
}

/// Runs a fleet as a row says over these caches, and asserts what came of it.
fn goes<'x, R: Threads + Wait + Abort + Sync>(
    rt: &'x R,
    alloc: Global,
    nodes: &'x Nodes,
    row: &Row,
) {
    let proxies = proxies_of(rt, alloc, nodes, row);
    let ends = must(rt, run_fleet(rt, alloc, proxies, &OpenGate));
    is(rt, "ends", &ends.len(), &(row.proxies as usize));
    let mut issued = Vec::new(alloc);
    for _ in 0..row.clients {
        must(rt, issued.push(row.issued));
    }
    all_were_told(rt, ends, &issued, row);
}

/// Runs a fleet over new caches.
fn goes_anew<R: Threads + Wait + Abort + Sync>(rt: &R, alloc: Global, row: &Row) {
    let nodes = must(rt, make_nodes(alloc, 3));
    goes(rt, alloc, &nodes, row);
}

/// A client that stores `k` and reads it back. All clients store the same.
const STORES_AND_GETS: Row = Row {
    proxies: 1,
    clients: 1,
    sends: b"set k 0 0 1\r\nv\r\nget k\r\n",
    issued: 2,
    told: "STORED\r\nVALUE k 0 1\r\nv\r\nEND\r\n",
};

#[test]
fn seventeen_proxies_serve_a_client_each(rt: HostRuntime) {
    let row = Row {
        proxies: 17,
        ..STORES_AND_GETS
    };
    goes_anew(&rt, rt.alloc(), &row);
}

#[test]
fn a_proxy_serves_seventeen_clients(rt: HostRuntime) {
    let row = Row {
        clients: 17,
        ..STORES_AND_GETS
    };
    goes_anew(&rt, rt.alloc(), &row);
}

/// A get of nine keys, of which the first and the last are stored.
#[test]
fn a_get_of_nine_keys_has_nine_legs(rt: HostRuntime) {
    let row = Row {
        sends: b"set k 0 0 1\r\nv\r\nset m 7 0 1\r\nw\r\nget k a b c d e f g m\r\n",
        issued: 3,
        told: "STORED\r\nSTORED\r\nVALUE k 0 1\r\nv\r\nVALUE m 7 1\r\nw\r\nEND\r\n",
        ..STORES_AND_GETS
    };
    goes_anew(&rt, rt.alloc(), &row);
}

/// What a cache has for a key.
fn found(rt: &(impl Wait + Abort), alloc: Global, node: &SharedNode, key: &[u8]) -> bool {
    let key = must(rt, Key::new(alloc, key));
    let reply = must(rt, node.desk(rt).get(999, &key));
    matches!(reply, LegReply::Hit { .. })
}

/// Which caches of the old pool hold which key: the sum of a key's bytes modulo 2 is the place of its node.
static PLACES: [(&[u8], [bool; 2]); 2] = [(b"b", [true, false]), (b"k", [false, true])];

/// Asserts that each key lies at its own node of the old pool alone.
fn lie_where_they_belong(rt: &(impl Wait + Abort), alloc: Global, nodes: &Nodes) {
    for (row, (key, places)) in PLACES.iter().enumerate() {
        for (node, wanted) in nodes.old.iter().zip(places) {
            is_at(rt, row, "held", &found(rt, alloc, node, key), wanted);
        }
    }
}

#[test]
fn each_key_is_kept_by_the_node_of_its_place(rt: HostRuntime) {
    let nodes = must(&rt, make_nodes(rt.alloc(), 3));
    let row = Row {
        sends: b"set b 0 0 1\r\nv\r\nset k 0 0 1\r\nv\r\n",
        issued: 2,
        told: "STORED\r\nSTORED\r\n",
        ..STORES_AND_GETS
    };
    goes(&rt, rt.alloc(), &nodes, &row);
    lie_where_they_belong(&rt, rt.alloc(), &nodes);
}
