//! The worked fleet: two old nodes, three new ones, a proxy and its client. The key `k` is kept by the second old node, so the
//! other nodes get no leg.
ghost use Rattle.std.specs.Prelude.{◌≡◌, length};

use super::{
    address_of, core_of, listener, node, node_serves, play_client, proxy_serves, routing, were_told,
};
use crate::tests::{is, must};
use mr_desks::{Desk, SharedNode, SharedProxy};
use mr_pools::Routing;
use mr_sockets::SocketCarrier;
use std::alloc::Global;
use std::io::{Read, Write};
use std::net::{Net, SocketAddr, TcpListener, TcpStream};
use std::process::Abort;
use std::sync::Wait;
use std::thread::Threads;
use std::time::Clock;
use std::{io, thread};

/// Whether the second old node goes away in the middle of its first leg and comes back, what a client of the proxy sends,
/// and what it has to be answered.
struct Row {
    goes_away: bool,
    sends: &'static [u8],
    told: &'static str,
}

/// Accepts a connection, reads of the leg's request, answers half a reply, and goes away.
fn go_away(rt: &impl Abort, listener: &TcpListener) {
    let (mut stream, _) = must(rt, listener.accept());
    let _ = must(rt, stream.read(&mut [0; 64]));
    must(rt, stream.write_all(b"VALUE k 0 1\r\n"));
}

/// A node that serves one connection, and goes away before where it is to: how many it served without a fault.
fn node_part<R: Threads + Wait + Clock + Abort + Sync>(
    rt: &R,
    alloc: Global,
    listener: TcpListener,
    node: &SharedNode,
    goes_away: bool,
) -> u64 {
    if goes_away {
        go_away(rt, &listener);
    }
    node_serves(rt, alloc, listener, node, 1)
}

/// The node, the proxy and the client at once: how many connections node and proxy served, and what the client was answered.
fn play<
    N: Net<Listener = TcpListener, Stream = TcpStream> + Copy + Send + Sync,
    D: Desk<SocketCarrier<N>> + Sync,
    R: Threads + Wait + Clock + Abort + Sync,
>(
    rt: &R,
    alloc: Global,
    net: N,
    node_listener: TcpListener,
    node: &SharedNode,
    proxy_listener: TcpListener,
    desk: &D,
    routing: &Routing,
    row: &Row,
) -> (u64, (u64, io::Result<Vec<u8>>)) {
    let address = address_of(rt, &proxy_listener);
    thread::join(
        rt,
        move || node_part(rt, alloc, node_listener, node, row.goes_away),
        move || {
            let serve = move || proxy_serves(rt, alloc, net, proxy_listener, desk, routing, 1);
            play_client(rt, &net, alloc, serve, address, &[row.sends])
        },
    )
}

/// So many sockets that listen.
fn listeners<R: Net<Listener = TcpListener, Stream = TcpStream> + Abort>(
    rt: &R,
    alloc: Global,
    count: usize,
) -> Vec<TcpListener> {
    let mut listeners = Vec::new(alloc);
    for _ in 0..count {
        must(rt, listeners.push(listener(rt)));
    }
    listeners
}

/// Asserts what comes of a client where the last of the old nodes has one connection, as the proxy has.
fn goes_so<
    N: Net<Listener = TcpListener, Stream = TcpStream> + Abort + Copy + Send + Sync,
    R: Threads + Wait + Clock + Abort + Sync,
>(rt: &R, alloc: Global, net: N, mut old: Vec<TcpListener>, routing: &Routing, row: &Row)
    requires { length routing.now.pools ≡ 2 }
{
    let Some(last) = old.pop() else {
        rt.panic("no node");
    };
    let desk: SharedProxy<SocketCarrier<N>> = SharedProxy::new(core_of(rt, alloc, 0, routing));
    let node = node(rt, alloc);
    let proxy = listener(&net);
    let (by_node, (by_proxy, told)) = play(rt, alloc, net, last, &node, proxy, &desk, routing, row);
    is(rt, "served", &(by_node, by_proxy), &(1, 1));
    were_told(rt, 0, &must(rt, told), row.told);
}

/// Asserts what comes of a client at the worked fleet. The other nodes serve nobody.
fn goes_on_loopback<
    N: Net<Listener = TcpListener, Stream = TcpStream> + Abort + Copy + Send + Sync,
    R: Threads + Wait + Clock + Abort + Sync,
>(rt: &R, alloc: Global, net: N, row: &Row) {
    let old = listeners(&net, alloc, 2);
    let new = listeners(&net, alloc, 3);
    let routing = routing(rt, alloc, &old, &new);
    goes_so(rt, alloc, net, old, &routing, row);
    let node = node(rt, alloc);
    for other in new {
        is(rt, "others", &node_serves(rt, alloc, other, &node, 0), &0);
    }
}

static STEADY: Row = Row {
    goes_away: false,
    sends: b"set k 0 0 1\r\nv\r\nget k\r\ndelete k\r\nget k\r\nquit\r\n",
    told: "STORED\r\nVALUE k 0 1\r\nv\r\nEND\r\nDELETED\r\nEND\r\n",
};

#[test]
fn fleet_on_loopback(rt: HostRuntime) {
    goes_on_loopback(&rt, rt.alloc(), &rt, &STEADY);
}

static GOES_AWAY: Row = Row {
    goes_away: true,
    sends: b"get k\r\nset k 0 0 1\r\nv\r\nget k\r\n",
    told: "SERVER_ERROR leg lost\r\nSTORED\r\nVALUE k 0 1\r\nv\r\nEND\r\n",
};

#[test]
fn a_node_goes_away_and_comes_back(rt: HostRuntime) {
    goes_on_loopback(&rt, rt.alloc(), &rt, &GOES_AWAY);
}
