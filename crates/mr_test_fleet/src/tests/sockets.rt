//! Nodes, proxies and clients on sockets of this machine. Each listener takes a free port, and the routing is made of the
//! names; its hash is the sum of a key's bytes, and the migration starts at 1000 with an interval of 100 seconds.
mod connections;
mod fleet;
mod memory;

ghost use Rattle.std.specs.Prelude.{◌≡◌, length};
ghost use Rattle.mr_proxy.specs.ProxyView.{IsFresh};

use super::{is_at, must};
use mr_clock::FixedClock;
use mr_desks::{Desk, SharedNode};
use mr_node::CacheNode;
use mr_phases::Schedule;
use mr_pools::{NamedHash, NodeName, Pool, Routing};
use mr_proxy::ProxyCore;
use mr_sockets::{OverListener, SocketCarrier, serve_node, serve_proxy};
use std::alloc::Global;
use std::io::{Read, Write};
use std::net::{Net, OpenStream, Shutdown, SocketAddr, TcpListener, TcpStream};
use std::process::Abort;
use std::sync::Wait;
use std::thread::Threads;
use std::time::Clock;
use std::{io, thread};

/// How many reads each connection is allowed.
const TURNS: u64 = 1_000_000;

/// A socket that listens on a free port of this machine.
fn listener<R: Net<Listener = TcpListener, Stream = TcpStream> + Abort>(rt: &R) -> TcpListener {
    must(rt, TcpListener::bind(rt, "127.0.0.1:0"))
}

/// Where it listens.
fn address_of(rt: &impl Abort, listener: &TcpListener) -> SocketAddr {
    must(rt, listener.local_addr())
}

/// The name of the node that listens there.
fn name_of(rt: &impl Abort, alloc: Global, listener: &TcpListener) -> NodeName {
    let name = must(rt, format!(in alloc; "{}", address_of(rt, listener)));
    must(rt, NodeName::new(alloc, name.as_bytes()))
}

/// The pool of the nodes that listen there.
fn pool(rt: &impl Abort, alloc: Global, listeners: &[TcpListener]) -> Pool {
    let mut names = Vec::new(alloc);
    for listener in listeners {
        must(rt, names.push(name_of(rt, alloc, listener)));
    }
    must(rt, Pool::new(names))
}

/// The routing from some nodes to others.
fn routing(rt: &impl Abort, alloc: Global, old: &[TcpListener], new: &[TcpListener]) -> Routing
    ensures { length result.pools ≡ 2 }
{
    let old = pool(rt, alloc, old);
    must(rt, Routing::new(old, pool(rt, alloc, new), NamedHash::Sum))
}

/// A proxy of this number.
fn core_of(rt: &impl Abort, alloc: Global, number: u32, routing: &Routing) -> ProxyCore
    requires { length routing.now.pools ≡ 2 }
    ensures { IsFresh result }
{
    let schedule = must(rt, Schedule::new(1000, 100));
    ProxyCore::new(alloc, number, 0, must(rt, routing.copy()), schedule, 64)
}

fn node(rt: &impl Abort, alloc: Global) -> SharedNode {
    SharedNode::new(must(rt, CacheNode::new(alloc, 16)))
}

/// Asserts what was answered, in the row of this number.
fn were_told(rt: &impl Abort, row: usize, answers: &[u8], wanted: &str) {
    is_at(rt, row, "told", &must(rt, str::from_utf8(answers)), &wanted);
}

/// Serves so many connections of a node, whose clock shows 999, and gives how many ended without a fault.
fn node_serves<R: Threads + Wait + Clock + Sync>(
    rt: &R,
    alloc: Global,
    listener: TcpListener,
    node: &SharedNode,
    clients: u64,
) -> u64 {
    let (_, served) = serve_node(
        rt,
        alloc,
        OverListener::new(listener),
        node,
        clients,
        TURNS,
        &FixedClock(999),
    );
    served
}

/// Serves so many connections of a proxy, whose clock shows 999, and gives how many ended without a fault.
fn proxy_serves<
    N: Net<Listener = TcpListener, Stream = TcpStream> + Copy + Send + Sync,
    D: Desk<SocketCarrier<N>> + Sync,
    R: Threads + Wait + Clock + Sync,
>(
    rt: &R,
    alloc: Global,
    net: N,
    listener: TcpListener,
    desk: &D,
    routing: &Routing,
    clients: u64,
) -> u64 {
    let (_, served) = serve_proxy(
        rt,
        alloc,
        net,
        OverListener::new(listener),
        desk,
        routing,
        clients,
        TURNS,
        &FixedClock(999),
    );
    served
}

/// A connection to this address, without delay of small packets.
fn connect<N: Net>(net: &N, address: SocketAddr) -> io::Result<N::Stream> {
    let stream = TcpStream::connect(net, address)?;
    stream.set_nodelay(true)?;
    Ok(stream)
}

/// What is answered to a client that sends these pieces, each by a call of its own, then sends no more and reads to the end.
fn answers<N: Net>(
    net: &N,
    alloc: Global,
    address: SocketAddr,
    pieces: &[&[u8]],
) -> io::Result<Vec<u8>> {
    let mut stream = connect(net, address)?;
    for piece in pieces {
        stream.write_all(piece)?;
    }
    rest_of(alloc, stream)
}

/// A service, and at the same time a client that sends these pieces to this address: what the service gives, and what is
/// answered to the client.
fn play_client<N: Net + Sync, T: Send, S: FnOnce() -> T + Send, R: Threads>(
    rt: &R,
    net: &N,
    alloc: Global,
    serve: S,
    address: SocketAddr,
    pieces: &[&[u8]],
) -> (T, io::Result<Vec<u8>>)
    requires { S.pre serve }
{
    thread::join(rt, serve, move || answers(net, alloc, address, pieces))
}

/// What is answered to the end of a connection, over which no more is sent.
fn rest_of<S: Read + OpenStream + Drop>(alloc: Global, mut stream: S) -> io::Result<Vec<u8>> {
    let _ = stream.shutdown(Shutdown::Write);
    let mut answers = Vec::new(alloc);
    stream.read_to_end(&mut answers)?;
    Ok(answers)
}
