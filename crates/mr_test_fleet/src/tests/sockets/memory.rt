//! Carriers that reach their nodes by sockets, where memory to make them is refused: made again, each dials its own node.
use super::TURNS;
use super::connections::get;
use crate::tests::{is, is_at, must};
use mr_desks::{Carrier, WorkerError};
use mr_pools::{NamedHash, NodeName, Routing};
use mr_sockets::{SocketCarrier, node_carriers};
use mr_test_support::{at_last, grant_memory, pool, refuse_memory};
use std::alloc::{AllocError, Global};
use std::env::Env;
use std::io;
use std::net::{Net, SocketAddr, TcpListener, TcpStream};
use std::process::Abort;
use std::sync::{Mutex, Wait};
use std::time::Duration;

/// A port that was dialled, and how many seconds that was to wait, if that was bounded.
type Dial = (u16, Option<u64>);

/// A network on which nobody answers, with what was dialled.
struct Silent<'a, R: Wait> {
    rt: &'a R,
    dialled: Mutex<Vec<Dial>>,
}

impl<'a, R: Wait> Drop for Silent<'a, R> {
    fn drop(self) {
        let Self { rt: _, dialled: _ } = self;
    }
}

impl<'a, R: Wait> Silent<'a, R> {
    /// A network on which nothing was dialled yet.
    fn new(rt: &'a R, alloc: Global) -> Silent<'a, R> {
        Silent {
            rt,
            dialled: Mutex::new(Vec::new(alloc)),
        }
    }

    /// Keeps what is dialled, and doesn't answer.
    fn dial(&self, address: SocketAddr, seconds: Option<u64>) -> io::Result<TcpStream> {
        self.dialled.lock(self.rt).push((address.port(), seconds))?;
        Err(io::Error::from(io::ErrorKind::ConnectionRefused))
    }
}

impl<'a, R: Wait> Net for Silent<'a, R> {
    type Stream = TcpStream;

    type Listener = TcpListener;

    fn bind(&self, _address: SocketAddr) -> io::Result<TcpListener> {
        Err(io::Error::from(io::ErrorKind::Unsupported))
    }

    fn connect(&self, address: SocketAddr) -> io::Result<TcpStream> {
        self.dial(address, None)
    }

    fn connect_timeout(&self, address: SocketAddr, wait: Duration) -> io::Result<TcpStream> {
        self.dial(address, Some(wait.as_secs()))
    }
}

/// How many seconds a carrier waits at most.
const SECONDS: u64 = 5;

/// The same as carriers are told it.
fn wait() -> Option<Duration> {
    Some(Duration::from_secs(SECONDS))
}

/// The name of the one node.
fn name(rt: &impl Abort, alloc: Global) -> NodeName {
    must(rt, NodeName::new(alloc, b"127.0.0.1:7001"))
}

/// Asserts that a carrier loses a leg.
fn loses<N: Net + Copy>(rt: &impl Abort, alloc: Global, carrier: &mut SocketCarrier<N>) {
    let lost = carrier.carry(&get(rt, alloc)).err();
    is(rt, "lost", &lost, &Some(WorkerError::LinkBroken));
}

/// Asserts what was dialled.
fn were_dialled<R: Wait + Abort>(rt: &R, net: &Silent<R>, wanted: &[Dial]) {
    is(rt, "dialled", &net.dialled.lock(rt).as_slice(), &wanted);
}

/// Makes a carrier to the node of a name, which loses a leg.
fn make_one<N: Net + Copy>(rt: &(impl Abort + Env), alloc: Global, net: N, name: &NodeName) {
    let made = at_last!(
        rt,
        SocketCarrier::new(net, alloc, name, TURNS),
        Err(AllocError)
    );
    loses(rt, alloc, &mut must(rt, made));
}

/// What a carrier that waits as long as it takes dials.
fn one_dials<R: Wait + Abort + Env>(rt: &R, alloc: Global) {
    let net = Silent::new(rt, alloc);
    make_one(rt, alloc, &net, &name(rt, alloc));
    were_dialled(rt, &net, &[(7001, None)]);
}

#[test]
fn refused_memory_makes_a_carrier_later(rt: HostRuntime) {
    one_dials(&rt, rt.alloc());
}

/// Makes a carrier to the node of a name that waits so long at most, which loses a leg.
fn make_one_within<N: Net + Copy>(rt: &(impl Abort + Env), alloc: Global, net: N, name: &NodeName) {
    let made = at_last!(
        rt,
        SocketCarrier::within(net, alloc, name, TURNS, wait()),
        Err(AllocError)
    );
    loses(rt, alloc, &mut must(rt, made));
}

/// What a carrier that waits so long at most dials.
fn one_dials_within<R: Wait + Abort + Env>(rt: &R, alloc: Global) {
    let net = Silent::new(rt, alloc);
    make_one_within(rt, alloc, &net, &name(rt, alloc));
    were_dialled(rt, &net, &[(7001, Some(SECONDS))]);
}

#[test]
fn refused_memory_makes_a_carrier_that_waits_so_long_later(rt: HostRuntime) {
    one_dials_within(&rt, rt.alloc());
}

/// A routing from two nodes to three.
fn routing(rt: &impl Abort, alloc: Global) -> Routing {
    let old = must(rt, pool(alloc, &[b"127.0.0.1:7001", b"127.0.0.1:7002"]));
    let names: [&[u8]; 3] = [b"127.0.0.1:7101", b"127.0.0.1:7102", b"127.0.0.1:7103"];
    let new = must(rt, pool(alloc, &names));
    must(rt, Routing::new(old, new, NamedHash::Sum))
}

/// Asserts that each carrier of a pool loses a leg, and that there are so many.
fn lose<N: Net + Copy>(
    rt: &impl Abort,
    alloc: Global,
    number: usize,
    carriers: Vec<SocketCarrier<N>>,
    count: usize,
) {
    is_at(rt, number, "carriers", &carriers.len(), &count);
    for mut carrier in carriers {
        loses(rt, alloc, &mut carrier);
    }
}

/// What the carriers to both pools dial.
static DIALLED: [Dial; 5] = [
    (7001, Some(SECONDS)),
    (7002, Some(SECONDS)),
    (7101, Some(SECONDS)),
    (7102, Some(SECONDS)),
    (7103, Some(SECONDS)),
];

/// Makes the carriers to both pools of a routing, each of which loses a leg.
fn make_all<N: Net + Copy>(rt: &(impl Abort + Env), alloc: Global, net: N, routing: &Routing) {
    let made = at_last!(
        rt,
        node_carriers(net, alloc, routing, TURNS, wait()),
        Err(AllocError)
    );
    let pools = must(rt, made);
    is(rt, "pools", &pools.len(), &2);
    for (number, (carriers, count)) in pools.into_iter().zip([2, 3]).enumerate() {
        lose(rt, alloc, number, carriers, count);
    }
}

/// What the carriers of a routing dial.
fn all_dial<R: Wait + Abort + Env>(rt: &R, alloc: Global) {
    let net = Silent::new(rt, alloc);
    make_all(rt, alloc, &net, &routing(rt, alloc));
    were_dialled(rt, &net, &DIALLED);
}

#[test]
fn refused_memory_makes_the_carriers_of_a_routing_later(rt: HostRuntime) {
    all_dial(&rt, rt.alloc());
}
