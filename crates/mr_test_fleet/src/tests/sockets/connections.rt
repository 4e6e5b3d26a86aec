//! The connections themselves: without delay of small packets, no more of them than are needed, and a pause where none can be
//! accepted.
ghost use Rattle.std.specs.Prelude.{◌+◌};

use super::{TURNS, address_of, listener, name_of, node, node_serves, play_client, were_told};
use crate::tests::{is, is_at, must};
use mr_clock::FixedClock;
use mr_desks::{Carrier, SharedNode};
use mr_join::LegReply;
use mr_node::NodeCommand;
use mr_phases::Side;
use mr_pools::NodeName;
use mr_proxy::{LegId, LegSheet};
use mr_sockets::{AcceptFault, Listener, OverListener, SocketCarrier, serve_node};
use mr_test_support::FIRST;
use mr_text::{GhostCount, Key};
use std::alloc::Global;
use std::net::{Net, SocketAddr, TcpListener, TcpStream};
use std::process::Abort;
use std::sync::{Mutex, Wait};
use std::thread::Threads;
use std::time::Clock;
use std::{io, thread};

#[test]
fn an_accepted_connection_is_without_delay(rt: HostRuntime) {
    let listener = listener(&rt);
    let address = address_of(&rt, &listener);
    let _client = must(&rt, TcpStream::connect(&rt, address));
    let stream = must(&rt, OverListener::new(listener).accept());
    is(&rt, "without delay", &must(&rt, stream.nodelay()), &true);
}

/// A network, with a second handle of each connection that was made by it.
struct Watched<'a, R: Net<Listener = TcpListener, Stream = TcpStream> + Wait> {
    rt: &'a R,
    made: Mutex<Vec<TcpStream>>,
}

impl<'a, R: Net<Listener = TcpListener, Stream = TcpStream> + Wait> Drop for Watched<'a, R> {
    fn drop(self) {
        let Self { rt: _, made: _ } = self;
    }
}

impl<'a, R: Net<Listener = TcpListener, Stream = TcpStream> + Wait> Net for Watched<'a, R> {
    type Stream = TcpStream;

    type Listener = TcpListener;

    fn bind(&self, addr: SocketAddr) -> io::Result<TcpListener> {
        self.rt.bind(addr)
    }

    fn connect(&self, addr: SocketAddr) -> io::Result<TcpStream> {
        let stream = self.rt.connect(addr)?;
        self.made.lock(self.rt).push(stream.try_clone()?)?;
        Ok(stream)
    }
}

/// The leg of a get of the key `k`.
pub(super) fn get(rt: &impl Abort, alloc: Global) -> LegSheet {
    LegSheet {
        id: LegId {
            op: FIRST,
            place: 0,
        },
        hop: 0,
        side: Side::Old,
        node: 0,
        command: NodeCommand::Get(must(rt, Key::new(alloc, b"k"))),
    }
}

/// Carries two gets to the node of a name, and asserts that each misses.
fn miss_twice<N: Net + Copy>(rt: &impl Abort, alloc: Global, net: N, name: &NodeName) {
    let mut carrier = must(rt, SocketCarrier::new(net, alloc, name, TURNS));
    let sheet = get(rt, alloc);
    for number in 0..2 {
        let reply = must(rt, carrier.carry(&sheet));
        is_at(
            rt,
            number,
            "a miss",
            &matches!(reply, LegReply::Miss),
            &true,
        );
    }
}

/// Whether each of these connections is one without delay.
fn without_delay(rt: &impl Abort, alloc: Global, made: &[TcpStream]) -> Vec<bool> {
    let mut all = Vec::new(alloc);
    for stream in made {
        must(rt, all.push(must(rt, stream.nodelay())));
    }
    all
}

/// Carries two legs to the node of a name, and says for each connection that was made whether it was one without delay.
fn carry_two<R: Net<Listener = TcpListener, Stream = TcpStream> + Wait + Abort>(
    rt: &R,
    alloc: Global,
    name: &NodeName,
) -> Vec<bool> {
    let net = Watched {
        rt,
        made: Mutex::new(Vec::new(alloc)),
    };
    miss_twice(rt, alloc, &net, name);
    without_delay(rt, alloc, &net.made.lock(rt))
}

/// The node, and two legs that are carried to it.
fn play_legs<
    R: Net<Listener = TcpListener, Stream = TcpStream> + Threads + Wait + Clock + Abort + Sync,
>(
    rt: &R,
    alloc: Global,
    listener: TcpListener,
    node: &SharedNode,
    name: &NodeName,
) -> (u64, Vec<bool>) {
    thread::join(
        rt,
        move || node_serves(rt, alloc, listener, node, 1),
        move || carry_two(rt, alloc, name),
    )
}

#[test]
fn legs_share_one_connection_without_delay(rt: HostRuntime) {
    let listener = listener(&rt);
    let name = name_of(&rt, rt.alloc(), &listener);
    let node = node(&rt, rt.alloc());
    let (served, made) = play_legs(&rt, rt.alloc(), listener, &node, &name);
    is(&rt, "served", &served, &1);
    is(&rt, "without delay", &made.as_slice(), &[true].as_slice());
}

/// A listener that fails so often before it accepts.
#[derive(Drop)]
struct FailsFirst {
    inner: OverListener,
    failing: u32,
    failures: GhostCount,
}

impl Listener for FailsFirst {
    ghost use Rattle.std.specs.Prelude.{◌+◌};

    ghost told = { λ l. record {
      accepted = (⟦<OverListener as Listener>⟧.told l.inner).accepted;
      failures = (⟦<OverListener as Listener>⟧.told l.inner).failures + l.failures;
    } };

    fn accept(&mut self) -> Result<TcpStream, AcceptFault> {
        if self.failing == 0 {
            return self.inner.accept();
        }
        self.failing -= 1;
        self.failures.add_one();
        Err(AcceptFault)
    }
}

/// A node that three clients are served of, of which two can't be accepted, and a client: how many connections were served, and
/// what the client was answered.
fn play_failing<R: Net + Threads + Wait + Clock + Sync>(
    rt: &R,
    alloc: Global,
    listener: FailsFirst,
    node: &SharedNode,
    address: SocketAddr,
) -> (u64, io::Result<Vec<u8>>) {
    let serve = move || {
        let (_, served) = serve_node(rt, alloc, listener, node, 3, TURNS, &FixedClock(999));
        served
    };
    play_client(rt, rt, alloc, serve, address, &[b"get k\r\n"])
}

/// A listener that fails twice before it accepts.
fn fails_twice(inner: TcpListener) -> FailsFirst {
    FailsFirst {
        inner: OverListener::new(inner),
        failing: 2,
        failures: GhostCount::new(),
    }
}

#[test]
fn a_client_that_cannot_be_accepted_is_waited_after(rt: HostRuntime) {
    let inner = listener(&rt);
    let address = address_of(&rt, &inner);
    let node = node(&rt, rt.alloc());
    let begun = must(&rt, rt.monotonic());
    let (served, got) = play_failing(&rt, rt.alloc(), fails_twice(inner), &node, address);
    let taken = must(&rt, rt.monotonic()).saturating_sub(begun).as_millis();
    is(&rt, "served", &served, &1);
    were_told(&rt, 0, &must(&rt, got), "END\r\n");
    is(&rt, "pauses", &(200..10_000).contains(&taken), &true);
}
