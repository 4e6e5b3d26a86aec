//! Loops and the thread that accepts their clients.
ghost use Rattle.std.specs.Prelude.{◌≡◌, ◌≤◌};
ghost use Rattle.mr_driver.specs.Serving.{timing_of};

use crate::accepting::accept_all;
use crate::doors::{Door, Doors, open_door};
use crate::engine::Timing;
use crate::hearing::{Hears, LoopEvent};
use crate::link_side::NoLinks;
use crate::links::Links;
use crate::machine::Machine;
use crate::reports::LoopReport;
use crate::times::bound_of;
use crate::turns::{Planned, run_loop};
use mr_counting::ClockWatch;
use mr_loop::{Cache, NodeLoop, ProxyLoop, ServedCounts};
use std::alloc::Global;
use std::net::{Net, SocketAddrV4, TcpListener, TcpStream};
use std::sync::Wait;
use std::thread::{Scope, Threads};
use std::time::Clock;
use std::{io, thread};

/// How many clients are served, and how long is waited for who is silent.
#[derive(Clone, Copy, Debug)]
pub struct DriverBounds {
    /// How many clients are accepted. With `u64::MAX` the service doesn't end.
    pub clients: u64,
    /// How many are served at a time. Further ones wait in the listener's backlog until one has left.
    pub most_clients: u64,
    /// How many seconds a client may send nothing and be owed nothing, or take nothing of what it is told; 0 for as many as it likes.
    pub client_seconds: u64,
    /// How many milliseconds a node may leave a dial unanswered; 0 for as many as it takes. How long a leg may be without its reply is
    /// the machine's.
    pub leg_millis: u64,
}

/// How long is waited, in microseconds.
fn timing_of(bounds: DriverBounds) -> Timing
    ensures { result ≡ timing_of bounds }
{
    Timing {
        leg_bound: bound_of(bounds.leg_millis),
        idle_bound: bound_of(bounds.client_seconds.saturating_mul(1_000)),
    }
}

/// Loops of such machines that aren't started yet.
#[derive(Drop)]
pub struct Loops<M: Machine> {
    planned: Vec<Planned<M>>,
}

/// The loop of a proxy's machine, whose nodes are dialled.
fn plan<R: Net>(
    rt: &R,
    alloc: Global,
    mut machine: ProxyLoop,
    nodes: &[Option<SocketAddrV4>],
) -> io::Result<(Planned<ProxyLoop>, Door<LoopReport>)> {
    let (side, door) = open_door(rt, alloc)?;
    let mut links = Links::to(alloc, nodes)?;
    links.dial_all(rt, side.poll.registry(), &mut machine);
    let planned = Planned {
        side,
        links,
        machine,
    };
    Ok((planned, door))
}

/// A loop for each machine of a proxy, whose nodes are dialled: so there are descriptors for its links before clients have them. The nodes are
/// those of each machine's links, in their order, by their addresses; one without an address is never dialled. The error is of the
/// kind `OutOfMemory` where memory was refused.
pub fn open_loops<R: Net>(
    rt: &R,
    alloc: Global,
    machines: Vec<ProxyLoop>,
    nodes: &[Option<SocketAddrV4>],
) -> io::Result<(Loops<ProxyLoop>, Doors<LoopReport>)> {
    let mut planned = Vec::with_capacity(alloc, machines.len())?;
    let mut doors = Vec::with_capacity(alloc, machines.len())?;
    for machine in machines {
        let (side, door) = plan(rt, alloc, machine, nodes)?;
        planned.push(side)?;
        doors.push(door)?;
    }
    Ok((Loops { planned }, Doors::new(doors)))
}

/// A loop for each machine of a node. The error is of the kind `OutOfMemory` where memory was refused.
pub fn open_node_loops<R: Net, C: Cache + Drop + Send>(
    rt: &R,
    alloc: Global,
    machines: Vec<NodeLoop<C>>,
) -> io::Result<(Loops<NodeLoop<C>>, Doors<ServedCounts>)> {
    let mut planned = Vec::with_capacity(alloc, machines.len())?;
    let mut doors = Vec::with_capacity(alloc, machines.len())?;
    for machine in machines {
        let (side, door) = open_door(rt, alloc)?;
        planned.push(Planned {
            side,
            links: NoLinks,
            machine,
        })?;
        doors.push(door)?;
    }
    Ok((Loops { planned }, Doors::new(doors)))
}

/// Starts a thread for each loop. Whether each could be started.
fn start_loops<
    's,
    'e,
    R: Net<Listener = TcpListener, Stream = TcpStream> + Threads + Wait + Clock + Sync,
    E: Hears + Sync,
    M: Machine + 's,
>(
    rt: &'s R,
    scope: &'s Scope<'s, &'e ()>,
    alloc: Global,
    loops: Loops<M>,
    timing: Timing,
    watch: &'s ClockWatch,
    ears: &'s E,
) -> bool {
    let Loops { planned } = loops;
    let mut all = true;
    for one in planned {
        let begun = scope.spawn(move || {
            if run_loop(rt, alloc, one, timing, watch, ears).is_err() {
                ears.hear(LoopEvent::NoMemory);
            }
        });
        all = all && begun.is_ok();
    }
    all
}

/// Serves so many clients that come to a listener by these loops, and gives how many of them ended without a fault, once all have: by
/// a quit, at the end of what they sent, or with a request that was refused and answered.
///
/// Each loop has a thread; the caller's thread accepts, and hands each client to the loop that has the fewest, by these doors, which
/// are those of the loops. The readings of the clock of phases are watched. Where there is no loop, or one can't be started, nobody is
/// accepted.
pub fn serve<
    R: Net<Listener = TcpListener, Stream = TcpStream> + Threads + Wait + Clock + Sync,
    E: Hears + Sync,
    M: Machine,
>(
    rt: &R,
    alloc: Global,
    listener: &TcpListener,
    loops: Loops<M>,
    doors: &Doors<M::Report>,
    bounds: DriverBounds,
    watch: &ClockWatch,
    ears: &E,
) -> u64
    ensures { result ≤ bounds.clients }
{
    let timing = timing_of(bounds);
    thread::scope(thread::scope_env(), rt, move |scope| {
        if start_loops(rt, scope, alloc, loops, timing, watch, ears) && !doors.is_empty() {
            accept_all(rt, alloc, listener, doors, bounds, ears);
        }
        doors.close();
    });
    doors.served().min(bounds.clients)
}
