//! The service of a proxy on loops.
ghost use Rattle.std.specs.Prelude.{◌≡◌, ◌≢◌, ◌≤◌, IfOk, IfErr};
ghost use Rattle.mr_servers.specs.Drives.{ProxyDrive};
ghost use Rattle.mr_servers.specs.Driving.{IsKnownOf, drives_noted};
ghost use Rattle.mr_servers.specs.declared.fault.OpenFault.{OpenFault};

use crate::drives::GhostDrives;
use crate::driving::{Nature, Running, Site, fault_of, serve_loops};
use crate::fault::OpenFault;
use crate::proxy_teller::ProxyTeller;
use crate::reports::room_of;
use mr_clock::SystemClock;
use mr_counting::{ProxyIdentity, ServiceTime};
use mr_driver::{Doors, DriverBounds, LoopReport, Loops, open_loops};
use mr_log::Log;
use mr_loop::ProxyLoop;
use mr_phases::Schedule;
use mr_pools::Routing;
use mr_sockets::node_addresses;
use std::alloc::{AllocError, Global};
use std::net::{Net, TcpListener, TcpStream};
use std::snapshot::Snapshot;
use std::sync::{Mutex, Wait};
use std::thread::Threads;
use std::time::Clock;

/// What is told and said of the machines of a proxy that doesn't change.
#[derive(Drop)]
pub(crate) struct Known {
    /// The names of its nodes.
    pub(crate) routing: Routing,
    /// When its phases begin.
    pub(crate) schedule: Schedule,
    /// How many requests may be under way at once, in all of them together.
    pub(crate) room: u64,
    /// How many there are.
    pub(crate) loops: u64,
}

/// What is told and said of machines that doesn't change: the nodes and the phases are those of the first. None where there is none.
fn known_of(machines: &[ProxyLoop]) -> Result<Option<Known>, AllocError>
    ensures { IfOk result (IsKnownOf machines.now) }
{
    let Some(first) = machines.first() else {
        return Ok(None);
    };
    let routing = first.core().routing().copy()?;
    Ok(Some(Known {
        routing,
        schedule: first.core().schedule(),
        room: room_of(machines),
        loops: machines.len() as u64,
    }))
}

/// A loop for each machine, with links to the nodes of a routing. OutOfMemory where memory is refused, Net where they can't be opened for
/// anything else, as for want of descriptors.
fn open_all<R: Net>(
    rt: &R,
    alloc: Global,
    machines: Vec<ProxyLoop>,
    routing: &Routing,
) -> Result<(Loops<ProxyLoop>, Doors<LoopReport>), OpenFault>
    ensures { IfErr result (λ fault. fault ≢ OpenFault.Metrics) }
{
    let Ok(nodes) = node_addresses(alloc, routing) else {
        return Err(OpenFault::OutOfMemory);
    };
    match open_loops(rt, alloc, machines, nodes.as_slice()) {
        Ok(opened) => Ok(opened),
        Err(error) => Err(fault_of(error.kind())),
    }
}

/// Who a proxy of these machines is.
fn identity_of<'a>(
    version: &'a str,
    config: &'a str,
    known: &'a Known,
    bounds: DriverBounds,
) -> ProxyIdentity<'a>
    ensures version { result.version.now ≡ version.entry.now }
    ensures config { result.config.now ≡ config.entry.now }
    ensures routing { result.routing.now ≡ known.entry.now.routing }
    ensures schedule { result.schedule ≡ known.entry.now.schedule }
    ensures room { result.room ≡ known.entry.now.room }
    ensures max_clients { result.max_clients ≡ bounds.most_clients }
{
    ProxyIdentity {
        version,
        config,
        routing: &known.routing,
        schedule: known.schedule,
        room: known.room,
        max_clients: bounds.most_clients,
    }
}

/// Serves clients by these loops of a proxy of which this is known.
fn serve_known<R: Net<Listener = TcpListener, Stream = TcpStream> + Threads + Wait + Clock + Sync>(
    rt: &R,
    alloc: Global,
    site: Site<'_>,
    scrapers: Option<TcpListener>,
    config: &str,
    known: &Known,
    loops: Loops<ProxyLoop>,
    doors: &Doors<LoopReport>,
    bounds: DriverBounds,
) -> u64
    ensures { result ≤ bounds.clients }
{
    let clock = SystemClock::new(rt);
    let time = ServiceTime::new(&clock);
    let teller = ProxyTeller {
        rt,
        identity: identity_of(site.version, config, known, bounds),
        doors,
        time: &time,
        clock: &clock,
    };
    let nature = Nature {
        config: Some(config),
        pools: known.routing.pools(),
        schedule: Some(known.schedule),
        loops: known.loops,
    };
    let log = Mutex::new(Log::new());
    let running = Running::Proxy(loops, doors);
    serve_loops(
        rt,
        alloc,
        site,
        nature,
        scrapers,
        &teller,
        running,
        bounds,
        &time.watch,
        &log,
    )
}

/// Serves so many clients by a loop for each machine, as `drive` does, without noting it.
fn drive_unnoted<
    R: Net<Listener = TcpListener, Stream = TcpStream> + Threads + Wait + Clock + Sync,
>(
    rt: &R,
    alloc: Global,
    site: Site<'_>,
    scrapers: Option<TcpListener>,
    config: &str,
    machines: Vec<ProxyLoop>,
    bounds: DriverBounds,
) -> Result<u64, OpenFault>
    ensures among { IfOk result (λ served. served ≤ bounds.clients) }
    ensures fault { IfErr result (λ fault. fault ≢ OpenFault.Metrics) }
{
    let known = match known_of(machines.as_slice()) {
        Ok(Some(known)) => known,
        Ok(None) => return Ok(0),
        Err(_) => return Err(OpenFault::OutOfMemory),
    };
    let (loops, doors) = match open_all(rt, alloc, machines, &known.routing) {
        Ok(opened) => opened,
        Err(fault) => return Err(fault),
    };
    Ok(serve_known(
        rt, alloc, site, scrapers, config, &known, loops, &doors, bounds,
    ))
}

/// Serves so many clients that come to a socket by a loop for each machine, and gives how many of them ended without a fault, once all
/// have. Its metrics are told at the other socket, if there is one, and what happens to it is said, if there is a voice. Without a
/// machine nobody is served. OutOfMemory where memory is refused before the first client, Net where the loops can't be opened for
/// anything else.
pub(crate) fn drive_proxy<
    R: Net<Listener = TcpListener, Stream = TcpStream> + Threads + Wait + Clock + Sync,
>(
    rt: &R,
    alloc: Global,
    site: Site<'_>,
    scrapers: Option<TcpListener>,
    config: &str,
    machines: Vec<ProxyLoop>,
    bounds: DriverBounds,
    drives: &mut GhostDrives,
) -> Result<u64, OpenFault>
    ensures among { IfOk result (λ served. served ≤ bounds.clients) }
    ensures fault { IfErr result (λ fault. fault ≢ OpenFault.Metrics) }
    ensures noted { drives.new ≡ drives_noted (ProxyDrive machines.items bounds) result drives.old }
{
    let began = Snapshot::of(&machines);
    let served = drive_unnoted(rt, alloc, site, scrapers, config, machines, bounds);
    if served.is_ok() {
        drives.add_proxy(began, bounds);
    }
    served
}
