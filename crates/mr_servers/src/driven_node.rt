//! The service of a node on loops: one cache, which all of them share.
ghost use Rattle.std.specs.Prelude.{◌≡◌, ◌≢◌, ◌≤◌, IfOk, IfErr, map, replicate};
ghost use Rattle.mr_servers.specs.Drives.{NodeDrive};
ghost use Rattle.mr_servers.specs.Driving.{drives_noted, fresh_parts, parts_of};
ghost use Rattle.mr_servers.specs.declared.fault.OpenFault.{OpenFault};

use crate::drives::GhostDrives;
use crate::driving::{Nature, Running, Site, fault_of, serve_loops};
use crate::fault::OpenFault;
use crate::node_teller::NodeTeller;
use mr_clock::SystemClock;
use mr_counting::ServiceTime;
use mr_driver::{CacheDesk, Doors, DriverBounds, Loops, SharedCache, open_node_loops};
use mr_log::Log;
use mr_loop::{NodeLoop, ServedCounts};
use mr_sockets::SeededNode;
use std::alloc::{AllocError, Global};
use std::net::{Net, TcpListener, TcpStream};
use std::snapshot::Snapshot;
use std::sync::{Mutex, Wait};
use std::thread::Threads;
use std::time::Clock;

/// The loops of a node, which share its cache.
#[derive(Clone, Copy, Debug)]
pub struct NodeLoops {
    /// How many there are.
    pub count: u32,
    /// While a client has more bytes of its answers unread, no further request of it is served.
    pub most_unread: usize,
}

/// A node's cache, which loops share, with the node as it was at first.
fn share(node: SeededNode) -> (SharedCache, Snapshot<SeededNode>)
    ensures { result.1.value ≡ node }
{
    let began = Snapshot::of(&node);
    let capacity = node.capacity();
    (SharedCache::new(node.into_cache(), capacity), began)
}

/// So many loops without clients, over one cache.
fn machines_of<'a, R: Wait>(
    rt: &'a R,
    alloc: Global,
    cache: &'a SharedCache,
    loops: NodeLoops,
) -> Result<Vec<NodeLoop<CacheDesk<'a, 'a, R>>>, AllocError>
    ensures { IfOk result (λ machines. map parts_of machines.items ≡ replicate loops.count (fresh_parts loops.most_unread)) }
{
    let count = loops.count as usize;
    let mut machines = Vec::with_capacity(alloc, count)?;
    'machine: while machines.len() < count {
        match NodeLoop::new(alloc, cache.desk(rt), loops.most_unread) {
            Ok(machine) => machines.push(machine)?,
            Err(_) => return Err(AllocError),
        }
    }
    Ok(machines)
}

/// A loop for each machine. OutOfMemory where memory is refused, Net where they can't be opened for anything else, as for want of
/// descriptors.
fn open_all<'a, R: Net + Wait + Sync>(
    rt: &'a R,
    alloc: Global,
    cache: &'a SharedCache,
    loops: NodeLoops,
) -> Result<(Loops<NodeLoop<CacheDesk<'a, 'a, R>>>, Doors<ServedCounts>), OpenFault>
    ensures { IfErr result (λ fault. fault ≢ OpenFault.Metrics) }
{
    let Ok(machines) = machines_of(rt, alloc, cache, loops) else {
        return Err(OpenFault::OutOfMemory);
    };
    match open_node_loops(rt, alloc, machines) {
        Ok(opened) => Ok(opened),
        Err(error) => Err(fault_of(error.kind())),
    }
}

/// Serves so many clients by so many loops over a cache, as `drive_node` does.
fn serve_cache<R: Net<Listener = TcpListener, Stream = TcpStream> + Threads + Wait + Clock + Sync>(
    rt: &R,
    alloc: Global,
    site: Site<'_>,
    scrapers: Option<TcpListener>,
    cache: &SharedCache,
    loops: NodeLoops,
    bounds: DriverBounds,
) -> Result<u64, OpenFault>
    ensures among { IfOk result (λ served. served ≤ bounds.clients) }
    ensures fault { IfErr result (λ fault. fault ≢ OpenFault.Metrics) }
{
    let (opened, doors) = match open_all(rt, alloc, cache, loops) {
        Ok(opened) => opened,
        Err(fault) => return Err(fault),
    };
    let clock = SystemClock::new(rt);
    let time = ServiceTime::new(&clock);
    let teller = NodeTeller {
        rt,
        version: site.version,
        address: site.listen,
        doors: &doors,
        cache,
        time: &time,
        clock: &clock,
    };
    let nature = Nature {
        config: None,
        pools: &[],
        schedule: None,
        loops: u64::from(loops.count),
    };
    let log = Mutex::new(Log::new());
    let running = Running::Node(opened, &doors);
    Ok(serve_loops(
        rt,
        alloc,
        site,
        nature,
        scrapers,
        &teller,
        running,
        bounds,
        &time.watch,
        &log,
    ))
}

/// Serves so many clients that come to a socket by so many loops over a node's cache, and gives how many of them ended without a fault,
/// once all have. Its metrics are told at the other socket, if there is one, and what happens to it is said, if there is a voice. Without
/// a loop nobody is served. OutOfMemory where memory is refused before the first client, Net where the loops can't be opened for anything
/// else.
pub(crate) fn drive_node<
    R: Net<Listener = TcpListener, Stream = TcpStream> + Threads + Wait + Clock + Sync,
>(
    rt: &R,
    alloc: Global,
    site: Site<'_>,
    scrapers: Option<TcpListener>,
    node: SeededNode,
    loops: NodeLoops,
    bounds: DriverBounds,
    drives: &mut GhostDrives,
) -> Result<u64, OpenFault>
    ensures among { IfOk result (λ served. served ≤ bounds.clients) }
    ensures fault { IfErr result (λ fault. fault ≢ OpenFault.Metrics) }
    ensures noted { drives.new ≡ drives_noted (NodeDrive node loops bounds) result drives.old }
{
    let (cache, began) = share(node);
    let served = serve_cache(rt, alloc, site, scrapers, &cache, loops, bounds);
    if served.is_ok() {
        drives.add_node(began, loops, bounds);
    }
    served
}
