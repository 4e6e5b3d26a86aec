//! The service of loops, whatever they serve: with metrics that it tells or without, and with a log that it says or without.
ghost use Rattle.std.specs.Prelude.{◌≡◌, ◌≤◌};
ghost use Rattle.mr_servers.specs.Driving.{fault_of};

use crate::fault::OpenFault;
use crate::hearing::Ears;
use crate::moments::moment_now;
use crate::saying::Speaker;
use crate::scrapes::{ScrapeState, serve_scrapers};
use mr_counting::ClockWatch;
use mr_driver::{CacheDesk, Doors, DriverBounds, Hears, LoopReport, Loops, serve};
use mr_http::Tells;
use mr_log::{Happening, Log, Service};
use mr_loop::{NodeLoop, ProxyLoop, ServedCounts};
use mr_phases::Schedule;
use mr_pools::Pool;
use std::alloc::Global;
use std::io::Stderr;
use std::net::{Net, TcpListener, TcpStream};
use std::sync::{Mutex, Wait};
use std::thread::{Scope, Threads};
use std::time::Clock;
use std::{io, thread};

/// Where a service on loops stands.
#[derive(Clone, Copy)]
pub(crate) struct Site<'a> {
    /// The version of the program.
    pub(crate) version: &'a str,
    /// Where clients connect, as it was asked for.
    pub(crate) listen: &'a str,
    /// The socket there.
    pub(crate) listener: &'a TcpListener,
    /// Where it is said what happens, if it is.
    pub(crate) voice: Option<Stderr>,
}

/// What is said of a service on loops beside where it stands.
#[derive(Clone, Copy)]
pub(crate) struct Nature<'a> {
    /// The digest of its configuration, if it has one.
    pub(crate) config: Option<&'a str>,
    /// Its pools, of which it has none without a configuration.
    pub(crate) pools: &'a [Pool],
    /// When its phases begin, if it has some.
    pub(crate) schedule: Option<Schedule>,
    /// How many loops it has.
    pub(crate) loops: u64,
}

/// Loops that are to serve clients, with the doors by which they are asked.
pub(crate) enum Running<'a, R: Wait + Sync> {
    /// Those of a proxy.
    Proxy(Loops<ProxyLoop>, &'a Doors<LoopReport>),
    /// Those of a node.
    Node(Loops<NodeLoop<CacheDesk<'a, 'a, R>>>, &'a Doors<ServedCounts>),
}

impl<'a, R: Wait + Sync> Drop for Running<'a, R> {
    fn drop(self) {
        match self {
            Running::Proxy(_, _) => {}
            Running::Node(_, _) => {}
        }
    }
}

/// Why loops couldn't be opened, by the kind of the machine's error.
pub(crate) fn fault_of(kind: io::ErrorKind) -> OpenFault
    ensures { result ≡ fault_of kind }
{
    match kind {
        io::ErrorKind::OutOfMemory => OpenFault::OutOfMemory,
        _ => OpenFault::Net,
    }
}

impl<
    'a,
    R: Net<Listener = TcpListener, Stream = TcpStream> + Threads + Wait + Clock + Sync,
> Running<'a, R> {
    /// Serves clients by these loops as `serve` does.
    fn serve<E: Hears + Sync>(
        self,
        rt: &R,
        alloc: Global,
        listener: &TcpListener,
        bounds: DriverBounds,
        watch: &ClockWatch,
        ears: &E,
    ) -> u64
        ensures { result ≤ bounds.clients }
    {
        match self {
            Running::Proxy(loops, doors) => {
                serve(rt, alloc, listener, loops, doors, bounds, watch, ears)
            }
            Running::Node(loops, doors) => {
                serve(rt, alloc, listener, loops, doors, bounds, watch, ears)
            }
        }
    }
}

/// Serves clients by loops as `serve` does, beside threads of this scope for scrapers, if there is a socket for them, and for what is
/// said, if there is a voice. Then these are told that it has ended.
fn serve_in<
    's,
    'e,
    R: Net<Listener = TcpListener, Stream = TcpStream> + Threads + Wait + Clock + Sync,
    T: Tells + Sync,
    E: Hears + Sync,
>(
    rt: &'s R,
    scope: &'s Scope<'s, &'e ()>,
    alloc: Global,
    site: Site<'_>,
    scrapers: Option<TcpListener>,
    teller: &'s T,
    speaker: &'s Speaker<'s, R>,
    running: Running<'_, R>,
    bounds: DriverBounds,
    watch: &ClockWatch,
    ears: &E,
    state: &'s ScrapeState,
) -> u64
    ensures { result ≤ bounds.clients }
{
    if let Some(socket) = scrapers {
        let _ = scope.spawn(move || serve_scrapers(rt, alloc, socket, teller, state));
    }
    if let Some(voice) = site.voice {
        let _ = scope.spawn(move || speaker.speak(voice, state));
    }
    let served = running.serve(rt, alloc, site.listener, bounds, watch, ears);
    state.end();
    served
}

/// Serves clients by loops as `serve` does, and until all of them have ended also those at the other socket, if there is one, and who
/// listens to the voice, if there is one.
fn serve_all<
    R: Net<Listener = TcpListener, Stream = TcpStream> + Threads + Wait + Clock + Sync,
    T: Tells + Sync,
    E: Hears + Sync,
>(
    rt: &R,
    alloc: Global,
    site: Site<'_>,
    scrapers: Option<TcpListener>,
    teller: &T,
    speaker: &Speaker<'_, R>,
    running: Running<'_, R>,
    bounds: DriverBounds,
    watch: &ClockWatch,
    ears: &E,
) -> u64
    ensures { result ≤ bounds.clients }
{
    let state = ScrapeState::new();
    let lent = &state;
    let served = thread::scope(thread::scope_env(), rt, move |scope| {
        serve_in(
            rt, scope, alloc, site, scrapers, teller, speaker, running, bounds, watch, ears, lent,
        )
    });
    // it is no more already, which isn't known of what a scope gives
    served.min(bounds.clients)
}

/// Serves so many clients that come to a socket by these loops, and gives how many of them ended without a fault, once all have. What
/// the teller tells is told at the other socket, if there is one, and what happens is noted in this log and said, if there is a voice.
pub(crate) fn serve_loops<
    'a,
    R: Net<Listener = TcpListener, Stream = TcpStream> + Threads + Wait + Clock + Sync,
    T: Tells + Sync,
>(
    rt: &'a R,
    alloc: Global,
    site: Site<'a>,
    nature: Nature<'a>,
    scrapers: Option<TcpListener>,
    teller: &T,
    running: Running<'_, R>,
    bounds: DriverBounds,
    watch: &'a ClockWatch,
    log: &'a Mutex<Log>,
) -> u64
    ensures { result ≤ bounds.clients }
{
    log.lock(rt).note(Happening::Listens {
        loops: nature.loops,
    });
    let ears = Ears {
        rt,
        log,
        most: bounds.most_clients,
    };
    let speaker = Speaker {
        rt,
        alloc,
        service: Service {
            version: site.version,
            address: site.listen,
            config: nature.config,
            pools: nature.pools,
        },
        schedule: nature.schedule,
        log,
        watch,
        begun: moment_now(rt),
    };
    serve_all(
        rt, alloc, site, scrapers, teller, &speaker, running, bounds, watch, &ears,
    )
}
