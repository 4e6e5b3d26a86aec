//! The services of this machine.
ghost use Rattle.std.specs.Prelude.{◌≡◌, ◌≢◌, None, if◌then◌else◌, option_map, IfOk, IfErr};
ghost use Rattle.mr_driver.specs.Going.{GoesOn};
ghost use Rattle.mr_proxy.specs.ProxyView.{IsFresh};
ghost use Rattle.mr_servers.specs.Servers.{DrawsSeed, IsOneService, NodeAt, ProxyAt, LoopsAt, NodeLoopsAt, OpensBoth, clients_at};
ghost use Rattle.mr_servers.specs.declared.fault.OpenFault.{OpenFault};

use crate::asking::{metrics_at, stats_at};
use crate::driven_node::{NodeLoops, drive_node};
use crate::driven_proxy::drive_proxy;
use crate::drives::GhostDrives;
use crate::driving::Site;
use crate::fault::{OpenFault, SeedFault};
use crate::listening::MachineListens;
use crate::moments::{moment_now, passed_since};
use crate::screen::Screen;
use crate::seeds::GhostSeeds;
use crate::solo::open_solo;
use mr_counting::ClockWatch;
use mr_driver::{DriverBounds, Linked, Solo};
use mr_loop::ProxyLoop;
use mr_pools::Routing;
use mr_proxy::ProxyCore;
use mr_sockets::{GhostRuns, SeededNode, ServiceBounds, open, run_node, run_proxy};
use mr_text::GhostCount;
use std::alloc::{AllocError, Global};
use std::hash::RandomState;
use std::io::Stderr;
use std::marker::Model;
use std::net::{Net, TcpListener, TcpStream};
use std::random::RandomSource;
use std::sync::Wait;
use std::thread::Threads;
use std::time::{Duration, Instant, SystemTime, UNIX_EPOCH};
use std::{thread, time};

/// What a service on loops tells of itself, and where.
#[derive(Clone, Copy, Debug)]
pub struct Telling<'a> {
    /// The version of the program.
    pub version: &'a str,
    /// Where those that scrape its metrics connect, if they are told: a host and a port, with a colon between them.
    pub metrics: Option<&'a str>,
    /// Whether nothing is said on standard error of what happens to it.
    pub quiet: bool,
}

/// Where it is said what happens to a service, which may be quiet.
fn voice_of(voice: Option<Stderr>, quiet: bool) -> Option<Stderr>
    ensures { result ≡ (if quiet then None else voice) }
{
    if quiet { None } else { voice }
}

/// The sockets, the threads, the time and the random source of this machine, with what was asked of them and what ran as
/// contracts see it.
pub struct HostServers<
    'a,
    R: Net<Listener = TcpListener, Stream = TcpStream>
        + Threads
        + Wait
        + time::Clock
        + RandomSource
        + Sync,
> {
    rt: &'a R,
    screen: Screen,
    processors: u64,
    voice: Option<Stderr>,
    begun: Option<Instant>,
    listens: MachineListens<'a, R>,
    seeds: GhostSeeds,
    runs: GhostRuns,
    drives: GhostDrives,
    failures: GhostCount,
}

impl<
    'a,
    R: Net<Listener = TcpListener, Stream = TcpStream>
        + Threads
        + Wait
        + time::Clock
        + RandomSource
        + Sync,
> Drop for HostServers<'a, R> {
    fn drop(self) {
        let Self {
            rt: _,
            screen: _,
            processors: _,
            voice: _,
            begun: _,
            listens: _,
            seeds: _,
            runs: _,
            drives: _,
            failures: _,
        } = self;
    }
}

impl<
    'a,
    R: Net<Listener = TcpListener, Stream = TcpStream>
        + Threads
        + Wait
        + time::Clock
        + RandomSource
        + Sync,
> Model for HostServers<'a, R> {
    ghost use Rattle.mr_servers.specs.Servers.{ServersView};

    ghost Value = { ServersView };

    ghost view = { λ s. record { screen = s.screen; processors = s.processors; listened = s.listens; seeds = s.seeds; runs = s.runs; drives = s.drives; failures = s.failures } };
}

impl<
    'a,
    R: Net<Listener = TcpListener, Stream = TcpStream>
        + Threads
        + Wait
        + time::Clock
        + RandomSource
        + Sync,
> HostServers<'a, R> {
    ghost use Rattle.mr_servers.specs.Servers.{no_terminal, servers_on};

    /// The sockets, threads, time and random source of a machine, of which nothing was asked yet. Its output goes to no terminal, and
    /// it runs one thread at a time. Nothing is said of what happens to services.
    pub fn new(rt: &'a R) -> HostServers<'a, R>
        ensures { result ≡ servers_on no_terminal }
    {
        HostServers {
            rt,
            screen: Screen {
                terminal: false,
                colours: false,
            },
            processors: 1,
            voice: None,
            begun: moment_now(rt),
            listens: MachineListens::new(rt),
            seeds: GhostSeeds::new(),
            runs: GhostRuns::new(),
            drives: GhostDrives::new(),
            failures: GhostCount::new(),
        }
    }

    /// The same, with an output that goes to this place.
    pub fn on(mut self, screen: Screen) -> HostServers<'a, R>
        ensures { result ≡ record self.entry { screen = screen } }
    {
        self.screen = screen;
        self
    }

    /// Where the output goes.
    pub fn screen(&self) -> Screen
        ensures { result ≡ self.now.screen }
    {
        self.screen
    }

    /// The same, of a machine that runs so many threads at once.
    pub fn with_processors(mut self, processors: u64) -> HostServers<'a, R>
        ensures { result ≡ record self.entry { processors = processors } }
    {
        self.processors = processors;
        self
    }

    /// The same, of which it is said there what happens to services that aren't quiet. Contracts don't see that.
    pub fn saying(mut self, voice: Stderr) -> HostServers<'a, R>
        ensures { result ≡ self.entry }
    {
        self.voice = Some(voice);
        self
    }

    /// How many threads the machine runs at once, as far as that was said.
    pub fn processors(&self) -> u64
        ensures { result ≡ self.now.processors }
    {
        self.processors
    }

    /// What a service tells of itself at an address: a host and a port, with a colon between them. It is asked for a second at
    /// most. None where the text is no address, where no connection is made, or where the answer isn't whole.
    pub fn metrics_at(&self, alloc: Global, address: &str) -> Result<Option<Vec<u8>>, AllocError> {
        metrics_at(self.rt, alloc, address)
    }

    /// What a node of this name answers to `stats`. It is asked for a second at most. None where the name is no address, where no
    /// connection is made, or where nothing is answered.
    pub fn stats_at(&self, alloc: Global, name: &str) -> Result<Option<Vec<u8>>, AllocError> {
        stats_at(self.rt, alloc, name)
    }

    /// A loop of a machine that has links and no clients, whose links lead to these addresses, in order: each is dialled. A text that is no
    /// address of a node is never dialled. What a dial may take, what happens where it fails, and how its turns are taken, `Solo` says.
    /// OutOfMemory where memory is refused, Net where it can't be opened for anything else, as for want of descriptors. Contracts don't see
    /// that it was opened.
    pub fn open_solo<'w, M: Linked>(
        &self,
        alloc: Global,
        machine: M,
        addresses: &[&str],
        dial_millis: u64,
        watch: &'w ClockWatch,
    ) -> Result<Solo<'w, R, M>, OpenFault>
    where
        'a: 'w,
        ensures begun { IfOk result (λ solo. solo.now ≡ 0) }
        ensures machine { IfOk result (λ solo. GoesOn M.link_steps machine solo.machine) }
        ensures fault { IfErr result (λ fault. fault ≢ OpenFault.Metrics) }
    {
        open_solo(self.rt, alloc, machine, addresses, dial_millis, watch)
    }

    /// How many milliseconds have passed since this was made, by a clock that never goes back. 0 where it gives no reading.
    pub fn milliseconds(&self) -> u64 {
        passed_since(self.rt, self.begun).unwrap_or(0)
    }

    /// The second that the machine's clock says, since the epoch. 0 where it gives no reading.
    pub fn second(&self) -> u64 {
        let Ok(time) = SystemTime::now(self.rt) else {
            return 0;
        };
        match time.duration_since(UNIX_EPOCH) {
            Ok(passed) => passed.as_secs(),
            Err(_) => 0,
        }
    }

    /// How many microseconds have passed since the epoch, as the machine's clock says. 0 where it gives no reading.
    pub fn microseconds(&self) -> u64 {
        let Ok(time) = SystemTime::now(self.rt) else {
            return 0;
        };
        match time.duration_since(UNIX_EPOCH) {
            Ok(passed) => passed.as_micros().min(u128::from(u64::MAX)) as u64,
            Err(_) => 0,
        }
    }

    /// Waits for so many milliseconds.
    pub fn pause(&self, milliseconds: u64) {
        thread::sleep(self.rt, Duration::from_millis(milliseconds))
    }

    /// A seed that nobody outside knows, drawn from the machine's random source.
    pub fn draw_seed(&mut self) -> Result<RandomState, SeedFault>
        ensures { DrawsSeed self.old result self.new }
    {
        match RandomState::new(self.rt) {
            Ok(seed) => {
                self.seeds.add(seed);
                Ok(seed)
            }
            Err(_) => {
                self.failures.add_one();
                Err(SeedFault)
            }
        }
    }

    /// A number that nobody outside knows, drawn from the machine's random source. Contracts don't see that it was drawn.
    pub fn draw_number(&self) -> Result<u64, SeedFault> {
        let mut bytes = [0; 8];
        match self.rt.fill_bytes(&mut bytes) {
            Ok(()) => Ok(u64::from_be_bytes(bytes)),
            Err(_) => Err(SeedFault),
        }
    }

    /// Serves a node at an address, as `serve_node` does, by the machine's time. Gives how many of the clients ended without a
    /// fault, once all have. Net where the address is none or no socket listens there.
    pub fn serve_node(
        &mut self,
        alloc: Global,
        listen: &str,
        node: SeededNode,
        bounds: ServiceBounds,
    ) -> Result<u64, OpenFault>
        ensures { IsOneService (NodeAt (clients_at listen.now) node bounds) self.old result self.new }
    {
        let wait = bounds.patience.for_client();
        let Some(listener) = open(&mut self.listens, listen, wait) else {
            self.failures.add_one();
            return Err(OpenFault::Net);
        };
        let served = run_node(self.rt, alloc, listener, node, bounds, &mut self.runs);
        Ok(served)
    }

    /// Serves a proxy at an address, as `serve_proxy` does, by the machine's time and by carriers to the nodes of a routing.
    /// Gives how many of the clients ended without a fault, once all have. Net where the address is none or no socket listens
    /// there.
    pub fn serve_proxy(
        &mut self,
        alloc: Global,
        listen: &str,
        core: ProxyCore,
        routing: &Routing,
        bounds: ServiceBounds,
    ) -> Result<u64, OpenFault>
        requires { IsFresh core }
        ensures { IsOneService (ProxyAt (clients_at listen.now) core routing.now bounds) self.old result self.new }
    {
        let wait = bounds.patience.for_client();
        let Some(listener) = open(&mut self.listens, listen, wait) else {
            self.failures.add_one();
            return Err(OpenFault::Net);
        };
        let served = run_proxy(
            self.rt,
            alloc,
            listener,
            core,
            routing,
            bounds,
            &mut self.runs,
        );
        Ok(served)
    }

    /// The sockets of a service on loops: for its clients, and for those that scrape its metrics, if it is said where. Net where the
    /// first address is none or no socket listens there, Metrics the same of the other.
    fn open_both(
        &mut self,
        listen: &str,
        metrics: Option<&str>,
    ) -> Result<(TcpListener, Option<TcpListener>), OpenFault>
        ensures { OpensBoth (record { listen = listen.now; metrics = option_map (λ m. m.now) metrics.entry })
            self.old result self.new }
    {
        let Some(listener) = self.listens.open_queue(listen) else {
            self.failures.add_one();
            return Err(OpenFault::Net);
        };
        let Some(metrics) = metrics else {
            return Ok((listener, None));
        };
        let Some(scrapers) = self.listens.open_queue(metrics) else {
            self.failures.add_one();
            return Err(OpenFault::Metrics);
        };
        Ok((listener, Some(scrapers)))
    }

    /// Serves a node at an address by so many loops that share it, by the machine's time, as `drive_proxy` does a proxy, with the same
    /// faults.
    pub fn drive_node(
        &mut self,
        alloc: Global,
        listen: &str,
        telling: Telling<'_>,
        node: SeededNode,
        loops: NodeLoops,
        bounds: DriverBounds,
    ) -> Result<u64, OpenFault>
        ensures { IsOneService
            (NodeLoopsAt (record { listen = listen.now; metrics = option_map (λ m. m.now) telling.entry.metrics }) node loops bounds)
            self.old result self.new }
    {
        let (listener, scrapers) = self.open_both(listen, telling.metrics)?;
        let site = self.site_of(listen, &listener, telling);
        let served = drive_node(
            self.rt,
            alloc,
            site,
            scrapers,
            node,
            loops,
            bounds,
            &mut self.drives,
        );
        if served.is_err() {
            self.failures.add_one();
        }
        served
    }

    /// Serves a proxy at an address by a loop for each of these machines, by the machine's time, and tells its metrics to those that
    /// scrape them, if it is said where, with the SHA-256 of its configuration as transcripts write it, in hexadecimal digits. Gives how
    /// many of the clients ended without a fault, once all have. The first of these faults that there is: Net where the address is none
    /// or no socket listens there, Metrics the same of the metrics' address, OutOfMemory where memory is refused for the loops, Net
    /// where they can't be opened for anything else, as for want of descriptors.
    pub fn drive_proxy(
        &mut self,
        alloc: Global,
        listen: &str,
        config: &str,
        telling: Telling<'_>,
        machines: Vec<ProxyLoop>,
        bounds: DriverBounds,
    ) -> Result<u64, OpenFault>
        ensures { IsOneService
            (LoopsAt (record { listen = listen.now; metrics = option_map (λ m. m.now) telling.entry.metrics }) machines.items bounds)
            self.old result self.new }
    {
        let (listener, scrapers) = self.open_both(listen, telling.metrics)?;
        let site = self.site_of(listen, &listener, telling);
        let served = drive_proxy(
            self.rt,
            alloc,
            site,
            scrapers,
            config,
            machines,
            bounds,
            &mut self.drives,
        );
        if served.is_err() {
            self.failures.add_one();
        }
        served
    }

    /// Where a service on loops stands.
    fn site_of<'s>(
        &self,
        listen: &'s str,
        listener: &'s TcpListener,
        telling: Telling<'s>,
    ) -> Site<'s>
        ensures version { result.version.now ≡ telling.entry.version.now }
        ensures listen { result.listen.now ≡ listen.entry.now }
    {
        Site {
            version: telling.version,
            listen,
            listener,
            voice: voice_of(self.voice, telling.quiet),
        }
    }
}
