//! The service of a proxy's connections.
ghost use Rattle.std.specs.Prelude.{◌≡◌, ◌+◌, ◌≤◌, Some, Err, [], ◌∷◌, ◌++◌, option_map};
ghost use Rattle.mr_proxy.specs.ProxyView.{IsFresh};
ghost use Rattle.mr_desks.specs.declared.error.WorkerError.TheVariants.{TurnsSpent};
ghost use Rattle.mr_sockets.specs.Listener.{AreAccepted};
ghost use Rattle.mr_sockets.specs.Serving.{ProxyServing, run};

use crate::bounds::ServiceBounds;
use crate::carriers::node_carriers;
use crate::connections::{Service, serve_connections};
use crate::listener::{Listener, OverListener};
use crate::patience::{Patience, leg_wait};
use crate::patient_writer::PatientWriter;
use crate::runs::GhostRuns;
use crate::socket_carrier::SocketCarrier;
use mr_clock::{Clock, SystemClock};
use mr_desks::{Carriers, Desk, DirectCarriers, SharedProxy};
use mr_pools::Routing;
use mr_proxy::ProxyCore;
use mr_sessions::{Served, serve_client};
use mr_text::{OverReader, OverWriter, Sink, Source};
use std::alloc::Global;
use std::net::{Net, TcpListener, TcpStream};
use std::snapshot::Snapshot;
use std::sync::Wait;
use std::thread::Threads;
use std::time;

/// What serves each connection of a proxy.
struct ProxyService<'a, N: Net + Copy, D: Desk<SocketCarrier<N>>, K: Clock + Clone, R: Wait> {
    rt: &'a R,
    net: N,
    alloc: Global,
    desk: &'a D,
    began: &'a Option<Snapshot<ProxyCore>>,
    routing: &'a Routing,
    turns: u64,
    client_seconds: u64,
    leg_millis: u64,
    clock: &'a K,
}

impl<'a, N: Net + Copy, D: Desk<SocketCarrier<N>>, K: Clock + Clone, R: Wait> Drop
    for ProxyService<'a, N, D, K, R> {
    fn drop(self) {
        let Self {
            rt: _,
            net: _,
            alloc: _,
            desk: _,
            began: _,
            routing: _,
            turns: _,
            client_seconds: _,
            leg_millis: _,
            clock: _,
        } = self;
    }
}

impl<'a, N: Net + Copy, D: Desk<SocketCarrier<N>>, K: Clock + Clone, R: Wait> ProxyService<
    'a,
    N,
    D,
    K,
    R,
> {
    /// Serves what a reader gives, in at most `turns` reads.
    fn serve_stream<C: Clock, S: Source, W: Sink, L: Carriers<SocketCarrier<N>>>(
        &self,
        clock: &mut C,
        reader: &mut S,
        writer: &mut W,
        carriers: &mut L,
    ) -> Served
        ensures reads { (S.told reader.new).reads ≤ (S.told reader.old).reads + self.now.turns }
        ensures spent { result.ended ≡ Err TurnsSpent → (S.told reader.new).reads ≡ (S.told reader.old).reads + self.now.turns }
    {
        serve_client(
            self.rt, self.alloc, self.desk, clock, reader, writer, carriers, self.turns,
        )
    }
}

impl<'a, N: Net + Copy, D: Desk<SocketCarrier<N>>, K: Clock + Clone, R: Wait> Service
    for ProxyService<'a, N, D, K, R> {
    ghost serves = { λ s. ProxyServing (option_map (λ b. b.value) s.began.now) s.routing.now s.turns };

    fn note(&self, clients: u64, runs: &mut GhostRuns) {
        runs.add_proxy(self.began, self.routing, self.turns, clients);
    }

    fn serve(&self, stream: &TcpStream) -> bool {
        let Ok(mut clock) = self.clock.clone() else {
            return false;
        };
        let wait = leg_wait(self.leg_millis);
        let Ok(pools) = node_carriers(self.net, self.alloc, self.routing, self.turns, wait) else {
            return false;
        };
        let mut carriers = DirectCarriers::new(self.alloc, pools);
        let mut reader = OverReader::new(stream);
        let mut writer = OverWriter::new(PatientWriter::new(stream, self.client_seconds));
        self.serve_stream(&mut clock, &mut reader, &mut writer, &mut carriers)
            .ended
            .is_ok()
    }
}

/// Serves the proxy of a desk, as `serve_proxy` does, within these bounds, and notes that.
fn serve_desk<
    'a,
    L: Listener + Drop,
    N: Net<Listener = TcpListener, Stream = TcpStream> + Copy + Send + Sync,
    D: Desk<SocketCarrier<N>> + Sync,
    K: Clock + Clone + Sync,
    R: Threads + Wait + time::Clock + Sync,
>(
    rt: &'a R,
    alloc: Global,
    net: N,
    listener: L,
    desk: &'a D,
    began: &'a Option<Snapshot<ProxyCore>>,
    routing: &'a Routing,
    bounds: ServiceBounds,
    clock: &'a K,
    runs: &mut GhostRuns,
) -> (L, u64)
    ensures accepted { AreAccepted bounds.clients (L.told listener) result.1 (L.told result.0) }
    ensures ran { runs.new ≡ runs.old
        ++ run (ProxyServing (option_map (λ b. b.value) began.now) routing.now bounds.turns) bounds.clients ∷ [] }
{
    let service = ProxyService {
        rt,
        alloc,
        net,
        desk,
        began,
        routing,
        turns: bounds.turns,
        client_seconds: bounds.patience.client_seconds,
        leg_millis: bounds.patience.leg_millis,
        clock,
    };
    serve_connections(rt, listener, &service, bounds.clients, runs)
}

/// Serves a proxy to so many clients, as `mr_sessions` serves one: accepts their connections one after another, and serves
/// each in a thread of its own, by a copy of the clock and by connections to the nodes of its own, over the proxy that all
/// share. At most `turns` reads are made of each connection, and of a node for each leg. Gives the listener back once all
/// connections have ended, with how many ended without a fault: by a quit, at the end of their input, or with a request that
/// was refused and answered.
///
/// A connection that can't be accepted, or gets no thread, no clock or no carriers, has ended with a fault, and stops no
/// other; after one that can't be accepted there is a pause of 100 milliseconds. Nothing is kept of a connection that has ended.
pub fn serve_proxy<
    'a,
    L: Listener + Drop,
    N: Net<Listener = TcpListener, Stream = TcpStream> + Copy + Send + Sync,
    D: Desk<SocketCarrier<N>> + Sync,
    K: Clock + Clone + Sync,
    R: Threads + Wait + time::Clock + Sync,
>(
    rt: &'a R,
    alloc: Global,
    net: N,
    listener: L,
    desk: &'a D,
    routing: &'a Routing,
    clients: u64,
    turns: u64,
    clock: &'a K,
) -> (L, u64)
    ensures { AreAccepted clients (L.told listener) result.1 (L.told result.0) }
{
    let bounds = ServiceBounds {
        clients,
        turns,
        patience: Patience::ENDLESS,
    };
    let began = None;
    let mut runs = GhostRuns::new();
    serve_desk(
        rt, alloc, net, listener, desk, &began, routing, bounds, clock, &mut runs,
    )
}

/// A fresh proxy, shared, with what it was at first.
fn share<N: Net + Copy>(core: ProxyCore) -> (SharedProxy<SocketCarrier<N>>, Snapshot<ProxyCore>)
    requires { IsFresh core }
    ensures { result.1.value ≡ core }
{
    let began = Snapshot::of(&core);
    (SharedProxy::new(core), began)
}

/// Serves a fresh proxy at a socket of its own, by the machine's time and by carriers to the nodes of a routing, and gives how
/// many of its clients ended without a fault.
pub fn run_proxy<
    R: Net<Listener = TcpListener, Stream = TcpStream> + Threads + Wait + time::Clock + Sync,
>(
    rt: &R,
    alloc: Global,
    listener: OverListener,
    core: ProxyCore,
    routing: &Routing,
    bounds: ServiceBounds,
    runs: &mut GhostRuns,
) -> u64
    requires { IsFresh core }
    ensures among { result ≤ bounds.clients }
    ensures ran { runs.new ≡ runs.old ++ run (ProxyServing (Some core) routing.now bounds.turns) bounds.clients ∷ [] }
{
    let (desk, began) = share::<&R>(core);
    let began = Some(began);
    let clock = SystemClock::new(rt);
    let (_, served) = serve_desk(
        rt, alloc, rt, listener, &desk, &began, routing, bounds, &clock, runs,
    );
    served
}
