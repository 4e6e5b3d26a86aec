//! The service of a node's connections.
ghost use Rattle.std.specs.Prelude.{◌≡◌, ◌+◌, ◌≤◌, Some, Err, [], ◌∷◌, ◌++◌, option_map};
ghost use Rattle.mr_sockets.specs.Listener.{AreAccepted};
ghost use Rattle.mr_sockets.specs.Serving.{NodeServing, run};

use crate::bounds::ServiceBounds;
use crate::connections::{Service, serve_connections};
use crate::listener::{Listener, OverListener};
use crate::patient_writer::PatientWriter;
use crate::runs::GhostRuns;
use crate::seeded_node::SeededNode;
use mr_clock::{Clock, SystemClock};
use mr_desks::SharedNode;
use mr_node::{Ended, NodeError, serve};
use mr_text::{OverReader, OverWriter, Sink, Source};
use std::alloc::Global;
use std::net::TcpStream;
use std::snapshot::Snapshot;
use std::sync::Wait;
use std::thread::Threads;
use std::time;

/// What serves each connection of a node.
struct NodeService<'a, K: Clock + Clone, R: Wait> {
    rt: &'a R,
    alloc: Global,
    node: &'a SharedNode,
    began: &'a Option<Snapshot<SeededNode>>,
    turns: u64,
    client_seconds: u64,
    clock: &'a K,
}

impl<'a, K: Clock + Clone, R: Wait> Drop for NodeService<'a, K, R> {
    fn drop(self) {
        let Self {
            rt: _,
            alloc: _,
            node: _,
            began: _,
            turns: _,
            client_seconds: _,
            clock: _,
        } = self;
    }
}

impl<'a, K: Clock + Clone, R: Wait> NodeService<'a, K, R> {
    /// Serves what a reader gives, in at most `turns` reads.
    fn serve_stream<C: Clock, S: Source, W: Sink>(
        &self,
        clock: &mut C,
        reader: &mut S,
        writer: &mut W,
    ) -> Result<Ended, NodeError>
        ensures reads { (S.told reader.new).reads ≤ (S.told reader.old).reads + self.now.turns }
        ensures spent { result ≡ Err NodeError.TurnsSpent → (S.told reader.new).reads ≡ (S.told reader.old).reads + self.now.turns }
    {
        let mut node = self.node.desk(self.rt);
        serve(self.alloc, &mut node, reader, writer, clock, self.turns)
    }
}

impl<'a, K: Clock + Clone, R: Wait> Service for NodeService<'a, K, R> {
    ghost serves = { λ s. NodeServing (option_map (λ b. b.value) s.began.now) s.turns };

    fn note(&self, clients: u64, runs: &mut GhostRuns) {
        runs.add_node(self.began, self.turns, clients);
    }

    fn serve(&self, stream: &TcpStream) -> bool {
        let Ok(mut clock) = self.clock.clone() else {
            return false;
        };
        let mut reader = OverReader::new(stream);
        let mut writer = OverWriter::new(PatientWriter::new(stream, self.client_seconds));
        self.serve_stream(&mut clock, &mut reader, &mut writer)
            .is_ok()
    }
}

/// Serves a node to so many clients, as `mr_node` serves one: accepts their connections one after another, and serves each in
/// a thread of its own, by a copy of the clock of its own, over the cache that all share. At most `turns` reads are made of
/// each connection. Gives the listener back once all connections have ended, with how many ended without a fault: by a quit,
/// at the end of their input, or with a request that was refused and answered.
///
/// A connection that can't be accepted, or gets no thread or no clock, has ended with a fault, and stops no other; after one
/// that can't be accepted there is a pause of 100 milliseconds. Nothing is kept of a connection that has ended.
pub fn serve_node<
    'a,
    L: Listener + Drop,
    K: Clock + Clone + Sync,
    R: Threads + Wait + time::Clock + Sync,
>(
    rt: &'a R,
    alloc: Global,
    listener: L,
    node: &'a SharedNode,
    clients: u64,
    turns: u64,
    clock: &'a K,
) -> (L, u64)
    ensures { AreAccepted clients (L.told listener) result.1 (L.told result.0) }
{
    let began = None;
    let service = NodeService {
        rt,
        alloc,
        node,
        began: &began,
        turns,
        client_seconds: 0,
        clock,
    };
    let mut runs = GhostRuns::new();
    serve_connections(rt, listener, &service, clients, &mut runs)
}

/// A node, shared, with what it was at first.
fn share(node: SeededNode) -> (SharedNode, Snapshot<SeededNode>)
    ensures { result.1.value ≡ node }
{
    let began = Snapshot::of(&node);
    (SharedNode::new(node.into_cache()), began)
}

/// Serves a node at a socket of its own, by the machine's time, and gives how many of its clients ended without a fault.
pub fn run_node<R: Threads + Wait + time::Clock + Sync>(
    rt: &R,
    alloc: Global,
    listener: OverListener,
    node: SeededNode,
    bounds: ServiceBounds,
    runs: &mut GhostRuns,
) -> u64
    ensures among { result ≤ bounds.clients }
    ensures ran { runs.new ≡ runs.old ++ run (NodeServing (Some node) bounds.turns) bounds.clients ∷ [] }
{
    let (node, began) = share(node);
    let began = Some(began);
    let clock = SystemClock::new(rt);
    let service = NodeService {
        rt,
        alloc,
        node: &node,
        began: &began,
        turns: bounds.turns,
        client_seconds: bounds.patience.client_seconds,
        clock: &clock,
    };
    let (_, served) = serve_connections(rt, listener, &service, bounds.clients, runs);
    served
}
