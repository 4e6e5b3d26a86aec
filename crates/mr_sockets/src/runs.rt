//! The services that ran, which only contracts see.
ghost use Rattle.std.specs.Prelude.{◌≡◌, [], ◌∷◌, ◌++◌, option_map};
ghost use Rattle.mr_sockets.specs.Serving.{NodeServing, ProxyServing, run};

use crate::seeded_node::SeededNode;
use mr_pools::Routing;
use mr_proxy::ProxyCore;
use std::marker::Model;
use std::snapshot::Snapshot;

/// What ran: nothing, or one more service after those that contracts remember.
#[derive(Drop)]
pub(crate) enum Runs {
    /// Nothing yet.
    Nothing,
    /// A node as it was at first, the reads of each connection, and its clients.
    Node(Snapshot<Runs>, Option<Snapshot<Snapshot<SeededNode>>>, Snapshot<u64>, Snapshot<u64>),
    /// A proxy: its core as it was at first, the routing of its carriers, the reads of each connection, and its clients.
    Proxy(
        Snapshot<Runs>,
        Option<Snapshot<Snapshot<ProxyCore>>>,
        Snapshot<Routing>,
        Snapshot<u64>,
        Snapshot<u64>,
    ),
}

/// The services that ran, which contracts see as a list and the program doesn't keep.
#[derive(Drop)]
pub struct GhostRuns {
    runs: Runs,
}

impl Model for GhostRuns {
    ghost use Rattle.std.specs.Prelude.{List};
    ghost use Rattle.mr_sockets.specs.Serving.{Run};
    ghost use Rattle.mr_sockets.specs.Runs.{runs_of};

    ghost Value = { List Run };

    ghost view = { λ s. runs_of s.runs };
}

/// A snapshot as contracts see it, where there is one.
fn again<T>(began: &Option<Snapshot<T>>) -> Option<Snapshot<Snapshot<T>>>
    ensures { option_map (λ s. s.value.value) result ≡ option_map (λ s. s.value) began.now }
{
    match began {
        Some(began) => Some(Snapshot::of(began)),
        None => None,
    }
}

impl GhostRuns {
    /// None yet.
    pub fn new() -> GhostRuns
        ensures { result ≡ [] }
    {
        GhostRuns {
            runs: Runs::Nothing,
        }
    }

    /// One more, of a node.
    pub(crate) fn add_node(
        &mut self,
        began: &Option<Snapshot<SeededNode>>,
        turns: u64,
        clients: u64,
    )
        ensures { self.new ≡ self.old ++ run (NodeServing (option_map (λ s. s.value) began.now) turns) clients ∷ [] }
    {
        let before = Snapshot::of(&self.runs);
        self.runs = Runs::Node(
            before,
            again(began),
            Snapshot::of(&turns),
            Snapshot::of(&clients),
        );
    }

    /// One more, of a proxy.
    pub(crate) fn add_proxy(
        &mut self,
        began: &Option<Snapshot<ProxyCore>>,
        routing: &Routing,
        turns: u64,
        clients: u64,
    )
        ensures { self.new ≡ self.old ++ run (ProxyServing (option_map (λ s. s.value) began.now) routing.now turns) clients ∷ [] }
    {
        let before = Snapshot::of(&self.runs);
        self.runs = Runs::Proxy(
            before,
            again(began),
            Snapshot::of(routing),
            Snapshot::of(&turns),
            Snapshot::of(&clients),
        );
    }
}
