//! The loops that were driven, which only contracts see.
ghost use Rattle.std.specs.Prelude.{◌≡◌, [], ◌∷◌, ◌++◌};
ghost use Rattle.mr_servers.specs.Drives.{ProxyDrive, NodeDrive};

use crate::driven_node::NodeLoops;
use mr_driver::DriverBounds;
use mr_loop::ProxyLoop;
use mr_sockets::SeededNode;
use std::marker::Model;
use std::snapshot::Snapshot;

/// No service on loops, or one more behind those that contracts remember.
#[derive(Drop)]
pub(crate) enum Drives {
    /// Nothing yet.
    Nothing,
    /// One more, of a proxy: its loops as they were at first, and its bounds.
    Proxy(Snapshot<Drives>, Snapshot<Vec<ProxyLoop>>, Snapshot<DriverBounds>),
    /// One more, of a node: the node as it was at first, its loops, and its bounds.
    Node(Snapshot<Drives>, Snapshot<SeededNode>, Snapshot<NodeLoops>, Snapshot<DriverBounds>),
}

/// The services on loops that ran, which contracts see as a list and the program doesn't keep.
#[derive(Drop)]
pub(crate) struct GhostDrives {
    drives: Drives,
}

impl Model for GhostDrives {
    ghost use Rattle.std.specs.Prelude.{List};
    ghost use Rattle.mr_servers.specs.Drives.{Drive};
    ghost use Rattle.mr_servers.specs.DrivesOf.{drives_of};

    ghost Value = { List Drive };

    ghost view = { λ s. drives_of s.drives };
}

impl GhostDrives {
    /// None yet.
    pub(crate) fn new() -> GhostDrives
        ensures { result ≡ [] }
    {
        GhostDrives {
            drives: Drives::Nothing,
        }
    }

    /// One more, of a proxy whose loops were so at first, within these bounds.
    pub(crate) fn add_proxy(&mut self, loops: Snapshot<Vec<ProxyLoop>>, bounds: DriverBounds)
        ensures { self.new ≡ self.old ++ ProxyDrive loops.value.items bounds ∷ [] }
    {
        let before = Snapshot::of(&self.drives);
        self.drives = Drives::Proxy(before, loops, Snapshot::of(&bounds));
    }

    /// One more, of a node that was so at first, on these loops, within these bounds.
    pub(crate) fn add_node(
        &mut self,
        node: Snapshot<SeededNode>,
        loops: NodeLoops,
        bounds: DriverBounds,
    )
        ensures { self.new ≡ self.old ++ NodeDrive node.value loops bounds ∷ [] }
    {
        let before = Snapshot::of(&self.drives);
        self.drives = Drives::Node(before, node, Snapshot::of(&loops), Snapshot::of(&bounds));
    }
}
