//! Addresses that were asked for, which only contracts see.
ghost use Rattle.std.specs.Prelude.{◌≡◌, [], ◌∷◌, ◌++◌};

use std::marker::Model;
use std::net::SocketAddrV4;
use std::snapshot::Snapshot;

/// No address, or one more behind those that contracts remember.
#[derive(Drop)]
pub(crate) enum Addresses {
    /// Nothing yet.
    Nothing,
    /// One more.
    And(Snapshot<Addresses>, Snapshot<SocketAddrV4>),
}

/// Addresses that were asked for, which contracts see as a list and the program doesn't keep.
#[derive(Drop)]
pub struct GhostAddresses {
    addresses: Addresses,
}

impl Model for GhostAddresses {
    ghost use Rattle.std.specs.Prelude.{List};
    ghost use Rattle.std.specs.declared.net.socket_addr.SocketAddrV4.{SocketAddrV4};
    ghost use Rattle.mr_sockets.specs.Addresses.{addresses_of};

    ghost Value = { List SocketAddrV4 };

    ghost view = { λ s. addresses_of s.addresses };
}

impl GhostAddresses {
    /// None yet.
    pub fn new() -> GhostAddresses
        ensures { result ≡ [] }
    {
        GhostAddresses {
            addresses: Addresses::Nothing,
        }
    }

    /// One more.
    pub fn add(&mut self, address: SocketAddrV4)
        ensures { self.new ≡ self.old ++ address ∷ [] }
    {
        let before = Snapshot::of(&self.addresses);
        self.addresses = Addresses::And(before, Snapshot::of(&address));
    }
}
