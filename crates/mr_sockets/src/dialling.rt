//! What connections to nodes are made by, with the addresses that were dialled as contracts see them.
ghost use Rattle.std.specs.Prelude.{◌≡◌, List, [], ◌∷◌, ◌++◌};
ghost use Rattle.std.specs.declared.net.socket_addr.SocketAddrV4.{SocketAddrV4};

use crate::addresses::GhostAddresses;
use crate::patience::bound_waits;
use std::io::{Read, Write};
use std::marker::Model;
use std::net::{Net, OpenStream, SocketAddr, SocketAddrV4, TcpStream};
use std::time::Duration;

/// What connections to nodes are made by, whose contract tells which addresses were dialled. Code that is generic over it gets
/// a connection in no other way.
pub(crate) trait Dials {
    /// A connection.
    type Stream: Read + Write + OpenStream + Drop;

    /// The addresses that were dialled, in order.
    ghost dialled: { Self → List SocketAddrV4 };

    /// A connection to this address. None where it can't be made.
    fn dial(&mut self, address: SocketAddrV4) -> Option<Self::Stream>
        ensures { dialled self.new ≡ dialled self.old ++ address ∷ [] };
}

/// The sockets of a machine. The connections send small packets without delay. Connecting, and each of their reads and writes,
/// waits so long at most, where that is bounded.
pub(crate) struct HostDials<N: Net + Copy> {
    net: N,
    wait: Option<Duration>,
    dialled: GhostAddresses,
}

impl<N: Net + Copy> Drop for HostDials<N> {
    fn drop(self) {
        let Self {
            net: _,
            wait: _,
            dialled: _,
        } = self;
    }
}

impl<N: Net + Copy> Model for HostDials<N> {
    ghost use Rattle.std.specs.Prelude.{List};
    ghost use Rattle.std.specs.declared.net.socket_addr.SocketAddrV4.{SocketAddrV4};

    ghost Value = { List SocketAddrV4 };

    ghost view = { λ d. d.dialled };
}

impl<N: Net + Copy> HostDials<N> {
    ghost use Rattle.std.specs.Prelude.{◌≡◌, []};

    /// The sockets of this machine, by which nothing was dialled yet.
    pub(crate) fn new(net: N, wait: Option<Duration>) -> HostDials<N>
        ensures { result ≡ [] }
    {
        HostDials {
            net,
            wait,
            dialled: GhostAddresses::new(),
        }
    }
}

impl<N: Net + Copy> Dials for HostDials<N> {
    type Stream = N::Stream;

    ghost dialled = { λ d. d };

    fn dial(&mut self, address: SocketAddrV4) -> Option<N::Stream> {
        self.dialled.add(address);
        let connected = match self.wait {
            Some(wait) => TcpStream::connect_timeout(&self.net, &SocketAddr::V4(address), wait),
            None => TcpStream::connect(&self.net, address),
        };
        match connected {
            Ok(stream) => {
                let _ = stream.set_nodelay(true);
                bound_waits(&stream, self.wait);
                Some(stream)
            }
            Err(_) => None,
        }
    }
}
