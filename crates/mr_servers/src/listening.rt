//! Sockets of this machine that listen, with the addresses that were asked for as contracts see them: those whose clients have a
//! thread each, and those whose clients go to loops.
ghost use Rattle.std.specs.Prelude.{◌≡◌, [], ◌∷◌, ◌++◌};
ghost use Rattle.mr_sockets.specs.Listening.{Opens};

use mr_driver::listen_at;
use mr_sockets::{GhostAddresses, Listens, OverListener, address_of};
use std::marker::Model;
use std::net::{Net, SocketAddrV4, TcpListener, TcpStream};
use std::time::Duration;

/// The sockets of a machine that listen.
pub(crate) struct MachineListens<'a, R: Net<Listener = TcpListener, Stream = TcpStream>> {
    net: &'a R,
    listened: GhostAddresses,
}

impl<'a, R: Net<Listener = TcpListener, Stream = TcpStream>> Drop for MachineListens<'a, R> {
    fn drop(self) {
        let Self {
            net: _,
            listened: _,
        } = self;
    }
}

impl<'a, R: Net<Listener = TcpListener, Stream = TcpStream>> Model for MachineListens<'a, R> {
    ghost use Rattle.std.specs.Prelude.{List};
    ghost use Rattle.std.specs.declared.net.socket_addr.SocketAddrV4.{SocketAddrV4};

    ghost Value = { List SocketAddrV4 };

    ghost view = { λ l. l.listened };
}

impl<'a, R: Net<Listener = TcpListener, Stream = TcpStream>> MachineListens<'a, R> {
    ghost use Rattle.std.specs.Prelude.{◌≡◌, []};

    /// The sockets of this machine, of which none was asked to listen yet.
    pub(crate) fn new(net: &'a R) -> MachineListens<'a, R>
        ensures { result ≡ [] }
    {
        MachineListens {
            net,
            listened: GhostAddresses::new(),
        }
    }

    /// A socket for clients of loops that listens at the address that a text is, with the longest queue that the system allows. None
    /// where it is no address, or where the machine gives none there.
    pub(crate) fn open_queue(&mut self, text: &str) -> Option<TcpListener>
        ensures { Opens text.now self.old result self.new }
    {
        let address = address_of(text)?;
        self.listened.add(address);
        match listen_at(self.net, address) {
            Ok(listener) => Some(listener),
            Err(_) => None,
        }
    }
}

impl<'a, R: Net<Listener = TcpListener, Stream = TcpStream>> Listens for MachineListens<'a, R> {
    ghost listened = { λ l. l };

    fn listen(&mut self, address: SocketAddrV4, wait: Option<Duration>) -> Option<OverListener> {
        self.listened.add(address);
        match TcpListener::bind(self.net, address) {
            Ok(listener) => Some(OverListener::within(listener, wait)),
            Err(_) => None,
        }
    }
}
