//! Sockets that listen, with the addresses that were asked for as contracts see them.
ghost use Rattle.std.specs.Prelude.{◌≡◌, List, [], ◌∷◌, ◌++◌};
ghost use Rattle.std.specs.declared.net.socket_addr.SocketAddrV4.{SocketAddrV4};
ghost use Rattle.mr_sockets.specs.Listening.{Opens};

use crate::address::address_of;
use crate::listener::OverListener;
use std::net::SocketAddrV4;
use std::time::Duration;

/// What sockets that listen are asked of, whose contract tells at which addresses.
pub trait Listens {
    /// The addresses that a socket was asked to listen at, in order.
    ghost listened: { Self → List SocketAddrV4 };

    /// A socket that listens at this address, at port 0 at any free one, whose connections wait so long at most for their
    /// clients, where that is bounded. None where the machine gives none there.
    fn listen(&mut self, address: SocketAddrV4, wait: Option<Duration>) -> Option<OverListener>
        ensures { listened self.new ≡ listened self.old ++ address ∷ [] };
}

/// A socket that listens at the address that a text is, whose connections wait so long at most for their clients, where that is
/// bounded. None where it is no address, or where the machine gives none there.
pub fn open<L: Listens>(listens: &mut L, text: &str, wait: Option<Duration>) -> Option<OverListener>
    ensures { Opens text.now (L.listened listens.old) result (L.listened listens.new) }
{
    let address = address_of(text)?;
    listens.listen(address, wait)
}
