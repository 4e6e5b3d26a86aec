//! What holds of every address by its definition.
ghost use Rattle.std.specs.Prelude.{◌≡◌, ℕ, List};
ghost use Rattle.std.specs.declared.net.socket_addr.SocketAddrV4.{SocketAddrV4};
ghost use Rattle.mr_sockets.specs.Address.{IsAddress};

/// A text is one address at most.
pub fn one_address()
    ensures { (text : List ℕ) (a b : SocketAddrV4) → IsAddress text a → IsAddress text b → a ≡ b }
{}
