//! What a session sends its legs through.
ghost use Rattle.std.specs.Prelude.{option_map};
ghost use Rattle.mr_desks.specs.Carriers.{CarriersView, SendIs, ReceiveIs};

use crate::carried::Carried;
use crate::carrier::Carrier;
use mr_proxy::Leg;

/// What one session sends its legs through, to the nodes of all pools. It tells what it sent, lost and brought.
pub trait Carriers<C: Carrier> {
    /// The legs that were sent, how often a leg was handed back or none came, and how many legs came back.
    ghost told: { Self → CarriersView };

    /// Sends a leg to its node. One that can't be sent is handed back.
    fn send(&mut self, leg: Leg) -> Option<Leg>
        ensures told { SendIs (told self.old) leg (option_map (λ back. back) result) (told self.new) };

    /// A leg that was sent, with its reply; None where none will come.
    fn receive(&mut self) -> Option<Carried<C>>
        ensures told { ReceiveIs (told self.old) (option_map (λ carried. carried.back) result) (told self.new) };
}
