//! Where the legs of a request go, by which a session knows the request's own answer.
ghost use Rattle.std.specs.Prelude.{◌≡◌, ◌↔◌, ◌≤◌, IsTrue, length, map, true, vec_capacity};
ghost use Rattle.mr_proxy.specs.Whole.{IsWholeAnswer};
ghost use Rattle.mr_sessions.specs.steps.Destinations.{destination_of, slot_destination, WentAs};

use mr_history::{OpId, is_same_op};
use mr_phases::Side;
use mr_proxy::{Answer, Leg, LegSheet, Slot};
use mr_text::Request;

/// The node that a leg goes to.
#[derive(Clone, Copy, Drop)]
pub(crate) struct Destination {
    /// The migration, counted from 0.
    hop: u32,
    /// The side of that migration whose pool has the node.
    side: Side,
    /// The node's index in that pool.
    node: u32,
}

/// The node that a leg goes to.
fn destination_of(sheet: &LegSheet) -> Destination
    ensures { result ≡ destination_of sheet.now }
{
    Destination {
        hop: sheet.hop,
        side: sheet.side,
        node: sheet.node,
    }
}

/// Notes where the legs go, in their order, in place of what was noted before.
pub(crate) fn note_destinations(destinations: &mut Vec<Destination>, legs: &[Leg])
    requires { length legs.now ≤ vec_capacity destinations.old }
    ensures { destinations.new.items ≡ map destination_of legs.now }
{
    destinations.clear();
    for leg in legs {
        destinations.push_reserved(destination_of(leg.sheet()));
    }
}

/// Whether this is the node that a leg goes to.
fn goes_to(sheet: &LegSheet, destination: &Destination) -> bool
    ensures { IsTrue result ↔ (destination_of sheet.now ≡ destination.now) }
{
    sheet.hop == destination.hop && sheet.side == destination.side && sheet.node == destination.node
}

/// Whether the legs of an answer went to these nodes, in order.
fn went_to(slots: &[Slot], destinations: &[Destination]) -> bool
    ensures { IsTrue result ↔ (map slot_destination slots.now ≡ destinations.now) }
{
    if slots.len() != destinations.len() {
        return false;
    }
    for (place, slot) in slots.iter().enumerate() {
        if !goes_to(&slot.sheet, &destinations[place]) {
            return false;
        }
    }
    true
}

/// Whether this is the answer to the request of this name and text, whose legs went to these nodes.
#[tactic(auto, using(mr_history::proofs::TestLemmas::same_op, mr_history::proofs::TestLemmas::same_op_true))]
pub(crate) fn is_answer_to(
    answer: &Answer,
    op: OpId,
    request: &Request,
    destinations: &[Destination],
) -> bool
    ensures same { IsTrue result ↔ WentAs op request.now destinations.now answer.now }
    ensures whole { result ≡ true → IsWholeAnswer answer.now }
{
    is_same_op(answer.op(), op)
        && answer.request().same_as(request)
        && went_to(answer.slots(), destinations)
}
