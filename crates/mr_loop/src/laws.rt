//! What holds over whole runs of a loop.
ghost use Rattle.mr_loop.specs.Bounds.{ClientsBeginFew};
ghost use Rattle.mr_loop.specs.node.NodeRuns.{PiecesComeToOneSession, SessionsAskTheSame};
ghost use Rattle.mr_loop.specs.Runs.{RepliesAreOfTheirLegs, StepsMakeTheCore, ClientsAreToldInOrder};

use crate::node::Cache;
use mr_text::laws::{
    no_request_is_refused, nothing_is_unfinished, requests_are_prefix_free,
    requests_have_one_refusal,
};

/// The k-th reply of a link is that of the k-th leg that went over it since it came up.
pub fn replies_are_of_their_legs()
    ensures { RepliesAreOfTheirLegs }
{}

/// The core after all that happened is what its steps made of it, one after the other.
pub fn steps_make_the_core()
    ensures { StepsMakeTheCore }
{}

/// A client is told the answers to its requests in the order in which it asked, in whatever order they come, and nothing else.
pub fn clients_are_told_in_order()
    ensures { ClientsAreToldInOrder }
{}

/// However much a client sends, no more of its requests are begun that it wasn't told of than the bound, so that no more
/// answers than those can come beside what it may leave unread.
pub fn clients_begin_few()
    ensures { ClientsBeginFew }
{}

/// In whatever pieces a client's bytes come to a node's loop whose cache nobody else uses, and however it reads its answers,
/// all comes to one session over the whole: its requests in order, each one step of the cache at the reading of its call, and
/// what is told is their output.
pub fn pieces_come_to_one_session<C: Cache>()
    ensures { PiecesComeToOneSession C.does }
{}

/// A session of `serve` over all that a client sent asks the same of its node, in the same order.
pub fn sessions_ask_the_same<C: Cache>()
    ensures { SessionsAskTheSame C.does }
{
    requests_are_prefix_free();
    no_request_is_refused();
    requests_have_one_refusal();
    nothing_is_unfinished();
}
