//! What is worth a line of a log, and who hears of it.
ghost use Rattle.std.specs.Prelude.{◌≡◌};
ghost use Rattle.mr_driver.specs.Hearing.{trouble_of, want_of};

use mr_loop::LinkEnd;
use mr_text::TextError;

/// Why the link to a node went down.
#[derive(Clone, Copy, Debug, PartialEq, Eq)]
pub enum LinkTrouble {
    /// The node closed the connection.
    Ended,
    /// The connection broke, or memory was refused for what came over it.
    Broken,
    /// A leg was without a reply for too long.
    Silent,
    /// The node sent what is no reply to what it was asked.
    BadReply,
    /// The node couldn't be dialled, or left the dial unanswered for too long.
    NotReached,
}

/// What is worth a line of a log. Nodes are numbered pool by pool, in the order of each pool.
#[derive(Clone, Copy, Debug, PartialEq, Eq)]
pub enum LoopEvent {
    /// There is a connection to this node.
    LinkUp(usize),
    /// There is none any more to this node, or there never was one; once until there is one again.
    LinkDown(usize, LinkTrouble),
    /// Requests of clients are held back, where none was.
    ClientsHeldBack,
    /// Clients are kept in the backlog from now on, since as many are served as may be.
    ClientsWait,
    /// Memory was refused.
    NoMemory,
    /// No descriptor was left for a socket.
    NoDescriptors,
    /// A clock gave no reading.
    NoClock,
    /// The clock of phases went back.
    ClockWentBack,
}

/// Who hears of what happens in loops. Each loop tells it by its own thread, so a call must not wait.
pub trait Hears {
    /// This happened just now.
    fn hear(&self, event: LoopEvent);
}

/// Hears nothing.
#[derive(Clone, Copy, Debug)]
pub struct Deaf;

impl Hears for Deaf {
    fn hear(&self, _event: LoopEvent) {}
}

/// What ails a link that took bytes. None where it goes on.
pub(crate) fn trouble_of(end: LinkEnd) -> Option<LinkTrouble>
    ensures { result ≡ trouble_of end }
{
    match end {
        LinkEnd::Whole => None,
        LinkEnd::Surplus => Some(LinkTrouble::BadReply),
        LinkEnd::Mismatch => Some(LinkTrouble::BadReply),
        LinkEnd::Complaint => Some(LinkTrouble::BadReply),
        LinkEnd::Refused(TextError::OutOfMemory) => Some(LinkTrouble::Broken),
        LinkEnd::Refused(_) => Some(LinkTrouble::BadReply),
        LinkEnd::Down => Some(LinkTrouble::Broken),
    }
}

/// What is wanting where a socket couldn't be had, by the system's number for it. None where that is anything else.
pub(crate) fn want_of(number: u32) -> Option<LoopEvent>
    ensures { result ≡ want_of number }
{
    match number {
        23 | 24 => Some(LoopEvent::NoDescriptors),
        12 | 105 => Some(LoopEvent::NoMemory),
        _ => None,
    }
}
