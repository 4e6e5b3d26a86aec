//! The sockets of clients.
ghost use Rattle.std.specs.Prelude.{◌≡◌, ◌&&◌};
ghost use Rattle.mr_driver.specs.Seats.{standing_after, is_held_in, is_idle_at, is_reading, keeps_place, link_of, standing_by};

use crate::flow::Flow;
use crate::times::has_passed;
use mio::net::TcpStream;
use mr_loop::Pause;

/// What becomes of a client next.
#[derive(Clone, Copy, Debug, PartialEq, Eq)]
pub(crate) enum Standing {
    /// It is read.
    Reads,
    /// It waits for room.
    Held,
    /// It waits for memory.
    Starved,
    /// It waits for a place among the legs of this link.
    Queued(usize),
    /// It waits until it has read some of its answers, or some are there.
    Behind,
    /// It isn't read any more. It leaves once all is written to it.
    Done,
}

impl Standing {
    /// The link for which the client waits. None for one that waits for none.
    pub(crate) fn link(self) -> Option<usize>
        ensures { result ≡ link_of self }
    {
        match self {
            Standing::Queued(number) => Some(number),
            _ => None,
        }
    }

    /// Whether the client is held back.
    pub(crate) fn is_held(self) -> bool
        ensures { result ≡ is_held_in self }
    {
        match self {
            Standing::Held => true,
            Standing::Starved => true,
            Standing::Queued(_) => true,
            _ => false,
        }
    }

    /// Whether a client who stood otherwise before it was tried, or so, keeps its place: where it is the same request that waits, and
    /// for the same link.
    pub(crate) fn keeps_place(self, was: Standing, is_same: bool) -> bool
        ensures { result ≡ keeps_place was self is_same }
    {
        match (was.link(), self.link()) {
            (Some(before), Some(now)) => is_same && before == now,
            _ => false,
        }
    }
}

/// How a client stands that asked, by what it needs then.
pub(crate) fn standing_after(pause: Pause) -> Standing
    ensures { result ≡ standing_after pause }
{
    match pause {
        Pause::NeedsBytes => Standing::Reads,
        Pause::NeedsRoom => Standing::Held,
        Pause::NeedsReader => Standing::Behind,
        Pause::NeedsQueue(number) => Standing::Queued(number),
        Pause::NeedsMemory => Standing::Starved,
        Pause::IsDone => Standing::Done,
    }
}

/// The socket of a client.
#[derive(Drop)]
pub(crate) struct Seat {
    pub(crate) stream: TcpStream,
    pub(crate) standing: Standing,
    pub(crate) flow: Flow,
    /// It last sent or took something at this moment, or others kept it waiting until then.
    pub(crate) moved_at: u64,
    /// The number of its last ticket; 0 where it was never held back.
    pub(crate) ticket: u64,
    /// It waits for a link, and its ticket stands also among those of who is tried.
    pub(crate) is_called: bool,
    /// It stands among those whose turn it is.
    pub(crate) is_ready: bool,
    /// It stands among those that are told what is there.
    pub(crate) is_told: bool,
    /// Something of what it waits for has come.
    pub(crate) is_stirred: bool,
}

impl Seat {
    /// A client that has just come.
    pub(crate) fn new(stream: TcpStream, now: u64) -> Seat {
        Seat {
            stream,
            standing: Standing::Reads,
            flow: Flow::new(),
            moved_at: now,
            ticket: 0,
            is_called: false,
            is_ready: false,
            is_told: false,
            is_stirred: false,
        }
    }

    /// Whether it is to be read.
    pub(crate) fn is_to_be_read(&self) -> bool
        ensures { result ≡ (is_reading self.now.standing && self.now.flow.has_more) }
    {
        match self.standing {
            Standing::Reads => self.flow.has_more,
            _ => false,
        }
    }

    /// How it stands, if it is held back by the ticket of this number.
    pub(crate) fn standing_by(&self, ticket: u64) -> Option<Standing>
        ensures { result ≡ standing_by ticket self.now.ticket self.now.standing }
    {
        if self.ticket == ticket && self.standing.is_held() {
            Some(self.standing)
        } else {
            None
        }
    }

    /// Whether it was silent for longer than a bound, and it isn't others who keep it waiting: it is owed no answer and isn't held
    /// back, or it doesn't take what it is told.
    pub(crate) fn is_idle(&self, is_waiting: bool, bound: u64, now: u64) -> bool
        ensures { result ≡ is_idle_at is_waiting bound now self.now.standing self.now.flow self.now.moved_at }
    {
        let is_kept = is_waiting || self.standing.is_held();
        has_passed(bound, self.moved_at, now) && (self.flow.is_blocked || !is_kept)
    }
}
