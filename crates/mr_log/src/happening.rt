//! What happens to a service that is worth a line.
ghost use Rattle.std.specs.Prelude.{◌≡◌};
ghost use Rattle.mr_log.specs.Kinds.{kind_of};
ghost use Rattle.mr_log.specs.Lines.{trouble_text};

use crate::kind::Kind;
use mr_phases::PhaseName;

/// Why the link to a node went down.
#[derive(Clone, Copy, Debug, PartialEq, Eq)]
pub enum Trouble {
    /// The node ended the connection.
    Ended,
    /// The connection broke.
    Broken,
    /// The node answered nothing for too long.
    Silent,
    /// What the node sent is no reply to what it was asked.
    BadReply,
    /// No connection could be made.
    NotReached,
}

impl Trouble {
    /// Its words.
    pub(crate) fn as_str(self) -> &'static str
        ensures { result.now ≡ trouble_text self }
    {
        match self {
            Trouble::Ended => "it ended the connection",
            Trouble::Broken => "the connection broke",
            Trouble::Silent => "it was silent for too long",
            Trouble::BadReply => "it sent what is no reply",
            Trouble::NotReached => "it can't be reached",
        }
    }
}

/// What happened. A node is given by its number: the nodes are counted from 0, pool by pool.
#[derive(Clone, Copy, Debug, PartialEq, Eq)]
pub enum Happening {
    /// The service listens for clients.
    Listens {
        /// How many loops serve them.
        loops: u64,
    },
    /// The clock came to a phase.
    PhaseEntered {
        /// The migration in force, counted from 0.
        hop: u32,
        /// Its phase.
        phase: PhaseName,
    },
    /// There is no connection to a node any more.
    LinkDown {
        /// The node's number.
        node: usize,
        /// Why.
        why: Trouble,
    },
    /// There is a connection to a node.
    LinkUp {
        /// The node's number.
        node: usize,
    },
    /// A request of a client waits until there is room for it.
    ClientsHeldBack,
    /// New clients wait, since as many are served as may be.
    ClientsWait {
        /// How many that is.
        most: u64,
    },
    /// Memory was refused.
    NoMemory,
    /// No descriptor is left.
    NoDescriptors,
    /// The clock gave no reading.
    NoClock,
    /// The clock gave an earlier reading than it gave before. Both are in seconds since the epoch.
    ClockWentBack {
        /// The latest reading before.
        from: u64,
        /// The earlier one.
        to: u64,
    },
}

impl Happening {
    /// Its kind.
    pub fn kind(self) -> Kind
        ensures { result ≡ kind_of self }
    {
        match self {
            Happening::Listens { .. } => Kind::Listens,
            Happening::PhaseEntered { .. } => Kind::PhaseEntered,
            Happening::LinkDown { .. } => Kind::LinkDown,
            Happening::LinkUp { .. } => Kind::LinkUp,
            Happening::ClientsHeldBack => Kind::ClientsHeldBack,
            Happening::ClientsWait { .. } => Kind::ClientsWait,
            Happening::NoMemory => Kind::NoMemory,
            Happening::NoDescriptors => Kind::NoDescriptors,
            Happening::NoClock => Kind::NoClock,
            Happening::ClockWentBack { .. } => Kind::ClockWentBack,
        }
    }
}
