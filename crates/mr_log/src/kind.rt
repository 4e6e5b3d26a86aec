//! The kinds of what happens: of each a line is said at most once a second.
ghost use Rattle.std.specs.Prelude.{◌≡◌, ◌<◌};
ghost use Rattle.mr_log.specs.Kinds.{number_of_kind, most_kinds};

/// How many kinds there are.
pub const KINDS: usize = 10;

/// A kind of happening.
#[derive(Clone, Copy, Debug, PartialEq, Eq)]
pub enum Kind {
    /// The service listens.
    Listens,
    /// A phase was entered.
    PhaseEntered,
    /// A link went down.
    LinkDown,
    /// A link came up.
    LinkUp,
    /// Requests are held back.
    ClientsHeldBack,
    /// New clients wait.
    ClientsWait,
    /// Memory is short.
    NoMemory,
    /// Descriptors are short.
    NoDescriptors,
    /// The clock gave no reading.
    NoClock,
    /// The clock went back.
    ClockWentBack,
}

impl Kind {
    /// Its number, from 0 on.
    pub(crate) fn number(self) -> usize
        ensures number { result ≡ number_of_kind self }
        ensures within { result < most_kinds }
    {
        match self {
            Kind::Listens => 0,
            Kind::PhaseEntered => 1,
            Kind::LinkDown => 2,
            Kind::LinkUp => 3,
            Kind::ClientsHeldBack => 4,
            Kind::ClientsWait => 5,
            Kind::NoMemory => 6,
            Kind::NoDescriptors => 7,
            Kind::NoClock => 8,
            Kind::ClockWentBack => 9,
        }
    }
}
