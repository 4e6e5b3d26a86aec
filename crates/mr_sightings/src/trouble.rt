//! Why requests come to nothing.
ghost use Rattle.std.specs.Prelude.{◌≡◌, ◌<◌};
ghost use Rattle.mr_sightings.specs.Trouble.{trouble_text, is_error, place_of};

/// Why a request came to nothing: an error that answered it, or that no answer came.
#[derive(Clone, Copy, Debug, PartialEq, Eq)]
pub enum Trouble {
    /// `SERVER_ERROR busy`: too many requests were under way.
    Busy,
    /// `SERVER_ERROR leg lost`: no answer of a node came.
    LegLost,
    /// `SERVER_ERROR clock fault`: the proxy's clock failed.
    ClockFault,
    /// `SERVER_ERROR out of memory`: memory was refused.
    OutOfMemory,
    /// `SERVER_ERROR node refused`: a node answered `ERROR`.
    NodeRefused,
    /// A `SERVER_ERROR` that says anything else.
    OtherServerError,
    /// A `CLIENT_ERROR`, whatever it says.
    ClientError,
    /// `ERROR`.
    Error,
    /// What came is no reply to this request.
    NoReply,
    /// The connection broke first.
    BrokeOff,
    /// Nothing came in time.
    Silent,
}

impl Trouble {
    /// All of them, in the order in which they are counted and told.
    pub const ALL: [Trouble; 11] = [
        Trouble::Busy,
        Trouble::LegLost,
        Trouble::ClockFault,
        Trouble::OutOfMemory,
        Trouble::NodeRefused,
        Trouble::OtherServerError,
        Trouble::ClientError,
        Trouble::Error,
        Trouble::NoReply,
        Trouble::BrokeOff,
        Trouble::Silent,
    ];

    /// How it is told, as `SERVER_ERROR busy` or `broke off`.
    pub fn as_str(self) -> &'static str
        ensures { result.now ≡ trouble_text self }
    {
        match self {
            Trouble::Busy => "SERVER_ERROR busy",
            Trouble::LegLost => "SERVER_ERROR leg lost",
            Trouble::ClockFault => "SERVER_ERROR clock fault",
            Trouble::OutOfMemory => "SERVER_ERROR out of memory",
            Trouble::NodeRefused => "SERVER_ERROR node refused",
            Trouble::OtherServerError => "SERVER_ERROR",
            Trouble::ClientError => "CLIENT_ERROR",
            Trouble::Error => "ERROR",
            Trouble::NoReply => "no reply to it",
            Trouble::BrokeOff => "broke off",
            Trouble::Silent => "silent",
        }
    }

    /// Whether the proxy answered, by an error.
    pub(crate) fn is_error(self) -> bool
        ensures { result ≡ is_error self }
    {
        match self {
            Trouble::NoReply | Trouble::BrokeOff | Trouble::Silent => false,
            _ => true,
        }
    }

    /// Where it is counted among all.
    pub(crate) fn place(self) -> usize
        ensures place { result ≡ place_of self }
        ensures within { result < 11 }
    {
        match self {
            Trouble::Busy => 0,
            Trouble::LegLost => 1,
            Trouble::ClockFault => 2,
            Trouble::OutOfMemory => 3,
            Trouble::NodeRefused => 4,
            Trouble::OtherServerError => 5,
            Trouble::ClientError => 6,
            Trouble::Error => 7,
            Trouble::NoReply => 8,
            Trouble::BrokeOff => 9,
            Trouble::Silent => 10,
        }
    }
}
