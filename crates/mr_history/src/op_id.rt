//! Names of requests.
ghost use Rattle.std.specs.Prelude.{◌≡◌};
ghost use Rattle.mr_history.specs.OpIds.{is_same_op};

/// The name of a request in a fleet: no two requests that were ever accepted have the same.
#[derive(Clone, Copy, Debug, PartialEq, Eq, Hash)]
pub struct OpId {
    /// The proxy that accepted the request.
    pub proxy: u32,
    /// How often that proxy had been restarted.
    pub incarnation: u64,
    /// How many requests it had accepted since.
    pub number: u64,
}

/// Whether both are the name of one request.
pub fn is_same_op(a: OpId, b: OpId) -> bool
    ensures { result ≡ is_same_op a b }
{
    a.proxy == b.proxy && a.incarnation == b.incarnation && a.number == b.number
}
