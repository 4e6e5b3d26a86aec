//! Why a proxy refuses.
ghost use Rattle.std.specs.Prelude.{◌≡◌};

use thiserror::Error;

/// Why a proxy refuses what it is asked.
#[derive(Clone, Copy, Debug, PartialEq, Eq, Error)]
pub enum ProxyError {
    /// As many requests are under way as the proxy has room for.
    #[error("too many requests are under way; take an answer or give a request up first")]
    NoRoom,
    /// Memory was refused.
    #[error("out of memory")]
    OutOfMemory,
    /// The next request would be number 18446744073709551615, or the next incarnation the one after that number.
    #[error("no number is left for a request or for a restart")]
    NumbersSpent,
    /// No request of this name is under way.
    #[error("no such request is under way")]
    NoSuchOp,
}

impl ProxyError {
    ghost use Rattle.mr_proxy.specs.ProxyError.{number_of_refusal};

    /// The refusal's number: 1 to 4.
    pub fn number(&self) -> u8
        ensures { result ≡ number_of_refusal self.now }
    {
        match self {
            ProxyError::NoRoom => 1,
            ProxyError::OutOfMemory => 2,
            ProxyError::NumbersSpent => 3,
            ProxyError::NoSuchOp => 4,
        }
    }
}
