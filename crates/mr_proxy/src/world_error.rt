//! Why a whole fleet refuses an event: a configuration that is read says it too, and knows of no fleet.
ghost use Rattle.std.specs.Prelude.{◌≡◌};

use crate::error::ProxyError;
use mr_history::HistoryError;
use std::alloc::AllocError;
use thiserror::Error;

/// Why a setup or an event was refused.
#[derive(Clone, Copy, Debug, PartialEq, Eq, Error)]
pub enum WorldError {
    /// There is no proxy of that number.
    #[error("there is no proxy of that number")]
    NoSuchProxy,
    /// There is no node of that name, or the nodes could hold nothing.
    #[error("there is no node of that name, or the nodes have a capacity of 0")]
    NoSuchNode,
    /// No message, or no reply, of that number was sent.
    #[error("no message or reply of that number was sent")]
    NoSuchMessage,
    /// The proxy refused the request, or the restart.
    #[error("the proxy refused: {0}")]
    IssueRefused(ProxyError),
    /// Memory was refused.
    #[error("out of memory")]
    OutOfMemory,
    /// No request of that name is under way.
    #[error("no such request is under way")]
    NoSuchOp,
    /// A proxy's routing has other pools than its schedule has hops for.
    #[error("the routing of a proxy has not one pool more than its schedule has hops")]
    HopsDiffer,
}

impl WorldError {
    ghost use Rattle.mr_proxy.specs.WorldError.{number_of_refusal};

    /// The refusal's number: 1 to 7.
    pub fn number(self) -> u8
        ensures { result ≡ number_of_refusal self }
    {
        match self {
            WorldError::NoSuchProxy => 1,
            WorldError::NoSuchNode => 2,
            WorldError::NoSuchMessage => 3,
            WorldError::IssueRefused(_) => 4,
            WorldError::OutOfMemory => 5,
            WorldError::NoSuchOp => 6,
            WorldError::HopsDiffer => 7,
        }
    }
}

impl From<AllocError> for WorldError {
    ghost use Rattle.std.specs.Prelude.{◌≡◌};
    ghost use Rattle.mr_proxy.specs.declared.world_error.WorldError.TheVariants.{OutOfMemory};

    ghost from_gives = { λ _ e. e ≡ OutOfMemory };

    fn from(_e: AllocError) -> WorldError {
        WorldError::OutOfMemory
    }
}

impl From<HistoryError> for WorldError {
    ghost use Rattle.std.specs.Prelude.{◌≡◌};
    ghost use Rattle.mr_proxy.specs.declared.world_error.WorldError.TheVariants.{OutOfMemory};

    ghost from_gives = { λ _ e. e ≡ OutOfMemory };

    fn from(_e: HistoryError) -> WorldError {
        WorldError::OutOfMemory
    }
}
