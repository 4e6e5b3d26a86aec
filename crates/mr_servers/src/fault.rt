//! Why a service can't begin.

use thiserror::Error;

/// Why a service can't begin. Nothing was accepted then.
#[derive(Clone, Copy, Debug, PartialEq, Eq, Error)]
pub enum OpenFault {
    /// The address is none, or no socket can listen there; or the loops can't be opened, as for want of descriptors.
    #[error("no socket can be opened")]
    Net,
    /// The address of its metrics is none, or no socket can listen there.
    #[error("no socket can be opened for metrics")]
    Metrics,
    /// Memory was refused for loops, once the sockets were had.
    #[error("out of memory")]
    OutOfMemory,
}

/// The machine gave no seed.
#[derive(Clone, Copy, Debug, PartialEq, Eq, Error)]
#[error("no seed can be had")]
pub struct SeedFault;
