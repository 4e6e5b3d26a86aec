//! The steps of a proxy.
ghost use Rattle.std.specs.Prelude.{◌≡◌, IfOk};

use crate::sheet::LegBack;
use mr_history::OpId;
use mr_text::Request;
use std::alloc::AllocError;

/// One step of a proxy.
#[derive(Debug, Drop)]
pub enum Step {
    /// A request was accepted.
    Issue {
        /// What the proxy's clock read, in seconds since the epoch.
        reading: u64,
        /// The request.
        request: Request,
    },
    /// A leg came back, and its reply was noted.
    Take(LegBack),
    /// A request was given up.
    GiveUp(OpId),
}

impl Step {
    /// An equal step.
    pub fn copy(&self) -> Result<Step, AllocError>
        ensures { IfOk result (λ step. step ≡ self.now) }
    {
        Ok(match self {
            Step::Issue { reading, request } => Step::Issue {
                reading: *reading,
                request: request.copy()?,
            },
            Step::Take(back) => Step::Take(back.copy()?),
            Step::GiveUp(op) => Step::GiveUp(*op),
        })
    }
}
