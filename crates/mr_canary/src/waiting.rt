//! The requests that wait for an answer.
ghost use Rattle.std.specs.Prelude.{◌≡◌, nat_eq, OnErr, OnOk, Some};
ghost use Rattle.std.specs.HashMap.{Updates, IsUnchanged};

use crate::note::{Answer, Conviction, Probe};
use crate::watched::Watched;
use std::alloc::AllocError;
use std::collections::HashMap;

/// A request that waits for an answer.
#[derive(Debug, Drop)]
pub(crate) enum Waiting {
    /// A get.
    Get {
        /// The get.
        probe: Probe,
        /// What was kept of the key when it was issued.
        watched: Watched,
    },
    /// A set.
    Set {
        /// The set.
        probe: Probe,
        /// The value.
        value: u64,
    },
    /// A delete.
    Delete {
        /// The delete.
        probe: Probe,
    },
}

/// One more request waits.
pub(crate) fn wait(
    waiting: &mut HashMap<u64, Waiting>,
    number: u64,
    request: Waiting,
) -> Result<(), AllocError>
    ensures ok { OnOk result (Updates nat_eq waiting.old waiting.new number (Some request)) }
    ensures err { OnErr result (IsUnchanged waiting.old waiting.new) }
{
    waiting.insert(number, request)?;
    Ok(())
}
