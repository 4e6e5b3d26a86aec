//! What requests come to.
ghost use Rattle.std.specs.Prelude.{◌≡◌};
ghost use Rattle.mr_sightings.specs.Outcome.{is_answer};

use crate::trouble::Trouble;

/// What a request came to.
#[derive(Clone, Copy, Debug, PartialEq, Eq)]
pub enum Outcome {
    /// A get found a value.
    Hit,
    /// A get found none.
    Miss,
    /// A set was done.
    Stored,
    /// A delete was done, or there was nothing to delete.
    Acknowledged,
    /// It came to nothing.
    Failed(Trouble),
}

impl Outcome {
    /// Whether the proxy answered. An error is an answer too.
    pub(crate) fn is_answer(self) -> bool
        ensures { result ≡ is_answer self }
    {
        match self {
            Outcome::Hit => true,
            Outcome::Miss => true,
            Outcome::Stored => true,
            Outcome::Acknowledged => true,
            Outcome::Failed(trouble) => trouble.is_error(),
        }
    }
}
