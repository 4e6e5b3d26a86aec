//! What becomes of a reply that came back.
ghost use Rattle.std.specs.Prelude.{◌≡◌, IfOk};

use crate::answer::Answer;
use mr_join::LegReply;
use std::alloc::AllocError;

/// What became of a reply.
#[derive(Debug, Drop)]
pub enum Taken {
    /// It was noted, and other legs of the request may answer yet.
    Waiting,
    /// It was noted as the last one: here is the answer.
    Answered(Answer),
    /// No leg awaits it: here it is back, and nothing changed.
    Stranger(LegReply),
}

impl Taken {
    /// An equal value.
    pub fn copy(&self) -> Result<Taken, AllocError>
        ensures { IfOk result (λ taken. taken ≡ self.now) }
    {
        Ok(match self {
            Taken::Waiting => Taken::Waiting,
            Taken::Answered(answer) => Taken::Answered(answer.copy()?),
            Taken::Stranger(reply) => Taken::Stranger(reply.copy()?),
        })
    }
}
