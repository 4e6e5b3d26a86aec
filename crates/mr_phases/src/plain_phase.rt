//! A reading in its phase as plain values, without the type of the phase.
ghost use Rattle.std.specs.Prelude.{◌≡◌};
ghost use Rattle.mr_phases.specs.Sides.{read_side_of, delete_sides_of, sides_of, sides_in};
ghost use Rattle.mr_phases.specs.Schedule.{phase_of};

use crate::phase_name::PhaseName;
use crate::schedule::Schedule;
use crate::side::{RequestKind, Side};
use crate::sides::{OneSide, Sides};

/// What a `Phase` says, whichever of the four it is.
#[derive(Clone, Copy)]
pub(crate) struct PlainPhase {
    pub(crate) schedule: Schedule,
    pub(crate) reading: u64,
    pub(crate) name: PhaseName,
    pub(crate) read_side: Side,
    pub(crate) delete_sides: Sides,
    ghost stands: { name ≡ phase_of schedule reading },
    ghost reads: { read_side ≡ read_side_of name },
    ghost deletes: { sides_in delete_sides ≡ delete_sides_of name },
}

impl PlainPhase {
    /// The sides that a request goes to, the old one first.
    pub(crate) fn sides(self, kind: RequestKind) -> Sides
        ensures { sides_in result ≡ sides_of kind self.name }
    {
        match kind {
            RequestKind::Get | RequestKind::Set => Sides::One(OneSide::of(self.read_side)),
            RequestKind::Delete => self.delete_sides,
        }
    }
}
