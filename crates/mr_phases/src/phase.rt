//! The four phases as types, and a reading that stands in one.
ghost use Rattle.std.specs.Prelude.{◌≡◌, ℕ, ◌<◌, length};
ghost use Rattle.mr_phases.specs.declared.phase_name.PhaseName.{PhaseName};
ghost use Rattle.mr_phases.specs.Sides.{read_side_of, delete_sides_of, sides_at, sides_in};
ghost use Rattle.mr_phases.specs.Schedule.{hop_of, phase_of};
ghost use Rattle.mr_phases.specs.Reading.{Reading};

use crate::phase_name::PhaseName;
use crate::plain_phase::PlainPhase;
use crate::schedule::Schedule;
use crate::side::{RequestKind, Side};
use crate::sides::{OneSide, SideCount, Sides, TwoSides};
use std::marker::{Model, PhantomData};

mod sealed {
    /// Names the phases: no other crate can add one.
    pub trait Sealed {}
}

/// A phase as a type: its name, and whether a delete goes to one side or two.
pub trait PhaseKind: sealed::Sealed + Drop {
    /// `OneSide` or `TwoSides`.
    type DeleteSides: SideCount;

    ghost name: { PhaseName };

    /// The phase's name.
    fn name() -> PhaseName
        ensures { result ≡ name };

    /// The side of gets and sets.
    fn read_side() -> Side
        ensures { result ≡ read_side_of name };

    /// The sides of a delete.
    fn delete_sides() -> Self::DeleteSides
        ensures { Self.DeleteSides.sides result ≡ delete_sides_of name };
}

/// Everything goes to the old pool.
#[derive(Clone, Copy, Debug, PartialEq, Eq)]
pub struct OldOnly;

/// Gets and sets go to the old pool, deletes to both.
#[derive(Clone, Copy, Debug, PartialEq, Eq)]
pub struct BothReadOld;

/// Gets and sets go to the new pool, deletes to both.
#[derive(Clone, Copy, Debug, PartialEq, Eq)]
pub struct BothReadNew;

/// Everything goes to the new pool.
#[derive(Clone, Copy, Debug, PartialEq, Eq)]
pub struct NewOnly;

impl sealed::Sealed for OldOnly {}

impl sealed::Sealed for BothReadOld {}

impl sealed::Sealed for BothReadNew {}

impl sealed::Sealed for NewOnly {}

impl PhaseKind for OldOnly {
    type DeleteSides = OneSide;

    ghost name = { PhaseName.OldOnly };

    fn name() -> PhaseName {
        PhaseName::OldOnly
    }

    fn read_side() -> Side {
        Side::Old
    }

    fn delete_sides() -> OneSide {
        OneSide::of(Side::Old)
    }
}

impl PhaseKind for BothReadOld {
    type DeleteSides = TwoSides;

    ghost name = { PhaseName.BothReadOld };

    fn name() -> PhaseName {
        PhaseName::BothReadOld
    }

    fn read_side() -> Side {
        Side::Old
    }

    fn delete_sides() -> TwoSides {
        TwoSides
    }
}

impl PhaseKind for BothReadNew {
    type DeleteSides = TwoSides;

    ghost name = { PhaseName.BothReadNew };

    fn name() -> PhaseName {
        PhaseName::BothReadNew
    }

    fn read_side() -> Side {
        Side::New
    }

    fn delete_sides() -> TwoSides {
        TwoSides
    }
}

impl PhaseKind for NewOnly {
    type DeleteSides = OneSide;

    ghost name = { PhaseName.NewOnly };

    fn name() -> PhaseName {
        PhaseName::NewOnly
    }

    fn read_side() -> Side {
        Side::New
    }

    fn delete_sides() -> OneSide {
        OneSide::of(Side::New)
    }
}

/// A schedule and a reading that stands in the phase P of the hop in force.
#[derive(Debug, Drop)]
pub struct Phase<P: PhaseKind> {
    schedule: Schedule,
    reading: u64,
    kind: PhantomData<P>,
}

impl<P: PhaseKind> Model for Phase<P> {
    ghost Value = { Reading };

    ghost view = { λ p. record { hops = p.schedule; reading = p.reading } };

    ghost invariant = { λ p. P.name ≡ phase_of p.schedule p.reading };
}

impl<P: PhaseKind> Phase<P> {
    /// A reading that was found to stand in P.
    pub(crate) fn at(schedule: Schedule, reading: u64) -> Phase<P>
        requires { P.name ≡ phase_of schedule reading }
        ensures hops { result.hops ≡ schedule }
        ensures reading { result.reading ≡ reading }
    {
        Phase {
            schedule,
            reading,
            kind: PhantomData,
        }
    }

    /// An equal value.
    pub fn copy(&self) -> Phase<P>
        ensures { result ≡ self.now }
    {
        Phase::at(self.schedule, self.reading)
    }

    /// The same as plain values.
    pub(crate) fn plain(&self) -> PlainPhase
        ensures schedule { result.schedule ≡ self.now.hops }
        ensures reading { result.reading ≡ self.now.reading }
        ensures name { result.name ≡ P.name }
    {
        PlainPhase {
            schedule: self.schedule,
            reading: self.reading,
            name: P::name(),
            read_side: P::read_side(),
            delete_sides: P::delete_sides().into_sides(),
        }
    }

    /// The phase's name.
    pub fn name(&self) -> PhaseName
        ensures by_type { result ≡ P.name }
        ensures by_reading { result ≡ phase_of self.now.hops self.now.reading }
    {
        self.plain().name
    }

    /// The reading, in seconds since the epoch.
    pub fn reading(&self) -> u64
        ensures { result ≡ self.now.reading }
    {
        self.reading
    }

    /// The schedule in which the reading stands.
    pub fn schedule(&self) -> Schedule
        ensures { result ≡ self.now.hops }
    {
        self.schedule
    }

    /// The number of the hop in force: of the last that has begun, or 0 where none has.
    pub fn hop(&self) -> u32
        ensures hop { result ≡ hop_of self.now.hops self.now.reading }
        ensures within { result < length self.now.hops }
    {
        self.schedule.hop_at(self.reading)
    }

    /// The side of gets and sets.
    pub fn read_side(&self) -> Side
        ensures { result ≡ read_side_of (phase_of self.now.hops self.now.reading) }
    {
        self.plain().read_side
    }

    /// The sides of a delete: `OneSide` or `TwoSides`, by the type P.
    pub fn delete_sides(&self) -> P::DeleteSides
        ensures { P.DeleteSides.sides result
            ≡ delete_sides_of (phase_of self.now.hops self.now.reading) }
    {
        self.stands_in_phase();
        P::delete_sides()
    }

    /// The sides of a request, as a value.
    pub fn sides(&self, kind: RequestKind) -> Sides
        ensures { sides_in result ≡ sides_at self.now.hops kind self.now.reading }
    {
        self.plain().sides(kind)
    }

    /// The reading stands in P: what the type keeps.
    fn stands_in_phase(&self)
        ensures { P.name ≡ phase_of self.now.hops self.now.reading }
    {
        let _ = &self.reading;
    }
}
