//! A reading judged: the one of the four phases in which it stands, of the migration in force.
ghost use Rattle.std.specs.Prelude.{◌≡◌, ◌<◌, ◌≤◌, ◌↔◌, length, IsOk, IfOk, IfErr};
ghost use Rattle.mr_phases.specs.Sides.{read_side_of, sides_at, sides_in};
ghost use Rattle.mr_phases.specs.Schedule.{hop_of, phase_of, IsSchedule};
ghost use Rattle.mr_phases.specs.Judged.{name_of, reading_of, hops_of, IsJudgement};

use crate::phase::{BothReadNew, BothReadOld, NewOnly, OldOnly, Phase};
use crate::phase_name::PhaseName;
use crate::plain_phase::PlainPhase;
use crate::schedule::Schedule;
use crate::side::{RequestKind, Side};
use crate::sides::Sides;

/// A reading in the one of the four phases in which it stands, of the hop in force: the last that has begun, or the
/// first where none has.
#[derive(Debug, Drop)]
pub enum Judged {
    /// Before the start of the first hop.
    OldOnly(Phase<OldOnly>),
    /// From a hop's start on, for one interval.
    BothReadOld(Phase<BothReadOld>),
    /// After that, for another interval.
    BothReadNew(Phase<BothReadNew>),
    /// From a hop's end on, until the next one starts.
    NewOnly(Phase<NewOnly>),
}

/// The phase of a schedule in which a reading stands, in seconds since the epoch: that of the hop in force. Each bound
/// belongs to the later phase, and a hop's start to that hop.
pub fn judge(schedule: Schedule, now: u64) -> Judged
    ensures judgement { IsJudgement schedule now result }
    ensures valid { IsSchedule schedule }
{
    match schedule.phase_at(now) {
        PhaseName::OldOnly => Judged::OldOnly(Phase::at(schedule, now)),
        PhaseName::BothReadOld => Judged::BothReadOld(Phase::at(schedule, now)),
        PhaseName::BothReadNew => Judged::BothReadNew(Phase::at(schedule, now)),
        PhaseName::NewOnly => Judged::NewOnly(Phase::at(schedule, now)),
    }
}

impl Judged {
    /// The phase as plain values: the one way from the variant to what it holds.
    fn plain(&self) -> PlainPhase
        ensures schedule { result.schedule ≡ hops_of self.now }
        ensures reading { result.reading ≡ reading_of self.now }
        ensures name { result.name ≡ name_of self.now }
    {
        match self {
            Judged::OldOnly(phase) => phase.plain(),
            Judged::BothReadOld(phase) => phase.plain(),
            Judged::BothReadNew(phase) => phase.plain(),
            Judged::NewOnly(phase) => phase.plain(),
        }
    }

    /// An equal value.
    pub fn copy(&self) -> Judged
        ensures { result ≡ self.now }
    {
        let plain = self.plain();
        judge(plain.schedule, plain.reading)
    }

    /// The name of the phase.
    pub fn name(&self) -> PhaseName
        ensures by_variant { result ≡ name_of self.now }
        ensures by_reading { result ≡ phase_of (hops_of self.now) (reading_of self.now) }
    {
        self.plain().name
    }

    /// The reading, in seconds since the epoch.
    pub fn reading(&self) -> u64
        ensures { result ≡ reading_of self.now }
    {
        self.plain().reading
    }

    /// The schedule in which the reading stands.
    pub fn schedule(&self) -> Schedule
        ensures { result ≡ hops_of self.now }
    {
        self.plain().schedule
    }

    /// The number of the hop in force: of the last that has begun, or 0 where none has.
    pub fn hop(&self) -> u32
        ensures hop { result ≡ hop_of (hops_of self.now) (reading_of self.now) }
        ensures within { result < length (hops_of self.now) }
    {
        let plain = self.plain();
        plain.schedule.hop_at(plain.reading)
    }

    /// The side of gets and sets.
    pub fn read_side(&self) -> Side
        ensures { result ≡ read_side_of (phase_of (hops_of self.now) (reading_of self.now)) }
    {
        self.plain().read_side
    }

    /// The sides that a request goes to, the old one first.
    pub fn sides(&self, kind: RequestKind) -> Sides
        ensures { sides_in result ≡ sides_at (hops_of self.now) kind (reading_of self.now) }
    {
        self.plain().sides(kind)
    }

    /// The judgement at a later reading, which may be in a later hop. An earlier one hands the same value back as the
    /// error.
    pub fn later(self, now: u64) -> Result<Judged, Judged>
        ensures accepted { IsOk result ↔ (reading_of self ≤ now) }
        ensures judgement { IfOk result (IsJudgement (hops_of self) now) }
        ensures earlier { IfErr result (λ same. same ≡ self) }
    {
        if now < self.reading() {
            Err(self)
        } else {
            Ok(judge(self.schedule(), now))
        }
    }
}
