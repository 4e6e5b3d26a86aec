//! Schedules, the four phases as types, and the sides of a migration.
ghost use Rattle.std.specs.Prelude.{◌≡◌, length, IfOk};

use mr_phases::{
    BothReadNew, BothReadOld, Judged, NewOnly, OldOnly, OneSide, Phase, Schedule, ScheduleError,
    Side, TwoSides, judge,
};
use std::test::Fail;

/// The schedule that begins at 1000, with an interval of 100 seconds.
pub(super) fn schedule() -> Result<Schedule, ScheduleError>
    ensures { IfOk result (λ schedule. length schedule ≡ 1) }
{
    Schedule::new(1000, 100)
}

/// Where a delete goes before the migration.
fn before(phase: &Phase<OldOnly>) -> OneSide {
    phase.delete_sides()
}

/// Where it goes in the first half.
fn first_half(phase: &Phase<BothReadOld>) -> TwoSides {
    phase.delete_sides()
}

/// Where it goes in the second half.
fn second_half(phase: &Phase<BothReadNew>) -> TwoSides {
    phase.delete_sides()
}

/// Where it goes behind the migration.
fn behind(phase: &Phase<NewOnly>) -> OneSide {
    phase.delete_sides()
}

/// The last side that a delete goes to.
fn last_side(judged: &Judged) -> Side {
    match judged {
        Judged::OldOnly(phase) => before(phase).side(),
        Judged::BothReadOld(phase) => first_half(phase).as_array()[1],
        Judged::BothReadNew(phase) => second_half(phase).as_array()[1],
        Judged::NewOnly(phase) => behind(phase).side(),
    }
}

#[test]
fn readings_are_judged(rt: HostRuntime) -> Result<(), Fail> {
    let judged = judge(schedule()?, 999);
    assert_eq!(rt; last_side(&judged), Side::Old);
    assert!(rt; matches!(judged.later(1000), Ok(later) if last_side(&later) == Side::New));
    Ok(())
}
