//! The numbers of the refusals.
use super::*;
use mr_world::WorldError;

/// Each refusal and its number, in order.
static NUMBERS: [(PlanError, u8); 13] = [
    (PlanError::NotJson, 1),
    (PlanError::WrongKind, 2),
    (PlanError::MissingKey, 3),
    (PlanError::UnknownKey, 4),
    (PlanError::BadPool(PoolError::SharedName), 5),
    (PlanError::BadRoute, 6),
    (PlanError::BadSchedule(ScheduleError::TooLate), 7),
    (PlanError::BadHash, 8),
    (PlanError::BadSetup(WorldError::NoSuchNode), 9),
    (PlanError::BadEvent(65_535), 10),
    (PlanError::TooLarge, 11),
    (PlanError::EventRefused(0, WorldError::NoSuchMessage), 12),
    (PlanError::OutOfMemory, 13),
];

#[test]
fn refusals_have_their_numbers(rt: HostRuntime) {
    for (refusal, number) in &NUMBERS {
        is(&rt, refusal.number(), *number);
    }
}
