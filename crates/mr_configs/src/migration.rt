//! Migrations as a configuration says them: found in its JSON values, and not made yet.
ghost use Rattle.std.specs.Prelude.{◌≡◌, ◌≤◌, ◌<◌, [], ◌∷◌, map, length, IfOk};
ghost use Rattle.serde_json.specs.View.{view};
ghost use Rattle.mr_phases.specs.Schedule.{most_hops};
ghost use Rattle.mr_configs.specs.Chain.{pools_after, is_apart_from, are_all_apart, schedule_with, schedule_of};
ghost use Rattle.mr_configs.specs.MigrationDraft.{migration_drafted};
ghost use Rattle.mr_configs.specs.Pools.{names_in};

use crate::error::PlanError;
use crate::pools::stand_apart;
use mr_phases::Schedule;
use serde_json::Value;

/// A migration: the pool that takes over, and when.
#[derive(Clone, Copy)]
pub struct MigrationDraft<'a> {
    /// The names of the pool that takes over.
    pub new: &'a [Value],
    /// The first second, since the epoch.
    pub start: u64,
    /// How long each of the two middle phases lasts, in seconds.
    pub interval: u64,
}

/// Whether no name of a pool stands in one that a migration moves to.
fn is_apart_from(pool: &[Value], migrations: &[MigrationDraft<'_>]) -> bool
    ensures { result ≡ is_apart_from (names_in (map view pool.now)) (pools_after (map migration_drafted migrations.now)) }
{
    for migration in migrations {
        if !stand_apart(pool, migration.new) {
            return false;
        }
    }
    true
}

/// Whether no name stands in two of the pools: the one that the first migration leaves, and those that take over.
pub fn are_all_apart(first: &[Value], migrations: &[MigrationDraft<'_>]) -> bool
    ensures { result ≡ are_all_apart (names_in (map view first.now) ∷ pools_after (map migration_drafted migrations.now)) }
{
    let mut pool = first;
    for (index, migration) in migrations.iter().enumerate() {
        if !is_apart_from(pool, &migrations[index..]) {
            return false;
        }
        pool = migration.new;
    }
    true
}

/// The schedule of a migration alone.
fn schedule_alone(migration: &MigrationDraft<'_>) -> Result<Schedule, PlanError>
    ensures { result ≡ schedule_with [] (migration_drafted migration.now) }
{
    match Schedule::new(migration.start, migration.interval) {
        Ok(schedule) => Ok(schedule),
        Err(refusal) => Err(PlanError::BadSchedule(refusal)),
    }
}

/// The schedule with one migration more.
fn schedule_with(schedule: Schedule, migration: &MigrationDraft<'_>) -> Result<Schedule, PlanError>
    requires { length schedule < most_hops }
    ensures { result ≡ schedule_with schedule (migration_drafted migration.now) }
{
    match schedule.then(migration.start, migration.interval) {
        Ok(longer) => Ok(longer),
        Err((refusal, _)) => Err(PlanError::BadSchedule(refusal)),
    }
}

/// The schedule of migrations. They are looked at from the first to the last, and the first refusal is told.
pub fn schedule_of(migrations: &[MigrationDraft<'_>]) -> Result<Schedule, PlanError>
    requires some { 1 ≤ length migrations.now }
    requires few { length migrations.now ≤ most_hops }
    ensures schedule { result ≡ schedule_of (map migration_drafted migrations.now) }
    ensures matched { IfOk result (λ schedule. length migrations.now ≡ length schedule) }
{
    let mut schedule = schedule_alone(&migrations[0])?;
    for migration in &migrations[1..] {
        schedule = schedule_with(schedule, migration)?;
    }
    Ok(schedule)
}
