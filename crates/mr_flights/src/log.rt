//! What is kept of the seconds that were seen.
ghost use Rattle.std.specs.Prelude.{◌≡◌, OnErr, OnOk};
ghost use Rattle.mr_flights.specs.Log.{fresh_log, is_migrated, with_second};

use mr_counting::{one_more, sum_of};
use mr_phases::{PhaseName, Schedule};
use mr_sightings::{Second, Table, Tally};
use std::alloc::{AllocError, Global};
use std::marker::Model;

/// What is kept of the seconds that were seen.
#[derive(Drop)]
pub(crate) struct Log {
    /// What was counted in each phase.
    pub(crate) table: Table,
    /// What was counted in all of them.
    pub(crate) total: Tally,
    /// How many hits of them showed what was deleted.
    pub(crate) came_back: u64,
    /// How many of them were in the last phase of the last migration.
    pub(crate) migrated: u64,
}

impl Model for Log {
    ghost use Rattle.mr_flights.specs.Log.{LogView};

    ghost Value = { LogView };

    ghost view = { λ log. record { rows = log.table; total = log.total; came_back = log.came_back; migrated = log.migrated } };
}

/// Whether a second is in the last phase of the last migration.
fn is_migrated(schedule: &Schedule, second: &Second) -> bool
    ensures { result ≡ is_migrated schedule.now second.now }
{
    u64::from(second.hop) + 1 == u64::from(schedule.hops()) && second.phase == PhaseName::NewOnly
}

impl Log {
    /// Nothing was seen yet.
    pub(crate) fn new(alloc: Global) -> Log
        ensures { result ≡ fresh_log }
    {
        Log {
            table: Table::new(alloc),
            total: Tally::NONE,
            came_back: 0,
            migrated: 0,
        }
    }

    /// A second more was seen, by this schedule. For want of memory nothing changes.
    pub(crate) fn add(&mut self, schedule: &Schedule, second: &Second) -> Result<(), AllocError>
        ensures ok { OnOk result (self.new ≡ with_second schedule.now second.now self.old) }
        ensures err { OnErr result (self.new ≡ self.old) }
    {
        self.table.add(second.hop, second.phase, &second.tally)?;
        self.total.plus(&second.tally);
        self.came_back = sum_of(self.came_back, second.came_back);
        if is_migrated(schedule, second) {
            self.migrated = one_more(self.migrated);
        }
        Ok(())
    }
}
