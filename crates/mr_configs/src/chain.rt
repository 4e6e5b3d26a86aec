//! Chains of migrations as a configuration says them: found in its JSON values, and not made yet.
ghost use Rattle.std.specs.Prelude.{◌≡◌, ◌≤◌, ◌<◌, ◌++◌, [], ◌∷◌, map, length};
ghost use Rattle.serde_json.specs.View.{view};
ghost use Rattle.mr_phases.specs.Schedule.{most_hops};
ghost use Rattle.mr_configs.specs.Pools.{names_in};

use crate::migration::MigrationDraft;
use mr_phases::MAX_HOPS;
use serde_json::Value;

/// As many as a schedule may have hops.
const MOST: usize = MAX_HOPS as usize;

/// Migrations in a row: the first leaves a pool, and each takes its keys on to the next. There are no more than a schedule
/// has room for, so a chain takes no memory.
#[derive(Clone, Copy)]
pub struct ChainDraft<'a> {
    first: &'a [Value],
    migrations: [MigrationDraft<'a>; MOST],
    count: usize,
    ghost few: { count ≤ most_hops },
}

impl<'a> ChainDraft<'a> {
    ghost use Rattle.mr_configs.specs.Chain.{chain_at, chain_with};
    ghost use Rattle.mr_configs.specs.ChainDraft.{migrations_in, chain_drafted};
    ghost use Rattle.mr_configs.specs.MigrationDraft.{migration_drafted};

    /// A pool that no migration leaves yet.
    pub fn at(first: &'a [Value]) -> ChainDraft<'a>
        ensures chain { chain_drafted result ≡ chain_at (names_in (map view first.now)) }
        ensures migrations { migrations_in result ≡ [] }
    {
        let none = MigrationDraft {
            new: first,
            start: 0,
            interval: 0,
        };
        ChainDraft {
            first,
            migrations: [none; MOST],
            count: 0,
        }
    }

    /// One migration more, behind the others.
    pub fn then(self, migration: MigrationDraft<'a>) -> ChainDraft<'a>
        requires { length (migrations_in self) < most_hops }
        ensures chain { chain_drafted result ≡ chain_with (chain_drafted self.entry) (migration_drafted migration.entry) }
        ensures migrations { migrations_in result ≡ migrations_in self.entry ++ migration.entry ∷ [] }
    {
        let mut migrations = self.migrations;
        migrations[self.count] = migration;
        ChainDraft {
            first: self.first,
            migrations,
            count: self.count + 1,
        }
    }

    /// The names of the pool that the first migration leaves.
    pub fn first(&self) -> &'a [Value]
        ensures { result.now ≡ self.now.first.now }
    {
        self.first
    }

    /// The migrations, in order.
    pub fn migrations(&self) -> &[MigrationDraft<'a>]
        ensures migrations { result.now ≡ migrations_in self.now }
        ensures few { length result.now ≤ most_hops }
    {
        &self.migrations[..self.count]
    }
}
