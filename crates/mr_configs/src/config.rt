//! Configurations: where keys are kept, and when each migration is.
ghost use Rattle.std.specs.Prelude.{◌≡◌, ◌<◌, ◌≤◌, true, Ok, Err, IfOk, IfErr, length, map, codes};
ghost use Rattle.serde_json.specs.Data.{depth as nesting};
ghost use Rattle.serde_json.specs.Find.{get};
ghost use Rattle.serde_json.specs.Read.{max_depth};
ghost use Rattle.serde_json.specs.View.{view};
ghost use Rattle.mr_pools.specs.Limits.{most_pools};
ghost use Rattle.mr_pools.specs.Routing.{routing_between, routing_onto, StandsApart};
ghost use Rattle.mr_configs.specs.Config.{hash_of, config_of, IsConfig, IsJson, IsNoJson, ReadsConfig};
ghost use Rattle.mr_configs.specs.Draft.{config_drafted, IsConfigReady};
ghost use Rattle.mr_configs.specs.MigrationDraft.{migration_drafted, IsPoolReady, IsMigrationReady};
ghost use Rattle.mr_configs.specs.Pools.{names_in, stand_apart};
ghost use Rattle.mr_proxy.specs.Sheets.{HaveAsManyHops};

use crate::chain::ChainDraft;
use crate::error::PlanError;
use crate::fields::{check_object, field};
use crate::migration::{MigrationDraft, are_all_apart, schedule_of};
use crate::pools::{check_pools, make_pool};
use crate::route::chain_of;
use mr_phases::{MAX_HOPS, Schedule};
use mr_pools::{NamedHash, PoolError, Routing};
use serde_json::Value;
use std::alloc::{AllocError, Global};
use std::marker::Model;

/// The keys of a configuration.
const CONFIG_KEYS: [&str; 3] = ["hash", "pools", "route"];

/// A configuration: where keys are kept, and when each migration is. It has one pool more than migrations: migration j moves
/// from pool j to pool j + 1.
#[derive(Debug, Drop)]
pub struct Config {
    routing: Routing,
    schedule: Schedule,
}

impl Model for Config {
    ghost use Rattle.mr_configs.specs.Config.{ConfigView, IsConfig};

    ghost Value = { ConfigView };

    ghost view = { λ c. record { routing = c.routing; schedule = c.schedule } };

    ghost invariant = { λ c. IsConfig (record { routing = c.routing; schedule = c.schedule }) };
}

/// A configuration that was looked at whole, and is yet to be made.
#[derive(Clone, Copy)]
pub struct Draft<'a> {
    chain: ChainDraft<'a>,
    schedule: Schedule,
    hash: NamedHash,
}

/// The hash that a configuration names; FNV-1a where it names none.
#[tactic(auto, using(crate::proofs::ConfigLemmas::named_hash, crate::proofs::ConfigLemmas::no_hash))]
fn hash_of(value: &Value) -> Result<NamedHash, PlanError>
    ensures { result ≡ hash_of (get (codes "hash") (view value.now)) }
{
    let Some(hash) = value.get("hash") else {
        return Ok(NamedHash::Fnv);
    };
    let name = hash.as_str().ok_or(PlanError::BadHash)?;
    NamedHash::from_name(name).ok_or(PlanError::BadHash)
}

/// Looks at a configuration whole, without taking memory, and tells the first refusal.
pub fn draft_of(value: &Value) -> Result<Draft<'_>, PlanError>
    ensures config { IfOk result (λ draft. config_of (view value.now) ≡ Ok (config_drafted draft)) }
    ensures makeable { IfOk result (λ draft. IsConfigReady draft) }
    ensures refused { IfErr result (λ e. config_of (view value.now) ≡ Err e) }
{
    check_object(value, &CONFIG_KEYS)?;
    let pools = field(value, "pools")?;
    let route = field(value, "route")?;
    check_pools(pools)?;
    let chain = match chain_of(pools, route, MAX_HOPS) {
        Ok(chain) => chain,
        Err(refusal) => return Err(refusal),
    };
    let schedule = schedule_of(chain.migrations())?;
    let hash = hash_of(value)?;
    if !are_all_apart(chain.first(), chain.migrations()) {
        return Err(PlanError::BadPool(PoolError::SharedName));
    }
    Ok(Draft {
        chain,
        schedule,
        hash,
    })
}

/// The routing of the first migration, made.
fn make_routing_to(
    alloc: Global,
    first: &[Value],
    migration: &MigrationDraft<'_>,
    hash: NamedHash,
) -> Result<Routing, AllocError>
    requires first { IsPoolReady (names_in (map view first.now)) }
    requires next { IsMigrationReady migration.now }
    requires apart { stand_apart (names_in (map view first.now)) (migration_drafted migration.now).new ≡ true }
    ensures { IfOk result
        (λ routing. routing ≡ routing_between (names_in (map view first.now)) (migration_drafted migration.now).new hash) }
{
    let old = make_pool(alloc, first)?;
    let new = make_pool(alloc, migration.new)?;
    match Routing::new(old, new, hash) {
        Ok(routing) => Ok(routing),
        Err(_) => unreachable!(),
    }
}

/// The routing that goes on by one migration, made.
fn make_routing_onto(
    alloc: Global,
    routing: Routing,
    migration: &MigrationDraft<'_>,
) -> Result<Routing, AllocError>
    requires few { length routing.pools < most_pools }
    requires next { IsMigrationReady migration.now }
    requires apart { StandsApart routing (migration_drafted migration.now).new }
    ensures { IfOk result (λ longer. longer ≡ routing_onto routing (migration_drafted migration.now).new) }
{
    let pool = make_pool(alloc, migration.new)?;
    match routing.then(pool) {
        Ok(longer) => Ok(longer),
        Err(_) => unreachable!(),
    }
}

impl<'a> Draft<'a> {
    /// The routing, made.
    fn make_routing(&self, alloc: Global) -> Result<Routing, AllocError>
        requires { IsConfigReady self.now }
        ensures { IfOk result (λ routing. routing ≡ (config_drafted self.now).routing) }
    {
        let migrations = self.chain.migrations();
        let mut routing = make_routing_to(alloc, self.chain.first(), &migrations[0], self.hash)?;
        for migration in &migrations[1..] {
            routing = make_routing_onto(alloc, routing, migration)?;
        }
        Ok(routing)
    }

    /// The configuration, made.
    pub fn make(&self, alloc: Global) -> Result<Config, AllocError>
        requires { IsConfigReady self.now }
        ensures { IfOk result (λ config. config ≡ config_drafted self.now) }
    {
        let routing = self.make_routing(alloc)?;
        Ok(Config::new(routing, self.schedule))
    }
}

/// The value of a JSON text in UTF-8. Bytes that are none, or not UTF-8, are NotJson before any memory is taken; of others
/// reading them tells NotJson, or OutOfMemory where memory for that is refused.
pub fn json_of(alloc: Global, bytes: &[u8]) -> Result<Value, PlanError>
    ensures value { IfOk result (λ value. IsJson bytes.now (view value)) }
    ensures nests { IfOk result (λ value. nesting (view value) ≤ max_depth) }
    ensures refused { IfErr result (λ e. IsNoJson bytes.now e) }
{
    let Ok(text) = str::from_utf8(bytes) else {
        return Err(PlanError::NotJson);
    };
    match Value::from_str(alloc, text) {
        Ok(value) => Ok(value),
        Err(error) if error.is_memory() => Err(PlanError::OutOfMemory),
        Err(_) => Err(PlanError::NotJson),
    }
}

impl Config {
    /// The configuration of these parts: hop j of the schedule moves from pool j of the routing to pool j + 1.
    pub fn new(routing: Routing, schedule: Schedule) -> Config
        requires { HaveAsManyHops routing schedule }
        ensures { result ≡ record { routing = routing; schedule = schedule } }
    {
        let is_matched = routing.hops() == schedule.hops();
        prove!(is_matched);
        Config { routing, schedule }
    }

    /// The configuration that a JSON text is. Refusals, in this order: NotJson; WrongKind where the whole is no object;
    /// UnknownKey, MissingKey; those of the pools, in the order of their names; those of the route, of which each object is
    /// looked at where it stands; BadSchedule, from the innermost migration on; BadHash; BadPool where a node stands in two pools
    /// of the route; OutOfMemory, which reading the text may answer too.
    pub fn read(alloc: Global, bytes: &[u8]) -> Result<Config, PlanError>
        ensures { ReadsConfig bytes.now result }
    {
        let value = json_of(alloc, bytes)?;
        match draft_of(&value) {
            Ok(draft) => Ok(draft.make(alloc)?),
            Err(refusal) => Err(refusal),
        }
    }

    /// Where keys are kept.
    pub fn routing(&self) -> &Routing
        ensures routing { result.now ≡ self.now.routing }
        ensures config { IsConfig self.now }
    {
        &self.routing
    }

    /// When each migration is.
    pub fn schedule(&self) -> Schedule
        ensures schedule { result ≡ self.now.schedule }
        ensures config { IsConfig self.now }
    {
        self.schedule
    }

    /// An equal configuration.
    pub fn copy(&self) -> Result<Config, AllocError>
        ensures { IfOk result (λ config. config ≡ self.now) }
    {
        Ok(Config {
            routing: self.routing.copy()?,
            schedule: self.schedule,
        })
    }
}
