//! The route of a configuration: a migration between two of its pools, or several in a row, each inside the next.
ghost use Rattle.std.specs.Prelude.{◌≡◌, ◌≤◌, Ok, Err, IfOk, IfErr, map, length, option_map, codes};
ghost use Rattle.serde_json.specs.Find.{get, as_str};
ghost use Rattle.serde_json.specs.View.{view};
ghost use Rattle.mr_phases.specs.Schedule.{most_hops};
ghost use Rattle.mr_configs.specs.ChainDraft.{migrations_in, chain_drafted, IsChainReady};
ghost use Rattle.mr_configs.specs.MigrationDraft.{IsPoolReady};
ghost use Rattle.mr_configs.specs.Pools.{names_in};
ghost use Rattle.mr_configs.specs.Route.{is_migration, name_pointed_to, pool_named, pool_behind, interval_of, chain_before, chain_of};

use crate::chain::ChainDraft;
use crate::defaults::DEFAULT_INTERVAL;
use crate::error::PlanError;
use crate::fields::{check_object, field, whole_number};
use crate::migration::MigrationDraft;
use crate::pools::names_of_pool;
use serde_json::Value;

/// What comes before the name of a pool.
const POOL_PREFIX: &str = "PoolRoute|";

/// The keys of a route.
const ROUTE_KEYS: [&str; 5] = ["type", "from", "to", "start_time", "interval"];

/// Whether the value is an object of the only type of route that there is.
fn is_migration(route: &Value) -> bool
    ensures { result ≡ is_migration (view route.now) }
{
    match route.get("type").and_then(Value::as_str) {
        Some(kind) => kind == "MigrateRoute",
        None => false,
    }
}

/// The name of the pool that a text points to.
pub fn name_pointed_to(text: &str) -> Option<&str>
    ensures { option_map (λ name. name.now) result ≡ name_pointed_to text.now }
{
    text.strip_prefix(POOL_PREFIX)
}

/// The names of the pool that a text points to.
fn pool_named<'a>(pools: &'a Value, text: &str) -> Result<&'a [Value], PlanError>
    ensures names { IfOk result (λ values. pool_named (view pools.now) text.now ≡ Ok (names_in (map view values.now))) }
    ensures pool { IfOk result (λ values. IsPoolReady (names_in (map view values.now))) }
    ensures refused { IfErr result (λ e. pool_named (view pools.now) text.now ≡ Err e) }
{
    let name = name_pointed_to(text).ok_or(PlanError::BadRoute)?;
    names_of_pool(pools.get(name).ok_or(PlanError::BadRoute)?)
}

/// The names of the pool that a value points to.
fn pool_behind<'a>(pools: &'a Value, value: &Value) -> Result<&'a [Value], PlanError>
    ensures names { IfOk result
        (λ values. pool_behind (view pools.now) (view value.now) ≡ Ok (names_in (map view values.now))) }
    ensures pool { IfOk result (λ values. IsPoolReady (names_in (map view values.now))) }
    ensures refused { IfErr result (λ e. pool_behind (view pools.now) (view value.now) ≡ Err e) }
{
    let text = value.as_str().ok_or(PlanError::BadRoute)?;
    pool_named(pools, text)
}

/// How long each middle phase lasts, in seconds.
fn interval_of(route: &Value) -> Result<u64, PlanError>
    ensures { result ≡ interval_of (get (codes "interval") (view route.now)) }
{
    match route.get("interval") {
        None => Ok(DEFAULT_INTERVAL),
        Some(value) => whole_number(value),
    }
}

/// What leads to the pool that a migration leaves: nothing where `from` is a text, or else a chain of so many objects at
/// most.
#[tactic(auto, using(crate::proofs::RouteLemmas::no_object, crate::proofs::RouteLemmas::one_object))]
#[cycle(chain)]
fn chain_before<'a>(
    pools: &'a Value,
    from: &Value,
    objects: u32,
) -> Result<ChainDraft<'a>, PlanError>
    requires { objects ≤ most_hops }
    ensures chain { IfOk result
        (λ found. chain_before (view pools.now) (as_str (view from.now)) (chain_of objects (view pools.now) (view from.now))
        ≡ Ok (chain_drafted found)) }
    ensures few { IfOk result (λ found. length (migrations_in found) ≤ objects) }
    ensures ready { IfOk result (λ found. IsChainReady found) }
    ensures refused { IfErr result
        (λ e. chain_before (view pools.now) (as_str (view from.now)) (chain_of objects (view pools.now) (view from.now)) ≡ Err e) }
{
    match from.as_str() {
        Some(text) => Ok(ChainDraft::at(pool_named(pools, text)?)),
        None => chain_of(pools, from, objects),
    }
}

/// The chain of migrations that a route is, over these pools. No more objects than this stand inside one another; one more is
/// BadRoute.
#[tactic(auto, using(crate::proofs::RouteLemmas::no_object, crate::proofs::RouteLemmas::one_object))]
#[cycle(chain)]
pub fn chain_of<'a>(
    pools: &'a Value,
    route: &Value,
    objects: u32,
) -> Result<ChainDraft<'a>, PlanError>
    requires { objects ≤ most_hops }
    ensures chain { IfOk result
        (λ found. chain_of objects (view pools.now) (view route.now) ≡ Ok (chain_drafted found)) }
    ensures some { IfOk result (λ found. 1 ≤ length (migrations_in found)) }
    ensures few { IfOk result (λ found. length (migrations_in found) ≤ objects) }
    ensures ready { IfOk result (λ found. IsChainReady found) }
    ensures refused { IfErr result (λ e. chain_of objects (view pools.now) (view route.now) ≡ Err e) }
{
    if objects == 0 || !is_migration(route) {
        return Err(PlanError::BadRoute);
    }
    check_object(route, &ROUTE_KEYS)?;
    let from = field(route, "from")?;
    let to = field(route, "to")?;
    let start_time = field(route, "start_time")?;
    let before = chain_before(pools, from, objects - 1)?;
    let new = pool_behind(pools, to)?;
    let start = whole_number(start_time)?;
    let interval = interval_of(route)?;
    Ok(before.then(MigrationDraft {
        new,
        start,
        interval,
    }))
}
