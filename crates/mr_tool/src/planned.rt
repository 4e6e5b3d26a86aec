//! The configuration that a plan is made by: that of a file, or the one that its words say.
ghost use Rattle.std.specs.Prelude.{Ok, IfOk, IfErr};
ghost use Rattle.mr_tool.specs.PlannedConfig.{PlansConfig, RefusesRouting, SaysConfig, SaysPool, SaysRouting};
ghost use Rattle.mr_tool.specs.PlannedSteps.{MakesNames};

use crate::fault::Fault;
use crate::input::load_config;
use crate::sources::Sources;
use mr_configs::Config;
use mr_phases::Schedule;
use mr_pools::{NodeName, Pool, PoolError, Routing};
use mr_words::{MigrationWords, Planned, split_at_commas};
use std::alloc::Global;

/// The names of nodes that a word says, with commas between them. BadName where one of them can't be a node's.
fn names_said(alloc: Global, word: &str) -> Result<Vec<NodeName>, PoolError>
    ensures { MakesNames word.now result }
{
    let pieces = split_at_commas(alloc, word)?;
    let mut names = Vec::with_capacity(alloc, pieces.len())?;
    for piece in &pieces {
        names.push(NodeName::new(alloc, piece.as_bytes())?)?;
    }
    Ok(names)
}

/// The pool of the nodes that a word names.
fn pool_said(alloc: Global, word: &str) -> Result<Pool, PoolError>
    ensures { SaysPool word.now result }
{
    Pool::new(names_said(alloc, word)?)
}

/// The routing from the old pool to the new one.
fn routing_said(alloc: Global, words: &MigrationWords) -> Result<Routing, PoolError>
    ensures routing { IfOk result (λ routing. SaysRouting words.now (Ok routing)) }
    ensures refused { IfErr result (RefusesRouting words.now) }
{
    let old = pool_said(alloc, words.old)?;
    let new = pool_said(alloc, words.new)?;
    Routing::new(old, new, words.hash)
}

/// The configuration of the one migration that the words say. Refusals, in this order: those of the old pool, those of the new
/// pool, SharedName, those of the schedule.
fn config_said(alloc: Global, words: &MigrationWords) -> Result<Config, Fault>
    ensures { SaysConfig words.now result }
{
    let routing = routing_said(alloc, words)?;
    let schedule = Schedule::new(words.start, words.interval)?;
    Ok(Config::new(routing, schedule))
}

/// The configuration that a plan is made by. Only that of a file is loaded.
pub fn config_planned<S: Sources>(
    alloc: Global,
    planned: &Planned,
    sources: &mut S,
) -> Result<Config, Fault>
    ensures { PlansConfig planned.now (S.told sources.old) result (S.told sources.new) }
{
    match planned {
        Planned::InFile(path) => load_config(alloc, path, sources),
        Planned::InWords(words) => config_said(alloc, words),
    }
}
