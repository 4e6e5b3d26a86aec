//! Configurations, plans, timelines, scripts and transcripts.
use super::{first_hop, is, is_for, moves_between};
use mr_configs::{
    Advice, Config, NewOnlyTime, PhaseTimes, PlanError, RequestPlan, Span, Standing, advise, plan,
    timeline,
};
use mr_history::OpId;
use mr_phases::{PhaseName, ScheduleError, Side};
use mr_pools::{NamedHash, PoolError};
use mr_shown::KeptVerdict;
use mr_text::{Key, KeyList, Request};
use std::alloc::Global;
use std::process::Abort;
use std::test::Fail;

mod configurations;
mod errors;
mod formats;
mod memory;
mod plans;
mod transcripts;

/// The configuration of the worked examples: start 1000, interval 100, the hash by sums.
const FLEET: &str =
    "{\"hash\":\"sum\",\"pools\":{\"new\":{\"servers\":[\"7101\",\"7102\",\"7103\"]},\"old\":{\"servers\":[\"7001\",\"7002\"]}},\"route\":{\"type\":\"MigrateRoute\",\"from\":\"PoolRoute|old\",\"to\":\"PoolRoute|new\",\"start_time\":1000,\"interval\":100}}";

/// A text read as a configuration.
fn read(alloc: Global, text: &str) -> Result<Config, PlanError> {
    Config::read(alloc, text.as_bytes())
}

/// Why a text is no configuration.
fn refusal(alloc: Global, text: &str) -> Option<PlanError> {
    read(alloc, text).err()
}

/// The configuration of a text.
fn config(alloc: Global, text: &str) -> Result<Config, Fail> {
    match read(alloc, text) {
        Ok(config) => Ok(config),
        Err(_) => Err(Fail::from("refused")),
    }
}
