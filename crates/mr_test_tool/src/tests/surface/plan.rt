//! Configurations and what follows from one, scripts, and the transcripts of their plays.
use super::get;
use mr_plan::{
    Advice, ChainTimes, Checked, Config, Format, KeptVerdict, MAX_DATA_ONE, NewOnlyTime, Outcome,
    PhaseTimes, PlanError, RequestPlan, Script, Standing, advise, check_transcript, plan,
    read_events, timeline, upgrade_script, write_transcript,
};
use std::alloc::Global;
use std::test::Fail;

/// A configuration of two old nodes and three new ones.
const FLEET: &str =
    "{\"hash\":\"sum\",\"pools\":{\"new\":{\"servers\":[\"7101\",\"7102\",\"7103\"]},\"old\":{\"servers\":[\"7001\",\"7002\"]}},\"route\":{\"from\":\"PoolRoute|old\",\"interval\":100,\"start_time\":1000,\"to\":\"PoolRoute|new\",\"type\":\"MigrateRoute\"}}";

/// A script in which nothing happens, of a fleet without proxies.
const SCRIPT: &str =
    "{\"events\":[],\"format\":1,\"setup\":{\"capacity\":4,\"config\":{\"hash\":\"sum\",\"pools\":{\"new\":{\"servers\":[\"7101\"]},\"old\":{\"servers\":[\"7001\"]}},\"route\":{\"from\":\"PoolRoute|old\",\"start_time\":1000,\"to\":\"PoolRoute|new\",\"type\":\"MigrateRoute\"}},\"held\":[],\"proxies\":[]}}";

/// The configuration.
pub(super) fn config(alloc: Global) -> Result<Config, PlanError> {
    Config::read(alloc, FLEET.as_bytes())
}

/// How many legs a get has at the start.
fn count_legs(alloc: Global, config: &Config) -> Result<usize, Fail> {
    let plan: RequestPlan = plan(alloc, config, 1000, get(alloc)?)?;
    Ok(plan.sheets().len())
}

/// Whether two readings are near enough to each other.
fn are_near(alloc: Global, config: &Config, readings: &[u64]) -> Result<bool, PlanError> {
    let advice: Advice = advise(alloc, config, readings)?;
    let standings: &[Standing] = advice.standings();
    Ok(advice.near() && standings.len() == readings.len())
}

/// The first second of the last phase.
fn end(times: &ChainTimes) -> Result<NewOnlyTime, Fail> {
    if times.hops() != 1 {
        return Err(Fail::from("another number of migrations"));
    }
    let first: PhaseTimes = times.of(0);
    Ok(first.new_only)
}

#[test]
fn a_configuration_is_planned_with(rt: HostRuntime) -> Result<(), Fail> {
    let config = config(rt.alloc())?;
    assert_eq!(rt; count_legs(rt.alloc(), &config)?, 1);
    assert!(rt; !are_near(rt.alloc(), &config, &[999, 1100])?);
    let times: ChainTimes = timeline(&config).copy();
    assert_eq!(rt; end(&times)?, NewOnlyTime::Since(1200));
    Ok(())
}

/// What a check of a script's own transcript finds.
fn check(alloc: Global, script: Script) -> Result<Checked, PlanError> {
    let transcript = write_transcript(alloc, script)?;
    check_transcript(alloc, &transcript)
}

#[test]
fn a_script_is_played_and_checked(rt: HostRuntime) -> Result<(), Fail> {
    let script = read_events(rt.alloc(), SCRIPT.as_bytes())?;
    let checked = check(rt.alloc(), script)?;
    assert!(rt; matches!(checked.verdict, KeptVerdict::Safe));
    assert_eq!(rt; checked.outcome, Outcome::Accepted);
    Ok(())
}

/// The script of format 2 that says the same.
fn upgraded(alloc: Global, script: &str) -> Result<Script, PlanError> {
    let text = upgrade_script(alloc, script.as_bytes())?;
    read_events(alloc, text.as_slice())
}

#[test]
fn a_script_is_upgraded(rt: HostRuntime) -> Result<(), Fail> {
    let script = upgraded(rt.alloc(), SCRIPT)?;
    assert_eq!(rt; script.format().number(), 2);
    assert_eq!(rt; Format::One.most_data(), MAX_DATA_ONE);
    assert_eq!(rt; MAX_DATA_ONE, 8192);
    Ok(())
}
