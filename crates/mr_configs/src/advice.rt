//! What clocks' readings say of a chain of migrations.
ghost use Rattle.std.specs.Prelude.{◌≡◌, map, IfOk, IfErr};
ghost use Rattle.mr_configs.specs.Timeline.{standing_at, advice_of};
ghost use Rattle.mr_configs.specs.declared.error.PlanError.TheVariants.{OutOfMemory};

use crate::config::Config;
use crate::error::PlanError;
use mr_clock::Readings;
use mr_phases::{PhaseName, Schedule, judge};
use std::alloc::{AllocError, Global};
use std::marker::Model;

/// Where a reading stands.
#[derive(Clone, Copy, Debug, PartialEq, Eq)]
pub struct Standing {
    /// The number of the hop in force.
    pub hop: u32,
    /// Its phase.
    pub phase: PhaseName,
}

/// What the readings of a fleet's clocks say: where each stands, and whether they are near enough.
#[derive(Debug, Drop)]
pub struct Advice {
    standings: Vec<Standing>,
    spread: u64,
    interval: u64,
    near: bool,
}

impl Model for Advice {
    ghost use Rattle.mr_configs.specs.Timeline.{AdviceView};

    ghost Value = { AdviceView };

    ghost view = { λ a. record { standings = a.standings.items; spread = a.spread; interval = a.interval; near = a.near } };
}

impl Advice {
    /// Where each reading stands, in order.
    pub fn standings(&self) -> &[Standing]
        ensures { result.now ≡ self.now.standings }
    {
        self.standings.as_slice()
    }

    /// The greatest difference between two of the readings, in seconds.
    pub fn spread(&self) -> u64
        ensures { result ≡ self.now.spread }
    {
        self.spread
    }

    /// The greatest difference that is allowed, in seconds: the least interval of all hops.
    pub fn interval(&self) -> u64
        ensures { result ≡ self.now.interval }
    {
        self.interval
    }

    /// Whether the readings differ by no more than that.
    pub fn near(&self) -> bool
        ensures { result ≡ self.now.near }
    {
        self.near
    }

    /// Equal advice.
    pub fn copy(&self) -> Result<Advice, AllocError>
        ensures { IfOk result (λ advice. advice ≡ self.now) }
    {
        Ok(Advice {
            standings: self.standings.clone()?,
            spread: self.spread,
            interval: self.interval,
            near: self.near,
        })
    }
}

/// Where a reading stands in a schedule.
fn standing_at(schedule: Schedule, reading: u64) -> Standing
    ensures { result ≡ standing_at schedule reading }
{
    let judged = judge(schedule, reading);
    Standing {
        hop: judged.hop(),
        phase: judged.name(),
    }
}

/// Where each reading stands.
fn standings_at(
    alloc: Global,
    schedule: Schedule,
    readings: &[u64],
) -> Result<Vec<Standing>, AllocError>
    ensures { IfOk result (λ standings. standings.items ≡ map (standing_at schedule) readings.now) }
{
    let mut standings = Vec::with_capacity(alloc, readings.len())?;
    for reading in readings {
        standings.push(standing_at(schedule, *reading))?;
    }
    Ok(standings)
}

/// What the readings of a fleet's clocks say, in seconds since the epoch.
pub fn advise(alloc: Global, config: &Config, readings: &[u64]) -> Result<Advice, PlanError>
    ensures advice { IfOk result (λ advice. advice ≡ advice_of config.now.schedule readings.now) }
    ensures refused { IfErr result (λ e. e ≡ OutOfMemory) }
{
    let schedule = config.schedule();
    let standings = standings_at(alloc, schedule, readings)?;
    let spread = Readings::new(Vec::from_slice(alloc, readings)?).spread();
    let interval = schedule.least_interval();
    Ok(Advice {
        standings,
        spread,
        interval,
        near: spread <= interval,
    })
}
