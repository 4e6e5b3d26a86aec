//! Fleets that JSON values set up.
ghost use Rattle.std.specs.Prelude.{◌≡◌, Ok, Err, IfOk, IfErr, OnOk, IsOk, map};
ghost use Rattle.serde_json.specs.View.{view};
ghost use Rattle.mr_configs.specs.Config.{ConfigView, config_of};
ghost use Rattle.mr_scripts.specs.Lists.{all_of};
ghost use Rattle.mr_scripts.specs.Setups.{held_of, proxy_of, setup_of};
ghost use Rattle.mr_scripts.specs.SetupDraft.{setup_between, setup_drafted, IsSetupReady};

use crate::held::{check_held, make_held};
use crate::homes::{are_housed, have_room};
use crate::proxies::{check_proxies, make_proxies};
use mr_configs::fields::{check_object, field, list, whole_number};
use mr_configs::{Draft, PlanError, draft_of};
use mr_shown::Format;
use mr_world::{Setup, WorldError};
use serde_json::Value;
use std::alloc::{AllocError, Global};

/// The keys of a setup.
const SETUP_KEYS: [&str; 4] = ["capacity", "config", "held", "proxies"];

/// A setup that was looked at whole, and is yet to be made.
#[derive(Clone, Copy)]
pub struct SetupDraft<'a> {
    /// The most items of each node.
    pub capacity: usize,
    /// The configuration of proxies that have none of their own.
    pub common: Draft<'a>,
    /// What nodes hold at the beginning.
    pub held: &'a [Value],
    /// The proxies.
    pub proxies: &'a [Value],
}

/// Looks whether the nodes can hold something, and whether there is a node for each item.
#[tactic(auto, using(crate::proofs::HomeLemmas::setup_refused, crate::proofs::HomeLemmas::setup_ready))]
fn check_homes(
    alloc: Global,
    format: Format,
    config: &Value,
    capacity: usize,
    held: &[Value],
    proxies: &[Value],
) -> Result<(), PlanError>
    requires held { IsOk (all_of (held_of format) (map view held.now)) }
    requires proxies { (common : ConfigView) → IsOk (all_of (proxy_of common) (map view proxies.now)) }
    ensures accepted { OnOk result ((common : ConfigView) → config_of (view config.now) ≡ Ok common
        → IsOk (setup_between format common capacity (map view held.now) (map view proxies.now))) }
    ensures refused { IfErr result (λ e. (common : ConfigView) → config_of (view config.now) ≡ Ok common
        → setup_between format common capacity (map view held.now) (map view proxies.now) ≡ Err e) }
{
    if !have_room(capacity, proxies) || !are_housed(alloc, config, proxies, held) {
        return Err(PlanError::BadSetup(WorldError::NoSuchNode));
    }
    Ok(())
}

/// Looks at a setup whole, and tells the first refusal. Want of memory is none of them: it takes longer then.
pub fn setup_draft(
    alloc: Global,
    format: Format,
    value: &Value,
) -> Result<SetupDraft<'_>, PlanError>
    ensures setup { IfOk result (λ draft. setup_of format (view value.now) ≡ setup_drafted format draft) }
    ensures ready { IfOk result (λ draft. IsSetupReady format draft) }
    ensures refused { IfErr result (λ e. setup_of format (view value.now) ≡ Err e) }
{
    check_object(value, &SETUP_KEYS)?;
    let capacity = field(value, "capacity")?;
    let config = field(value, "config")?;
    let held = field(value, "held")?;
    let proxies = field(value, "proxies")?;
    let capacity = whole_number(capacity)? as usize;
    let common = match draft_of(config) {
        Ok(common) => common,
        Err(refusal) => return Err(refusal),
    };
    let held = list(held)?;
    check_held(format, held)?;
    let proxies = list(proxies)?;
    check_proxies(proxies)?;
    match check_homes(alloc, format, config, capacity, held, proxies) {
        Ok(()) => Ok(SetupDraft {
            capacity,
            common,
            held,
            proxies,
        }),
        Err(refusal) => Err(refusal),
    }
}

impl SetupDraft<'_> {
    /// The setup, made of values that were looked at in this format.
    pub fn make(&self, alloc: Global, format: Format) -> Result<Setup, AllocError>
        requires { IsSetupReady format self.now }
        ensures { IfOk result (λ setup. setup_drafted format self.now ≡ Ok setup) }
    {
        let held = make_held(alloc, format, self.held)?;
        let proxies = make_proxies(alloc, &self.common, self.proxies)?;
        Ok(Setup::new(proxies, self.capacity, held))
    }
}
