//! Proxies as they are at the beginning, as JSON values are them.
ghost use Rattle.std.specs.Prelude.{◌≡◌, Ok, Err, IfOk, IfErr, OnOk, IsOk, map, codes};
ghost use Rattle.serde_json.specs.Find.{get};
ghost use Rattle.serde_json.specs.View.{view};
ghost use Rattle.mr_configs.specs.Config.{ConfigView};
ghost use Rattle.mr_configs.specs.Draft.{config_drafted, IsConfigReady};
ghost use Rattle.mr_scripts.specs.Lists.{all_of};
ghost use Rattle.mr_scripts.specs.Setups.{config_or, proxy_of};
ghost use Rattle.mr_scripts.specs.SetupDraft.{config_chosen, proxy_drafted, CanOwnBeMade};

use mr_configs::fields::{check_object, field, whole_number};
use mr_configs::{Config, Draft, PlanError, draft_of};
use mr_world::ProxySetup;
use serde_json::Value;
use std::alloc::{AllocError, Global};

/// A proxy that was looked at whole, and is yet to be made.
#[derive(Clone, Copy)]
pub struct ProxyDraft<'a> {
    /// The proxy's own configuration, if it has one.
    pub own: Option<Draft<'a>>,
    /// The first reading of the proxy's clock, in seconds since the epoch.
    pub reading: u64,
    /// The most requests under way.
    pub room: u64,
}

/// The own configuration of a proxy.
fn own_draft(value: &Value) -> Result<Option<Draft<'_>>, PlanError>
    ensures config { IfOk result (λ own. (common : ConfigView)
        → config_or common (get (codes "config") (view value.now)) ≡ Ok (config_chosen common own)) }
    ensures ready { IfOk result (λ own. CanOwnBeMade own) }
    ensures refused { IfErr result
        (λ e. (common : ConfigView) → config_or common (get (codes "config") (view value.now)) ≡ Err e) }
{
    match value.get("config") {
        None => Ok(None),
        Some(config) => match draft_of(config) {
            Ok(own) => Ok(Some(own)),
            Err(refusal) => Err(refusal),
        },
    }
}

/// Looks at a proxy whole, without taking memory, and tells the first refusal.
fn proxy_draft(value: &Value) -> Result<ProxyDraft<'_>, PlanError>
    ensures proxy { IfOk result
        (λ draft. (common : ConfigView) → proxy_of common (view value.now) ≡ Ok (proxy_drafted common draft)) }
    ensures ready { IfOk result (λ draft. CanOwnBeMade draft.own) }
    ensures refused { IfErr result (λ e. (common : ConfigView) → proxy_of common (view value.now) ≡ Err e) }
{
    check_object(value, &["config", "reading", "room"])?;
    let reading = field(value, "reading")?;
    let room = field(value, "room")?;
    let own = match own_draft(value) {
        Ok(own) => own,
        Err(refusal) => return Err(refusal),
    };
    let reading = whole_number(reading)?;
    let room = whole_number(room)?;
    Ok(ProxyDraft { own, reading, room })
}

impl ProxyDraft<'_> {
    /// The configuration of the proxy, made.
    fn make_config(&self, alloc: Global, common: &Draft<'_>) -> Result<Config, AllocError>
        requires own { CanOwnBeMade self.now.own }
        requires common { IsConfigReady common.now }
        ensures { IfOk result (λ config. config ≡ config_chosen (config_drafted common.now) self.now.own) }
    {
        match &self.own {
            Some(own) => own.make(alloc),
            None => common.make(alloc),
        }
    }

    /// The proxy, made.
    fn make(&self, alloc: Global, common: &Draft<'_>) -> Result<ProxySetup, AllocError>
        requires own { CanOwnBeMade self.now.own }
        requires common { IsConfigReady common.now }
        ensures { IfOk result (λ proxy. proxy ≡ proxy_drafted (config_drafted common.now) self.now) }
    {
        let config = self.make_config(alloc, common)?;
        Ok(ProxySetup {
            routing: config.routing().copy()?,
            schedule: config.schedule(),
            room: self.room,
            reading: self.reading,
        })
    }
}

/// Looks at each proxy whole, without taking memory, and tells the first refusal. The common configuration has no part in
/// it.
pub fn check_proxies(values: &[Value]) -> Result<(), PlanError>
    ensures accepted { OnOk result ((common : ConfigView) → IsOk (all_of (proxy_of common) (map view values.now))) }
    ensures refused { IfErr result
        (λ e. (common : ConfigView) → all_of (proxy_of common) (map view values.now) ≡ Err e) }
{
    for value in values {
        match proxy_draft(value) {
            Ok(_) => {}
            Err(refusal) => return Err(refusal),
        }
    }
    Ok(())
}

/// The proxy that a value is, beside a common configuration.
fn make_proxy(alloc: Global, common: &Draft<'_>, value: &Value) -> Result<ProxySetup, AllocError>
    requires common { IsConfigReady common.now }
    requires ready { IsOk (proxy_of (config_drafted common.now) (view value.now)) }
    ensures { IfOk result (λ proxy. proxy_of (config_drafted common.now) (view value.now) ≡ Ok proxy) }
{
    match proxy_draft(value) {
        Ok(draft) => draft.make(alloc, common),
        Err(_) => unreachable!(),
    }
}

/// The proxies that values are, beside a common configuration.
pub fn make_proxies(
    alloc: Global,
    common: &Draft<'_>,
    values: &[Value],
) -> Result<Vec<ProxySetup>, AllocError>
    requires common { IsConfigReady common.now }
    requires ready { IsOk (all_of (proxy_of (config_drafted common.now)) (map view values.now)) }
    ensures { IfOk result
        (λ proxies. all_of (proxy_of (config_drafted common.now)) (map view values.now) ≡ Ok proxies.items) }
{
    let mut proxies = Vec::with_capacity(alloc, values.len())?;
    for value in values {
        proxies.push(make_proxy(alloc, common, value)?)?;
    }
    Ok(proxies)
}
