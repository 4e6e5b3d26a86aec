//! What a canary is to do, by the words that asked for it.
ghost use Rattle.std.specs.Prelude.{◌≡◌, IfOk, map};
ghost use Rattle.std.specs.List.{range_with_len};
ghost use Rattle.mr_flights.specs.Plans.{IsPlan, MakesCanary, clients_of};
ghost use Rattle.mr_flights.specs.Scene.{proxy_of};

use crate::fault::FlightFault;
use crate::scene::proxy_of;
use mr_configs::Config;
use mr_probes::{Canary, Plan, choose_keys};
use mr_text::Key;
use mr_words::CanaryValues;
use std::alloc::{AllocError, Global};

/// The most clients at each proxy.
const MOST_CLIENTS: u64 = 64;

/// The most keys that are chosen by their number, beside those that nodes without a key are given.
const MOST_KEYS: u64 = 65_536;

/// How many microseconds a request may wait for its reply.
const GIVE_UP: u64 = 5_000_000;

/// How many clients there are at all proxies together.
pub(crate) fn clients_of(values: &CanaryValues<'_>) -> usize
    ensures { result ≡ clients_of values.now }
{
    let each = values.clients.clamp(1, MOST_CLIENTS) as usize;
    values.proxies().len().saturating_mul(each)
}

/// What the canary is to do with these keys.
pub(crate) fn plan_of(values: &CanaryValues<'_>, run: u64, keys: Vec<Key>) -> Plan
    ensures plan { IsPlan values.now run result }
    ensures keys { result.keys ≡ keys }
{
    Plan {
        run,
        keys,
        clients: clients_of(values),
        rate: values.rate,
        give_up: GIVE_UP,
    }
}

/// The address of the proxy of each of so many clients.
pub(crate) fn addresses_of<'a>(
    alloc: Global,
    proxies: &[&'a str],
    clients: usize,
) -> Result<Vec<&'a str>, AllocError>
    ensures { IfOk result (λ addresses. map (λ address. address.now) addresses.items
        ≡ map (proxy_of (map (λ proxy. proxy.now) proxies.now)) (range_with_len 0 clients)) }
{
    let mut addresses = Vec::new(alloc);
    for client in 0..clients {
        addresses.push(proxy_of(proxies, client as u64))?;
    }
    Ok(addresses)
}

/// The canary of a run, by the words that asked for it and the configuration. The first of these faults that there is: BadPrefix where its
/// prefix makes no key, Memory.
pub(crate) fn make_canary(
    alloc: Global,
    values: &CanaryValues<'_>,
    config: &Config,
    run: u64,
) -> Result<Canary, FlightFault>
    ensures { MakesCanary values.now config.now.routing run result }
{
    let count = values.keys.min(MOST_KEYS);
    let chosen = choose_keys(alloc, config.routing(), values.prefix, run, count)?;
    match Canary::new(alloc, plan_of(values, run, chosen.keys)) {
        Ok(canary) => Ok(canary),
        Err(_) => Err(FlightFault::Memory),
    }
}
