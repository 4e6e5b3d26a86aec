//! Where and when the requests of a canary were issued, as it is told.
ghost use Rattle.std.specs.Prelude.{◌≡◌, map};
ghost use Rattle.mr_flights.specs.Scene.{IsDeed, proxy_of, scene_of};

use mr_counting::sum_of;
use mr_phases::{Schedule, judge};
use mr_sightings::Deed;

/// How many microseconds a second has.
pub(crate) const SECOND: u64 = 1_000_000;

/// Where a canary flies, and since when.
#[derive(Clone, Copy, Debug)]
pub struct Scene<'a> {
    /// The addresses of its proxies. Its clients are at them in turn, by their numbers.
    pub proxies: &'a [&'a str],
    /// The schedule of its configuration.
    pub schedule: Schedule,
    /// How many microseconds it was since the epoch when its own clock read 0.
    pub begun: u64,
}

/// The address of the proxy that a client is at: clients are at them in turn. An empty one where there is no proxy.
pub(crate) fn proxy_of<'a>(proxies: &[&'a str], client: u64) -> &'a str
    ensures { result.now ≡ proxy_of (map (λ proxy. proxy.now) proxies.now) client }
{
    if proxies.is_empty() {
        return "";
    }
    proxies[(client % proxies.len() as u64) as usize]
}

impl<'a> Scene<'a> {
    /// What is told of a request that a client issued, at a time of the canary's clock, in microseconds.
    pub(crate) fn deed<'k>(&self, client: u64, time: u64) -> Deed<'k>
    where
        'a: 'k,
        ensures { IsDeed (scene_of self.now) client time result }
    {
        let moment = sum_of(self.begun, time);
        let second = moment / SECOND;
        let judged = judge(self.schedule, second);
        Deed {
            proxy: proxy_of(self.proxies, client),
            second,
            micros: (moment % SECOND) as u32,
            hop: judged.hop(),
            phase: judged.name(),
        }
    }
}
