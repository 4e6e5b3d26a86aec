//! Which of the links that a request would go over has no place for its leg.
ghost use Rattle.std.specs.Prelude.{◌≡◌, ◌+◌, ◌<◌, ◌≤◌, ◌≢◌, length, map, Some};
ghost use Rattle.mr_phases.specs.Pools.{pool_number};
ghost use Rattle.mr_proxy.specs.Issue.{sheets_of, used_reading};
ghost use Rattle.mr_proxy.specs.Sheets.{HasHop};
ghost use Rattle.mr_loop.specs.Links.{first_full, has_place, has_place_in, link_of_key};
ghost use Rattle.mr_loop.specs.steps.Clearing.{full_of_keys, full_of_sides, have_places};

use crate::link::Link;
use crate::numbering::link_of_key;
use mr_phases::{RequestKind, Side, judge};
use mr_pools::Routing;
use mr_proxy::ProxyCore;
use mr_text::{Key, Request};

/// As many links are looked at all at once, which costs less than to find out to which of them the keys belong.
const FEW_LINKS: usize = 16;

/// Whether fewer legs than the bound await a reply over a link.
#[inline(always)]
fn has_place_in(link: &Link, most: usize) -> bool
    ensures { result ≡ has_place_in most (Some link.now) }
{
    link.legs.len() < most
}

/// Whether fewer legs than the bound await a reply over each link.
#[inline(always)]
fn have_places(links: &[Link], most: usize) -> bool
    ensures { result ≡ have_places most links.now }
{
    links.iter().all(|link| has_place_in(link, most))
}

/// Whether fewer legs than the bound await a reply over the link of a number.
#[inline(always)]
fn has_place(links: &[Link], most: usize, number: usize) -> bool
    ensures { result ≡ has_place most links.now number }
{
    if number < links.len() {
        has_place_in(&links[number], most)
    } else {
        true
    }
}

/// The first of the links to the nodes of these keys in a pool that has as many legs as the bound, by its number.
fn full_of_keys(
    links: &[Link],
    most: usize,
    routing: &Routing,
    pool: usize,
    keys: &[Key],
) -> Option<usize>
    requires { pool + 1 ≤ length routing.now.pools }
    ensures { result ≡ full_of_keys most routing.now pool keys.now links.now }
{
    for key in keys {
        let number = link_of_key(routing, pool, key);
        if !has_place(links, most, number) {
            return Some(number);
        }
    }
    None
}

/// The same of the links to the nodes of a key on each side.
fn full_of_sides(
    links: &[Link],
    most: usize,
    routing: &Routing,
    hop: u32,
    sides: &[Side],
    key: &Key,
) -> Option<usize>
    requires { HasHop routing.now hop }
    ensures { result ≡ full_of_sides most routing.now hop sides.now key.now links.now }
{
    for side in sides {
        let number = link_of_key(routing, side.pool_number(hop), key);
        if !has_place(links, most, number) {
            return Some(number);
        }
    }
    None
}

/// The reading by which the next request would be judged: the larger of this one and the last one.
fn used_reading(core: &ProxyCore, reading: u64) -> u64
    ensures { result ≡ used_reading core.now.last reading }
{
    match core.last() {
        None => reading,
        Some(last) => last.max(reading),
    }
}

/// The first of the links that a request would go over, were it issued at this reading, that has as many legs as the bound, by
/// its number. None where each has fewer. The keys are placed only where there are many links or one of them is full.
#[inline(always)]
#[tactic(auto, using(crate::proofs::ClearLemmas::none_full))]
pub(crate) fn first_full(
    links: &[Link],
    most: usize,
    core: &ProxyCore,
    reading: u64,
    request: &Request,
) -> Option<usize>
    ensures { result ≡ first_full most core.now.routing (sheets_of core.now reading request.now) links.now }
{
    if links.len() <= FEW_LINKS && have_places(links, most) {
        return None;
    }
    full_of_request(links, most, core, reading, request)
}

/// The same, where the keys have to be placed.
fn full_of_request(
    links: &[Link],
    most: usize,
    core: &ProxyCore,
    reading: u64,
    request: &Request,
) -> Option<usize>
    ensures { result ≡ first_full most core.now.routing (sheets_of core.now reading request.now) links.now }
{
    let _sound = core.outstanding();
    let used = used_reading(core, reading);
    let judged = judge(core.schedule(), used);
    let hop = judged.hop();
    let routing = core.routing();
    match request {
        Request::Get { keys } => {
            let pool = judged.read_side().pool_number(hop);
            full_of_keys(links, most, routing, pool, keys.as_slice())
        }
        Request::Set { key, .. } => {
            let number = link_of_key(routing, judged.read_side().pool_number(hop), key);
            if has_place(links, most, number) {
                None
            } else {
                Some(number)
            }
        }
        Request::Delete { key, .. } => {
            let sides = judged.sides(RequestKind::Delete);
            full_of_sides(links, most, routing, hop, sides.as_slice(), key)
        }
        Request::Quit => None,
    }
}
