//! The room for all that a fleet comes to, made before any thread is.
ghost use Rattle.std.specs.Prelude.{◌≡◌, ◌≤◌, [], map, length, IfOk, vec_len, vec_capacity};

use crate::ending::Ending;
use crate::fleet_client::FleetClient;
use crate::fleet_end::FleetEnd;
use crate::fleet_proxy::FleetProxy;
use crate::threads::{Started, Underway};
use mr_clock::Clock;
use mr_desks::{Carrier, RecordedProxy};
use mr_text::{Sink, Source};
use std::alloc::{AllocError, Global};

/// The room for the threads of one proxy's clients, and for what these come to.
#[derive(Drop)]
pub(crate) struct ProxyRoom<C: Carrier, K: Clock, S: Source, W: Sink> {
    /// The room for the threads.
    pub(crate) started: Vec<Started<C, K, S, W>>,
    /// The room for what they come to.
    pub(crate) ending: Ending<C, K, S, W>,

    /// There is room for as many threads, and nothing in it.
    pub ghost unused: { started.items ≡ [] },
    pub ghost unended: { vec_len ending.ends ≡ 0 },
    pub ghost room: { ending.limit ≤ vec_capacity started },
}

impl<C: Carrier + Drop, K: Clock + Drop, S: Source + Drop, W: Sink + Drop> ProxyRoom<C, K, S, W> {
    /// The room for so many clients.
    fn new(alloc: Global, clients: usize) -> Result<ProxyRoom<C, K, S, W>, AllocError>
        ensures { IfOk result (λ room. room.ending.limit ≡ clients) }
    {
        Ok(ProxyRoom {
            started: Vec::with_capacity(alloc, clients)?,
            ending: Ending::with_room(alloc, clients)?,
        })
    }
}

/// What the threads of one proxy are started with.
#[derive(Drop)]
pub(crate) struct Prepared<C: Carrier, K: Clock, S: Source, W: Sink> {
    /// Its clients.
    pub(crate) clients: Vec<FleetClient<K, S, W>>,
    /// Its carriers.
    pub(crate) carriers: Vec<Vec<C>>,
    /// The room for them.
    pub(crate) room: ProxyRoom<C, K, S, W>,

    /// There is room for all clients.
    pub ghost fits: { vec_len clients ≡ room.ending.limit },
}

/// The room for each proxy of these.
fn rooms_for<C: Carrier + Drop, K: Clock + Drop, S: Source + Drop, W: Sink + Drop>(
    alloc: Global,
    proxies: &[FleetProxy<C, K, S, W>],
) -> Result<Vec<ProxyRoom<C, K, S, W>>, AllocError>
    ensures count { IfOk result (λ rooms. vec_len rooms ≡ length proxies.now) }
    ensures limits { IfOk result
        (λ rooms. map (λ room. room.ending.limit) rooms.items ≡ map (λ proxy. vec_len proxy.clients) proxies.now) }
{
    let mut rooms = Vec::new(alloc);
    for proxy in proxies {
        rooms.push(ProxyRoom::new(alloc, proxy.clients.len())?)?;
    }
    Ok(rooms)
}

/// The room for a fleet.
#[derive(Drop)]
pub(crate) struct FleetRoom<C: Carrier, K: Clock, S: Source, W: Sink> {
    /// The room for each proxy.
    pub(crate) rooms: Vec<ProxyRoom<C, K, S, W>>,
    /// The room for the proxies, taken out of the fleet.
    pub(crate) desks: Vec<RecordedProxy<C>>,
    /// The room for what their threads are started with.
    pub(crate) prepared: Vec<Prepared<C, K, S, W>>,
    /// The room for their threads.
    pub(crate) underway: Vec<Underway<C, K, S, W>>,
    /// The room for what their threads come to.
    pub(crate) endings: Vec<Ending<C, K, S, W>>,
    /// The room for how they end.
    pub(crate) ends: Vec<FleetEnd<C, K, S, W>>,

    /// There is room for as many proxies, and nothing in it.
    pub ghost no_desks: { desks.items ≡ [] },
    pub ghost none_prepared: { prepared.items ≡ [] },
    pub ghost none_underway: { underway.items ≡ [] },
    pub ghost no_endings: { endings.items ≡ [] },
    pub ghost no_ends: { ends.items ≡ [] },
    pub ghost room_for_desks: { vec_len rooms ≤ vec_capacity desks },
    pub ghost room_to_prepare: { vec_len rooms ≤ vec_capacity prepared },
    pub ghost room_for_threads: { vec_len rooms ≤ vec_capacity underway },
    pub ghost room_for_endings: { vec_len rooms ≤ vec_capacity endings },
    pub ghost room_for_ends: { vec_len rooms ≤ vec_capacity ends },
}

impl<C: Carrier + Drop, K: Clock + Drop, S: Source + Drop, W: Sink + Drop> FleetRoom<C, K, S, W> {
    /// The room for a fleet of these proxies.
    pub(crate) fn new(
        alloc: Global,
        proxies: &[FleetProxy<C, K, S, W>],
    ) -> Result<FleetRoom<C, K, S, W>, AllocError>
        ensures count { IfOk result (λ room. vec_len room.rooms ≡ length proxies.now) }
        ensures limits { IfOk result (λ room.
            map (λ one. one.ending.limit) room.rooms.items ≡ map (λ proxy. vec_len proxy.clients) proxies.now) }
    {
        let rooms = rooms_for(alloc, proxies)?;
        let count = rooms.len();
        Ok(FleetRoom {
            rooms,
            desks: Vec::with_capacity(alloc, count)?,
            prepared: Vec::with_capacity(alloc, count)?,
            underway: Vec::with_capacity(alloc, count)?,
            endings: Vec::with_capacity(alloc, count)?,
            ends: Vec::with_capacity(alloc, count)?,
        })
    }
}
