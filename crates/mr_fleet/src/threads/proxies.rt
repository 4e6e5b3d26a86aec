//! The threads of all proxies of a fleet.
ghost use Rattle.std.specs.Prelude.{◌≡◌, ◌≤◌, [], map, length, vec_len, vec_capacity};

use crate::ending::Ending;
use crate::room::{Prepared, ProxyRoom};
use crate::threads::clients::{Started, join_clients, start_clients};
use crate::threads::links::start_links;
use mr_clock::Clock;
use mr_desks::{Carrier, Gate, RecordedProxy};
use mr_text::{Sink, Source};
use std::alloc::Global;
use std::sync::Wait;
use std::thread::{Scope, Threads};

/// A proxy whose clients are being served.
#[derive(Drop)]
pub(crate) struct Underway<C: Carrier, K: Clock, S: Source, W: Sink> {
    /// Its clients.
    started: Vec<Started<C, K, S, W>>,
    /// The room for what they come to.
    ending: Ending<C, K, S, W>,

    /// There is room for all, and nothing in it.
    pub ghost unended: { vec_len ending.ends ≡ 0 },
    pub ghost room: { vec_len started ≤ ending.limit },
}

/// Starts the threads of one proxy: those of its links, then those of its clients. Each client has links of its own, so that
/// a link is gone once the last client is at its end.
fn start<
    's,
    E,
    C: Carrier + Send + Drop,
    K: Clock + Send + Drop,
    S: Source + Send + Drop,
    W: Sink + Send + Drop,
    G: Gate + Sync,
    R: Wait + Sync,
>(
    rt: &'s R,
    alloc: Global,
    scope: &Scope<'s, E>,
    desk: &'s RecordedProxy<C>,
    one: Prepared<C, K, S, W>,
    gate: &'s G,
) -> Underway<C, K, S, W>
where
    C: 's,
    K: 's,
    S: 's,
    W: 's,
    ensures { vec_len result.started ≡ vec_len one.clients }
{
    let Prepared {
        clients,
        carriers,
        room,
    } = one;
    let ProxyRoom { started, ending } = room;
    let links = start_links(rt, alloc, scope, carriers, gate);
    let started = start_clients(rt, alloc, scope, desk, &links, clients, started);
    Underway { started, ending }
}

/// Starts the threads of all proxies.
pub(crate) fn start_all<
    's,
    E,
    C: Carrier + Send + Drop,
    K: Clock + Send + Drop,
    S: Source + Send + Drop,
    W: Sink + Send + Drop,
    G: Gate + Sync,
    R: Wait + Sync,
>(
    rt: &'s R,
    alloc: Global,
    scope: &Scope<'s, E>,
    desks: &'s [RecordedProxy<C>],
    prepared: Vec<Prepared<C, K, S, W>>,
    mut underway: Vec<Underway<C, K, S, W>>,
    gate: &'s G,
) -> Vec<Underway<C, K, S, W>>
where
    C: 's,
    K: 's,
    S: 's,
    W: 's,
    requires desks { length desks.now ≡ vec_len prepared }
    requires unused { underway.items ≡ [] }
    requires room { vec_len prepared ≤ vec_capacity underway }
    ensures count { vec_len result ≡ vec_len prepared }
    ensures clients { map (λ one. vec_len one.started) result.items ≡ map (λ one. vec_len one.clients) prepared.items }
{
    let mut index = 0;
    for one in prepared {
        underway.push_reserved(start(rt, alloc, scope, &desks[index], one, gate));
        index += 1;
    }
    underway
}

/// Waits for all clients of all proxies.
pub(crate) fn join_all<
    C: Carrier + Drop,
    K: Clock + Drop,
    S: Source + Drop,
    W: Sink + Drop,
    R: Threads,
>(
    rt: &R,
    underway: Vec<Underway<C, K, S, W>>,
    mut endings: Vec<Ending<C, K, S, W>>,
) -> Vec<Ending<C, K, S, W>>
    requires unused { endings.items ≡ [] }
    requires room { vec_len underway ≤ vec_capacity endings }
    ensures count { vec_len result ≡ vec_len underway }
    ensures clients { map (λ ending. vec_len ending.ends) result.items ≡ map
        (λ one. vec_len one.started) underway.items }
{
    for one in underway {
        let Underway { started, ending } = one;
        endings.push_reserved(join_clients(rt, started, ending));
    }
    endings
}
