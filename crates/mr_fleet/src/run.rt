//! Running a fleet.
ghost use Rattle.std.specs.Prelude.{◌≡◌, ◌≤◌, [], map, length, IfOk, IfErr, vec_len, vec_capacity};
ghost use denote.Param.Send.{IsSend, IsSync};
ghost use Rattle.mr_desks.specs.declared.error.WorkerError.TheVariants.{OutOfMemory};

use crate::ending::Ending;
use crate::fleet_end::FleetEnd;
use crate::fleet_proxy::FleetProxy;
use crate::room::{FleetRoom, Prepared, ProxyRoom};
use crate::threads::{Underway, join_all, start_all};
use mr_clock::Clock;
use mr_desks::{Carrier, Gate, RecordedProxy, WorkerError};
use mr_text::{Sink, Source};
use std::alloc::Global;
use std::sync::Wait;
use std::thread;
use std::thread::Threads;

/// Takes the proxies out of a fleet, and leaves what their threads are started with.
fn take_apart<C: Carrier + Drop, K: Clock + Drop, S: Source + Drop, W: Sink + Drop>(
    proxies: Vec<FleetProxy<C, K, S, W>>,
    rooms: Vec<ProxyRoom<C, K, S, W>>,
    mut desks: Vec<RecordedProxy<C>>,
    mut prepared: Vec<Prepared<C, K, S, W>>,
) -> (Vec<RecordedProxy<C>>, Vec<Prepared<C, K, S, W>>)
    requires count { vec_len rooms ≡ vec_len proxies }
    requires limits { map (λ room. room.ending.limit) rooms.items ≡ map (λ proxy. vec_len proxy.clients) proxies.items }
    requires no_desks { desks.items ≡ [] }
    requires none_prepared { prepared.items ≡ [] }
    requires room_for_desks { vec_len proxies ≤ vec_capacity desks }
    requires room_to_prepare { vec_len proxies ≤ vec_capacity prepared }
    ensures count { vec_len result.0 ≡ vec_len result.1 }
    ensures within { vec_len result.1 ≤ vec_len proxies }
    ensures desks { result.0.items ≡ map (λ proxy. proxy.desk) proxies.items }
    ensures clients { map (λ one. vec_len one.clients) result.1.items ≡ map
        (λ proxy. vec_len proxy.clients) proxies.items }
{
    let mut rooms = rooms.into_iter();
    for proxy in proxies {
        let Some(room) = rooms.next() else { break };
        let FleetProxy {
            desk,
            clients,
            carriers,
        } = proxy;
        desks.push_reserved(desk);
        prepared.push_reserved(Prepared {
            clients,
            carriers,
            room,
        });
    }
    (desks, prepared)
}

/// Closes the books of all proxies.
fn close_all<C: Carrier + Drop, K: Clock + Drop, S: Source + Drop, W: Sink + Drop>(
    alloc: Global,
    desks: Vec<RecordedProxy<C>>,
    endings: Vec<Ending<C, K, S, W>>,
    mut ends: Vec<FleetEnd<C, K, S, W>>,
) -> Vec<FleetEnd<C, K, S, W>>
    requires desks { vec_len desks ≡ vec_len endings }
    requires unused { ends.items ≡ [] }
    requires room { vec_len desks ≤ vec_capacity ends }
    ensures openings { map (λ end. end.opening.value) result.items ≡ desks.items }
    ensures clients { map (λ end. vec_len end.ends) result.items ≡ map (λ ending. vec_len ending.ends) endings.items }
{
    let mut endings = endings.into_iter();
    for desk in desks {
        let Some(ending) = endings.next() else { break };
        ends.push_reserved(FleetEnd::of(alloc, desk, ending));
    }
    ends
}

/// Starts the threads of all proxies, and waits for all of them.
fn serve_fleet<
    C: Carrier + Send + Drop,
    K: Clock + Send + Drop,
    S: Source + Send + Drop,
    W: Sink + Send + Drop,
    G: Gate + Sync,
    R: Threads + Wait + Sync,
>(
    rt: &R,
    alloc: Global,
    desks: &[RecordedProxy<C>],
    prepared: Vec<Prepared<C, K, S, W>>,
    underway: Vec<Underway<C, K, S, W>>,
    endings: Vec<Ending<C, K, S, W>>,
    gate: &G,
) -> Vec<Ending<C, K, S, W>>
    requires desks { length desks.now ≡ vec_len prepared }
    requires none_underway { underway.items ≡ [] }
    requires no_endings { endings.items ≡ [] }
    requires room_for_threads { vec_len prepared ≤ vec_capacity underway }
    requires room_for_endings { vec_len prepared ≤ vec_capacity endings }
    ensures count { vec_len result ≡ vec_len prepared }
    ensures clients { map (λ ending. vec_len ending.ends) result.items ≡ map
        (λ one. vec_len one.clients) prepared.items }
{
    thread::scope(
        thread::scope_env(),
        rt,
        move |scope| -> Vec<Ending<C, K, S, W>>
            requires { IsSend C.row × IsSend K.row × IsSend S.row × IsSend W.row × IsSync G.row × IsSync R.row
                × (length desks.now ≡ vec_len prepared) × (underway.items ≡ []) × (endings.items ≡ [])
                × (vec_len prepared ≤ vec_capacity underway) × (vec_len prepared ≤ vec_capacity endings) }
            ensures { (vec_len result ≡ vec_len prepared)
                × (map (λ ending. vec_len ending.ends) result.items ≡ map (λ one. vec_len one.clients) prepared.items) }
        {
            let underway = start_all(rt, alloc, scope, desks, prepared, underway, gate);
            join_all(rt, underway, endings)
        },
    )
}

/// Runs a fleet for which there is room.
fn run_in<
    C: Carrier + Send + Drop,
    K: Clock + Send + Drop,
    S: Source + Send + Drop,
    W: Sink + Send + Drop,
    G: Gate + Sync,
    R: Threads + Wait + Sync,
>(
    rt: &R,
    alloc: Global,
    room: FleetRoom<C, K, S, W>,
    proxies: Vec<FleetProxy<C, K, S, W>>,
    gate: &G,
) -> Vec<FleetEnd<C, K, S, W>>
    requires count { vec_len room.rooms ≡ vec_len proxies }
    requires limits { map (λ one. one.ending.limit) room.rooms.items ≡ map
        (λ proxy. vec_len proxy.clients) proxies.items }
    ensures openings { map (λ end. end.opening.value) result.items ≡ map (λ proxy. proxy.desk) proxies.items }
    ensures clients { map (λ end. vec_len end.ends) result.items ≡ map (λ proxy. vec_len proxy.clients) proxies.items }
{
    let FleetRoom {
        rooms,
        desks,
        prepared,
        underway,
        endings,
        ends,
    } = room;
    let (desks, prepared) = take_apart(proxies, rooms, desks, prepared);
    let endings = serve_fleet(rt, alloc, &desks, prepared, underway, endings, gate);
    close_all(alloc, desks, endings, ends)
}

/// Runs a fleet until its last client is at its end: a thread serves each client, and one owns each carrier of each proxy.
/// It waits for all of them. Then the book of each proxy is closed by what its clients issued and took. The proxies are
/// answered in order, and the clients of each in order.
///
/// The room for all that is answered is made before any thread is; OutOfMemory where it is refused, and the proxies come back
/// beside it as they were. A carrier whose thread couldn't be made loses its legs. A client whose thread couldn't be made, for
/// want of memory too, ends with NoThread, and no other is the worse for it.
pub fn run_fleet<
    C: Carrier + Send + Drop,
    K: Clock + Send + Drop,
    S: Source + Send + Drop,
    W: Sink + Send + Drop,
    G: Gate + Sync,
    R: Threads + Wait + Sync,
>(
    rt: &R,
    alloc: Global,
    proxies: Vec<FleetProxy<C, K, S, W>>,
    gate: &G,
) -> Result<Vec<FleetEnd<C, K, S, W>>, (WorkerError, Vec<FleetProxy<C, K, S, W>>)>
    ensures openings { IfOk result
        (λ ends. map (λ end. end.opening.value) ends.items ≡ map (λ proxy. proxy.desk) proxies.items) }
    ensures clients { IfOk result
        (λ ends. map (λ end. vec_len end.ends) ends.items ≡ map (λ proxy. vec_len proxy.clients) proxies.items) }
    ensures refused { IfErr result (λ refused. refused ≡ (OutOfMemory, proxies)) }
{
    match FleetRoom::new(alloc, &proxies) {
        Ok(room) => Ok(run_in(rt, alloc, room, proxies, gate)),
        Err(_) => Err((WorkerError::OutOfMemory, proxies)),
    }
}
