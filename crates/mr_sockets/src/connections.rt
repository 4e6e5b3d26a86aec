//! The service of a listener's connections, one thread each.
ghost use Rattle.std.specs.Prelude.{◌≡◌, ◌<◌, ◌≤◌, [], ◌∷◌, ◌++◌};
ghost use Rattle.mr_sockets.specs.Listener.{AsksFor, AreAccepted};
ghost use Rattle.mr_sockets.specs.Serving.{Serving, run};

use crate::listener::Listener;
use crate::runs::GhostRuns;
use crate::tally::{Clients, Tally, Ticket, Tickets};
use std::marker::Brand;
use std::net::TcpStream;
use std::sync::ledger::{Blank, Share};
use std::sync::{Mutex, Wait};
use std::thread;
use std::thread::{Scope, Threads};
use std::time::{Clock, Duration};

/// For how many milliseconds nothing is accepted after a connection that couldn't be: what there is too little of, descriptors
/// most often, may be there again then.
const PAUSE_MILLIS: u64 = 100;

/// What is done with each connection.
pub(crate) trait Service {
    /// What each connection is served by.
    ghost serves: { Self → Serving };

    /// Notes that it ran for so many clients.
    fn note(&self, clients: u64, runs: &mut GhostRuns)
        ensures { runs.new ≡ runs.old ++ run (serves self.now) clients ∷ [] };

    /// Serves a connection, and says whether it ended without a fault.
    fn serve(&self, stream: &TcpStream) -> bool;
}

/// Serves a connection, closes it, and counts it where it ended without a fault.
fn serve_one<C: Clients, S: Service, R: Wait>(
    rt: &R,
    service: &S,
    stream: TcpStream,
    tally: &Mutex<Tally<C>>,
    ticket: Ticket<C>,
) {
    let ended_well = service.serve(&stream);
    drop(stream);
    if ended_well {
        tally.lock(rt).count(ticket);
    }
}

/// Accepts a connection for each ticket, and serves each in a thread of its own that isn't kept. Gives the listener back, and
/// the tickets of the clients that weren't accepted. One that can't be accepted or gets no thread is passed over; after one
/// that can't be accepted there is a pause.
fn accept_all<
    's,
    'e,
    C: Clients + Send + Sync + 'static,
    L: Listener + Drop,
    S: Service + Sync,
    R: Threads + Wait + Clock + Sync,
>(
    rt: &'s R,
    scope: &'s Scope<'s, &'e ()>,
    mut listener: L,
    service: &'s S,
    tally: &'s Mutex<Tally<C>>,
    tickets: Tickets<C>,
) -> (L, Share<C>)
    ensures { AsksFor C.clients (L.told listener) result.1.amount (L.told result.0) }
{
    let (clients, mut left) = tickets.into_share();
    for client in 0..clients {
        let Ok(stream) = listener.accept() else {
            thread::sleep(rt, Duration::from_millis(PAUSE_MILLIS));
            continue;
        };
        let ticket = Ticket::of(left.split_off(1, 1));
        let _ = scope.spawn(move || serve_one(rt, service, stream, tally, ticket));
    }
    (listener, left)
}

/// Accepts a connection for each ticket, as `accept_all` does, and waits until all that were accepted have ended.
fn serve_all<
    'a,
    C: Clients + Send + Sync + 'static,
    L: Listener + Drop,
    S: Service + Sync,
    R: Threads + Wait + Clock + Sync,
>(
    rt: &'a R,
    listener: L,
    service: &'a S,
    tally: &'a Mutex<Tally<C>>,
    tickets: Tickets<C>,
) -> (L, Share<C>)
    ensures { AsksFor C.clients (L.told listener) result.1.amount (L.told result.0) }
{
    thread::scope(thread::scope_env(), rt, move |scope| {
        accept_all(rt, scope, listener, service, tally, tickets)
    })
}

/// Accepts so many connections, at least one, and serves each in a thread of its own. Gives the listener back, with how many
/// ended without a fault, once all have ended.
fn serve_counted<
    C: Clients + Send + Sync + 'static,
    L: Listener + Drop,
    S: Service + Sync,
    R: Threads + Wait + Clock + Sync,
>(rt: &R, listener: L, service: &S, clients: u64, blank: Blank) -> (L, u64)
    requires name { blank.name ≡ C.name }
    requires parts { blank.parts ≡ C.parts }
    requires clients { C.clients ≡ clients }
    requires tickets { blank.parts ≡ clients }
    requires some { 0 < clients }
    ensures { AreAccepted clients (L.told listener) result.1 (L.told result.0) }
{
    let (mut book, mut share) = blank.open::<C>();
    book.add(&mut share, clients);
    let tickets = Tickets::of(clients, share);
    let tally = Mutex::new(Tally::new(book));
    let (listener, mut left) = serve_all(rt, listener, service, &tally, tickets);
    let well = tally.into_inner().into_count(&mut left);
    (listener, well)
}

/// Accepts so many connections, serves each in a thread of its own, and gives the listener back, with how many connections
/// ended without a fault, once all have ended. Nothing is kept of a connection that has ended.
fn accept_clients<L: Listener + Drop, S: Service + Sync, R: Threads + Wait + Clock + Sync>(
    rt: &R,
    listener: L,
    service: &S,
    clients: u64,
) -> (L, u64)
    ensures { AreAccepted clients (L.told listener) result.1 (L.told result.0) }
{
    if clients == 0 {
        return (listener, 0);
    }
    serve_counted::<Brand, L, S, R>(rt, listener, service, clients, Blank::new(clients))
}

/// Notes a service, and accepts its clients, as `accept_clients` does.
pub(crate) fn serve_connections<
    L: Listener + Drop,
    S: Service + Sync,
    R: Threads + Wait + Clock + Sync,
>(rt: &R, listener: L, service: &S, clients: u64, runs: &mut GhostRuns) -> (L, u64)
    ensures accepted { AreAccepted clients (L.told listener) result.1 (L.told result.0) }
    ensures ran { runs.new ≡ runs.old ++ run (S.serves service.now) clients ∷ [] }
{
    service.note(clients, runs);
    accept_clients(rt, listener, service, clients)
}
