//! The threads of one proxy's clients.
ghost use Rattle.std.specs.Prelude.{◌≡◌, ◌≤◌, [], vec_len, vec_capacity};

use crate::ending::Ending;
use crate::finished_client::FinishedClient;
use crate::fleet_client::FleetClient;
use crate::links::Links;
use mr_clock::Clock;
use mr_desks::{Carrier, RecordedProxy};
use mr_text::{Sink, Source};
use std::alloc::{AllocError, Global};
use std::sync::atomic::{AtomicBool, Ordering};
use std::sync::{Arc, Wait};
use std::thread::{JoinHandle, Scope, Threads};

/// A client that is being served, or that no thread could be made for.
#[derive(Drop)]
pub(crate) enum Started<C: Carrier, K: Clock, S: Source, W: Sink> {
    /// The thread that serves it.
    Thread(JoinHandle<FinishedClient<C, K, S, W>>),
    /// How it ended at once.
    Over(FinishedClient<C, K, S, W>),
}

impl<C: Carrier, K: Clock, S: Source, W: Sink> Started<C, K, S, W> {
    /// Waits for the thread, where there is one, and gives what the client came to.
    fn join<R: Threads>(self, rt: &R) -> FinishedClient<C, K, S, W> {
        match self {
            Started::Thread(thread) => thread.join(rt),
            Started::Over(finished) => finished,
        }
    }
}

/// Serves a client, unless it was refused a thread.
fn attend<C: Carrier, K: Clock + Drop, S: Source, W: Sink, R: Wait>(
    rt: &R,
    alloc: Global,
    desk: &RecordedProxy<C>,
    links: Links<C>,
    client: FleetClient<K, S, W>,
    refused: &AtomicBool,
) -> FinishedClient<C, K, S, W> {
    if refused.load(Ordering::SeqCst) {
        client.without_thread(alloc, desk)
    } else {
        client.serve(rt, alloc, desk, links)
    }
}

/// What a client's thread needs of its own: links, and a mark that tells whether the thread was refused, twice.
fn own_parts<C: Carrier>(
    alloc: Global,
    links: &Links<C>,
) -> Result<(Links<C>, Arc<AtomicBool>, Arc<AtomicBool>), AllocError> {
    let links = links.copy(alloc)?;
    let refused = Arc::new(alloc, AtomicBool::new(false))?;
    let same = Arc::try_clone(&refused)?;
    Ok((links, refused, same))
}

/// Starts a thread that serves a client. Where that fails the client is at its end, and nothing else is.
fn start_client<
    's,
    E,
    C: Carrier + Send + Drop,
    K: Clock + Send + Drop,
    S: Source + Send + Drop,
    W: Sink + Send + Drop,
    R: Wait + Sync,
>(
    rt: &'s R,
    alloc: Global,
    scope: &Scope<'s, E>,
    desk: &'s RecordedProxy<C>,
    links: &Links<C>,
    client: FleetClient<K, S, W>,
) -> Started<C, K, S, W>
where
    C: 's,
    K: 's,
    S: 's,
    W: 's,
{
    let Ok((links, refused, same)) = own_parts(alloc, links) else {
        return Started::Over(client.without_thread(alloc, desk));
    };
    match scope.spawn(move || attend(rt, alloc, desk, links, client, &same)) {
        Ok(thread) => Started::Thread(thread),
        Err(back) => {
            // What was to be done in the thread comes back with the client in it, and is done here: it ends the client.
            refused.store(true, Ordering::SeqCst);
            Started::Over((back.value)())
        }
    }
}

/// Starts a thread for each client, as far as they can be made.
pub(crate) fn start_clients<
    's,
    E,
    C: Carrier + Send + Drop,
    K: Clock + Send + Drop,
    S: Source + Send + Drop,
    W: Sink + Send + Drop,
    R: Wait + Sync,
>(
    rt: &'s R,
    alloc: Global,
    scope: &Scope<'s, E>,
    desk: &'s RecordedProxy<C>,
    links: &Links<C>,
    clients: Vec<FleetClient<K, S, W>>,
    mut started: Vec<Started<C, K, S, W>>,
) -> Vec<Started<C, K, S, W>>
where
    C: 's,
    K: 's,
    S: 's,
    W: 's,
    requires unused { started.items ≡ [] }
    requires room { vec_len clients ≤ vec_capacity started }
    ensures { vec_len result ≡ vec_len clients }
{
    for client in clients {
        started.push_reserved(start_client(rt, alloc, scope, desk, links, client));
    }
    started
}

/// Waits for all clients, in order, and puts in what they came to.
pub(crate) fn join_clients<
    C: Carrier + Drop,
    K: Clock + Drop,
    S: Source + Drop,
    W: Sink + Drop,
    R: Threads,
>(rt: &R, started: Vec<Started<C, K, S, W>>, mut ending: Ending<C, K, S, W>) -> Ending<C, K, S, W>
    requires unended { vec_len ending.ends ≡ 0 }
    requires room { vec_len started ≤ ending.limit }
    ensures { vec_len result.ends ≡ vec_len started }
{
    for one in started {
        ending.push(one.join(rt));
    }
    ending
}
