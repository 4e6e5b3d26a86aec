//! The threads that own the connections to nodes.
use crate::link_job::LinkJob;
use crate::link_worker::run_worker;
use crate::links::Links;
use crossbeam_channel::Sender;
use mr_desks::{Carrier, Gate};
use std::alloc::Global;
use std::sync::Wait;
use std::thread::Scope;

/// Starts the thread that owns a carrier, and gives the link to it. None where it couldn't be made. It ends once the last
/// copy of its link is gone, and the scope waits for it.
fn start_link<'s, E, C: Carrier + Send + Drop, G: Gate + Sync, R: Wait + Sync>(
    rt: &'s R,
    alloc: Global,
    scope: &Scope<'s, E>,
    carrier: C,
    gate: &'s G,
) -> Option<Sender<LinkJob<C>>>
where
    C: 's,
{
    let (link, jobs) = crossbeam_channel::unbounded(alloc).ok()?;
    match scope.spawn(move || drop(run_worker(rt, carrier, jobs, gate))) {
        Ok(_) => Some(link),
        Err(_) => None,
    }
}

/// Starts the threads of one pool's carriers. Where memory for a link is refused, it and those behind it are missing.
fn start_pool<'s, E, C: Carrier + Send + Drop, G: Gate + Sync, R: Wait + Sync>(
    rt: &'s R,
    alloc: Global,
    scope: &Scope<'s, E>,
    carriers: Vec<C>,
    gate: &'s G,
) -> Vec<Option<Sender<LinkJob<C>>>>
where
    C: 's,
{
    let mut links = Vec::new(alloc);
    for carrier in carriers {
        let link = start_link(rt, alloc, scope, carrier, gate);
        if links.push(link).is_err() {
            break;
        }
    }
    links
}

/// Starts the threads of all carriers of a proxy, and gives the links to them.
pub(crate) fn start_links<'s, E, C: Carrier + Send + Drop, G: Gate + Sync, R: Wait + Sync>(
    rt: &'s R,
    alloc: Global,
    scope: &Scope<'s, E>,
    pools: Vec<Vec<C>>,
    gate: &'s G,
) -> Links<C>
where
    C: 's,
{
    let mut links = Vec::new(alloc);
    for carriers in pools {
        let pool = start_pool(rt, alloc, scope, carriers, gate);
        if links.push(pool).is_err() {
            break;
        }
    }
    Links::new(links)
}
