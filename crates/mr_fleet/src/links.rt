//! Links to the threads that own the connections.
ghost use Rattle.std.specs.Prelude.{◌≡◌, IfOk, IfErr, OnOk, MatchOption, map};
ghost use Rattle.mr_fleet.specs.Links.{HasLink};

use crate::link_job::LinkJob;
use crossbeam_channel::{Receiver, Sender};
use mr_desks::{Carried, Carrier};
use mr_proxy::{Leg, LegSheet};
use std::alloc::{AllocError, Global};
use std::marker::Model;
use std::sync::Wait;

/// Links to the threads that own the connections: a list for each pool, the old one first, with one place for each node. A
/// place is empty where there is no such thread.
pub(crate) struct Links<C: Carrier> {
    pools: Vec<Vec<Option<Sender<LinkJob<C>>>>>,
}

impl<C: Carrier> Drop for Links<C> {
    fn drop(self) {
        let Self { pools: _ } = self;
    }
}

impl<C: Carrier> Model for Links<C> {
    ghost use Rattle.mr_fleet.specs.Links.{LinkedNodes};
    ghost use Rattle.std.specs.Prelude.{map};

    ghost Value = { LinkedNodes };

    ghost view = { λ links. map (λ nodes. nodes.items) links.pools.items };
}

/// The same link once more.
fn copy_link<C: Carrier>(
    link: &Option<Sender<LinkJob<C>>>,
) -> Result<Option<Sender<LinkJob<C>>>, AllocError>
    ensures { IfOk result (λ copy. copy ≡ link.now) }
{
    match link {
        Some(to) => Ok(Some(to.clone()?)),
        None => Ok(None),
    }
}

/// The same links once more.
fn copy_nodes<C: Carrier>(
    alloc: Global,
    nodes: &[Option<Sender<LinkJob<C>>>],
) -> Result<Vec<Option<Sender<LinkJob<C>>>>, AllocError>
    ensures { IfOk result (λ copies. copies.items ≡ nodes.now) }
{
    let mut copies = Vec::new(alloc);
    for link in nodes {
        copies.push(copy_link(link)?)?;
    }
    Ok(copies)
}

/// The same links of all pools once more.
fn copy_pools<C: Carrier>(
    alloc: Global,
    pools: &[Vec<Option<Sender<LinkJob<C>>>>],
) -> Result<Vec<Vec<Option<Sender<LinkJob<C>>>>>, AllocError>
    ensures { IfOk result (λ copies. map (λ nodes. nodes.items) copies.items ≡ map (λ nodes. nodes.items) pools.now) }
{
    let mut copies = Vec::new(alloc);
    for nodes in pools {
        copies.push(copy_nodes(alloc, nodes)?)?;
    }
    Ok(copies)
}

impl<C: Carrier> Links<C> {
    /// These links.
    pub(crate) fn new(pools: Vec<Vec<Option<Sender<LinkJob<C>>>>>) -> Links<C>
        ensures { result ≡ map (λ nodes. nodes.items) pools.items }
    {
        Links { pools }
    }

    /// Links to the same threads, for one more session.
    pub(crate) fn copy(&self, alloc: Global) -> Result<Links<C>, AllocError>
        ensures { IfOk result (λ links. links ≡ self.now) }
    {
        Ok(Links {
            pools: copy_pools(alloc, &self.pools)?,
        })
    }

    /// The link to the node that a sheet names.
    fn link_of(&self, sheet: &LegSheet) -> Option<&Sender<LinkJob<C>>>
        ensures { MatchOption result (¬ HasLink self.now sheet.now) (λ _. HasLink self.now sheet.now) }
    {
        let nodes = self.pools.get(sheet.pool_number())?;
        nodes.get(sheet.node as usize)?.as_ref()
    }

    /// Sends a leg to the thread of its node, and gives the end at which its reply will come. The leg is handed back where
    /// that node has no link, where the thread at its end is gone, and where memory is refused.
    pub(crate) fn send<R: Wait>(
        &self,
        rt: &R,
        alloc: Global,
        leg: Leg,
    ) -> Result<Receiver<Carried<C>>, Leg>
        ensures sent { OnOk result (HasLink self.now leg) }
        ensures back { IfErr result (λ back. back ≡ leg) }
    {
        let Some(link) = self.link_of(leg.sheet()) else {
            return Err(leg);
        };
        let Ok((back, came)) = crossbeam_channel::bounded(alloc, 1) else {
            return Err(leg);
        };
        match link.send(rt, LinkJob::new(leg, back)) {
            Ok(()) => Ok(came),
            Err(refused) => Err(refused.into_inner().into_leg()),
        }
    }
}
