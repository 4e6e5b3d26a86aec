//! How the legs of a request go over their links: all of those whose link is up, or none.
ghost use Rattle.std.specs.Prelude.{◌≡◌, ◌&&◌, ◌++◌, [], length, true, IfOk, OnOk, OnErr};
ghost use Rattle.mr_loop.specs.Links.{all_sent, all_up, each_sent, is_get, is_up_at, link_of, sent_by, sent_over, travelling, travels_with, with_traveller};
ghost use Rattle.mr_loop.specs.steps.Sending.{each_up, mark_of, undone, undone_one};

use crate::asker::Asker;
use crate::link::Link;
use crate::numbering::link_of;
use crate::sent_legs::{MoreLegs, SentLeg, SpareLists};
use mr_node::NodeCommand;
use mr_pools::Routing;
use mr_proxy::{Leg, LegSheet};
use mr_text::FixedBuffer;
use std::alloc::{AllocError, Global};

/// By what a leg is taken back: over which link it went or couldn't go, and how that stood before.
#[derive(Clone, Copy, Debug, Drop)]
pub struct Mark {
    /// The number of the link.
    pub number: usize,
    /// How many bytes were to be written.
    pub count: usize,
    /// How many of its legs were lost.
    pub lost: u64,
}

/// What a loop works with, and what holds nothing between its calls.
#[derive(Drop)]
pub(crate) struct Scratch {
    /// What texts are gathered in.
    pub(crate) buffer: Box<FixedBuffer>,
    /// What goes, leg by leg and with what travels with each.
    pub(crate) sents: Vec<SentLeg>,
    /// What went over which link.
    pub(crate) marks: Vec<Mark>,
    /// What those that travelled stood in.
    pub(crate) spares: SpareLists,
}

impl Scratch {
    /// The buffer, and no marks.
    pub(crate) fn new(alloc: Global) -> Result<Scratch, AllocError> {
        Ok(Scratch {
            buffer: Box::new(alloc, FixedBuffer::new())?,
            sents: Vec::new(alloc),
            marks: Vec::new(alloc),
            spares: SpareLists::new(alloc),
        })
    }
}

/// Whether there is a connection to the node of a number.
#[inline(always)]
pub(crate) fn is_up(links: &[Link], number: usize) -> bool
    ensures { result ≡ is_up_at links.now number }
{
    number < links.len() && links[number].is_up
}

/// The mark of a link as it stands.
#[inline(always)]
fn mark_of(link: &Link, number: usize) -> Mark
    ensures { result ≡ mark_of number link.now }
{
    Mark {
        number,
        count: link.out.len(),
        lost: link.counts.lost,
    }
}

/// A leg goes over the link of a number with those that travel with it, where that is up; else they are lost. Whether they went.
/// For want of memory nothing changes.
#[inline(always)]
fn send_leg(
    links: &mut [Link],
    number: usize,
    scratch: &mut Scratch,
    sent: SentLeg,
) -> Result<bool, AllocError>
    ensures went { IfOk result (λ went. went ≡ is_up_at links.old number) }
    ensures sent { OnOk result (links.new ≡ sent_over number sent links.old) }
    ensures marked { OnOk result (undone scratch.new.marks.items links.new ≡ undone scratch.old.marks.items links.old) }
    ensures unchanged { OnErr result ((links.new ≡ links.old) × (scratch.new.marks.items ≡ scratch.old.marks.items)) }
    ensures others { scratch.new.sents ≡ scratch.old.sents }
{
    if number >= links.len() {
        return Ok(false);
    }
    scratch.marks.reserve(1)?;
    let mark = mark_of(&links[number], number);
    let went = links[number].carry(&mut scratch.buffer, sent)?;
    scratch.marks.push_reserved(mark);
    Ok(went)
}

/// The leg that a mark tells of is taken back.
fn take_back(links: &mut [Link], mark: Mark)
    ensures { links.new ≡ undone_one mark links.old }
{
    if mark.number < links.len() {
        links[mark.number].take_back(mark);
    }
}

/// All legs that the marks tell of are taken back, the last one first.
fn take_all_back(links: &mut [Link], scratch: &mut Scratch)
    ensures { links.new ≡ undone scratch.old.marks.items links.old }
{
    while let Some(mark) = scratch.marks.pop() {
        take_back(links, mark);
    }
}

/// Whether both hold.
#[inline(always)]
fn both(one: bool, other: bool) -> bool
    ensures { result ≡ one && other }
{
    one && other
}

/// Whether a command is a get.
#[inline(always)]
fn is_get(command: &NodeCommand) -> bool
    ensures { result ≡ is_get command.now }
{
    matches!(command, NodeCommand::Get(_))
}

/// Whether two legs are gets of one node, which may travel together.
#[inline(always)]
fn travels_with(sheet: &LegSheet, other: &LegSheet) -> bool
    ensures { result ≡ travels_with sheet.now other.now }
{
    is_get(&sheet.command)
        && is_get(&other.command)
        && sheet.pool_number() == other.pool_number()
        && sheet.node == other.node
}

/// A leg by itself, which goes now.
#[inline(always)]
fn sent_by(alloc: Global, asker: Asker, leg: Leg) -> SentLeg
    ensures { result ≡ sent_by asker leg }
{
    SentLeg {
        client: asker.client,
        sent_at: asker.now,
        leg,
        others: MoreLegs::new(alloc),
    }
}

/// A leg is put to those that go: behind the first with which it may travel, or by itself behind all.
#[inline(always)]
fn put_leg(
    alloc: Global,
    sents: &mut Vec<SentLeg>,
    spares: &mut SpareLists,
    asker: Asker,
    leg: Leg,
) -> Result<(), AllocError>
    ensures { OnOk result (sents.new.items ≡ with_traveller asker leg sents.old.items) }
{
    for place in 0..sents.len() {
        if travels_with(leg.sheet(), sents[place].leg.sheet()) {
            sents[place].others.push(spares, leg)?;
            return Ok(());
        }
    }
    sents.push(sent_by(alloc, asker, leg))?;
    Ok(())
}

/// All legs go out of their list, and are put together that travel together.
fn put_together(
    sents: &mut Vec<SentLeg>,
    spares: &mut SpareLists,
    asker: Asker,
    legs: &mut Vec<Leg>,
) -> Result<(), AllocError>
    ensures { OnOk result (sents.new.items ≡ travelling asker [] legs.old.items) }
{
    let alloc = *legs.allocator();
    sents.clear();
    legs.reverse();
    while let Some(leg) = legs.pop() {
        put_leg(alloc, sents, spares, asker, leg)?;
    }
    Ok(())
}

/// Each of those that were put together goes over its link, if that is up. Whether all are. For want of memory none goes.
fn send_each(
    links: &mut [Link],
    scratch: &mut Scratch,
    routing: &Routing,
) -> Result<bool, AllocError>
    ensures up { IfOk result (λ all. all ≡ each_up routing.now scratch.old.sents.items links.old) }
    ensures sent { OnOk result (links.new ≡ each_sent routing.now scratch.old.sents.items links.old) }
    ensures unchanged { OnErr result (links.new ≡ links.old) }
{
    scratch.marks.clear();
    scratch.sents.reverse();
    let mut all = true;
    while let Some(sent) = scratch.sents.pop() {
        let number = link_of(routing, sent.leg.sheet());
        match send_leg(links, number, scratch, sent) {
            Ok(went) => all = both(all, went),
            Err(error) => {
                take_all_back(links, scratch);
                return Err(error);
            }
        }
    }
    Ok(all)
}

/// The only leg of a request goes over its link, if that is up. Whether it is. For want of memory it doesn't go.
#[inline(always)]
fn send_only(
    links: &mut [Link],
    buffer: &mut FixedBuffer,
    routing: &Routing,
    sent: SentLeg,
) -> Result<bool, AllocError>
    ensures up { IfOk result (λ up. up ≡ is_up_at links.old (link_of routing.now sent.leg)) }
    ensures sent { OnOk result (links.new ≡ sent_over (link_of routing.now sent.leg) sent links.old) }
    ensures unchanged { OnErr result (links.new ≡ links.old) }
{
    let number = link_of(routing, sent.leg.sheet());
    if number >= links.len() {
        return Ok(false);
    }
    links[number].carry(buffer, sent)
}

/// Each of several legs goes out of the list and over its link, with those that travel with it, if that is up. Whether all are. For
/// want of memory none goes.
fn send_several(
    links: &mut [Link],
    scratch: &mut Scratch,
    routing: &Routing,
    asker: Asker,
    legs: &mut Vec<Leg>,
) -> Result<bool, AllocError>
    ensures up { IfOk result (λ all. all ≡ all_up routing.now legs.old.items links.old) }
    ensures sent { OnOk result (links.new ≡ all_sent asker routing.now legs.old.items links.old) }
    ensures unchanged { OnErr result (links.new ≡ links.old) }
{
    put_together(&mut scratch.sents, &mut scratch.spares, asker, legs)?;
    send_each(links, scratch, routing)
}

/// Each leg goes out of the list and over its link, with those that travel with it, if that is up. Whether all are. For want of
/// memory none goes.
pub(crate) fn send_all(
    links: &mut [Link],
    scratch: &mut Scratch,
    routing: &Routing,
    asker: Asker,
    legs: &mut Vec<Leg>,
) -> Result<bool, AllocError>
    ensures up { IfOk result (λ all. all ≡ all_up routing.now legs.old.items links.old) }
    ensures sent { OnOk result (links.new ≡ all_sent asker routing.now legs.old.items links.old) }
    ensures unchanged { OnErr result (links.new ≡ links.old) }
{
    if legs.len() != 1 {
        return send_several(links, scratch, routing, asker, legs);
    }
    let alloc = *legs.allocator();
    match legs.pop() {
        Some(leg) => send_only(
            links,
            &mut scratch.buffer,
            routing,
            sent_by(alloc, asker, leg),
        ),
        None => Ok(true),
    }
}
