//! What a request comes to.
ghost use Rattle.std.specs.Prelude.{MatchResult};
ghost use Rattle.mr_text.specs.Key.{HasKey, FitLine};
ghost use Rattle.mr_node.specs.Outcome.{LooksUp, FailsToLookUp, Gets, StopsAtKey, GetOutcome, CommandOutcome, OutcomeAt, Outcome};
ghost use Rattle.mr_node.specs.Output.{IsServed};
ghost use Rattle.mr_node.specs.steps.Change.{IsChange};

use crate::command::NodeCommand;
use crate::perform::Perform;
use mr_clock::Clock;
use mr_join::LegReply;
use mr_text::{Cause, Item, ItemList, Key, KeyList, Reply, Request};
use std::alloc::Global;

/// What a request comes to, at one reading of the clock. Nothing is performed where the clock fails.
pub(crate) fn outcome<P: Perform, C: Clock>(
    alloc: Global,
    node: &mut P,
    clock: &mut C,
    request: Request,
) -> Reply
    requires { IsServed request }
    ensures { Outcome C.reads C.failures P.did P.refused clock.old node.old request result clock.new node.new }
{
    match clock.now() {
        Ok(now) => answer_on(alloc, node, now, request),
        Err(_) => Reply::ServerError(Cause::ClockFault),
    }
}

/// What a request comes to at a reading of the clock, in seconds since the epoch. A get of several keys has all of them at this
/// reading. Want of memory is what a request comes to as well.
pub fn answer_on<P: Perform>(alloc: Global, node: &mut P, now: u64, request: Request) -> Reply
    requires { IsServed request }
    ensures { OutcomeAt P.did P.refused node.old now request result node.new }
{
    match request {
        Request::Get { keys } => get(alloc, node, now, keys),
        Request::Set {
            key,
            flags,
            exptime,
            block,
            noreply: _,
        } => change(
            node,
            now,
            NodeCommand::Set {
                key,
                flags,
                exptime,
                block,
            },
        ),
        Request::Delete { key, noreply: _ } => change(node, now, NodeCommand::Delete(key)),
        Request::Quit => unreachable!(),
    }
}

/// What a set or a delete comes to.
fn change<P: Perform>(node: &mut P, now: u64, command: NodeCommand) -> Reply
    requires { IsChange command }
    ensures { CommandOutcome P.did P.refused node.old now command result node.new }
{
    match node.perform(now, command) {
        Ok(LegReply::Stored) => Reply::Stored,
        Ok(LegReply::Deleted) => Reply::Deleted,
        Ok(LegReply::NotFound) => Reply::NotFound,
        Ok(LegReply::Failed(cause)) => Reply::ServerError(cause),
        Ok(LegReply::Hit { .. } | LegReply::Miss) => unreachable!(),
        Err(_) => Reply::ServerError(Cause::OutOfMemory),
    }
}

/// What a get comes to: the items that were found, or the cause of the first failure.
fn get<P: Perform>(alloc: Global, node: &mut P, now: u64, keys: KeyList) -> Reply
    ensures { GetOutcome P.did P.refused node.old now keys result node.new }
{
    match look_up_all(alloc, node, now, keys.into_vec()) {
        Ok(items) => Reply::Items(items),
        Err(cause) => Reply::ServerError(cause),
    }
}

/// The items under these keys, in their order, or the cause of the first failure, after which no key is looked up.
fn look_up_all<P: Perform>(
    alloc: Global,
    node: &mut P,
    now: u64,
    keys: Vec<Key>,
) -> Result<ItemList, Cause>
    requires has_key { HasKey keys.items }
    requires fit_line { FitLine keys.items }
    ensures { MatchResult result
        (λ items. Gets P.did now node.old keys.items items node.new)
        (λ cause. StopsAtKey P.did P.refused node.old now keys.items cause node.new) }
{
    let Ok(mut items) = Vec::with_capacity(alloc, keys.len()) else {
        return Err(Cause::OutOfMemory);
    };
    for key in keys {
        // No key is empty, so as many items as fit a line of keys fit an answer.
        prove!(key.len() > 0);
        if let Some(item) = look_up(node, now, key)? {
            items.push_reserved(item);
        }
    }
    Ok(ItemList::new(items))
}

/// The item under one key, or why it couldn't be looked up.
fn look_up<P: Perform>(node: &mut P, now: u64, key: Key) -> Result<Option<Item>, Cause>
    ensures { MatchResult result
        (λ found. LooksUp P.did node.old now key found node.new)
        (λ cause. FailsToLookUp P.did P.refused node.old now key cause node.new) }
{
    match node.get(now, &key) {
        Ok(LegReply::Hit { flags, block }) => Ok(Some(Item { key, flags, block })),
        Ok(LegReply::Miss) => Ok(None),
        Ok(LegReply::Failed(cause)) => Err(cause),
        Ok(LegReply::Stored | LegReply::Deleted | LegReply::NotFound) => unreachable!(),
        Err(_) => Err(Cause::OutOfMemory),
    }
}
