//! How a reply is dealt out to the legs that travelled in one request.
ghost use Rattle.std.specs.Prelude.{◌≡◌, ◌≢◌, [], List, map, Some};
ghost use Rattle.mr_join.specs.declared.leg_reply.LegReply.{LegReply};
ghost use Rattle.mr_proxy.specs.NodeReplies.{dealt, all_failed};
ghost use Rattle.mr_proxy.specs.NodeRequests.{key_of};
ghost use Rattle.mr_proxy.specs.steps.Dealing.{left_by};
ghost use Rattle.mr_loop.specs.Events.{after_event, after_all};
ghost use Rattle.mr_loop.specs.Links.{legs_of};
ghost use Rattle.mr_loop.specs.Returning.{AnswersSent, taking, takings, TakesSent};
ghost use Rattle.mr_loop.specs.steps.Returning.{coming, said_next};

use crate::front::Front;
use crate::sent_legs::SentLeg;
use mr_join::LegReply;
use mr_proxy::{Leg, are_dealt, leg_reply_of};
use mr_text::{Cause, Item, ItemList, Reply};
use std::alloc::Global;

/// A leg takes the next item, where that is of its key; else it has missed. The item that is next then; the later ones stand in
/// their list from the last one on.
#[inline(always)]
fn take_next(
    front: &mut Front,
    client: usize,
    leg: &Leg,
    next: Option<Item>,
    later: &mut Vec<Item>,
) -> Option<Item>
    ensures taken { front.new
        ≡ after_event (taking client leg.now (said_next (key_of leg.now) (coming next later.old.items))) front.old }
    ensures left { coming result later.new.items ≡ left_by (key_of leg.now) (coming next later.old.items) }
{
    match next {
        Some(item) if item.key == *leg.sheet().command.key() => {
            front.take(
                client,
                leg,
                LegReply::Hit {
                    flags: item.flags,
                    block: item.block,
                },
            );
            later.pop()
        }
        other => {
            front.take(client, leg, LegReply::Miss);
            other
        }
    }
}

/// The legs take the items that were found, in order.
fn take_items(alloc: Global, front: &mut Front, sent: &SentLeg, items: ItemList)
    ensures { (said : List LegReply) → dealt (map key_of (legs_of sent.now)) items ≡ Some said
        → front.new ≡ after_all (takings sent.now.client (legs_of sent.now) said) front.old }
{
    let (first, mut later) = items.into_reversed(alloc);
    let mut next = take_next(front, sent.client, &sent.leg, first, &mut later);
    for other in sent.others.as_slice() {
        next = take_next(front, sent.client, other, next, &mut later);
    }
}

/// The legs fail, the first of them by this cause.
fn take_failures(front: &mut Front, sent: &SentLeg, cause: Cause)
    ensures { front.new ≡ after_all (takings sent.now.client (legs_of sent.now) (all_failed cause (map key_of (legs_of sent.now)))) front.old }
{
    front.take(sent.client, &sent.leg, LegReply::Failed(cause));
    for other in sent.others.as_slice() {
        front.take(sent.client, other, LegReply::Failed(Cause::NodeRefused));
    }
}

/// The legs take the reply to the request in which they travelled. Whether it is an answer to that; if not, nothing changes.
fn take_by_all(alloc: Global, front: &mut Front, sent: &SentLeg, reply: Reply) -> bool
    requires { sent.now.others ≢ [] }
    ensures { TakesSent sent.now reply front.old result front.new }
{
    match reply {
        Reply::Items(items) => {
            if !are_dealt(&sent.leg, sent.others.as_slice(), items.as_slice()) {
                return false;
            }
            take_items(alloc, front, sent, items);
            true
        }
        Reply::ServerError(cause) | Reply::ClientError(cause) => {
            take_failures(front, sent, cause);
            true
        }
        Reply::Error => {
            take_failures(front, sent, Cause::NodeRefused);
            true
        }
        _ => false,
    }
}

/// A leg takes the reply to what it asked, and so do those that travelled with it. Whether it is an answer to that; if not, nothing
/// changes.
#[inline(always)]
pub(crate) fn take_reply(alloc: Global, front: &mut Front, sent: &SentLeg, reply: Reply) -> bool
    ensures { TakesSent sent.now reply front.old result front.new }
{
    if !sent.others.as_slice().is_empty() {
        return take_by_all(alloc, front, sent, reply);
    }
    match leg_reply_of(&sent.leg.sheet().command, reply) {
        None => false,
        Some(said) => {
            front.take(sent.client, &sent.leg, said);
            true
        }
    }
}
