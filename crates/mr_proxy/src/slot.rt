//! A leg of a request as the proxy keeps it.
ghost use Rattle.std.specs.Prelude.{◌≡◌, ◌↔◌, nat_lt, IsTrue, IfOk};
ghost use Rattle.mr_text.specs.declared.cause.Cause.TheVariants.{LegLost};
ghost use Rattle.mr_join.specs.declared.leg_reply.LegReply.TheVariants.{Failed};
ghost use Rattle.mr_join.specs.Join.{badness_of};
ghost use Rattle.mr_proxy.specs.Slots.{open_slot, is_open, is_awaiting, has_failed, reply_of_slot, is_of_kind};

use crate::sheet::LegSheet;
use mr_join::LegReply;
use mr_node::NodeCommand;
use mr_text::Cause;
use std::alloc::AllocError;

/// What a leg came to of which no reply came.
pub(crate) const LOST: LegReply = LegReply::Failed(Cause::LegLost);

/// What was sent for a leg, and what came back.
#[derive(Debug, Drop)]
pub struct Slot {
    /// What was sent.
    pub sheet: LegSheet,
    /// The reply, once it came. A leg without one counts as lost.
    pub reply: Option<LegReply>,
}

/// Whether a node may answer this command so: any command may fail.
#[inline(always)]
pub fn is_of_kind(command: &NodeCommand, reply: &LegReply) -> bool
    ensures { result ≡ is_of_kind command.now reply.now }
{
    match (command, reply) {
        (NodeCommand::Get(_), LegReply::Hit { .. } | LegReply::Miss) => true,
        (NodeCommand::Set { .. }, LegReply::Stored) => true,
        (NodeCommand::Delete(_), LegReply::Deleted | LegReply::NotFound) => true,
        (_, LegReply::Failed(_)) => true,
        _ => false,
    }
}

impl Slot {
    /// A leg that was sent.
    #[inline(always)]
    pub(crate) fn open(sheet: LegSheet) -> Slot
        ensures { result ≡ open_slot sheet }
    {
        Slot { sheet, reply: None }
    }

    /// Whether no reply came yet.
    #[inline(always)]
    pub fn is_open(&self) -> bool
        ensures { result ≡ is_open self.now }
    {
        self.reply.is_none()
    }

    /// Whether the leg awaits this reply: none came yet, and a node may answer its command so.
    #[inline(always)]
    pub fn awaits(&self, reply: &LegReply) -> bool
        ensures { result ≡ is_awaiting self.now reply.now }
    {
        self.is_open() && is_of_kind(&self.sheet.command, reply)
    }

    /// What the leg came to: the reply, or that the leg was lost where none came. What is lent then is the caller's,
    /// since no constant that has something to drop can be lent.
    #[inline(always)]
    pub(crate) fn outcome<'a>(&'a self, lost: &'a LegReply) -> &'a LegReply
        requires { lost.now ≡ Failed LegLost }
        ensures { result.now ≡ reply_of_slot self.now }
    {
        self.reply.as_ref().unwrap_or(lost)
    }

    /// The same, taken out.
    pub fn into_outcome(self) -> LegReply
        ensures { result ≡ reply_of_slot self }
    {
        let Slot { sheet: _, reply } = self;
        reply.unwrap_or(LOST)
    }

    /// Whether the leg failed, or no reply came.
    #[inline(always)]
    pub fn has_failed(&self) -> bool
        ensures { result ≡ has_failed self.now }
    {
        matches!(self.outcome(&LOST), LegReply::Failed(_))
    }

    /// Whether the leg came to what is worse than what the other one came to.
    #[inline(always)]
    pub(crate) fn is_worse_than(&self, other: &Slot) -> bool
        ensures { result ≡ nat_lt (badness_of (reply_of_slot other.now)) (badness_of (reply_of_slot self.now)) }
    {
        other.outcome(&LOST).badness() < self.outcome(&LOST).badness()
    }

    /// Whether the other slot is equal. It takes no memory.
    pub fn same_as(&self, other: &Slot) -> bool
        ensures { IsTrue result ↔ (self.now ≡ other.now) }
    {
        self.sheet.same_as(&other.sheet)
            && match (&self.reply, &other.reply) {
                (Some(reply), Some(other_reply)) => reply.same_as(other_reply),
                (None, None) => true,
                _ => false,
            }
    }

    /// An equal slot.
    pub fn copy(&self) -> Result<Slot, AllocError>
        ensures { IfOk result (λ slot. slot ≡ self.now) }
    {
        Ok(Slot {
            sheet: self.sheet.copy()?,
            reply: match &self.reply {
                Some(reply) => Some(reply.copy()?),
                None => None,
            },
        })
    }
}

/// Whether both lists are equal.
pub(crate) fn same_slots(slots: &[Slot], others: &[Slot]) -> bool
    ensures { IsTrue result ↔ (slots.now ≡ others.now) }
{
    if slots.len() != others.len() {
        return false;
    }
    for (place, slot) in slots.iter().enumerate() {
        if !slot.same_as(&others[place]) {
            return false;
        }
    }
    true
}
