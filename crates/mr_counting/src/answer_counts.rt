//! What clients were answered, by kind.
ghost use Rattle.std.specs.Prelude.{◌≡◌, map, fold, option_map};
ghost use Rattle.std.specs.List.{list_any};
ghost use Rattle.mr_join.specs.Join.{first_cause};
ghost use Rattle.mr_proxy.specs.Slots.{reply_of_slot};
ghost use Rattle.mr_counting.specs.ProxyCounts.{cause_counted, key_counted, is_not_found, delete_counted, success_counted, answer_counted};
ghost use Rattle.mr_counting.specs.Sums.{answers_sum};

use crate::counting::{one_more, sum_of};
use mr_join::LegReply;
use mr_proxy::{Answer, Slot};
use mr_text::{Cause, Request};

/// What clients were answered. Of a get that didn't fail each key is counted, else each request.
#[derive(Clone, Copy, Debug, PartialEq, Eq)]
pub struct AnswerCounts {
    /// Keys that were found.
    pub hits: u64,
    /// Keys that were not.
    pub misses: u64,
    /// STORED.
    pub stored: u64,
    /// DELETED.
    pub deleted: u64,
    /// NOT_FOUND.
    pub not_found: u64,
    /// A leg was lost.
    pub leg_lost: u64,
    /// There was no room for the request.
    pub busy: u64,
    /// Memory was refused.
    pub out_of_memory: u64,
    /// The clock gave no reading.
    pub clock_fault: u64,
    /// Any other failure.
    pub other_fault: u64,
}

/// Why the first of these legs that failed did; a leg without a reply was lost.
#[inline(always)]
fn first_cause<'a>(slots: &'a [Slot], lost: &'a Cause) -> Option<&'a Cause>
    requires { lost.now ≡ Cause.LegLost }
    ensures { option_map (λ cause. cause.now) result ≡ first_cause (map reply_of_slot slots.now) }
{
    for slot in slots {
        match &slot.reply {
            Some(LegReply::Failed(cause)) => return Some(cause),
            Some(LegReply::Hit { .. }) => {}
            Some(LegReply::Miss) => {}
            Some(LegReply::Stored) => {}
            Some(LegReply::Deleted) => {}
            Some(LegReply::NotFound) => {}
            None => return Some(lost),
        }
    }
    None
}

/// Whether a leg found nothing to delete.
fn misses_one(slots: &[Slot]) -> bool
    ensures { result ≡ list_any is_not_found (map reply_of_slot slots.now) }
{
    for slot in slots {
        if let Some(LegReply::NotFound) = &slot.reply {
            return true;
        }
    }
    false
}

impl AnswerCounts {
    /// Nothing yet.
    pub const NONE: AnswerCounts = AnswerCounts {
        hits: 0,
        misses: 0,
        stored: 0,
        deleted: 0,
        not_found: 0,
        leg_lost: 0,
        busy: 0,
        out_of_memory: 0,
        clock_fault: 0,
        other_fault: 0,
    };

    /// Counts why a request failed.
    pub fn add_cause(&mut self, cause: &Cause)
        ensures { self.new ≡ cause_counted cause.now self.old }
    {
        match cause {
            Cause::LegLost => self.leg_lost = one_more(self.leg_lost),
            Cause::Busy => self.busy = one_more(self.busy),
            Cause::OutOfMemory => self.out_of_memory = one_more(self.out_of_memory),
            Cause::ClockFault => self.clock_fault = one_more(self.clock_fault),
            _ => self.other_fault = one_more(self.other_fault),
        }
    }

    /// Counts a key of a get.
    #[inline(always)]
    fn add_key(&mut self, slot: &Slot)
        ensures { self.new ≡ key_counted self.old (reply_of_slot slot.now) }
    {
        match &slot.reply {
            Some(LegReply::Hit { .. }) => self.hits = one_more(self.hits),
            Some(LegReply::Miss) => self.misses = one_more(self.misses),
            _ => {}
        }
    }

    /// Counts the keys of a get.
    #[inline(always)]
    fn add_keys(&mut self, slots: &[Slot])
        ensures { self.new ≡ fold key_counted self.old (map reply_of_slot slots.now) }
    {
        for slot in slots {
            self.add_key(slot);
        }
    }

    /// Counts a delete.
    fn add_delete(&mut self, missing: bool)
        ensures { self.new ≡ delete_counted missing self.old }
    {
        if missing {
            self.not_found = one_more(self.not_found);
        } else {
            self.deleted = one_more(self.deleted);
        }
    }

    /// Counts what a request was answered whose legs didn't fail.
    #[inline(always)]
    fn add_success(&mut self, request: &Request, slots: &[Slot])
        ensures { self.new ≡ success_counted request.now (map reply_of_slot slots.now) self.old }
    {
        match request {
            Request::Get { .. } => self.add_keys(slots),
            Request::Set { .. } => self.stored = one_more(self.stored),
            Request::Delete { .. } => self.add_delete(misses_one(slots)),
            Request::Quit => {}
        }
    }

    /// Counts what a request was answered.
    #[inline(always)]
    pub fn add_answer(&mut self, answer: &Answer)
        ensures { self.new ≡ answer_counted answer.now self.old }
    {
        let slots = answer.slots();
        match first_cause(slots, &Cause::LegLost) {
            Some(cause) => self.add_cause(cause),
            None => self.add_success(answer.request(), slots),
        }
    }

    /// Both together.
    pub fn plus(self, more: AnswerCounts) -> AnswerCounts
        ensures { result ≡ answers_sum self more }
    {
        AnswerCounts {
            hits: sum_of(self.hits, more.hits),
            misses: sum_of(self.misses, more.misses),
            stored: sum_of(self.stored, more.stored),
            deleted: sum_of(self.deleted, more.deleted),
            not_found: sum_of(self.not_found, more.not_found),
            leg_lost: sum_of(self.leg_lost, more.leg_lost),
            busy: sum_of(self.busy, more.busy),
            out_of_memory: sum_of(self.out_of_memory, more.out_of_memory),
            clock_fault: sum_of(self.clock_fault, more.clock_fault),
            other_fault: sum_of(self.other_fault, more.other_fault),
        }
    }
}
