//! A proxy without a book.
ghost use Rattle.std.specs.Prelude.{◌≡◌, ◌≢◌, ◌+◌, ◌≤◌, ◌<◌, ◌^◌, ◌-◌, length, Some, None, OnOk, OnErr, IfOk, IfErr};
ghost use Rattle.mr_text.specs.declared.cause.Cause.TheVariants.{LegLost};
ghost use Rattle.mr_text.specs.declared.request.Request.{Request};
ghost use Rattle.mr_join.specs.declared.leg_reply.LegReply.TheVariants.{Failed};
ghost use Rattle.mr_proxy.specs.Transitions.{open_sheet, after_take, after_give_up, given_up_of};
ghost use Rattle.mr_desks.specs.Desk.{IsUnderLock};
ghost use Rattle.mr_desks.specs.Issuing.{clock_call, with_share, IsDeskRefusal};
ghost use Rattle.mr_desks.specs.Recorded.{AnswerStands};
ghost use Rattle.mr_desks.specs.Shared.{why_turned_down, SharedIssuesAt, SharedIssues, SharedRefuses};
ghost use Rattle.mr_desks.specs.Taking.{BecomesOf, TakenStands, TakenInTime};
ghost use Rattle.mr_desks.specs.declared.desk_error.DeskError.{DeskError};

use crate::awaiting::awaits;
use crate::carried::Carried;
use crate::carrier::Carrier;
use crate::desk_error::DeskError;
use crate::share::Share;
use mr_clock::Clock;
use mr_history::OpId;
use mr_proxy::{Answer, Issued, ProxyCore, ProxyError, Taken, issue_copy};
use mr_text::Request;
use std::marker::{Model, PhantomData};

/// A proxy whose steps aren't recorded.
pub struct SharedState<C: Carrier> {
    core: ProxyCore,
    issues: u64,
    of: PhantomData<C>,
}

impl<C: Carrier> Drop for SharedState<C> {
    fn drop(self) {
        let Self {
            core: _,
            issues: _,
            of: _,
        } = self;
    }
}

impl<C: Carrier> Model for SharedState<C> {
    ghost use Rattle.mr_proxy.specs.ProxyView.{ProxyView};
    ghost use Rattle.mr_desks.specs.Shared.{IsSharedCore};

    ghost Value = { ProxyView };

    ghost view = { λ s. s.core };

    ghost invariant = { λ s. IsSharedCore C.gave s.core s.issues };
}

impl<C: Carrier> SharedState<C> {
    ghost use Rattle.mr_proxy.specs.ProxyView.{IsFresh};

    /// The fresh proxy.
    pub fn new(core: ProxyCore) -> SharedState<C>
        requires { IsFresh core }
        ensures { result ≡ core }
    {
        SharedState {
            core,
            issues: 0,
            of: PhantomData,
        }
    }

    /// The share of a session that issued nothing yet.
    pub fn share() -> Share
        ensures { result ≡ 0 }
    {
        Share::new()
    }

    /// Does nothing but tell the prover what the type keeps of its proxy.
    fn keeps(&self)
        ensures { IsUnderLock C.gave self.now }
    {
        let _under_way = self.core.outstanding();
    }

    /// Why a request isn't issued, memory aside.
    fn refusal(&self, share: &Share) -> Option<DeskError>
        ensures { result ≡ why_turned_down (with_share self.now share.now) }
    {
        if share.is_spent() {
            return Some(DeskError::NumbersSpent);
        }
        match self.core.refusal() {
            None => None,
            Some(ProxyError::NumbersSpent) => Some(DeskError::NumbersSpent),
            Some(ProxyError::NoRoom) => Some(DeskError::NoRoom),
            Some(ProxyError::OutOfMemory | ProxyError::NoSuchOp) => unreachable!(),
        }
    }

    /// Issues a request at a reading of the clock, in seconds since the epoch, as the proxy does. A refusal changes
    /// nothing; refusals are tried in the order NumbersSpent, NoRoom, OutOfMemory.
    pub(crate) fn issue_at(
        &mut self,
        share: &mut Share,
        reading: u64,
        request: &Request,
    ) -> Result<Issued, DeskError>
        requires { request.now ≢ Request.Quit }
        ensures issued { IfOk result (λ issued.
            SharedIssuesAt (with_share self.old share.old) reading request.now issued.op issued.legs.items (with_share self.new share.new)) }
        ensures has_leg { IfOk result (λ issued. 1 ≤ length issued.legs.items) }
        ensures refused { IfErr result (IsDeskRefusal (why_turned_down (with_share self.old share.old))) }
        ensures unchanged { OnErr result ((self.new ≡ self.old) × (share.new ≡ share.old)) }
    {
        if let Some(refusal) = self.refusal(share) {
            return Err(refusal);
        }
        let Some(issued) = issue_copy(&mut self.core, reading, request) else {
            return Err(DeskError::OutOfMemory);
        };
        self.issues += 1;
        share.raise();
        Ok(issued)
    }

    /// Reads the clock, once, and issues a request at that reading, as the proxy does. A refusal changes nothing; refusals
    /// are tried in the order ClockFault, NumbersSpent, NoRoom, OutOfMemory.
    pub fn issue<K: Clock>(
        &mut self,
        share: &mut Share,
        clock: &mut K,
        request: &Request,
    ) -> Result<Issued, DeskError>
        requires { request.now ≢ Request.Quit }
        ensures issued { IfOk result (λ issued. SharedIssues (clock_call K.reads K.failures clock.old clock.new)
            (with_share self.old share.old) request.now issued.op issued.legs.items (with_share self.new share.new)) }
        ensures has_leg { IfOk result (λ issued. 1 ≤ length issued.legs.items) }
        ensures refused { IfErr result (SharedRefuses (clock_call K.reads K.failures clock.old clock.new)
            (with_share self.old share.old)) }
        ensures unchanged { OnErr result ((self.new ≡ self.old) × (share.new ≡ share.old)) }
        ensures locked { IsUnderLock C.gave self.old }
    {
        self.keeps();
        let reading = clock.now()?;
        self.issue_at(share, reading, request)
    }

    /// Takes a leg that came back, as the proxy does. A leg is a stranger too where its sheet isn't that of an open leg of
    /// the proxy's own. It takes no memory: the reply is moved, and what is left is a lost leg.
    #[tactic(auto, using(crate::proofs::KeptLemmas::last_answer_stands, crate::proofs::KeptLemmas::last_answer_in_time))]
    pub fn take(&mut self, carried: &mut Carried<C>) -> Taken
        ensures became { BecomesOf self.old carried.old.back result }
        ensures own { open_sheet self.old carried.old.back.sheet.id ≡ Some carried.old.back.sheet
            → self.new ≡ after_take self.old carried.old.back.sheet.id carried.old.back.reply }
        ensures foreign { open_sheet self.old carried.old.back.sheet.id ≢ Some carried.old.back.sheet
            → self.new ≡ self.old }
        ensures stands { TakenStands C.gave result }
        ensures in_time { TakenInTime result }
        ensures left { carried.new.back ≡ record carried.old.back { reply = Failed LegLost } }
        ensures locked { IsUnderLock C.gave self.old }
    {
        self.keeps();
        let id = carried.back().sheet.id;
        let own = awaits(&self.core, &carried.back().sheet);
        let reply = carried.take_reply();
        if own {
            self.core.take_reply(id, reply)
        } else {
            Taken::Stranger(reply)
        }
    }

    /// Gives a request up, as the proxy does. NoSuchOp where it isn't under way, and nothing changes.
    pub fn give_up(&mut self, op: OpId) -> Result<Answer, DeskError>
        ensures answer { IfOk result (λ answer. given_up_of self.old op ≡ Some answer) }
        ensures state { OnOk result (self.new ≡ after_give_up self.old op) }
        ensures stands { IfOk result (AnswerStands C.gave) }
        ensures unknown { IfErr result (λ e. (given_up_of self.old op ≡ None) × (e ≡ DeskError.NoSuchOp)) }
        ensures unchanged { OnErr result (self.new ≡ self.old) }
        ensures locked { IsUnderLock C.gave self.old }
    {
        self.keeps();
        Ok(self.core.give_up(op)?)
    }
}
