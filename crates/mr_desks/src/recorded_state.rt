//! A proxy with the book of its steps.
ghost use Rattle.std.specs.Prelude.{◌≡◌, ◌≢◌, ◌+◌, ◌-◌, ◌≤◌, ◌<◌, ◌^◌, length, Some, None, true, false, nat_le, OnOk, OnErr, IfOk, IfErr, vec_len, vec_capacity};
ghost use Rattle.mr_text.specs.declared.request.Request.{Request};
ghost use Rattle.mr_proxy.specs.Issue.{next_op, sheets_of};
ghost use Rattle.mr_proxy.specs.Transitions.{open_sheet, taken_of, given_up_of};
ghost use Rattle.mr_desks.specs.Recorded.{AnswerStands};
ghost use Rattle.mr_desks.specs.Taking.{BecomesOf, after_taken, after_given_up, TakenStands, TakenInTime};
ghost use Rattle.mr_desks.specs.Desk.{IsUnderLock};
ghost use Rattle.mr_desks.specs.Issuing.{clock_call, with_share, steps_needed, why_refused, IsDeskRefusal, IssuesAt, RecordedIssues, RecordedRefuses};
ghost use Rattle.mr_desks.specs.declared.desk_error.DeskError.{DeskError};

use crate::awaiting::awaits;
use crate::book::Book;
use crate::carried::Carried;
use crate::carrier::Carrier;
use crate::desk_error::DeskError;
use crate::replaying::answers_in;
use crate::share::Share;
use mr_clock::Clock;
use mr_history::OpId;
use mr_join::LegReply;
use mr_proxy::{Answer, Issued, LegBack, ProxyCore, ProxyError, Step, Taken, issue_copy};
use mr_text::Request;
use std::alloc::{AllocError, Global};
use std::marker::{Model, PhantomData};

/// A proxy, and the book of the steps that it made since it was fresh.
pub struct RecordedState<C: Carrier> {
    core: ProxyCore,
    book: Vec<Step>,
    issues: u64,
    limit: u64,
    of: PhantomData<C>,
}

impl<C: Carrier> Drop for RecordedState<C> {
    fn drop(self) {
        let Self {
            core: _,
            book: _,
            issues: _,
            limit: _,
            of: _,
        } = self;
    }
}

impl<C: Carrier> Model for RecordedState<C> {
    ghost use Rattle.mr_desks.specs.Recorded.{Recorded, IsRecordedCore};
    ghost use Rattle.std.specs.Prelude.{vec_capacity};

    ghost Value = { Recorded };

    ghost view = { λ s. record { core = s.core; steps = s.book.items; limit = s.limit } };

    ghost invariant = { λ s. IsRecordedCore C.gave s.core s.book.items s.issues s.limit (vec_capacity s.book) };
}

/// Drops the copy of a leg that isn't noted after all.
fn discard(_noted: LegBack) {}

impl<C: Carrier> RecordedState<C> {
    ghost use Rattle.std.specs.Prelude.{[]};
    ghost use Rattle.mr_proxy.specs.ProxyView.{IsFresh, opening_of};
    ghost use Rattle.mr_proxy.specs.Replay.{answers_of};

    /// The fresh proxy with an empty book, which keeps at most so many steps. It takes no memory.
    pub fn new(alloc: Global, core: ProxyCore, limit: u64) -> RecordedState<C>
        requires { IsFresh core }
        ensures { result ≡ record { core = core; steps = []; limit = limit } }
    {
        RecordedState {
            core,
            book: Vec::new(alloc),
            issues: 0,
            limit,
            of: PhantomData,
        }
    }

    /// The proxy.
    pub fn core(&self) -> &ProxyCore
        ensures { result.now ≡ self.now.core }
    {
        &self.core
    }

    /// The steps, in order.
    pub fn steps(&self) -> &[Step]
        ensures { result.now ≡ self.now.steps }
    {
        self.book.as_slice()
    }

    /// The answers that the steps of the book gave, in order: those of a fresh proxy that makes them once more.
    pub fn answers(&self, alloc: Global) -> Result<Vec<Answer>, AllocError>
        ensures { IfOk result (λ answers. answers.items ≡ answers_of (opening_of self.now.core) self.now.steps) }
    {
        answers_in(alloc, &self.core, &self.book)
    }

    /// Hands out the proxy and the book.
    pub fn into_book(self) -> Book
        ensures core { result.core ≡ self.core }
        ensures steps { result.steps.items ≡ self.steps }
    {
        let Self {
            core,
            book,
            issues: _,
            limit: _,
            of: _,
        } = self;
        Book::of(core, book)
    }

    /// Whether the book has room for the steps of one more request with so many legs, beside those of all open legs.
    fn has_room_for(&self, legs: u64) -> bool
        ensures { result ≡ nat_le (steps_needed self.now legs) self.now.limit }
    {
        let open = self.core.open_legs();
        self.book.len() as u128 + open + 1 + u128::from(legs) <= u128::from(self.limit)
    }

    /// Does nothing but tell the prover what the type keeps of its proxy.
    fn keeps(&self)
        ensures { IsUnderLock C.gave self.now.core }
    {
        let _under_way = self.core.outstanding();
    }

    /// How many legs a request would have that is issued at this reading of the clock, or why it is refused.
    fn legs_of(&self, share: &Share, reading: u64, request: &Request) -> Result<u64, DeskError>
        requires { request.now ≢ Request.Quit }
        ensures accepted { OnOk result (why_refused (with_share self.now share.now) reading request.now ≡ None) }
        ensures legs { IfOk result (λ legs. legs ≡ length (sheets_of self.now.core reading request.now)) }
        ensures fits { IfOk result (λ legs. steps_needed self.now legs ≤ self.now.limit) }
        ensures unspent { OnOk result (share.now < 2 ^ 64 - 1) }
        ensures refused { IfErr result (λ e. why_refused (with_share self.now share.now) reading request.now ≡ Some e) }
    {
        if share.is_spent() {
            return Err(DeskError::NumbersSpent);
        }
        let legs = match self.core.would_issue(reading, request) {
            Ok(legs) => legs,
            Err(ProxyError::NumbersSpent) => return Err(DeskError::NumbersSpent),
            Err(ProxyError::NoRoom) => return Err(DeskError::NoRoom),
            Err(ProxyError::OutOfMemory | ProxyError::NoSuchOp) => unreachable!(),
        };
        if self.has_room_for(legs) {
            Ok(legs)
        } else {
            Err(DeskError::BookFull)
        }
    }

    /// Issues a request at a reading of the clock, in seconds since the epoch, as the proxy does, and notes the step. A
    /// refusal changes nothing; refusals are tried in the order NumbersSpent, NoRoom, BookFull, OutOfMemory.
    #[tactic(auto, using(crate::proofs::KeptLemmas::keeps_issue))]
    pub(crate) fn issue_at(
        &mut self,
        share: &mut Share,
        reading: u64,
        request: &Request,
    ) -> Result<Issued, DeskError>
        requires { request.now ≢ Request.Quit }
        ensures issued { IfOk result (λ issued.
            IssuesAt (with_share self.old share.old) reading request.now issued.op issued.legs.items (with_share self.new share.new)) }
        ensures has_leg { IfOk result (λ issued. 1 ≤ length issued.legs.items) }
        ensures refused { IfErr result
            (IsDeskRefusal (why_refused (with_share self.old share.old) reading request.now)) }
        ensures unchanged { OnErr result ((self.new ≡ self.old) × (share.new ≡ share.old)) }
    {
        let legs = self.legs_of(share, reading, request)?;
        let open = self.core.open_legs() as usize;
        self.book.reserve(open + 1 + legs as usize)?;
        let noted = request.copy()?;
        let Some(issued) = issue_copy(&mut self.core, reading, request) else {
            drop(noted);
            return Err(DeskError::OutOfMemory);
        };
        self.book.push_reserved(Step::Issue {
            reading,
            request: noted,
        });
        self.issues += 1;
        share.raise();
        Ok(issued)
    }

    /// Reads the clock, once, and issues a request at that reading, as the proxy does, and notes the step. A refusal
    /// changes nothing; refusals are tried in the order ClockFault, NumbersSpent, NoRoom, BookFull, OutOfMemory.
    pub fn issue<K: Clock>(
        &mut self,
        share: &mut Share,
        clock: &mut K,
        request: &Request,
    ) -> Result<Issued, DeskError>
        requires { request.now ≢ Request.Quit }
        ensures issued { IfOk result (λ issued. RecordedIssues (clock_call K.reads K.failures clock.old clock.new)
            (with_share self.old share.old) request.now issued.op issued.legs.items (with_share self.new share.new)) }
        ensures has_leg { IfOk result (λ issued. 1 ≤ length issued.legs.items) }
        ensures refused { IfErr result (RecordedRefuses (clock_call K.reads K.failures clock.old clock.new)
            (with_share self.old share.old) request.now) }
        ensures unchanged { OnErr result ((self.new ≡ self.old) × (share.new ≡ share.old)) }
        ensures locked { IsUnderLock C.gave self.old.core }
    {
        self.keeps();
        let reading = clock.now()?;
        self.issue_at(share, reading, request)
    }

    /// Takes a leg that came back, as the proxy does, and notes the step; a stranger changes nothing, and a leg is one too
    /// where its sheet isn't that of an open leg of the proxy's own. OutOfMemory comes before all else, and changes nothing.
    pub fn take(&mut self, carried: &Carried<C>) -> Result<Taken, DeskError>
        ensures became { IfOk result (BecomesOf self.old.core carried.now.back) }
        ensures state { IfOk result (λ taken. self.new ≡ after_taken self.old carried.now.back taken) }
        ensures stands { IfOk result (TakenStands C.gave) }
        ensures in_time { IfOk result TakenInTime }
        ensures refused { IfErr result (λ e. e ≡ DeskError.OutOfMemory) }
        ensures unchanged { OnErr result (self.new ≡ self.old) }
        ensures locked { IsUnderLock C.gave self.old.core }
    {
        self.keeps();
        let back = carried.back();
        let noted = back.copy()?;
        let Ok(reply) = back.reply.copy() else {
            discard(noted);
            return Err(DeskError::OutOfMemory);
        };
        if !awaits(&self.core, &back.sheet) {
            discard(noted);
            return Ok(Taken::Stranger(reply));
        }
        Ok(self.take_own(noted, reply))
    }

    /// Takes the reply of an open leg of the proxy's own, and notes the step. A reply that isn't of the leg's kind is a
    /// stranger.
    fn take_own(&mut self, noted: LegBack, reply: LegReply) -> Taken
        requires own { open_sheet self.old.core noted.sheet.id ≡ Some noted.sheet }
        requires same { reply ≡ noted.reply }
        requires gave { ∥ C.gave noted.sheet noted.reply ∥₁ }
        ensures became { result ≡ taken_of self.old.core noted.sheet.id noted.reply }
        ensures state { self.new ≡ after_taken self.old noted result }
        ensures stands { TakenStands C.gave result }
        ensures in_time { TakenInTime result }
    {
        match self.core.take_reply(noted.sheet.id, reply) {
            Taken::Stranger(reply) => {
                discard(noted);
                Taken::Stranger(reply)
            }
            Taken::Waiting => {
                self.book.push_reserved(Step::Take(noted));
                Taken::Waiting
            }
            Taken::Answered(answer) => {
                self.book.push_reserved(Step::Take(noted));
                Taken::Answered(answer)
            }
        }
    }

    /// Gives a request up, as the proxy does, and notes the step. NoSuchOp where it isn't under way, and nothing changes.
    pub fn give_up(&mut self, op: OpId) -> Result<Answer, DeskError>
        ensures answer { IfOk result (λ answer. given_up_of self.old.core op ≡ Some answer) }
        ensures state { OnOk result (self.new ≡ after_given_up self.old op) }
        ensures stands { IfOk result (AnswerStands C.gave) }
        ensures unknown { IfErr result (λ e. (given_up_of self.old.core op ≡ None) × (e ≡ DeskError.NoSuchOp)) }
        ensures unchanged { OnErr result (self.new ≡ self.old) }
        ensures locked { IsUnderLock C.gave self.old.core }
    {
        self.keeps();
        let answer = self.core.give_up(op)?;
        self.book.push_reserved(Step::GiveUp(op));
        Ok(answer)
    }
}
