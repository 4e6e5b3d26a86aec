//! What sessions of many threads issue their requests through.
ghost use Rattle.std.specs.Prelude.{◌≡◌, ◌≢◌, ◌+◌, ◌≤◌, ℕ, Bool, true, length, Some, None, MatchResult, IfOk, IfErr, OnErr};
ghost use Rattle.mr_text.specs.declared.request.Request.{Request};
ghost use Rattle.mr_desks.specs.Desk.{DeskIssues, DeskRefuses, DeskTakes, DeskGivesUp};
ghost use Rattle.mr_desks.specs.Issuing.{clock_call};
ghost use Rattle.mr_desks.specs.Recorded.{AnswerStands};
ghost use Rattle.mr_desks.specs.Taking.{TakenStands, TakenInTime};
ghost use Rattle.mr_desks.specs.declared.desk_error.DeskError.TheVariants.{OutOfMemory, NoSuchOp};

use crate::carried::Carried;
use crate::carrier::Carrier;
use crate::desk_error::DeskError;
use crate::share::Share;
use mr_clock::Clock;
use mr_history::OpId;
use mr_proxy::{Answer, Issued, Taken};
use mr_text::Request;
use std::sync::Wait;

/// A proxy that many threads share. Its lock is held for one step, and never while a leg is carried. It is made for
/// one type of carrier, and all replies in its answers are such that a carrier of this type may give.
pub trait Desk<C: Carrier> {
    /// Whether a book is kept, which answers are held against when it is closed.
    ghost recorded: { Bool };

    /// Whether a book is kept, which answers are held against when it is closed.
    fn is_recorded(&self) -> bool
        ensures { result ≡ recorded };

    /// The share of a session that issued nothing yet.
    fn share(&self) -> Share
        ensures { result ≡ 0 };

    /// Reads the clock, once and under the lock, and issues a request at that reading. Refusals are tried in the order
    /// ClockFault, NumbersSpent, NoRoom, BookFull, OutOfMemory.
    fn issue<R: Wait, K: Clock>(
        &self,
        rt: &R,
        share: &mut Share,
        clock: &mut K,
        request: &Request,
    ) -> Result<Issued, DeskError>
        requires { request.now ≢ Request.Quit }
        ensures issued { IfOk result (λ issued.
            DeskIssues C.gave (clock_call K.reads K.failures clock.old clock.new) share.old request.now issued.op issued.legs.items) }
        ensures has_leg { IfOk result (λ issued. 1 ≤ length issued.legs.items) }
        ensures refused { IfErr result
            (DeskRefuses C.gave recorded (clock_call K.reads K.failures clock.old clock.new) share.old) }
        ensures answerable { IfErr result (λ e. e ≢ NoSuchOp) }
        ensures share { MatchResult result (λ _. share.new ≡ share.old + 1) (λ _. share.new ≡ share.old) };

    /// Takes a leg that came back. It is a stranger where no leg of that very sheet is open. OutOfMemory comes only where a
    /// book is kept; then nothing changes, and the leg can be taken later. Else its reply may have been moved, and what is
    /// left is a lost leg.
    fn take<R: Wait>(&self, rt: &R, carried: &mut Carried<C>) -> Result<Taken, DeskError>
        ensures taken { IfOk result (DeskTakes C.gave carried.old.back) }
        ensures stands { IfOk result (TakenStands C.gave) }
        ensures in_time { IfOk result TakenInTime }
        ensures refused { IfErr result (λ e. (e ≡ OutOfMemory) × (recorded ≡ true)) }
        ensures unchanged { OnErr result (carried.new.back ≡ carried.old.back) };

    /// Gives a request up: all legs that are open are lost. NoSuchOp where it isn't under way.
    fn give_up<R: Wait>(&self, rt: &R, op: OpId) -> Result<Answer, DeskError>
        ensures answer { IfOk result (λ answer. DeskGivesUp C.gave op (Some answer)) }
        ensures stands { IfOk result (AnswerStands C.gave) }
        ensures unknown { IfErr result (λ e. DeskGivesUp C.gave op None × (e ≡ NoSuchOp)) };
}
