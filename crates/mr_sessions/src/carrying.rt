//! The legs of one request: sent, and taken as they come back.
ghost use Rattle.std.specs.Prelude.{◌≡◌, ◌≤◌, length, true, false, Some, None, IfSome, IfNone, MatchOption, vec_capacity};
ghost use Rattle.mr_proxy.specs.declared.sheet.LegBack.{LegBack};
ghost use Rattle.mr_proxy.specs.declared.taken.Taken.TheVariants.{Answered};
ghost use Rattle.mr_desks.specs.Desk.{DeskTakes, DeskGivesUp};
ghost use Rattle.mr_desks.specs.Recorded.{AnswerStands};
ghost use Rattle.mr_sessions.specs.Account.{IsGivenUpFor, AreCarried};
ghost use Rattle.mr_sessions.specs.Own.{issued_of, IsAnswerTo, IsGiven};
ghost use Rattle.mr_sessions.specs.steps.Carrying.{SendsAll, CameBack, CameInVain, IsUnanswered};
ghost use Rattle.mr_sessions.specs.steps.Destinations.{HasItsLegs};

use crate::destinations::is_answer_to;
use crate::session_log::SessionLog;
use mr_desks::{Carrier, Carriers, Desk};
use mr_history::OpId;
use mr_proxy::{Answer, Issued, Leg, Taken};
use mr_text::Request;
use std::sync::Wait;

/// Sends the legs, in order. Whether all were sent: behind one that is handed back none is.
fn send_all<C: Carrier, L: Carriers<C>>(
    carriers: &mut L,
    legs_out: &mut u64,
    legs: Vec<Leg>,
) -> bool
    ensures sent { SendsAll legs.items (L.told carriers.old) result (L.told carriers.new) }
    ensures out { result ≡ true → length legs.items ≤ legs_out.new }
{
    for leg in legs {
        if carriers.send(leg).is_some() {
            return false;
        }
        *legs_out = legs_out.saturating_add(1);
    }
    true
}

/// Takes legs as they come back, until the request is answered. None where no leg will come, where memory is refused, and
/// where all that were sent came back.
fn receive_answer<C: Carrier, D: Desk<C>, L: Carriers<C>, R: Wait>(
    rt: &R,
    desk: &D,
    carriers: &mut L,
    legs_out: &mut u64,
) -> Option<Answer>
    ensures stands { IfSome result (AnswerStands C.gave) }
    ensures in_time { IfSome result (λ answer. answer.given_up ≡ false) }
    ensures given { IfSome result (λ answer. (back : LegBack) × DeskTakes C.gave back (Answered answer)) }
    ensures came { MatchOption result
        (CameInVain D.recorded legs_out.old (L.told carriers.old) (L.told carriers.new))
        (λ _. CameBack (L.told carriers.old) (L.told carriers.new)) }
{
    while *legs_out > 0 {
        let Some(mut carried) = carriers.receive() else {
            return None;
        };
        *legs_out -= 1;
        match desk.take(rt, &mut carried) {
            Err(_) => return None,
            Ok(Taken::Answered(answer)) => return Some(answer),
            Ok(Taken::Waiting | Taken::Stranger(_)) => {}
        }
    }
    None
}

/// Gives the request up. None where it isn't under way.
fn give_up<C: Carrier, D: Desk<C>, R: Wait>(rt: &R, desk: &D, op: OpId) -> Option<Answer>
    ensures stands { IfSome result (AnswerStands C.gave) }
    ensures given_up { IfSome result (λ answer. answer.given_up ≡ true) }
    ensures given { MatchOption result (DeskGivesUp C.gave op None) (λ answer. DeskGivesUp C.gave op (Some answer)) }
{
    match desk.give_up(rt, op) {
        Ok(answer) => Some(answer),
        Err(_) => None,
    }
}

/// Carries the legs of a request, and gives its answer. Where a leg can't be sent, none will come, memory is refused, or all
/// that were sent came back, the request is given up. None where it isn't under way then.
#[tactic(auto, using(crate::proofs::CarryLemmas::in_time, crate::proofs::CarryLemmas::in_vain, crate::proofs::CarryLemmas::late))]
fn carry_out<C: Carrier, D: Desk<C>, L: Carriers<C>, R: Wait>(
    rt: &R,
    desk: &D,
    carriers: &mut L,
    legs_out: &mut u64,
    issued: Issued,
) -> Option<Answer>
    ensures stands { IfSome result (AnswerStands C.gave) }
    ensures given { MatchOption result (DeskGivesUp C.gave issued.op None) (IsGiven C.gave issued.op) }
    ensures carried { IfSome result (λ answer.
        AreCarried D.recorded issued.legs.items answer.given_up (L.told carriers.old) (L.told carriers.new)) }
    ensures vain { IfNone result
        (IsGivenUpFor D.recorded issued.legs.items (L.told carriers.old) (L.told carriers.new)) }
{
    if send_all(carriers, legs_out, issued.legs) {
        if let Some(answer) = receive_answer(rt, desk, carriers, legs_out) {
            return Some(answer);
        }
    }
    give_up(rt, desk, issued.op)
}

/// Notes where the legs of a request go, carries them, and gives its answer. None where there is none, or what there is
/// isn't its own.
pub(crate) fn carry_request<C: Carrier, D: Desk<C>, L: Carriers<C>, R: Wait>(
    rt: &R,
    desk: &D,
    carriers: &mut L,
    log: &mut SessionLog,
    request: &Request,
    issued: Issued,
) -> Option<Answer>
    requires legs { HasItsLegs (issued_of issued.op request.now issued.legs.items) }
    requires room { length issued.legs.items ≤ vec_capacity log.old.destinations }
    ensures own { IfSome result (IsAnswerTo (issued_of issued.op request.now issued.legs.items)) }
    ensures stands { IfSome result (AnswerStands C.gave) }
    ensures carried { IfSome result (λ answer.
        AreCarried D.recorded issued.legs.items answer.given_up (L.told carriers.old) (L.told carriers.new)) }
    ensures unanswered { IfNone result (IsUnanswered C.gave D.recorded
        (issued_of issued.op request.now issued.legs.items) (L.told carriers.old) (L.told carriers.new)) }
    ensures share { log.new.share ≡ log.old.share }
    ensures answers { log.new.answers ≡ log.old.answers }
{
    let op = issued.op;
    log.note(issued.legs.as_slice());
    let answer = carry_out(rt, desk, carriers, &mut log.legs_out, issued)?;
    if is_answer_to(&answer, op, request, log.destinations.as_slice()) {
        Some(answer)
    } else {
        None
    }
}
