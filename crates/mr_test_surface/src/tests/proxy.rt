//! The core of one proxy, its legs and its answers.
ghost use Rattle.std.specs.Prelude.{IfOk};
ghost use Rattle.mr_proxy.specs.ProxyView.{IsFresh};

use super::history::FIRST;
use super::phases::schedule;
use super::pools::routing;
use super::text::get;
use mr_join::LegReply;
use mr_proxy::{Answer, Issued, Leg, LegBack, LegId, LegSheet, ProxyCore, ProxyError, Taken};
use std::alloc::Global;
use std::test::Fail;

/// The first proxy, with room for one request.
pub(super) fn core(alloc: Global) -> Result<ProxyCore, Fail>
    ensures { IfOk result IsFresh }
{
    Ok(ProxyCore::new(alloc, 0, 0, routing(alloc)?, schedule()?, 1))
}

/// The only leg of a request.
fn only_leg(issued: Issued) -> Result<Leg, Fail> {
    let mut legs = issued.legs;
    match legs.pop() {
        Some(leg) => Ok(leg),
        None => Err(Fail::from("no leg")),
    }
}

/// Whether a leg's sheet has this name.
fn is_named(sheet: &LegSheet, id: LegId) -> bool {
    sheet.id == id
}

/// The answer that a leg's reply makes.
fn answer_by(core: &mut ProxyCore, back: LegBack) -> Result<Answer, Fail> {
    match core.take_reply(back.sheet.id, back.reply) {
        Taken::Answered(answer) => Ok(answer),
        Taken::Waiting | Taken::Stranger(_) => Err(Fail::from("no answer")),
    }
}

#[test]
fn a_request_is_answered(rt: HostRuntime) -> Result<(), Fail> {
    let mut core = core(rt.alloc())?;
    let Ok(issued) = core.issue(999, get(rt.alloc())?) else {
        return Err(Fail::from("refused"));
    };
    let leg = only_leg(issued)?;
    assert!(rt;
        is_named(
            leg.sheet(),
            LegId {
                op: FIRST,
                place: 0
            }
        )
    );
    let answer = answer_by(&mut core, leg.returned(LegReply::Miss))?;
    assert_eq!(rt; answer.op(), FIRST);
    assert!(rt; matches!(core.give_up(FIRST), Err(ProxyError::NoSuchOp)));
    Ok(())
}
