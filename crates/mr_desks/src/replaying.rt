//! The steps of a book, made once more.
ghost use Rattle.std.specs.Prelude.{◌≡◌, option_map, IfOk, OnOk};
ghost use Rattle.mr_proxy.specs.ProxyView.{opening_of};
ghost use Rattle.mr_proxy.specs.Transitions.{taken_of, after_take};
ghost use Rattle.mr_proxy.specs.Replay.{after, answered_in, answer_at, answers_of};
ghost use Rattle.mr_desks.specs.Books.{IsBookStep, AreSteps};

use mr_proxy::{Answer, LegBack, ProxyCore, Step, Taken, issue_copy};
use std::alloc::{AllocError, Global};

/// Takes a copy of a reply, as the proxy does, and gives the answer that it brings, if it brings one.
fn take_copy(core: &mut ProxyCore, back: &LegBack) -> Result<Option<Answer>, AllocError>
    ensures core { OnOk result (core.new ≡ after_take core.old back.now.sheet.id back.now.reply) }
    ensures answer { IfOk result
        (λ answer. option_map (λ a. a) answer ≡ answered_in (taken_of core.old back.now.sheet.id back.now.reply)) }
{
    let reply = back.reply.copy()?;
    match core.take_reply(back.sheet.id, reply) {
        Taken::Answered(answer) => Ok(Some(answer)),
        Taken::Waiting | Taken::Stranger(_) => Ok(None),
    }
}

/// Makes a step once more, and gives its answer, if it has one.
fn play_step(core: &mut ProxyCore, step: &Step) -> Result<Option<Answer>, AllocError>
    requires { IsBookStep core.old step.now }
    ensures core { OnOk result (core.new ≡ after core.old step.now) }
    ensures answer { IfOk result (λ answer. option_map (λ a. a) answer ≡ answer_at core.old step.now) }
{
    match step {
        Step::Issue { reading, request } => match issue_copy(core, *reading, request) {
            Some(_) => Ok(None),
            None => Err(AllocError),
        },
        Step::Take(back) => take_copy(core, back),
        Step::GiveUp(op) => match core.give_up(*op) {
            Ok(answer) => Ok(Some(answer)),
            Err(_) => Ok(None),
        },
    }
}

/// The answers that the steps give, in order, where the proxy makes them from its opening on.
pub(crate) fn answers_in(
    alloc: Global,
    opening: &ProxyCore,
    steps: &[Step],
) -> Result<Vec<Answer>, AllocError>
    requires { AreSteps (opening_of opening.now) steps.now }
    ensures { IfOk result (λ answers. answers.items ≡ answers_of (opening_of opening.now) steps.now) }
{
    let mut core = opening.opening(alloc)?;
    let mut answers = Vec::new(alloc);
    for step in steps {
        if let Some(answer) = play_step(&mut core, step)? {
            answers.push(answer)?;
        }
    }
    Ok(answers)
}
