//! Whether the book of a proxy stands with what its sessions did.
ghost use Rattle.std.specs.Prelude.{◌≡◌, ◌↔◌, IsTrue, All, Contains, IfOk, OnErr, sum, map};
ghost use Rattle.mr_history.specs.OpIds.{is_same_op};
ghost use Rattle.mr_desks.specs.Closing.{has_op, some_has_op, are_apart, have_different_ops, AreAmong, CountsIssues, StandsWith, ClosesSo};

use crate::book::Book;
use crate::carrier::Carrier;
use crate::close_error::CloseError;
use crate::recorded_proxy::RecordedProxy;
use crate::recorded_state::RecordedState;
use crate::share::Share;
use mr_history::{OpId, is_same_op};
use mr_proxy::{Answer, ProxyCore};
use std::alloc::{AllocError, Global};

/// Whether the shares sum up to this count.
fn is_sum_of(count: u64, shares: &[Share]) -> bool
    ensures { IsTrue result ↔ (sum shares.now ≡ count) }
{
    let mut left = count;
    for share in shares {
        let Some(less) = left.checked_sub(share.count()) else {
            return false;
        };
        left = less;
    }
    left == 0
}

/// Whether an answer is among these.
fn contains(answers: &[Answer], answer: &Answer) -> bool
    ensures { IsTrue result ↔ Contains answers.now answer.now }
{
    for other in answers {
        if other.same_as(answer) {
            return true;
        }
    }
    false
}

/// Whether all these answers are among the others.
fn are_among(others: &[Answer], answers: &[Answer]) -> bool
    ensures { IsTrue result ↔ All (Contains others.now) answers.now }
{
    for answer in answers {
        if !contains(others, answer) {
            return false;
        }
    }
    true
}

/// Whether all answers of these sessions are among the others.
fn all_are_among(others: &[Answer], sessions: &[Vec<Answer>]) -> bool
    ensures { IsTrue result ↔ AreAmong others.now (map (λ session. session.items) sessions.now) }
{
    for session in sessions {
        if !are_among(others, session) {
            return false;
        }
    }
    true
}

/// Whether the answer is to the request of this op.
fn answers_op(answer: &Answer, op: OpId) -> bool
    ensures { result ≡ is_same_op answer.now.op op }
{
    is_same_op(answer.op(), op)
}

/// Whether one of the answers is to the request of this op.
fn has_op(answers: &[Answer], op: OpId) -> bool
    ensures { result ≡ has_op answers.now op }
{
    for answer in answers {
        if answers_op(answer, op) {
            return true;
        }
    }
    false
}

/// Whether one of the sessions has an answer to the request of this op.
fn some_has_op(sessions: &[Vec<Answer>], op: OpId) -> bool
    ensures { result ≡ some_has_op (map (λ session. session.items) sessions.now) op }
{
    for session in sessions {
        if has_op(session, op) {
            return true;
        }
    }
    false
}

/// Whether no answer is to the same request as one behind it, or as one of the sessions that follow.
fn are_apart(answers: &[Answer], sessions: &[Vec<Answer>]) -> bool
    ensures { result ≡ are_apart answers.now (map (λ session. session.items) sessions.now) }
{
    for (index, answer) in answers.iter().enumerate() {
        if has_op(&answers[index + 1..], answer.op()) || some_has_op(sessions, answer.op()) {
            return false;
        }
    }
    true
}

/// Whether no two answers are to the same request.
fn have_different_ops(sessions: &[Vec<Answer>]) -> bool
    ensures { result ≡ have_different_ops (map (λ session. session.items) sessions.now) }
{
    for (index, session) in sessions.iter().enumerate() {
        if !are_apart(session, &sessions[index + 1..]) {
            return false;
        }
    }
    true
}

/// Whether the proxy is the one that it was at first, as many requests were accepted as the sessions issued, and the answers
/// that they hold are to different requests. It takes no memory.
fn is_counted<C: Carrier>(
    state: &RecordedState<C>,
    opening: &ProxyCore,
    shares: &[Share],
    sessions: &[Vec<Answer>],
) -> bool
    ensures { IsTrue result
        ↔ CountsIssues opening.now state.now.core shares.now (map (λ session. session.items) sessions.now) }
{
    opening.alike(state.core())
        && is_sum_of(state.core().next(), shares)
        && have_different_ops(sessions)
}

/// Whether the book of a proxy stands with what its sessions did.
fn stands_with<C: Carrier>(
    alloc: Global,
    state: &RecordedState<C>,
    opening: &ProxyCore,
    shares: &[Share],
    sessions: &[Vec<Answer>],
) -> Result<bool, AllocError>
    ensures stands { IfOk result
        (λ stands. IsTrue stands ↔ StandsWith opening.now state.now.core state.now.steps shares.now
        (map (λ session. session.items) sessions.now)) }
    ensures counted { OnErr result
        (CountsIssues opening.now state.now.core shares.now (map (λ session. session.items) sessions.now)) }
{
    if !is_counted(state, opening, shares, sessions) {
        return Ok(false);
    }
    let answers = state.answers(alloc)?;
    Ok(all_are_among(&answers, sessions))
}

/// Opens the lock of a proxy, and holds its book against what its sessions did: the shares that they were lent, and the
/// answers that they took, one list for each session. A book that stands with that is given; one that differs is handed out
/// too, as the error. Where memory is refused the proxy comes back as it was.
pub fn close<C: Carrier>(
    alloc: Global,
    recorded: RecordedProxy<C>,
    shares: &[Share],
    sessions: &[Vec<Answer>],
) -> Result<Book, CloseError<C>>
    ensures closed { ClosesSo recorded shares.now (map (λ session. session.items) sessions.now) result }
{
    let (state, opening) = recorded.into_parts();
    let Ok(stands) = stands_with(alloc, &state, &opening, shares, sessions) else {
        return Err(CloseError::OutOfMemory(RecordedProxy::of(state, opening)));
    };
    if stands {
        Ok(state.into_book())
    } else {
        Err(CloseError::BookDiffers(state.into_book()))
    }
}
