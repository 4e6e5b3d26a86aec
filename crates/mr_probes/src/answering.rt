//! What a reply says of the request before it.
ghost use Rattle.std.specs.Prelude.{◌≡◌, MatchOption};
ghost use Rattle.mr_probes.specs.declared.answering.Said.{Said};
ghost use Rattle.mr_probes.specs.Said.{answer_of, outcome_of, acknowledges, server_trouble, error_of, LegSays, Says, HitSays};

use crate::stamp::{Stamp, read_stamp};
use mr_canary::Answer;
use mr_join::LegReply;
use mr_node::NodeCommand;
use mr_proxy::leg_reply_of;
use mr_sightings::{Outcome, Trouble};
use mr_text::{Block, Cause, Reply};

/// What came of a request.
#[derive(Clone, Copy, Debug, PartialEq, Eq)]
pub enum Said {
    /// The key has the value of this set.
    Hit(Stamp),
    /// The key has no value.
    Miss,
    /// The value was stored.
    Stored,
    /// The value was taken away.
    Deleted,
    /// There was nothing to take away.
    NotFound,
    /// No answer came, for this reason.
    Failed(Trouble),
}

impl Said {
    /// What the judge is told.
    pub(crate) fn answer(self) -> Answer
        ensures { result ≡ answer_of self }
    {
        match self {
            Said::Hit(stamp) => Answer::Hit { value: stamp.value },
            Said::Miss => Answer::Miss,
            Said::Stored => Answer::Stored,
            Said::Deleted => Answer::Deleted,
            Said::NotFound => Answer::NotFound,
            Said::Failed(_) => Answer::Unanswered,
        }
    }

    /// What is counted.
    pub(crate) fn outcome(self) -> Outcome
        ensures { result ≡ outcome_of self }
    {
        match self {
            Said::Hit(_) => Outcome::Hit,
            Said::Miss => Outcome::Miss,
            Said::Stored => Outcome::Stored,
            Said::Deleted => Outcome::Acknowledged,
            Said::NotFound => Outcome::Acknowledged,
            Said::Failed(trouble) => Outcome::Failed(trouble),
        }
    }

    /// Whether it acknowledges a delete.
    pub(crate) fn acknowledges(self) -> bool
        ensures { result ≡ acknowledges self }
    {
        match self {
            Said::Deleted | Said::NotFound => true,
            _ => false,
        }
    }
}

/// The trouble that a server tells by this cause.
fn server_trouble(cause: &Cause) -> Trouble
    ensures { result ≡ server_trouble cause.now }
{
    match cause {
        Cause::Busy => Trouble::Busy,
        Cause::LegLost => Trouble::LegLost,
        Cause::ClockFault => Trouble::ClockFault,
        Cause::OutOfMemory => Trouble::OutOfMemory,
        Cause::NodeRefused => Trouble::NodeRefused,
        _ => Trouble::OtherServerError,
    }
}

/// The trouble that a reply tells, where it is an error.
fn error_of(reply: &Reply) -> Option<Trouble>
    ensures { result ≡ error_of reply.now }
{
    match reply {
        Reply::ServerError(cause) => Some(server_trouble(cause)),
        Reply::ClientError(_) => Some(Trouble::ClientError),
        Reply::Error => Some(Trouble::Error),
        _ => None,
    }
}

/// What a hit of this data says. None where it isn't that of a set of this run and key, of which there were so many.
fn hit_of(run: u64, key: usize, sets: u64, block: &Block) -> Option<Said>
    ensures { MatchOption result ((stamp : Stamp) → ¬ HitSays run key sets block.now stamp)
        (λ said. (stamp : Stamp) × (said ≡ Said.Hit stamp) × HitSays run key sets block.now stamp) }
{
    let stamp = read_stamp(block.as_bytes())?;
    if stamp.run == run && stamp.key == key as u64 && stamp.value < sets {
        Some(Said::Hit(stamp))
    } else {
        None
    }
}

/// What the reply says of the request for a command of this key, of which there were so many sets. None where it is no answer to it.
pub(crate) fn said_of(
    command: &NodeCommand,
    run: u64,
    key: usize,
    sets: u64,
    reply: Reply,
) -> Option<Said>
    ensures { MatchOption result ((said : Said) → ¬ Says command.now run key sets reply said) (Says command.now run key sets reply) }
{
    if let Some(trouble) = error_of(&reply) {
        return Some(Said::Failed(trouble));
    }
    match leg_reply_of(command, reply)? {
        LegReply::Hit { flags: _, block } => hit_of(run, key, sets, &block),
        LegReply::Miss => Some(Said::Miss),
        LegReply::Stored => Some(Said::Stored),
        LegReply::Deleted => Some(Said::Deleted),
        LegReply::NotFound => Some(Said::NotFound),
        LegReply::Failed(_) => None,
    }
}
