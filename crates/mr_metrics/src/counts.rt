//! What a proxy counts, by what tells one count from another.
ghost use Rattle.std.specs.Prelude.{◌≡◌, ◌++◌, OnOk};
ghost use Rattle.mr_metrics.specs.Exposition.{family_head};
ghost use Rattle.mr_metrics.specs.declared.exposition.Kind.TheVariants.{Counter};
ghost use Rattle.mr_metrics.specs.Counts.{command_text, answer_text, request_sample, request_samples, requests_family, answer_samples, answers_family};

use crate::exposition::{Kind, push_family, push_sample};
use crate::families::push_labelled;
use crate::label::Label;
use crate::number::Number;
use mr_phases::PhaseName;
use std::alloc::AllocError;

/// What a client asks of a proxy.
#[derive(Clone, Copy, Debug, PartialEq, Eq)]
pub enum Command {
    /// Values.
    Get,
    /// To store a value.
    Set,
    /// To delete a key.
    Delete,
}

impl Command {
    /// Its word.
    fn as_str(self) -> &'static str
        ensures { result.now ≡ command_text self }
    {
        match self {
            Command::Get => "get",
            Command::Set => "set",
            Command::Delete => "delete",
        }
    }
}

/// What clients are answered. Of a get each key is a hit or a miss; all else is counted once for each request.
#[derive(Clone, Copy, Debug, PartialEq, Eq)]
pub enum AnswerKind {
    /// A key that was found.
    Hit,
    /// A key that was not.
    Miss,
    /// STORED.
    Stored,
    /// DELETED.
    Deleted,
    /// NOT_FOUND.
    NotFound,
    /// A leg was lost.
    LegLost,
    /// Memory was refused.
    OutOfMemory,
    /// The clock gave no reading.
    ClockFault,
    /// Any other failure, as one that a node told.
    OtherFault,
}

impl AnswerKind {
    /// Its words.
    fn as_str(self) -> &'static str
        ensures { result.now ≡ answer_text self }
    {
        match self {
            AnswerKind::Hit => "hit",
            AnswerKind::Miss => "miss",
            AnswerKind::Stored => "stored",
            AnswerKind::Deleted => "deleted",
            AnswerKind::NotFound => "not found",
            AnswerKind::LegLost => "leg lost",
            AnswerKind::OutOfMemory => "out of memory",
            AnswerKind::ClockFault => "clock fault",
            AnswerKind::OtherFault => "other fault",
        }
    }
}

/// How many requests of a command came to an answer, of those judged in a phase.
#[derive(Clone, Copy, Debug)]
pub struct RequestCount {
    /// The command.
    pub command: Command,
    /// The phase that was in force.
    pub phase: PhaseName,
    /// How many.
    pub count: u64,
}

/// How many answers were of a kind.
#[derive(Clone, Copy, Debug)]
pub struct AnswerCount {
    /// The kind.
    pub kind: AnswerKind,
    /// How many.
    pub count: u64,
}

/// Adds how many requests of a command came to an answer, of those judged in a phase.
fn push_request(text: &mut Vec<u8>, name: &str, row: &RequestCount) -> Result<(), AllocError>
    ensures { OnOk result (text.new.items ≡ text.old.items ++ request_sample name.now row.now) }
{
    let command = Label {
        name: "command",
        value: row.command.as_str(),
    };
    let phase = Label {
        name: "phase",
        value: row.phase.as_str(),
    };
    push_sample(text, name, &[command, phase], Number::Whole(row.count))
}

/// Adds the samples of requests, in order.
fn push_each_request(
    text: &mut Vec<u8>,
    name: &str,
    rows: &[RequestCount],
) -> Result<(), AllocError>
    ensures { OnOk result (text.new.items ≡ text.old.items ++ request_samples name.now rows.now) }
{
    for row in rows {
        push_request(text, name, row)?;
    }
    Ok(())
}

/// Adds a counter with these samples.
fn push_family_of_requests(
    text: &mut Vec<u8>,
    name: &str,
    help: &str,
    rows: &[RequestCount],
) -> Result<(), AllocError>
    ensures { OnOk result (text.new.items ≡ text.old.items
        ++ (family_head name.now help.now Counter ++ request_samples name.now rows.now)) }
{
    push_family(text, name, help, Kind::Counter)?;
    push_each_request(text, name, rows)?;
    Ok(())
}

/// Adds how many requests came to an answer, by command and phase.
pub(crate) fn push_requests(text: &mut Vec<u8>, rows: &[RequestCount]) -> Result<(), AllocError>
    ensures { OnOk result (text.new.items ≡ text.old.items ++ requests_family rows.now) }
{
    push_family_of_requests(
        text,
        "migctl_proxy_requests_total",
        "Requests that came to an answer, by command and by the phase of their reading.",
        rows,
    )
}

/// Adds the samples of answers, in order.
fn push_each_answer(text: &mut Vec<u8>, name: &str, rows: &[AnswerCount]) -> Result<(), AllocError>
    ensures { OnOk result (text.new.items ≡ text.old.items ++ answer_samples name.now rows.now) }
{
    for row in rows {
        push_labelled(text, name, "kind", row.kind.as_str(), row.count)?;
    }
    Ok(())
}

/// Adds a counter with these samples.
fn push_family_of_answers(
    text: &mut Vec<u8>,
    name: &str,
    help: &str,
    rows: &[AnswerCount],
) -> Result<(), AllocError>
    ensures { OnOk result (text.new.items ≡ text.old.items
        ++ (family_head name.now help.now Counter ++ answer_samples name.now rows.now)) }
{
    push_family(text, name, help, Kind::Counter)?;
    push_each_answer(text, name, rows)?;
    Ok(())
}

/// Adds what clients were answered, by kind.
pub(crate) fn push_answers(text: &mut Vec<u8>, rows: &[AnswerCount]) -> Result<(), AllocError>
    ensures { OnOk result (text.new.items ≡ text.old.items ++ answers_family rows.now) }
{
    push_family_of_answers(
        text,
        "migctl_proxy_answers_total",
        "What clients were answered: keys of gets that were found or not, and answers to requests.",
        rows,
    )
}
