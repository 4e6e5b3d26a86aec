//! Counts as the rows of which a snapshot is made.
ghost use Rattle.std.specs.Prelude.{◌≡◌};
ghost use Rattle.mr_counting.specs.Telling.{request_row, request_rows, answer_row, answer_rows};

use crate::answer_counts::AnswerCounts;
use crate::counting::sum_of;
use crate::request_counts::RequestCounts;
use mr_metrics::{AnswerCount, AnswerKind, Command, RequestCount};
use mr_phases::PhaseName;

/// A count of a command in a phase.
fn request_row(command: Command, phase: PhaseName, count: u64) -> RequestCount
    ensures { result ≡ request_row command phase count }
{
    RequestCount {
        command,
        phase,
        count,
    }
}

/// The counts of requests, command by command.
pub(crate) fn request_rows(counts: &RequestCounts) -> [RequestCount; 12]
    ensures { result ≡ request_rows counts.now }
{
    [
        request_row(Command::Get, PhaseName::OldOnly, counts.gets.old_only),
        request_row(
            Command::Get,
            PhaseName::BothReadOld,
            counts.gets.both_read_old,
        ),
        request_row(
            Command::Get,
            PhaseName::BothReadNew,
            counts.gets.both_read_new,
        ),
        request_row(Command::Get, PhaseName::NewOnly, counts.gets.new_only),
        request_row(Command::Set, PhaseName::OldOnly, counts.sets.old_only),
        request_row(
            Command::Set,
            PhaseName::BothReadOld,
            counts.sets.both_read_old,
        ),
        request_row(
            Command::Set,
            PhaseName::BothReadNew,
            counts.sets.both_read_new,
        ),
        request_row(Command::Set, PhaseName::NewOnly, counts.sets.new_only),
        request_row(Command::Delete, PhaseName::OldOnly, counts.deletes.old_only),
        request_row(
            Command::Delete,
            PhaseName::BothReadOld,
            counts.deletes.both_read_old,
        ),
        request_row(
            Command::Delete,
            PhaseName::BothReadNew,
            counts.deletes.both_read_new,
        ),
        request_row(Command::Delete, PhaseName::NewOnly, counts.deletes.new_only),
    ]
}

/// A count of a kind.
fn answer_row(kind: AnswerKind, count: u64) -> AnswerCount
    ensures { result ≡ answer_row kind count }
{
    AnswerCount { kind, count }
}

/// The counts of answers, kind by kind. Those that a node answered `busy` are among the other faults.
pub(crate) fn answer_rows(counts: &AnswerCounts) -> [AnswerCount; 9]
    ensures { result ≡ answer_rows counts.now }
{
    [
        answer_row(AnswerKind::Hit, counts.hits),
        answer_row(AnswerKind::Miss, counts.misses),
        answer_row(AnswerKind::Stored, counts.stored),
        answer_row(AnswerKind::Deleted, counts.deleted),
        answer_row(AnswerKind::NotFound, counts.not_found),
        answer_row(AnswerKind::LegLost, counts.leg_lost),
        answer_row(AnswerKind::OutOfMemory, counts.out_of_memory),
        answer_row(AnswerKind::ClockFault, counts.clock_fault),
        answer_row(
            AnswerKind::OtherFault,
            sum_of(counts.other_fault, counts.busy),
        ),
    ]
}
