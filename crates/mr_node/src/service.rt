//! The service of requests that come as text.
ghost use Rattle.std.specs.Prelude.{◌≡◌, ◌≢◌, ◌<◌, ℕ, List, [], true, false, Some, None, if◌then◌else◌};
ghost use Rattle.mr_text.specs.Stream.{Becomes, StandsFor};
ghost use Rattle.mr_node.specs.Outcome.{Outcome};
ghost use Rattle.mr_node.specs.Service.{ServiceIs};
ghost use Rattle.mr_node.specs.Session.{SessionIs, station, ReadsWithin, SpendsTurns, OneReadFailed, NoReadFailed, LastWriteFailed, NoWriteFailed};
ghost use Rattle.mr_node.specs.steps.Counts.{Counts};
ghost use Rattle.mr_node.specs.steps.Step.{RequestIs, StepIs};

use crate::ended::Ended;
use crate::error::NodeError;
use crate::outcome::outcome;
use crate::perform::Perform;
use crate::session::{
    SessionFault, SessionStep, answer_refusal, is_silent, read_piece, write_answer,
};
use mr_clock::Clock;
use mr_text::{FixedBuffer, Reply, Request, RequestReader, Sink, Source};
use std::alloc::Global;

/// Serves the requests that the reader gives, and writes their answers, until the client quits, the input ends, or a
/// request is refused after which nothing more can be read; the answer to that refusal is written first. At most `turns`
/// reads are made. Each request is served at a reading of the clock taken after it has arrived. One buffer, made before the
/// first read, serves for all reads and answers.
///
/// ReadFault and WriteFault where the reader or the writer failed; OutOfMemory where the buffer couldn't be made, and then
/// nothing was read or written, or where memory for what was read was refused; TurnsSpent where one more read would be
/// needed. Want of memory in a command, and a fault of the clock, are answered.
pub fn serve<P: Perform, S: Source, W: Sink, C: Clock>(
    alloc: Global,
    node: &mut P,
    reader: &mut S,
    writer: &mut W,
    clock: &mut C,
    turns: u64,
) -> Result<Ended, NodeError>
    ensures service { ServiceIs (Outcome C.reads C.failures P.did P.refused) (S.told reader.old) (S.told reader.new)
        (station clock.old node.old (W.told writer.old)) (station clock.new node.new (W.told writer.new)) result }

    // TurnsSpent comes after all turns. A fault is answered only where that device failed, once, and none is passed over.
    ensures reads { ReadsWithin turns (S.told reader.old) (S.told reader.new) }
    ensures spent { result ≡ Err NodeError.TurnsSpent → SpendsTurns turns (S.told reader.old) (S.told reader.new) }
    ensures read_fault { result ≡ Err NodeError.ReadFault → OneReadFailed (S.told reader.old) (S.told reader.new) }
    ensures no_read_fault { result ≢ Err NodeError.ReadFault → NoReadFailed (S.told reader.old) (S.told reader.new) }
    ensures write_fault { result ≡ Err NodeError.WriteFault → LastWriteFailed (W.told writer.old) (W.told writer.new) }
    ensures no_write_fault { result ≢ Err NodeError.WriteFault → NoWriteFailed (W.told writer.old) (W.told writer.new) }
{
    let mut requests = RequestReader::new(alloc);
    match serve_all(alloc, node, reader, &mut requests, writer, clock, turns) {
        Ok(ended) => Ok(ended),
        Err(fault) => Err(NodeError::from(fault)),
    }
}

/// Makes the buffer, and serves all that comes until the session ends.
fn serve_all<P: Perform, S: Source, W: Sink, C: Clock>(
    alloc: Global,
    node: &mut P,
    reader: &mut S,
    requests: &mut RequestReader,
    writer: &mut W,
    clock: &mut C,
    turns: u64,
) -> Result<Ended, SessionFault>
    requires { Becomes requests.old [] false false }
    ensures session { SessionIs (Outcome C.reads C.failures P.did P.refused) (S.told reader.old) (S.told reader.new)
        (station clock.old node.old (W.told writer.old)) (station clock.new node.new (W.told writer.new)) result }
    ensures counts { Counts turns (S.told reader.old) (S.told reader.new) result }
{
    let Ok(mut buffer) = Box::new(alloc, FixedBuffer::new()) else {
        return Err(SessionFault::OutOfMemory);
    };
    let mut ended = false;
    let mut turns_left = turns;
    'session: loop {
        match serve_next(alloc, node, requests, &mut buffer, writer, clock) {
            Ok(SessionStep::Served) => {}
            Ok(SessionStep::Ends(how)) => return Ok(how),
            Ok(SessionStep::Waits) => {
                if ended {
                    return Ok(Ended::Ended);
                }
                if turns_left == 0 {
                    return Err(SessionFault::TurnsSpent);
                }
                turns_left -= 1;
                match read_piece(reader, requests, &mut buffer) {
                    Ok(last) => ended = last,
                    Err(fault) => return Err(fault),
                }
            }
            Err(fault) => return Err(fault),
        }
    }
}

/// Serves the next request that is whole.
fn serve_next<P: Perform, W: Sink, C: Clock>(
    alloc: Global,
    node: &mut P,
    requests: &mut RequestReader,
    buffer: &mut FixedBuffer,
    writer: &mut W,
    clock: &mut C,
) -> Result<SessionStep, SessionFault>
    requires { requests.old.closed ≡ false }
    ensures { (rest : List ℕ) → StandsFor requests.old rest
        → StepIs (Outcome C.reads C.failures P.did P.refused) (station clock.old node.old (W.told writer.old)) (station clock.new node.new (W.told writer.new))
        requests.old.ended rest requests.new result }
{
    match requests.next() {
        Ok(None) => Ok(SessionStep::Waits),
        Ok(Some(request)) => serve_request(alloc, node, buffer, writer, clock, request),
        Err(refusal) => answer_refusal(refusal, buffer, writer),
    }
}

/// Serves a request and writes its answer, unless the client wants none. A quit ends the service.
#[tactic(auto, using(crate::proofs::ServiceLemmas::served_unless_quit))]
fn serve_request<P: Perform, W: Sink, C: Clock>(
    alloc: Global,
    node: &mut P,
    buffer: &mut FixedBuffer,
    writer: &mut W,
    clock: &mut C,
    request: Request,
) -> Result<SessionStep, SessionFault>
    ensures { RequestIs (Outcome C.reads C.failures P.did P.refused) (station clock.old node.old (W.told writer.old))
        (station clock.new node.new (W.told writer.new)) request result }
{
    if let Request::Quit = request {
        return Ok(SessionStep::Ends(Ended::Quit));
    }
    let silent = is_silent(&request);
    let reply = outcome(alloc, node, clock, request);
    write_answer(answer_to(silent, reply), buffer, writer)?;
    Ok(SessionStep::Served)
}

/// What a client is answered, where it wants an answer.
fn answer_to(silent: bool, reply: Reply) -> Option<Reply>
    ensures { result ≡ (if silent then None else Some reply) }
{
    if silent { None } else { Some(reply) }
}
