//! The service of one client.
ghost use Rattle.std.specs.Prelude.{◌≡◌, ◌≢◌, ◌+◌, ◌≤◌, ℕ, List, [], length, true, false, Err, vec_capacity};
ghost use Rattle.mr_text.specs.Stream.{StandsFor};
ghost use Rattle.mr_text.specs.declared.request.Request.{Request};
ghost use Rattle.mr_node.specs.Output.{is_silent, IsServed};
ghost use Rattle.mr_node.specs.Session.{station, ReadsWithin, SpendsTurns, OneReadFailed, NoReadFailed, LastWriteFailed, NoWriteFailed};
ghost use Rattle.mr_proxy.specs.Answer.{reply_of};
ghost use Rattle.mr_proxy.specs.Sheets.{legs_of};
ghost use Rattle.mr_desks.specs.declared.desk_error.DeskError.{DeskError};
ghost use Rattle.mr_sessions.specs.Account.{account};
ghost use Rattle.mr_sessions.specs.Asking.{desk_rules};
ghost use Rattle.mr_sessions.specs.ClientSession.{ClientSessionIs, FewAreGivenUp, unanswered_count};
ghost use Rattle.mr_sessions.specs.steps.ClientCounts.{ClientCounts};
ghost use Rattle.mr_sessions.specs.steps.ClientStep.{AskedSo, AnsweredSo, RefusalToldSo, ClientRefusalIs, ClientRequestIs, ClientStepIs};
ghost use Rattle.mr_sessions.specs.steps.Standing.{standing};

use crate::carrying::carry_request;
use crate::faults::worker_error_of;
use crate::served::Served;
use crate::session_log::SessionLog;
use mr_clock::Clock;
use mr_desks::{Carrier, Carriers, Desk, DeskError, WorkerError};
use mr_node::Ended;
use mr_node::session::{SessionStep, answer_refusal, is_silent, read_piece, write_answer};
use mr_proxy::Answer;
use mr_text::{FixedBuffer, Reply, Request, RequestReader, Sink, Source, TextError, WriteFault};
use std::alloc::Global;
use std::sync::Wait;

/// Writes what the client is told, unless it wants no answer. WriteFault where the sink failed.
fn write_unless_silent<W: Sink>(
    request: &Request,
    answer: &Answer,
    buffer: &mut FixedBuffer,
    writer: &mut W,
) -> Result<(), WorkerError>
    ensures { AnsweredSo request.now (reply_of answer.now) (W.told writer.old) (W.told writer.new) result }
{
    if is_silent(request) {
        return Ok(());
    }
    match answer.send(buffer, writer) {
        Ok(()) => Ok(()),
        Err(WriteFault) => Err(WorkerError::WriteFault),
    }
}

/// Tells the client why its request was refused, unless it wants no answer. WriteFault where the sink failed.
fn write_refusal<W: Sink>(
    request: &Request,
    refusal: DeskError,
    buffer: &mut FixedBuffer,
    writer: &mut W,
) -> Result<(), WorkerError>
    requires { refusal ≢ DeskError.NoSuchOp }
    ensures { RefusalToldSo request.now refusal (W.told writer.old) (W.told writer.new) result }
{
    let cause = refusal.cause();
    let answer = if is_silent(request) {
        None
    } else {
        Some(Reply::ServerError(cause))
    };
    match write_answer(answer, buffer, writer) {
        Ok(()) => Ok(()),
        Err(fault) => Err(worker_error_of(fault)),
    }
}

/// Issues a request, carries its legs, and writes its answer. The answer is kept whether it could be written or not. A
/// refused issue is answered by its cause. WriteFault where the sink failed, BookDiffers where the request has no answer.
#[tactic(auto, using(crate::proofs::AskLemmas::answered_so, crate::proofs::AskLemmas::refused_so, crate::proofs::AskLemmas::vain_so, crate::proofs::OwnLemmas::its_legs))]
fn ask<C: Carrier, D: Desk<C>, K: Clock, W: Sink, L: Carriers<C>, R: Wait>(
    rt: &R,
    desk: &D,
    clock: &mut K,
    writer: &mut W,
    carriers: &mut L,
    log: &mut SessionLog,
    request: &Request,
) -> Result<(), WorkerError>
    requires asks { request.now ≢ Request.Quit }
    requires legs { legs_of request.now 2 ≤ vec_capacity log.old.destinations }
    requires answer { D.recorded ≡ true → length log.old.answers.items + 1 ≤ vec_capacity log.old.answers }
    ensures { AskedSo (desk_rules K.reads K.failures C.gave D.recorded)
        (standing clock.old log.old (L.told carriers.old) (W.told writer.old))
        (standing clock.new log.new (L.told carriers.new) (W.told writer.new))
        request.now result }
{
    match desk.issue(rt, &mut log.share, clock, request) {
        Err(refusal) => write_refusal(request, refusal, &mut log.buffer, writer),
        Ok(issued) => {
            let Some(answer) = carry_request(rt, desk, carriers, log, request, issued) else {
                return Err(WorkerError::BookDiffers);
            };
            let written = write_unless_silent(request, &answer, &mut log.buffer, writer);
            log.keep(desk.is_recorded(), answer);
            written
        }
    }
}

/// Serves a request and writes its answer, unless the client wants none. A quit ends the session. The room for its answer
/// and for where its legs go is made before the request is issued; where it is refused, nothing is done.
#[tactic(auto, using(crate::proofs::StepLemmas::asked, crate::proofs::StepLemmas::asked_well, mr_node::proofs::ServiceLemmas::served_unless_quit))]
fn answer_request<C: Carrier, D: Desk<C>, K: Clock, W: Sink, L: Carriers<C>, R: Wait>(
    rt: &R,
    desk: &D,
    clock: &mut K,
    writer: &mut W,
    carriers: &mut L,
    log: &mut SessionLog,
    request: &Request,
) -> Result<SessionStep, WorkerError>
    ensures { ClientRequestIs (desk_rules K.reads K.failures C.gave D.recorded)
        (standing clock.old log.old (L.told carriers.old) (W.told writer.old))
        (standing clock.new log.new (L.told carriers.new) (W.told writer.new))
        request.now result }
{
    if let Request::Quit = request {
        return Ok(SessionStep::Ends(Ended::Quit));
    }
    if log.make_room(desk.is_recorded(), request).is_err() {
        return Err(WorkerError::OutOfMemory);
    }
    ask(rt, desk, clock, writer, carriers, log, request)?;
    Ok(SessionStep::Served)
}

/// Answers a refused request, if it gets an answer. Unless reading goes on behind it, it ends the session.
#[tactic(auto, using(crate::proofs::StepLemmas::refused_told))]
fn refuse<W: Sink>(
    refusal: TextError,
    buffer: &mut FixedBuffer,
    writer: &mut W,
) -> Result<SessionStep, WorkerError>
    ensures { ClientRefusalIs refusal (W.told writer.old) result (W.told writer.new) }
{
    match answer_refusal(refusal, buffer, writer) {
        Ok(step) => Ok(step),
        Err(fault) => Err(worker_error_of(fault)),
    }
}

/// Serves the next request that is whole.
fn answer_next<C: Carrier, D: Desk<C>, K: Clock, W: Sink, L: Carriers<C>, R: Wait>(
    rt: &R,
    desk: &D,
    clock: &mut K,
    requests: &mut RequestReader,
    writer: &mut W,
    carriers: &mut L,
    log: &mut SessionLog,
) -> Result<SessionStep, WorkerError>
    requires { requests.old.closed ≡ false }
    ensures { (rest : List ℕ) → StandsFor requests.old rest
        → ClientStepIs (desk_rules K.reads K.failures C.gave D.recorded)
        (standing clock.old log.old (L.told carriers.old) (W.told writer.old))
        (standing clock.new log.new (L.told carriers.new) (W.told writer.new))
        requests.old.ended rest requests.new result }
{
    match requests.next() {
        Ok(None) => Ok(SessionStep::Waits),
        Ok(Some(request)) => answer_request(rt, desk, clock, writer, carriers, log, &request),
        Err(refusal) => refuse(refusal, &mut log.buffer, writer),
    }
}

/// Serves what the reader gives, as `serve_client` does, and notes in its log what was issued and taken.
fn serve_until_end<C: Carrier, D: Desk<C>, K: Clock, S: Source, W: Sink, L: Carriers<C>, R: Wait>(
    rt: &R,
    alloc: Global,
    desk: &D,
    clock: &mut K,
    reader: &mut S,
    writer: &mut W,
    carriers: &mut L,
    log: &mut SessionLog,
    turns: u64,
) -> Result<Ended, WorkerError>
    ensures session { ClientSessionIs (desk_rules K.reads K.failures C.gave D.recorded)
        (S.told reader.old) (S.told reader.new)
        (standing clock.old log.old (L.told carriers.old) (W.told writer.old))
        (standing clock.new log.new (L.told carriers.new) (W.told writer.new))
        result }
    ensures counts { ClientCounts turns (S.told reader.old) (S.told reader.new) result }
{
    let mut requests = RequestReader::new(alloc);
    let mut ended = false;
    let mut turns_left = turns;
    'session: loop {
        match answer_next(rt, desk, clock, &mut requests, writer, carriers, log)? {
            SessionStep::Served => {}
            SessionStep::Ends(how) => return Ok(how),
            SessionStep::Waits => {
                if ended {
                    return Ok(Ended::Ended);
                }
                if turns_left == 0 {
                    return Err(WorkerError::TurnsSpent);
                }
                turns_left -= 1;
                match read_piece(reader, &mut requests, &mut log.buffer) {
                    Ok(at_end) => ended = at_end,
                    Err(fault) => return Err(worker_error_of(fault)),
                }
            }
        }
    }
}

/// Serves one client at a proxy that many threads share: reads a request, issues it, carries its legs, takes what comes back,
/// and writes the answer, then the next, until the client quits, the input ends, or a request is refused after which nothing
/// more can be read; the answer to that refusal is written first. At most `turns` reads are made. One buffer, made before the
/// first read, serves for all reads and answers.
///
/// A request whose issue is refused is answered by its cause. It is given up where a leg can't be sent, where none will come
/// back, where memory for one that came is refused, and once all legs that the session sent came back without an answer.
///
/// ReadFault and WriteFault where the reader or the writer failed; OutOfMemory where the buffer couldn't be made, and then
/// nothing was read or written, or where memory for what was read, for keeping an answer or for noting where its legs go was
/// refused; TurnsSpent where one more read would be needed; BookDiffers where a request
/// that was issued isn't under way when it is given up, or gets an answer that isn't its own. Whatever the end, the share and
/// the answers so far are handed out.
pub fn serve_client<C: Carrier, D: Desk<C>, K: Clock, S: Source, W: Sink, L: Carriers<C>, R: Wait>(
    rt: &R,
    alloc: Global,
    desk: &D,
    clock: &mut K,
    reader: &mut S,
    writer: &mut W,
    carriers: &mut L,
    turns: u64,
) -> Served
    ensures session { ClientSessionIs (desk_rules K.reads K.failures C.gave D.recorded)
        (S.told reader.old) (S.told reader.new)
        (station clock.old (account 0 [] (L.told carriers.old)) (W.told writer.old))
        (station clock.new (account result.share result.answers.items (L.told carriers.new)) (W.told writer.new))
        result.ended }

    // Over a proxy with a book each request that was issued has its answer among these, but for one that has none. Over any
    // other none is kept.
    ensures share { D.recorded ≡ true → result.share ≡ length result.answers.items + unanswered_count result.ended }
    ensures no_book { D.recorded ≡ false → result.answers.items ≡ [] }
    ensures given_up { FewAreGivenUp result.answers.items (L.told carriers.old) (L.told carriers.new) }

    // TurnsSpent comes after all turns. A fault is answered only where that device failed, once, and none is passed over.
    ensures reads { ReadsWithin turns (S.told reader.old) (S.told reader.new) }
    ensures spent { result.ended ≡ Err WorkerError.TurnsSpent
        → SpendsTurns turns (S.told reader.old) (S.told reader.new) }
    ensures read_fault { result.ended ≡ Err WorkerError.ReadFault
        → OneReadFailed (S.told reader.old) (S.told reader.new) }
    ensures no_read_fault { result.ended ≢ Err WorkerError.ReadFault
        → NoReadFailed (S.told reader.old) (S.told reader.new) }
    ensures write_fault { result.ended ≡ Err WorkerError.WriteFault
        → LastWriteFailed (W.told writer.old) (W.told writer.new) }
    ensures no_write_fault { result.ended ≢ Err WorkerError.WriteFault
        → NoWriteFailed (W.told writer.old) (W.told writer.new) }
{
    let share = desk.share();
    let answers = Vec::new(alloc);
    let Ok(buffer) = Box::new(alloc, FixedBuffer::new()) else {
        return Served {
            ended: Err(WorkerError::OutOfMemory),
            share,
            answers,
        };
    };
    let mut log = SessionLog {
        share,
        answers,
        legs_out: 0,
        destinations: Vec::new(alloc),
        buffer,
    };
    let ended = serve_until_end(
        rt, alloc, desk, clock, reader, writer, carriers, &mut log, turns,
    );
    let SessionLog {
        share,
        answers,
        legs_out: _,
        destinations: _,
        buffer: _,
    } = log;
    Served {
        ended,
        share,
        answers,
    }
}
