//! One session over a stream of requests, whatever performs them: how it ends, what gets no answer, the answer to a
//! refusal, reading a piece, and writing an answer.
ghost use Rattle.std.specs.Prelude.{◌≡◌, ◌+◌, ℕ, List, false, OnErr};
ghost use Rattle.mr_text.specs.Source.{least_with};
ghost use Rattle.mr_text.specs.Stream.{StandsFor, skips_line};
ghost use Rattle.mr_node.specs.Output.{is_silent, reply_to_refusal};
ghost use Rattle.mr_node.specs.Session.{PieceIs, WritesAnswer, AnswersRefusal, read_length};

use crate::ended::Ended;
use mr_text::{
    Cause, FixedBuffer, Reply, Request, RequestReader, Sink, Source, TextError, WriteFault,
    send_reply,
};
use thiserror::Error;

/// Why a session ended early.
#[derive(Clone, Copy, Debug, PartialEq, Eq, Error)]
pub enum SessionFault {
    /// The source of requests failed.
    #[error("reading requests failed")]
    ReadFault,
    /// The sink of answers failed.
    #[error("writing an answer failed")]
    WriteFault,
    /// All the reads that were allowed were made.
    #[error("all allowed reads were made")]
    TurnsSpent,
    /// Memory for reading was refused.
    #[error("out of memory")]
    OutOfMemory,
}

/// What one step of a session came to.
#[derive(Clone, Copy, Debug, PartialEq, Eq)]
pub enum SessionStep {
    /// What was read is answered, where it gets an answer: a request that was done, or a line with an unknown command.
    Served,
    /// No request is whole: more has to be read, or all was.
    Waits,
    /// The session ends so.
    Ends(Ended),
}

/// Reads once, into the buffer, and hands what came to the reader of requests. Whether it was the end of the input.
///
/// ReadFault where the source failed. OutOfMemory where there was none for what came, which is lost then. Either leaves
/// the reader of requests as it was.
pub fn read_piece<S: Source>(
    reader: &mut S,
    requests: &mut RequestReader,
    buffer: &mut FixedBuffer,
) -> Result<bool, SessionFault>
    requires not_ended { requests.old.ended ≡ false }
    requires not_closed { requests.old.closed ≡ false }
    ensures once { (S.told reader.new).reads ≡ (S.told reader.old).reads + 1 }
    ensures offered { (S.told reader.new).least_room ≡ least_with (S.told reader.old).least_room read_length }
    ensures piece { (rest : List ℕ) → StandsFor requests.old rest
        → PieceIs read_length rest requests.new (S.told reader.old) result (S.told reader.new) }
    ensures unfed { OnErr result (requests.new ≡ requests.old) }
{
    if buffer.fill(reader).is_err() {
        return Err(SessionFault::ReadFault);
    }
    let piece = buffer.as_slice();
    if piece.is_empty() {
        requests.end();
        return Ok(true);
    }
    match requests.feed(piece) {
        Ok(()) => Ok(false),
        Err(_) => Err(SessionFault::OutOfMemory),
    }
}

/// Whether the client wants no answer.
pub fn is_silent(request: &Request) -> bool
    ensures { result ≡ is_silent request.now }
{
    match request {
        Request::Get { .. } => false,
        Request::Set { noreply, .. } | Request::Delete { noreply, .. } => *noreply,
        Request::Quit => true,
    }
}

/// The answer to a refused request, if it gets one.
pub fn reply_to_refusal(refusal: TextError) -> Option<Reply>
    ensures { result ≡ reply_to_refusal refusal }
{
    match refusal {
        TextError::LineTooLong => Some(Reply::ClientError(Cause::LineTooLong)),
        TextError::BadKey => Some(Reply::ClientError(Cause::BadKey)),
        TextError::BadNumber => Some(Reply::ClientError(Cause::BadNumber)),
        TextError::WrongWords => Some(Reply::ClientError(Cause::WrongWords)),
        TextError::DataTooLong => Some(Reply::ClientError(Cause::DataTooLong)),
        TextError::BadDataEnd => Some(Reply::ClientError(Cause::BadDataEnd)),
        TextError::UnknownCommand { .. } => Some(Reply::Error),
        TextError::Truncated | TextError::Closed | TextError::OutOfMemory => None,
    }
}

/// Whether reading goes on behind what was refused.
pub fn skips_line(refusal: TextError) -> bool
    ensures { result ≡ skips_line refusal }
{
    match refusal {
        TextError::UnknownCommand { closes } => !closes,
        _ => false,
    }
}

/// Answers a refused request, if it gets an answer. Unless reading goes on behind it, it ends the session.
///
/// OutOfMemory, without an answer, where memory for the request was refused. WriteFault where the sink failed.
pub fn answer_refusal<W: Sink>(
    refusal: TextError,
    buffer: &mut FixedBuffer,
    writer: &mut W,
) -> Result<SessionStep, SessionFault>
    ensures { AnswersRefusal refusal (W.told writer.old) result (W.told writer.new) }
{
    if refusal == TextError::OutOfMemory {
        return Err(SessionFault::OutOfMemory);
    }
    write_answer(reply_to_refusal(refusal), buffer, writer)?;
    if skips_line(refusal) {
        Ok(SessionStep::Served)
    } else {
        Ok(SessionStep::Ends(Ended::Refused(refusal.number())))
    }
}

/// Writes an answer, gathered in the buffer. Where there is none the sink isn't touched. WriteFault where the sink failed.
pub fn write_answer<W: Sink>(
    answer: Option<Reply>,
    buffer: &mut FixedBuffer,
    writer: &mut W,
) -> Result<(), SessionFault>
    ensures { WritesAnswer answer (W.told writer.old) result (W.told writer.new) }
{
    let Some(reply) = answer else {
        return Ok(());
    };
    match send_reply(&reply, buffer, writer) {
        Ok(()) => Ok(()),
        Err(WriteFault) => Err(SessionFault::WriteFault),
    }
}
