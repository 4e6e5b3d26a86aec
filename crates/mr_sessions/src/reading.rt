//! How the next reply of a node is read.
ghost use Rattle.std.specs.Prelude.{◌≡◌};
ghost use Rattle.mr_sessions.specs.steps.Reading.{IsOpen, NextIs, ReplyPieceIs, ReplyIs, fault_of};

use mr_desks::WorkerError;
use mr_text::{FixedBuffer, Reply, ReplyReader, Source, TextError};

/// The reply that stands next: in what was kept of earlier reads, or behind it in at most `turns` reads more, into the
/// buffer. What comes behind it is kept.
///
/// Mismatch where no reply stands there, LinkBroken at the end of the input, ReadFault where a read failed, TurnsSpent where
/// one more read would be needed, OutOfMemory where memory for the reply was refused.
pub(crate) fn read_reply<S: Source>(
    reader: &mut S,
    replies: &mut ReplyReader,
    buffer: &mut FixedBuffer,
    turns: u64,
) -> Result<Reply, WorkerError>
    requires { IsOpen replies.old }
    ensures { ReplyIs turns replies.old.kept (S.told reader.old) result replies.new (S.told reader.new) }
{
    let mut turns_left = turns;
    'reply: loop {
        if let Some(reply) = next_reply(replies)? {
            return Ok(reply);
        }
        if turns_left == 0 {
            return Err(WorkerError::TurnsSpent);
        }
        turns_left -= 1;
        feed_replies(reader, replies, buffer)?;
    }
}

/// The reply that is whole in what was kept; None where more has to be read.
fn next_reply(replies: &mut ReplyReader) -> Result<Option<Reply>, WorkerError>
    requires { IsOpen replies.old }
    ensures { NextIs replies.old.kept result replies.new }
{
    match replies.next() {
        Ok(reply) => Ok(reply),
        Err(refusal) => Err(fault_of(refusal)),
    }
}

/// What a refusal of the replies is to a link.
fn fault_of(refusal: TextError) -> WorkerError
    ensures { result ≡ fault_of refusal }
{
    match refusal {
        TextError::OutOfMemory => WorkerError::OutOfMemory,
        _ => WorkerError::Mismatch,
    }
}

/// Reads once, and keeps what came. LinkBroken at the end of the input, ReadFault where the read failed, OutOfMemory where
/// there was none for what came.
fn feed_replies<S: Source>(
    reader: &mut S,
    replies: &mut ReplyReader,
    buffer: &mut FixedBuffer,
) -> Result<(), WorkerError>
    requires { IsOpen replies.old }
    ensures { ReplyPieceIs replies.old.kept (S.told reader.old) result replies.new (S.told reader.new) }
{
    if buffer.fill(reader).is_err() {
        return Err(WorkerError::ReadFault);
    }
    let piece = buffer.as_slice();
    if piece.is_empty() {
        return Err(WorkerError::LinkBroken);
    }
    match replies.feed(piece) {
        Ok(()) => Ok(()),
        Err(_) => Err(WorkerError::OutOfMemory),
    }
}
