//! One request to a node and its reply.
ghost use Rattle.std.specs.Prelude.{OnOk};
ghost use Rattle.mr_sessions.specs.Exchange.{wire};
ghost use Rattle.mr_sessions.specs.steps.Exchange.{ExchangeIs};
ghost use Rattle.mr_sessions.specs.steps.Reading.{IsOpen};

use crate::reading::read_reply;
use mr_desks::WorkerError;
use mr_join::LegReply;
use mr_node::NodeCommand;
use mr_proxy::{leg_reply_of, write_command};
use mr_text::{FixedBuffer, ReplyReader, Sink, Source};

/// Sends a node the request of a command, and gives what the reply that stands next says of the leg. At most `turns` reads
/// are made. The request is gathered in the buffer, and what comes is read into it.
///
/// WriteFault where the request couldn't be written, and nothing is read then; Mismatch where the reply is no answer to the
/// command; and the faults of `read_reply`.
pub(crate) fn exchange<S: Source, W: Sink>(
    reader: &mut S,
    writer: &mut W,
    replies: &mut ReplyReader,
    buffer: &mut FixedBuffer,
    turns: u64,
    command: &NodeCommand,
) -> Result<LegReply, WorkerError>
    requires { IsOpen replies.old }
    ensures did { ExchangeIs turns command.now (wire (S.told reader.old) (W.told writer.old) replies.old.kept) result
        (wire (S.told reader.new) (W.told writer.new) replies.new.kept) }
    ensures open { OnOk result (IsOpen replies.new) }
{
    if write_command(command, buffer, writer).is_err() {
        return Err(WorkerError::WriteFault);
    }
    let reply = read_reply(reader, replies, buffer, turns)?;
    leg_reply_of(command, reply).ok_or(WorkerError::Mismatch)
}
