//! What is served of what a client of a node's loop sent.
ghost use Rattle.std.specs.Prelude.{◌≡◌, None};
ghost use Rattle.mr_node.specs.Output.{IsServed};
ghost use Rattle.mr_loop.specs.node.Serving.{IsTold, IsSound, ServesOn, seat};
ghost use Rattle.mr_loop.specs.steps.Serving.{IsAsked, ServesRequest, ServesInput};

use crate::inbox::{Fetched, Input};
use crate::node::cache::Cache;
use crate::node::client::NodeClient;
use crate::node::counts::{ServedCounts, keys_asked};
use mr_node::session::{is_silent, reply_to_refusal};
use mr_text::laws::{requests_leave_less, skipped_lines_leave_less};
use mr_text::{Cause, FixedBuffer, Reply, Request};
use std::alloc::Global;

/// Why no more of what a client sent is served.
#[derive(Clone, Copy, Debug, PartialEq, Eq)]
pub enum NodePause {
    /// All that is whole is served: more bytes are needed.
    NeedsBytes,
    /// The client has too much of its answers unread: what else it sent is kept.
    NeedsReader,
    /// Memory for its next request, or for the text of an answer, is refused: both are kept.
    NeedsMemory,
    /// Nothing more is read of the client: it may be closed once all is written to it.
    IsDone,
}

/// What is told in place of an outcome for whose text there is no memory: items are dropped, and the client is told so.
fn without_items(outcome: Reply) -> Reply
    ensures { IsTold outcome result }
{
    match outcome {
        Reply::Items(_) => Reply::ServerError(Cause::OutOfMemory),
        outcome => outcome,
    }
}

/// Asks the cache what a client asks, in one step at this reading, and tells the client what it came to, unless it wants no
/// answer.
fn serve_request<C: Cache>(
    alloc: Global,
    cache: &mut C,
    client: &mut NodeClient,
    counts: &mut ServedCounts,
    buffer: &mut FixedBuffer,
    reading: u64,
    request: Request,
)
    requires served { IsServed request }
    requires none_due { client.old.due ≡ None }
    ensures { ServesRequest C.does reading request (seat cache.old client.old counts.old) (seat cache.new client.new counts.new) }
{
    let keys = keys_asked(&request);
    let silent = is_silent(&request);
    let outcome = cache.answer(alloc, reading, request);
    if silent || client.out.put_reply(&outcome, buffer).is_ok() {
        counts.add_reply(keys, &outcome);
        return;
    }
    let told = without_items(outcome);
    counts.add_reply(keys, &told);
    client.tell(told, buffer);
}

/// Serves one thing that a client sent. A text that is refused is answered where it gets an answer.
fn serve<C: Cache>(
    alloc: Global,
    cache: &mut C,
    client: &mut NodeClient,
    counts: &mut ServedCounts,
    buffer: &mut FixedBuffer,
    reading: u64,
    input: Input,
)
    requires asked { IsAsked input }
    requires none_due { client.old.due ≡ None }
    ensures { ServesInput C.does reading input (seat cache.old client.old counts.old) (seat cache.new client.new counts.new) }
{
    match input {
        Input::Asks(request) => serve_request(
            alloc, cache, client, counts, buffer, reading, request,
        ),
        Input::Refused(refusal) => {
            if let Some(reply) = reply_to_refusal(refusal) {
                client.tell(reply, buffer);
            }
        }
    }
}

/// Serves what a client sent, as far as it may be served now, each request at this reading.
pub(crate) fn serve_on<C: Cache>(
    alloc: Global,
    cache: &mut C,
    client: &mut NodeClient,
    counts: &mut ServedCounts,
    buffer: &mut FixedBuffer,
    most_unread: usize,
    reading: u64,
) -> NodePause
    requires { IsSound client.old.inbox }
    ensures serves { ServesOn C.does reading most_unread result (seat cache.old client.old counts.old) (seat cache.new client.new counts.new) }
    ensures sound { IsSound client.new.inbox }
{
    requests_leave_less();
    skipped_lines_leave_less();
    'input: loop {
        if client.tell_due(buffer).is_err() {
            return NodePause::NeedsMemory;
        }
        if client.out.len() > most_unread {
            return NodePause::NeedsReader;
        }
        match client.inbox.fetch() {
            Fetched::Nothing => return NodePause::NeedsBytes,
            Fetched::Done => return NodePause::IsDone,
            Fetched::NoMemory => return NodePause::NeedsMemory,
            Fetched::Came(input) => serve(alloc, cache, client, counts, buffer, reading, input),
        }
    }
}
