//! What is begun of what a client sent.
ghost use Rattle.std.specs.Prelude.{◌≡◌, ◌≢◌, true, false};
ghost use Rattle.mr_text.specs.declared.cause.Cause.TheVariants.{OutOfMemory};
ghost use Rattle.mr_loop.specs.Asking.{AsksOn, denial_of, is_full};
ghost use Rattle.mr_loop.specs.steps.Asking.{AnswersSo, AsksSo, IsSentOff, RefusesSo, asking};

use crate::asker::Asker;
use crate::clearing::first_full;
use crate::front::{Begun, Front, denial_of};
use crate::inbox::{Fetched, Inbox, Input};
use crate::link::Link;
use crate::sending::{Scratch, send_all};
use mr_counting::ClientCounts;
use mr_history::OpId;
use mr_node::session::{is_silent, reply_to_refusal};
use mr_proxy::{Issued, Leg};
use mr_text::laws::{requests_leave_less, skipped_lines_leave_less};
use mr_text::{Cause, Request, TextError};

/// Why no more of what a client sent is begun.
#[derive(Clone, Copy, Debug, PartialEq, Eq)]
pub enum Pause {
    /// All that is whole is begun: more bytes are needed.
    NeedsBytes,
    /// As many requests are under way as there is room for: its next request is held back.
    NeedsRoom,
    /// The client has too much of its answers unread, or too many of its requests are begun that it wasn't told of.
    NeedsReader,
    /// As many legs as the bound await replies over a link that its next request needs: it is held back. The link is that of
    /// this number, the first such one in the order of the request's legs.
    NeedsQueue(usize),
    /// Memory for its next request is refused: it is held back.
    NeedsMemory,
    /// Nothing more is read of the client: it may be closed once all is written to it.
    IsDone,
}

/// Sends the legs of a request that was issued. Where one has no link, the request is given up at once; where memory for one
/// is refused, none goes, and the client is told this in its turn. Whether all of them went.
#[inline(always)]
fn send_off(
    front: &mut Front,
    links: &mut [Link],
    scratch: &mut Scratch,
    asker: Asker,
    op: OpId,
    legs: &mut Vec<Leg>,
    is_silent: bool,
) -> bool
    ensures { IsSentOff asker front.old.core.routing op legs.old.items (denial_of is_silent OutOfMemory) front.old links.old front.new links.new }
{
    match send_all(links, scratch, front.core().routing(), asker, legs) {
        Ok(true) => true,
        Ok(false) => {
            front.give_up(asker.client, op);
            false
        }
        Err(_) => {
            front.withdraw(asker.client, op, denial_of(is_silent, Cause::OutOfMemory));
            false
        }
    }
}

/// Issues a request, and sends its legs. The request comes back where there was no memory for its turn.
#[inline(always)]
fn ask(
    front: &mut Front,
    links: &mut [Link],
    scratch: &mut Scratch,
    asker: Asker,
    request: Request,
) -> Result<(), Request>
    requires asks { request ≢ Request.Quit }
    requires room { is_full front.old.core ≡ false }
    ensures { AsksSo asker front.old links.old request result front.new links.new }
{
    let is_silent = is_silent(&request);
    match front.issue(asker, request) {
        Begun::Later(request) => Err(request),
        Begun::Told => Ok(()),
        Begun::Issued(issued) => {
            let Issued { op, mut legs } = issued;
            let _ = send_off(front, links, scratch, asker, op, &mut legs, is_silent);
            front.give_legs_back(legs);
            Ok(())
        }
    }
}

/// Does what a client sent. It comes back where it is held back, with the reason.
#[inline(always)]
fn answer(
    front: &mut Front,
    links: &mut [Link],
    scratch: &mut Scratch,
    asker: Asker,
    input: Input,
) -> Result<(), (Pause, Input)>
    ensures { AnswersSo asker front.old links.old input result front.new links.new }
{
    match input {
        Input::Refused(refusal) => answer_refusal(front, asker, refusal),
        Input::Asks(request) => answer_request(front, links, scratch, asker, request),
    }
}

/// Tells a client why its text is refused, if it is told. It stays a call, since room for replies would be cleared at each request else.
#[inline(never)]
fn answer_refusal(front: &mut Front, asker: Asker, refusal: TextError) -> Result<(), (Pause, Input)>
    ensures { RefusesSo asker refusal front.old result front.new }
{
    let Some(reply) = reply_to_refusal(refusal) else {
        return Ok(());
    };
    match front.tell(asker.client, reply) {
        Ok(()) => Ok(()),
        Err(_) => Err((Pause::NeedsMemory, Input::Refused(refusal))),
    }
}

/// Begins a request, unless there is no room for it or a link that it needs has too many legs.
#[inline(always)]
fn answer_request(
    front: &mut Front,
    links: &mut [Link],
    scratch: &mut Scratch,
    asker: Asker,
    request: Request,
) -> Result<(), (Pause, Input)>
    ensures { AnswersSo asker front.old links.old (Input.Asks request) result front.new links.new }
{
    if let Request::Quit = &request {
        return Ok(());
    }
    if front.is_full() {
        return Err((Pause::NeedsRoom, Input::Asks(request)));
    }
    if let Some(number) = first_full(
        links,
        asker.limits.most_legs,
        front.core(),
        asker.reading,
        &request,
    ) {
        return Err((Pause::NeedsQueue(number), Input::Asks(request)));
    }
    match ask(front, links, scratch, asker, request) {
        Ok(()) => Ok(()),
        Err(request) => Err((Pause::NeedsMemory, Input::Asks(request))),
    }
}

/// Does what a client sent, as far as it may be done now.
pub(crate) fn ask_on(
    front: &mut Front,
    links: &mut [Link],
    scratch: &mut Scratch,
    inbox: &mut Inbox,
    counts: &mut ClientCounts,
    asker: Asker,
) -> Pause
    ensures { AsksOn asker result (asking inbox.old front.old links.old counts.old) (asking inbox.new front.new links.new counts.new) }
{
    requests_leave_less();
    skipped_lines_leave_less();
    'input: loop {
        if front.is_behind(asker.limits, asker.client) {
            return Pause::NeedsReader;
        }
        match inbox.fetch() {
            Fetched::Nothing => return Pause::NeedsBytes,
            Fetched::Done => return Pause::IsDone,
            Fetched::NoMemory => {
                counts.add_held(inbox.waits);
                inbox.wait();
                return Pause::NeedsMemory;
            }
            Fetched::Came(input) => {
                if let Err((pause, input)) = answer(front, links, scratch, asker, input) {
                    counts.add_held(inbox.waits);
                    inbox.hold(input);
                    return pause;
                }
                inbox.go_on();
            }
        }
    }
}
