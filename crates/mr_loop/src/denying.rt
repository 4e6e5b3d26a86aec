//! What clients are told while the clock gives no reading.
ghost use Rattle.std.specs.Prelude.{◌≡◌, IfErr, OnOk, OnErr};
ghost use Rattle.mr_loop.specs.Events.{after_all};
ghost use Rattle.mr_loop.specs.NoReading.{DeniesOn, denied_for, denying};

use crate::asker::Limits;
use crate::asking::Pause;
use crate::front::{Front, denial};
use crate::inbox::{Fetched, Inbox, Input};
use mr_counting::ClientCounts;
use mr_node::session::reply_to_refusal;
use mr_text::Cause;
use mr_text::laws::{requests_leave_less, skipped_lines_leave_less};
use std::alloc::AllocError;

/// Tells a client of one thing that it sent: that the clock failed, or why its text is refused. For want of memory nothing changes.
fn deny(front: &mut Front, client: usize, input: &Input) -> Result<(), AllocError>
    ensures told { OnOk result (front.new ≡ after_all (denied_for client input.now) front.old) }
    ensures unchanged { OnErr result (front.new ≡ front.old) }
{
    match input {
        Input::Asks(request) => front.deny(client, denial(request, Cause::ClockFault)),
        Input::Refused(refusal) => match reply_to_refusal(*refusal) {
            Some(reply) => front.tell(client, reply),
            None => Ok(()),
        },
    }
}

/// Tells a client of what it sent, as far as it may be told now, that the clock gives no reading.
pub(crate) fn deny_on(
    front: &mut Front,
    inbox: &mut Inbox,
    counts: &mut ClientCounts,
    limits: Limits,
    client: usize,
) -> Pause
    ensures { DeniesOn limits client result (denying inbox.old front.old counts.old) (denying inbox.new front.new counts.new) }
{
    requests_leave_less();
    skipped_lines_leave_less();
    'input: loop {
        if front.is_behind(limits, client) {
            return Pause::NeedsReader;
        }
        match inbox.fetch() {
            Fetched::Nothing => return Pause::NeedsBytes,
            Fetched::Done => return Pause::IsDone,
            Fetched::NoMemory => {
                counts.add_held(inbox.waits);
                inbox.wait();
                return Pause::NeedsMemory;
            }
            Fetched::Came(input) => {
                if let Err(_) = deny(front, client, &input) {
                    counts.add_held(inbox.waits);
                    inbox.hold(input);
                    return Pause::NeedsMemory;
                }
                inbox.go_on();
            }
        }
    }
}
