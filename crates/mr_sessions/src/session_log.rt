//! What a session keeps of its own while it runs.
ghost use Rattle.std.specs.Prelude.{◌≡◌, ◌≤◌, ◌+◌, true, length, map, OnOk, vec_capacity};
ghost use Rattle.mr_proxy.specs.Sheets.{legs_of};
ghost use Rattle.mr_sessions.specs.Account.{kept_with};
ghost use Rattle.mr_sessions.specs.steps.Destinations.{destination_of};

use crate::destinations::{Destination, note_destinations};
use mr_desks::Share;
use mr_proxy::{Answer, Leg, legs_of};
use mr_text::{FixedBuffer, Request};
use std::alloc::AllocError;

/// The most sides that a delete goes to.
const SIDES: usize = 2;

/// What a session that runs keeps: the answers that it took so far, the counts of what it issued and sent, where the legs of
/// its last request went, and the buffer by which it reads and writes.
#[derive(Drop)]
pub(crate) struct SessionLog {
    /// How many requests it issued.
    pub(crate) share: Share,
    /// The answers that it keeps.
    pub(crate) answers: Vec<Answer>,
    /// How many legs it sent that didn't come back.
    pub(crate) legs_out: u64,
    /// Where the legs of its last request went, in order.
    pub(crate) destinations: Vec<Destination>,
    /// What requests are read into and answers are gathered in.
    pub(crate) buffer: Box<FixedBuffer>,
}

impl SessionLog {
    /// Makes room for where the legs of a request go, and for its answer, where answers are kept.
    pub(crate) fn make_room(&mut self, recorded: bool, request: &Request) -> Result<(), AllocError>
        ensures share { self.new.share ≡ self.old.share }
        ensures answers { self.new.answers.items ≡ self.old.answers.items }
        ensures legs { OnOk result (legs_of request.now 2 ≤ vec_capacity self.new.destinations) }
        ensures answer { OnOk result (recorded ≡ true
            → length self.new.answers.items + 1 ≤ vec_capacity self.new.answers) }
    {
        self.destinations.clear();
        self.destinations.reserve(legs_of(request, SIDES))?;
        if recorded {
            self.answers.reserve(1)?;
        }
        Ok(())
    }

    /// Notes where the legs of a request go.
    pub(crate) fn note(&mut self, legs: &[Leg])
        requires { length legs.now ≤ vec_capacity self.old.destinations }
        ensures share { self.new.share ≡ self.old.share }
        ensures answers { self.new.answers ≡ self.old.answers }
        ensures destinations { self.new.destinations.items ≡ map destination_of legs.now }
    {
        note_destinations(&mut self.destinations, legs);
    }

    /// Keeps an answer, where answers are kept.
    pub(crate) fn keep(&mut self, recorded: bool, answer: Answer)
        requires { recorded ≡ true → length self.old.answers.items + 1 ≤ vec_capacity self.old.answers }
        ensures share { self.new.share ≡ self.old.share }
        ensures answers { self.new.answers.items ≡ kept_with recorded self.old.answers.items answer }
    {
        if recorded {
            self.answers.push_reserved(answer);
        }
    }
}
