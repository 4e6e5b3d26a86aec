//! What is heard of the loops of a service, noted for its log.
ghost use Rattle.std.specs.Prelude.{◌≡◌};
ghost use Rattle.mr_servers.specs.Hearing.{trouble_of, happening_of};

use mr_driver::{Hears, LinkTrouble, LoopEvent};
use mr_log::{Happening, Log, Trouble};
use std::sync::{Mutex, Wait};

/// Why a link went down, as a log says it.
fn trouble_of(trouble: LinkTrouble) -> Trouble
    ensures { result ≡ trouble_of trouble }
{
    match trouble {
        LinkTrouble::Ended => Trouble::Ended,
        LinkTrouble::Broken => Trouble::Broken,
        LinkTrouble::Silent => Trouble::Silent,
        LinkTrouble::BadReply => Trouble::BadReply,
        LinkTrouble::NotReached => Trouble::NotReached,
    }
}

/// What a log says of what happened in a loop, where so many clients are served at a time. None of a clock that went back: who looks
/// at the clock says from where to where.
fn happening_of(event: LoopEvent, most: u64) -> Option<Happening>
    ensures { result ≡ happening_of event most }
{
    match event {
        LoopEvent::LinkUp(node) => Some(Happening::LinkUp { node }),
        LoopEvent::LinkDown(node, trouble) => Some(Happening::LinkDown {
            node,
            why: trouble_of(trouble),
        }),
        LoopEvent::ClientsHeldBack => Some(Happening::ClientsHeldBack),
        LoopEvent::ClientsWait => Some(Happening::ClientsWait { most }),
        LoopEvent::NoMemory => Some(Happening::NoMemory),
        LoopEvent::NoDescriptors => Some(Happening::NoDescriptors),
        LoopEvent::NoClock => Some(Happening::NoClock),
        LoopEvent::ClockWentBack => None,
    }
}

/// Notes what is heard in a log. Its lock is held no longer than a note takes.
pub(crate) struct Ears<'a, R: Wait> {
    /// What may wait for the log's lock.
    pub(crate) rt: &'a R,
    /// Where what is heard is noted.
    pub(crate) log: &'a Mutex<Log>,
    /// How many clients are served at a time.
    pub(crate) most: u64,
}

impl<'a, R: Wait> Drop for Ears<'a, R> {
    fn drop(self) {
        let Self {
            rt: _,
            log: _,
            most: _,
        } = self;
    }
}

impl<'a, R: Wait> Hears for Ears<'a, R> {
    fn hear(&self, event: LoopEvent) {
        if let Some(happening) = happening_of(event, self.most) {
            self.log.lock(self.rt).note(happening);
        }
    }
}
