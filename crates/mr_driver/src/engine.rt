//! A loop's machine, and what it is driven with.
ghost use Rattle.std.specs.Prelude.{◌≡◌};

use crate::clocks::Clocks;
use crate::hearing::{Hears, LoopEvent};
use crate::pace::Pace;
use crate::waits::Waits;
use mio::{Events, Poll};
use mr_counting::ClockWatch;
use std::alloc::{AllocError, Global};
use std::io;
use std::net::Net;
use std::time::Clock;

/// How many events are looked at in one turn.
const EVENTS: usize = 1_024;

/// How many bytes of a socket are read in one turn, so that each other one has its turn too.
const SHARE: usize = 65_536;

/// Room for the events of a turn, and for what is read of a socket in it.
pub(crate) fn room_of_turns(alloc: Global) -> Result<(Events, Vec<u8>), AllocError> {
    let events = Events::with_capacity(alloc, EVENTS)?;
    let input = vec![in alloc; 0u8; SHARE]?;
    Ok((events, input))
}

/// How long is waited for who is silent, in microseconds, of which `u64::MAX` is no bound.
#[derive(Clone, Copy, Debug)]
pub(crate) struct Timing {
    /// How long a node may leave a dial unanswered.
    pub(crate) leg_bound: u64,
    /// How long a client may send nothing and take nothing.
    pub(crate) idle_bound: u64,
}

impl Timing {
    /// Whether clients mustn't be silent for too long.
    pub(crate) fn is_idle_bounded(self) -> bool {
        self.idle_bound < u64::MAX
    }
}

/// A loop's machine, and what it is driven with: where sockets are registered, the time, and who hears of what happens.
pub struct Engine<'a, R: Net + Clock, E: Hears, M: Drop> {
    pub(crate) rt: &'a R,
    pub(crate) ears: &'a E,
    pub(crate) poll: Poll,
    pub(crate) clocks: Clocks<'a, R>,
    pub(crate) timing: Timing,
    /// The time of this turn, in microseconds.
    pub(crate) now: u64,
    pub(crate) machine: M,
}

impl<'a, R: Net + Clock, E: Hears, M: Drop> Drop for Engine<'a, R, E, M> {
    fn drop(self) {
        let Self {
            rt: _,
            ears: _,
            poll: _,
            clocks: _,
            timing: _,
            now: _,
            machine: _,
        } = self;
    }
}

impl<'a, R: Net + Clock, E: Hears, M: Drop> Engine<'a, R, E, M> {
    /// The engine of a machine. The clock of phases is watched there; the other one begins at its first reading.
    pub(crate) fn new(
        rt: &'a R,
        ears: &'a E,
        poll: Poll,
        watch: &'a ClockWatch,
        timing: Timing,
        machine: M,
    ) -> Engine<'a, R, E, M>
        ensures now { result.now ≡ 0 }
        ensures machine { result.machine ≡ machine }
    {
        Engine {
            rt,
            ears,
            poll,
            clocks: Clocks::new(rt, watch),
            timing,
            now: 0,
            machine,
        }
    }

    /// This happened just now.
    pub(crate) fn hear(&self, event: LoopEvent) {
        self.ears.hear(event);
    }

    /// It is as late as the clock says, and never earlier than it was. Whether the clock said anything.
    pub(crate) fn move_on(&mut self) -> bool
        ensures { self.new.machine ≡ self.old.machine }
    {
        match self.clocks.microseconds() {
            Some(now) => {
                self.now = self.now.max(now);
                true
            }
            None => {
                self.hear(LoopEvent::NoClock);
                false
            }
        }
    }

    /// Waits for what happens, at this pace. A process that was stopped may hear of nothing at first, and of more than it takes in one
    /// turn then: so the loop is late until all of that came. The events that are there are those of the turn before.
    pub(crate) fn wait(
        &mut self,
        pace: &mut Pace,
        events: &mut Events,
        waits: Waits,
    ) -> io::Result<()>
        ensures { self.new.machine ≡ self.old.machine }
    {
        let has_more = waits.is_busy || events.iter().len() >= EVENTS;
        self.poll.poll(events, waits.patience(self.now))?;
        let _ = self.move_on();
        pace.wake(waits.is_overslept_at(self.now), has_more);
        Ok(())
    }

    /// What the clock of phases reads. None where it gives no reading.
    pub(crate) fn reading(&mut self) -> Option<u64> {
        let before = self.clocks.steps_back();
        let reading = self.clocks.reading();
        if reading.is_none() {
            self.hear(LoopEvent::NoClock);
        }
        if self.clocks.steps_back() > before {
            self.hear(LoopEvent::ClockWentBack);
        }
        reading
    }
}
