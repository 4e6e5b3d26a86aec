//! A loop of links alone, which its caller's own thread drives.
#![tactic(auto, using(crate::proofs::GoingLemmas::stays, crate::proofs::GoingLemmas::once, crate::proofs::GoingLemmas::through))]

ghost use Rattle.std.specs.Prelude.{◌≡◌, ◌≤◌, OnOk, IfOk};
ghost use Rattle.std.specs.Borrow.{sem};
ghost use Rattle.mr_driver.specs.Going.{GoesOn};

use crate::engine::{Engine, Timing, room_of_turns};
use crate::flow::signs_of;
use crate::hearing::Deaf;
use crate::linked::Linked;
use crate::links::Links;
use crate::pace::Pace;
use crate::times::bound_of;
use crate::tokens::{Origin, origin_of};
use crate::waits::Waits;
use mio::event::Event;
use mio::{Events, Poll};
use mr_counting::ClockWatch;
use std::alloc::Global;
use std::io;
use std::marker::Model;
use std::net::{Net, SocketAddrV4};
use std::sync::Wait;
use std::time::Clock;

/// Who hears of what happens: nobody, since the machine is told all that counts.
static NOBODY: Deaf = Deaf;

/// A machine with its links, and when it is looked at them.
struct LinkLoop<'a, R: Net + Clock, M: Linked> {
    engine: Engine<'a, R, Deaf, M>,
    links: Links,
    pace: Pace,
}

impl<'a, R: Net + Clock, M: Linked> Drop for LinkLoop<'a, R, M> {
    fn drop(self) {
        let Self {
            engine: _,
            links: _,
            pace: _,
        } = self;
    }
}

impl<'a, R: Net + Clock, M: Linked> LinkLoop<'a, R, M> {
    /// What the loop waits for, beside events, since its last turn.
    fn waits(&self) -> Waits {
        Waits {
            is_busy: self.links.are_busy(),
            is_timed: self.links.are_timed(&self.engine.machine),
            is_bounded: false,
            begin: self.engine.now,
            next_tick: self.pace.next_tick,
            next_sweep: 0,
        }
    }

    /// Something happened.
    fn note(&mut self, event: &Event)
        ensures { GoesOn M.link_steps self.old.engine.machine self.new.engine.machine }
    {
        if let Origin::Link(number) = origin_of(self.links.count(), event.token().0) {
            self.links.note(&mut self.engine, number, signs_of(event));
        }
    }

    /// Waits for what happens, until a moment at the latest, and notes it. What the caller did since the last turn took time too: the
    /// wait is shorter by that, and late where that was long.
    fn wait(&mut self, events: &mut Events, moment: u64) -> io::Result<()>
        ensures { GoesOn M.link_steps self.old.engine.machine self.new.engine.machine }
    {
        let waits = self.waits().by(moment);
        if !self.engine.move_on() {
            return Err(io::Error::from(io::ErrorKind::Other));
        }
        self.engine.wait(&mut self.pace, events, waits)?;
        for event in &*events {
            self.note(event);
        }
        Ok(())
    }

    /// Waits, until a moment at the latest, and does what follows from what has happened. What came counts before the time does.
    fn turn(&mut self, events: &mut Events, input: &mut [u8], moment: u64) -> io::Result<()>
        ensures { GoesOn M.link_steps self.old.engine.machine self.new.engine.machine }
    {
        self.wait(events, moment)?;
        self.links.read_all(&mut self.engine, input);
        if self
            .pace
            .is_due(self.engine.timing.leg_bound, self.engine.now)
        {
            self.links.tick_all(&mut self.engine);
        }
        self.links.write_all(&mut self.engine);
        Ok(())
    }
}

/// A machine with links and without clients, whose loop takes its turns in its caller's own thread, and in no other.
pub struct Solo<'a, R: Net + Clock, M: Linked> {
    turns: LinkLoop<'a, R, M>,
    events: Events,
    input: Vec<u8>,
}

impl<'a, R: Net + Clock, M: Linked> Drop for Solo<'a, R, M> {
    fn drop(self) {
        let Self {
            turns: _,
            events: _,
            input: _,
        } = self;
    }
}

impl<'a, R: Net + Clock, M: Linked> Model for Solo<'a, R, M> {
    ghost use Rattle.mr_driver.specs.Solo.{SoloView};

    ghost Value = { SoloView M };

    ghost view = { λ s. record { now = s.turns.engine.now; machine = s.turns.engine.machine } };
}

impl<'a, R: Net + Clock, M: Linked> Solo<'a, R, M> {
    ghost use Rattle.mr_driver.specs.Lending.{LendsMachine};

    /// A loop of a machine, each link of which is dialled: the nodes are those of its links, in their order, by their addresses. One
    /// without an address is never dialled. A node may leave a dial unanswered for so many milliseconds, or as long as it likes where
    /// these are 0; one that does, that can't be reached, or to which a link broke, is dialled again after a pause (`next_pause`). The
    /// error is of the kind `OutOfMemory` where memory was refused.
    pub fn open(
        rt: &'a R,
        alloc: Global,
        mut machine: M,
        nodes: &[Option<SocketAddrV4>],
        dial_millis: u64,
        watch: &'a ClockWatch,
    ) -> io::Result<Solo<'a, R, M>>
        ensures now { IfOk result (λ s. s.now ≡ 0) }
        ensures machine { IfOk result (λ s. GoesOn M.link_steps machine s.machine) }
    {
        let poll = Poll::new(rt)?;
        let (events, input) = room_of_turns(alloc)?;
        let mut links = Links::to(alloc, nodes)?;
        links.dial_all(rt, poll.registry(), &mut machine);
        let timing = Timing {
            leg_bound: bound_of(dial_millis),
            idle_bound: u64::MAX,
        };
        Ok(Solo {
            turns: LinkLoop {
                engine: Engine::new(rt, &NOBODY, poll, watch, timing, machine),
                links,
                pace: Pace::new(),
            },
            events,
            input,
        })
    }

    /// Takes turns, one at least, until it is this moment or later by the loop's own clock, in microseconds since its first turn began. In
    /// each it waits for what happens, until that moment at the latest, and until the next look at its links (`tick_of`) where time does
    /// something to them; it reads what came, tells the machine the time where that look is due, and writes what is there. The error is
    /// that the system's wait failed, or that the clock gave no reading: with either the call ends, whatever the time.
    pub fn drive_until(&mut self, micros: u64) -> io::Result<()>
    where
        R: Wait,
        ensures moment { OnOk result (micros ≤ self.new.now) }
        ensures machine { GoesOn M.link_steps self.old.machine self.new.machine }
    {
        let rt = self.turns.engine.rt;
        for _ in rt.forever() {
            self.turns
                .turn(&mut self.events, self.input.as_mut_slice(), micros)?;
            if self.turns.engine.now >= micros {
                return Ok(());
            }
        }
        unreachable!()
    }

    /// The time of the last turn by the loop's own clock, in microseconds since the first one began; 0 before that.
    pub fn now(&self) -> u64
        ensures { result ≡ self.now.now }
    {
        self.turns.engine.now
    }

    /// The machine.
    pub fn machine(&self) -> &M
        ensures { result.now ≡ self.now.machine }
    {
        &self.turns.engine.machine
    }

    /// The machine, which may be changed between turns. What it wants to send then goes with the next one.
    pub fn machine_mut(&mut self) -> &mut M
        ensures* lends { sem 𝓛 (LendsMachine R.row M.row R.Stream.row R.Listener.row R.Stream.Read R.Stream.Write R.Stream.AsRawFd R.Listener.AsRawFd R.Clock M.Linked
            self.entry result) }
        ensures machine { result.now ≡ self.old.machine }
    {
        &mut self.turns.engine.machine
    }
}
