//! What a service on loops says on standard error while it runs. No contract speaks of what it does with time and threads.
ghost use Rattle.std.specs.Prelude.{◌≡◌};
ghost use Rattle.mr_servers.specs.Hearing.{is_news};

use crate::moments::passed_since;
use crate::scrapes::ScrapeState;
use mr_clock::{Clock, SystemClock};
use mr_counting::{ClockWatch, WatchedClock};
use mr_log::{Happening, KINDS, Log, Said, Service, Watcher, line_of};
use mr_phases::Schedule;
use std::alloc::Global;
use std::io::{Stderr, Write};
use std::sync::{Mutex, Wait};
use std::time::{Duration, Instant};
use std::{thread, time};

/// How often it is looked whether a line may be said, in milliseconds.
const SAY_MILLIS: u64 = 100;

/// At how many of these looks it is looked at the clock too, once.
const LOOKS: u64 = 10;

/// Whether what was seen of a clock is worth a line that went back so many times before the look, and so many by now: that it is behind
/// is only where it went back since.
fn is_news(happening: Happening, steps: u64, steps_by_now: u64) -> bool
    ensures { result ≡ is_news steps steps_by_now happening }
{
    match happening {
        Happening::ClockWentBack { .. } => steps_by_now != steps,
        _ => true,
    }
}

/// What says the lines of a service.
pub(crate) struct Speaker<'a, R: Wait + time::Clock> {
    /// What may wait for the log's lock.
    pub(crate) rt: &'a R,
    /// What lines are made in.
    pub(crate) alloc: Global,
    /// Whose they are.
    pub(crate) service: Service<'a>,
    /// When its phases begin, if it has some.
    pub(crate) schedule: Option<Schedule>,
    /// Where what happens is noted.
    pub(crate) log: &'a Mutex<Log>,
    /// How its clock runs.
    pub(crate) watch: &'a ClockWatch,
    /// When it began, by a clock that never goes back, if that gave a reading.
    pub(crate) begun: Option<Instant>,
}

impl<'a, R: Wait + time::Clock> Drop for Speaker<'a, R> {
    fn drop(self) {
        let Self {
            rt: _,
            alloc: _,
            service: _,
            schedule: _,
            log: _,
            watch: _,
            begun: _,
        } = self;
    }
}

impl<'a, R: Wait + time::Clock> Speaker<'a, R> {
    /// What the clock says, in seconds since the epoch.
    fn reading(&self) -> Option<u64> {
        let mut clock = WatchedClock::new(SystemClock::new(self.rt), self.watch);
        clock.now().ok()
    }

    /// Looks at the clock, which went back so many times before, and notes what is worth a line. Gives how many times it has by now.
    fn look(&self, watcher: &mut Watcher, steps: u64) -> u64 {
        let seen = watcher.look(self.reading());
        let steps_by_now = self.watch.steps_back();
        if let Some(happening) = seen.clock
            && is_news(happening, steps, steps_by_now)
        {
            self.note(happening);
        }
        if let Some(phase) = seen.phase {
            self.note(phase);
        }
        steps_by_now
    }

    /// Notes what happened.
    fn note(&self, happening: Happening) {
        self.log.lock(self.rt).note(happening);
    }

    /// The next line that is due.
    fn next(&self, now: u64) -> Option<Said> {
        self.log.lock(self.rt).take(now)
    }

    /// Says a line. One for which there is no memory, and one that can't be written, isn't said.
    fn say(&self, mut voice: &Stderr, said: &Said) {
        if let Ok(line) = line_of(self.alloc, said, self.reading(), &self.service) {
            let _ = voice.write_all(line.as_slice());
        }
    }

    /// Says each line that is due.
    fn say_all(&self, voice: &Stderr) {
        let Some(now) = passed_since(self.rt, self.begun) else {
            return;
        };
        for _ in 0..KINDS {
            let Some(said) = self.next(now) else {
                return;
            };
            self.say(voice, &said);
        }
    }

    /// Looks at the clock and says what is due, again and again, until the service has ended.
    pub(crate) fn speak(&self, voice: Stderr, state: &ScrapeState) {
        let mut watcher = Watcher::new(self.schedule);
        let mut steps = self.watch.steps_back();
        let mut looks: u64 = 0;
        for _ in self.rt.forever() {
            if looks == 0 {
                steps = self.look(&mut watcher, steps);
            }
            looks = looks.saturating_add(1) % LOOKS;
            self.say_all(&voice);
            if state.has_ended() {
                return;
            }
            thread::sleep(self.rt, Duration::from_millis(SAY_MILLIS));
        }
    }
}
