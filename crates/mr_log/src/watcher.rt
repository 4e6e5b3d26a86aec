//! What the clock of a service says as time goes on: which phase it comes to, and whether it goes back.
ghost use Rattle.std.specs.Prelude.{◌≡◌, ◌↔◌, IsTrue};
ghost use Rattle.mr_log.specs.Watching.{entered_at, IsSameStanding, went_back, later_of, PhaseNews};

use crate::happening::Happening;
use mr_phases::{Schedule, judge};
use std::marker::Model;

/// What a look at the clock found.
#[derive(Clone, Copy, Debug, PartialEq, Eq)]
pub struct Seen {
    /// `ClockWentBack` or `NoClock`, where it is so.
    pub clock: Option<Happening>,
    /// `PhaseEntered`, where the reading stands in another phase, or in that of another migration, than the reading before.
    pub phase: Option<Happening>,
}

/// A look at a clock now and then, whose readings are in seconds since the epoch.
#[derive(Drop)]
pub struct Watcher {
    schedule: Option<Schedule>,
    last: Option<u64>,
    greatest: Option<u64>,
}

impl Model for Watcher {
    ghost use Rattle.mr_log.specs.Watching.{WatcherView};

    ghost Value = { WatcherView };

    ghost view = { λ w. record { hops = w.schedule; last = w.last; greatest = w.greatest } };
}

/// The phase in which a reading stands.
fn entered_at(schedule: Schedule, reading: u64) -> Happening
    ensures { result ≡ entered_at schedule reading }
{
    let judged = judge(schedule, reading);
    Happening::PhaseEntered {
        hop: judged.hop(),
        phase: judged.name(),
    }
}

/// Whether both readings stand in the same phase of the same migration.
fn stand_alike(schedule: Schedule, reading: u64, later: u64) -> bool
    ensures { IsTrue result ↔ IsSameStanding schedule reading later }
{
    let (ours, theirs) = (judge(schedule, reading), judge(schedule, later));
    ours.hop() == theirs.hop() && ours.name() == theirs.name()
}

/// The phase of a reading, where the one before stood in another, or there was none. None without a schedule.
fn phase_news(schedule: Option<Schedule>, last: Option<u64>, now: u64) -> Option<Happening>
    ensures { PhaseNews schedule last now result }
{
    let schedule = schedule?;
    if let Some(last) = last
        && stand_alike(schedule, last, now)
    {
        return None;
    }
    Some(entered_at(schedule, now))
}

/// Whether a reading is before the latest one.
fn went_back(greatest: Option<u64>, now: u64) -> Option<Happening>
    ensures { result ≡ went_back greatest now }
{
    match greatest {
        Some(greatest) if now < greatest => Some(Happening::ClockWentBack {
            from: greatest,
            to: now,
        }),
        _ => None,
    }
}

/// The later of a reading and the latest one before.
fn later_of(greatest: Option<u64>, now: u64) -> u64
    ensures { result ≡ later_of greatest now }
{
    match greatest {
        Some(greatest) => greatest.max(now),
        None => now,
    }
}

impl Watcher {
    ghost use Rattle.mr_log.specs.Watching.{new_watcher, IsSeen, watched};

    /// A watcher that has seen no reading, with the schedule by which readings are judged. Without one no phase is told.
    pub fn new(schedule: Option<Schedule>) -> Watcher
        ensures { result ≡ new_watcher schedule }
    {
        Watcher {
            schedule,
            last: None,
            greatest: None,
        }
    }

    /// Looks at a reading, in seconds since the epoch; None where the clock gave none.
    pub fn look(&mut self, reading: Option<u64>) -> Seen
        ensures seen { IsSeen self.old reading result }
        ensures watched { self.new ≡ watched self.old reading }
    {
        let Some(now) = reading else {
            return Seen {
                clock: Some(Happening::NoClock),
                phase: None,
            };
        };
        let seen = Seen {
            clock: went_back(self.greatest, now),
            phase: phase_news(self.schedule, self.last, now),
        };
        self.last = Some(now);
        self.greatest = Some(later_of(self.greatest, now));
        seen
    }
}
