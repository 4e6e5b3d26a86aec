//! The lines that wait to be said, and when one of each kind was last said.
ghost use Rattle.std.specs.Prelude.{◌≡◌, ◌≢◌, ℕ, ◌+◌, ◌-◌, ◌^◌, ◌<◌, ◌≤◌, ◌↔◌, length, min, slice_index_or, slice_set, All, IsTrue, MatchOption};
ghost use Rattle.mr_log.specs.Kinds.{most_kinds};
ghost use Rattle.mr_log.specs.Waiting.{kind_in, with_one_more, IsDue, IsFirstDue, IsAt, IsNoneDue, IsNoneOfKind};

use crate::happening::Happening;
use crate::kind::{KINDS, Kind};
use arrayvec::ArrayVec;
use std::marker::Model;

/// How long after a line of a kind no other of that kind is said, in milliseconds.
pub const PAUSE: u64 = 1_000;

/// A line to be written.
#[derive(Clone, Copy, Debug, PartialEq, Eq)]
pub struct Said {
    /// The first of its kind since the last line of that kind.
    pub happening: Happening,
    /// How many more of its kind came since then, as far as 64 bits count.
    pub more: u64,
}

impl Default for Said {
    ghost use Rattle.mr_log.specs.Waiting.{no_line};

    ghost is_default = { λ line. line ≡ no_line };

    /// What stands in a place of a log where no line waits.
    fn default() -> Said {
        Said {
            happening: Happening::NoMemory,
            more: 0,
        }
    }
}

/// Lines that wait until they may be said: at most one of each kind, so that a log takes the same room however much happens.
/// It has no clock and writes nothing. Who drives it tells it what happens (`note`), and asks it again and again for the next
/// line (`take`).
#[derive(Drop)]
pub struct Log {
    waiting: ArrayVec<Said, KINDS>,
    said: [Option<u64>; KINDS],
}

impl Model for Log {
    ghost use Rattle.mr_log.specs.Waiting.{LogView, IsLog};

    ghost Value = { LogView };

    ghost view = { λ l. record { waiting = l.waiting.items; said = l.said } };

    ghost invariant = { λ l. IsLog (record { waiting = l.waiting.items; said = l.said }) };
}

/// The place of the line of a kind.
fn place_of(lines: &[Said], kind: Kind) -> Option<usize>
    ensures { MatchOption result (IsNoneOfKind kind lines.now) (λ place. IsAt kind lines.now place) }
{
    for (place, line) in lines.iter().enumerate() {
        if line.happening.kind() == kind {
            return Some(place);
        }
    }
    None
}

/// Whether a line may be said, where one of each kind was last said then.
fn is_due(said: &[Option<u64>], now: u64, line: &Said) -> bool
    requires { length said.now ≡ most_kinds }
    ensures { IsTrue result ↔ IsDue said.now now line.now }
{
    match said[line.happening.kind().number()] {
        None => true,
        Some(at) => now.saturating_sub(at) >= PAUSE,
    }
}

/// The place of the first line that may be said.
fn first_due(lines: &[Said], said: &[Option<u64>], now: u64) -> Option<usize>
    requires { length said.now ≡ most_kinds }
    ensures { MatchOption result (IsNoneDue said.now now lines.now) (λ place. IsFirstDue said.now now lines.now place) }
{
    for (place, line) in lines.iter().enumerate() {
        if is_due(said, now, line) {
            return Some(place);
        }
    }
    None
}

/// Counts one more at a line.
fn count_one_more(lines: &mut [Said], place: usize)
    requires { place < length lines.old }
    ensures { (d : Said) → lines.new ≡ slice_set lines.old place (with_one_more (slice_index_or lines.old place d)) }
{
    lines[place].more = lines[place].more.saturating_add(1);
}

impl Log {
    ghost use Rattle.mr_log.specs.Log.{Notes, Takes, new_log};

    /// A log in which nothing waits, and of which nothing was said.
    pub fn new() -> Log
        ensures { result ≡ new_log }
    {
        Log {
            waiting: ArrayVec::new(),
            said: [None; KINDS],
        }
    }

    /// Notes what happened. Where a line of its kind waits already, that line counts one more; else this is the first of its
    /// kind, and its line waits behind the others.
    pub fn note(&mut self, happening: Happening)
        ensures { Notes self.old happening self.new }
    {
        match place_of(&self.waiting, happening.kind()) {
            Some(place) => count_one_more(&mut self.waiting, place),
            None => self.waiting.push(Said { happening, more: 0 }),
        }
    }

    /// The line to be said now, which waits no longer: of those whose kind was last said `PAUSE` ago or longer, or never, the
    /// one that waits first. `now` is in milliseconds, by a clock that never goes back.
    pub fn take(&mut self, now: u64) -> Option<Said>
        ensures { Takes self.old now result self.new }
    {
        let place = first_due(&self.waiting, &self.said, now)?;
        let line = self.waiting.remove(place);
        self.said[line.happening.kind().number()] = Some(now);
        Some(line)
    }
}
