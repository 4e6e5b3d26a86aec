//! The machine's clock, and a clock of std that is made to show times or to fail.
use super::{holds, shows};
use mr_clock::{Clock, SystemClock};
use std::cell::Cell;
use std::process::Abort;
use std::time::Duration;
use std::{io, time};

/// A clock of std that shows this time, and fails without one.
#[derive(Drop)]
struct Shown(Cell<Option<Duration>>);

impl time::Clock for Shown {
    fn monotonic(&self) -> io::Result<Duration> {
        Ok(Duration::ZERO)
    }

    fn since_1970(&self) -> io::Result<Duration> {
        match self.0.get() {
            Some(time) => Ok(time),
            None => Err(io::ErrorKind::InvalidData.into()),
        }
    }
}

/// A time that std's clock shows.
#[derive(Clone, Copy)]
enum Time {
    Seconds(u64),
    Nanoseconds(u64),
    Nothing,
}

impl Time {
    fn as_duration(self) -> Option<Duration> {
        match self {
            Time::Seconds(seconds) => Some(Duration::from_secs(seconds)),
            Time::Nanoseconds(nanoseconds) => Some(Duration::from_nanos(nanoseconds)),
            Time::Nothing => None,
        }
    }
}

/// What std's clock shows, one after the other, and what the machine's clock reads then.
static TIMES: [(Time, Option<u64>); 8] = [
    // Whole seconds are read.
    (Time::Nanoseconds(1_000_999_999_999), Some(1_000)),
    (Time::Seconds(0), Some(0)),
    (Time::Seconds((1 << 63) - 1), Some((1 << 63) - 1)),
    // Without a time that can be told the clock fails, until there is one.
    (Time::Nothing, None),
    (Time::Nothing, None),
    (Time::Seconds(1 << 63), None),
    (Time::Seconds(u64::MAX), None),
    (Time::Seconds(7), Some(7)),
];

/// Asserts what a clock over std's reads at each time.
fn read_times<C: Clock>(rt: &impl Abort, shown: &Shown, clock: &mut C) {
    for (row, it) in TIMES.iter().enumerate() {
        shown.0.set(it.0.as_duration());
        shows(rt, row, clock, it.1);
    }
}

#[test]
fn whole_seconds_are_read_or_a_fault(rt: HostRuntime) {
    let shown = Shown(Cell::new(None));
    read_times(&rt, &shown, &mut SystemClock::new(&shown));
}

#[test]
fn the_machine_shows_a_time_after_2020(rt: HostRuntime) {
    let seconds = SystemClock::new(&rt).now().unwrap_or(0);
    holds(&rt, 0, seconds > 1_577_836_800, true);
}
