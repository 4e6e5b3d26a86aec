//! What a watcher of the clock finds, at readings of a clock that goes back twice and gives no reading twice.
use crate::tests::{is, must};
use mr_log::{Happening, Seen, Watcher};
use mr_phases::{PhaseName, Schedule};
use std::process::Abort;

/// A reading, and what is found of the clock and of the phase.
type Row = (Option<u64>, Option<Happening>, Option<Happening>);

static ROWS: [Row; 16] = [
    (
        Some(999),
        None,
        Some(Happening::PhaseEntered {
            hop: 0,
            phase: PhaseName::OldOnly,
        }),
    ),
    (Some(999), None, None),
    (
        Some(1000),
        None,
        Some(Happening::PhaseEntered {
            hop: 0,
            phase: PhaseName::BothReadOld,
        }),
    ),
    (None, Some(Happening::NoClock), None),
    (Some(1099), None, None),
    (
        Some(1100),
        None,
        Some(Happening::PhaseEntered {
            hop: 0,
            phase: PhaseName::BothReadNew,
        }),
    ),
    (
        Some(1050),
        Some(Happening::ClockWentBack {
            from: 1100,
            to: 1050,
        }),
        Some(Happening::PhaseEntered {
            hop: 0,
            phase: PhaseName::BothReadOld,
        }),
    ),
    (
        Some(1060),
        Some(Happening::ClockWentBack {
            from: 1100,
            to: 1060,
        }),
        None,
    ),
    (None, Some(Happening::NoClock), None),
    (
        Some(1100),
        None,
        Some(Happening::PhaseEntered {
            hop: 0,
            phase: PhaseName::BothReadNew,
        }),
    ),
    (Some(1101), None, None),
    (
        Some(1200),
        None,
        Some(Happening::PhaseEntered {
            hop: 0,
            phase: PhaseName::NewOnly,
        }),
    ),
    (Some(1999), None, None),
    (
        Some(2000),
        None,
        Some(Happening::PhaseEntered {
            hop: 1,
            phase: PhaseName::BothReadOld,
        }),
    ),
    (
        Some(1999),
        Some(Happening::ClockWentBack {
            from: 2000,
            to: 1999,
        }),
        Some(Happening::PhaseEntered {
            hop: 0,
            phase: PhaseName::NewOnly,
        }),
    ),
    (
        Some(2100),
        None,
        Some(Happening::PhaseEntered {
            hop: 1,
            phase: PhaseName::NewOnly,
        }),
    ),
];

/// A migration from second 1000 on with an interval of 100, and a second one from 2000 on with an interval of 50.
fn schedule(rt: &impl Abort) -> Schedule {
    let first = must(rt, Schedule::new(1_000, 100));
    must(rt, first.then(2_000, 50))
}

#[test]
fn a_watcher_without_a_schedule_tells_steps_back(rt: HostRuntime) {
    let mut watcher = Watcher::new(None);
    for (row, (reading, clock, _)) in ROWS.iter().enumerate() {
        let wanted = Seen {
            clock: *clock,
            phase: None,
        };
        is(&rt, row, watcher.look(*reading), wanted);
    }
}

#[test]
fn a_watcher_tells_phases_and_steps_back(rt: HostRuntime) {
    let mut watcher = Watcher::new(Some(schedule(&rt)));
    for (row, (reading, clock, phase)) in ROWS.iter().enumerate() {
        let wanted = Seen {
            clock: *clock,
            phase: *phase,
        };
        is(&rt, row, watcher.look(*reading), wanted);
    }
}
