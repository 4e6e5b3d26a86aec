//! What was counted in each phase, as a table.
use super::{Step, has_lines, tally_of};
use crate::tests::{holds, must};
use mr_phases::PhaseName;
use mr_sightings::Outcome::{Acknowledged, Failed, Hit, Miss, Stored};
use mr_sightings::{Row, Table, Tally, Trouble, table_text};
use std::alloc::Global;
use std::process::Abort;

/// What was counted in a phase.
type Part = (u32, PhaseName, &'static [Step]);

/// The phase of the second row comes twice.
static PARTS: [Part; 5] = [
    (0, PhaseName::OldOnly, &[(Hit, 100, 2), (Miss, 5000, 1)]),
    (
        0,
        PhaseName::BothReadOld,
        &[(Hit, 400, 83), (Miss, 420, 17)],
    ),
    (
        1,
        PhaseName::OldOnly,
        &[(Stored, 100, 98), (Acknowledged, 6000000, 2)],
    ),
    (1, PhaseName::NewOnly, &[(Failed(Trouble::BrokeOff), 9, 1)]),
    (
        0,
        PhaseName::BothReadOld,
        &[
            (Miss, 420, 50),
            (Stored, 600, 24),
            (Acknowledged, 2031, 23),
            (Failed(Trouble::Busy), 90, 2),
            (Failed(Trouble::Silent), 5000000, 1),
        ],
    ),
];

static LINES: [&str; 5] = [
    " hop  phase              requests   hits %     p50 ms     p99 ms        max ms",
    "   0  old-only                  3     66.6        0.1          5         5.000",
    "   0  both-read-old           200     55.3        0.5        2.5         2.031",
    "   1  old-only                100        -        0.1  over 5000      6000.000",
    "   1  new-only                  1        -          -          -             -",
];

/// The table of all parts.
fn table_of(rt: &impl Abort, alloc: Global) -> Table {
    let mut table = Table::new(alloc);
    for (hop, phase, steps) in &PARTS {
        must(rt, table.add(*hop, *phase, &tally_of(steps)));
    }
    table
}

#[test]
fn phases_are_a_table(rt: HostRuntime) {
    let table = table_of(&rt, rt.alloc());
    let text = must(&rt, table_text(rt.alloc(), &table));
    holds(
        &rt,
        has_lines(&rt, rt.alloc(), text.as_slice(), &LINES),
        "the table",
    );
}

#[test]
fn no_phase_is_an_empty_table(rt: HostRuntime) {
    let table = Table::new(rt.alloc());
    let text = must(&rt, table_text(rt.alloc(), &table));
    holds(
        &rt,
        has_lines(&rt, rt.alloc(), text.as_slice(), &LINES[..1]),
        "the line above alone",
    );
}

#[test]
fn rows_stand_in_order(rt: HostRuntime) {
    let table = table_of(&rt, rt.alloc());
    holds(&rt, table.rows().len() == 4, "a row for each phase");
    let last = Row {
        hop: 1,
        phase: PhaseName::NewOnly,
        tally: tally_of(&[(Failed(Trouble::BrokeOff), 9, 1)]),
    };
    holds(&rt, table.rows().last() == Some(&last), "the last row");
    holds(&rt, last.tally != Tally::NONE, "which isn't empty");
}
