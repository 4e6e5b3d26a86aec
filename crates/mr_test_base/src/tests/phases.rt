//! A migration that starts at 1000 with an interval of 100 seconds.
use super::{count_is, holds, is, number_is, says};
use crate::tests::must;
use mr_phases::{
    Judged, Phase, PhaseKind, PhaseName, RequestKind, Schedule, ScheduleError, Side, Sides, judge,
    laws,
};
use std::alloc::Global;
use std::fmt::Display;
use std::process::Abort;

/// Asserts that there is a first side, and perhaps a second, and no other.
fn are_sides(rt: &impl Abort, row: usize, sides: Sides, first: Side, second: Option<Side>) {
    is(rt, row, sides.get(0), Some(first));
    is(rt, row, sides.get(1), second);
    count_is(rt, row, sides.count(), 1 + usize::from(second.is_some()));
    count_is(rt, row, sides.as_slice().len(), sides.count());
}

/// A reading, the phase then and its name, the side that is read, and the sides that a delete goes to.
type Row = (u64, PhaseName, &'static str, Side, Side, Option<Side>);

static ROWS: [Row; 6] = [
    (
        999,
        PhaseName::OldOnly,
        "old-only",
        Side::Old,
        Side::Old,
        None,
    ),
    (
        1000,
        PhaseName::BothReadOld,
        "both-read-old",
        Side::Old,
        Side::Old,
        Some(Side::New),
    ),
    (
        1099,
        PhaseName::BothReadOld,
        "both-read-old",
        Side::Old,
        Side::Old,
        Some(Side::New),
    ),
    (
        1100,
        PhaseName::BothReadNew,
        "both-read-new",
        Side::New,
        Side::Old,
        Some(Side::New),
    ),
    (
        1199,
        PhaseName::BothReadNew,
        "both-read-new",
        Side::New,
        Side::Old,
        Some(Side::New),
    ),
    (
        1200,
        PhaseName::NewOnly,
        "new-only",
        Side::New,
        Side::New,
        None,
    ),
];

/// Asserts which sides the requests of a row go to.
fn goes_to(rt: &impl Abort, row: usize, judged: &Judged, it: &Row) {
    is(rt, row, judged.read_side(), it.3);
    are_sides(rt, row, judged.sides(RequestKind::Get), it.3, None);
    are_sides(rt, row, judged.sides(RequestKind::Set), it.3, None);
    are_sides(rt, row, judged.sides(RequestKind::Delete), it.4, it.5);
}

/// Asserts what the type of a phase says, and a copy of the phase.
fn is_typed<P: PhaseKind>(rt: &impl Abort, row: usize, phase: &Phase<P>, it: &Row) {
    is(rt, row, phase.name(), it.1);
    is(rt, row, phase.read_side(), it.3);
    is(rt, row, phase.hop(), 0);
    let copied = phase.copy();
    number_is(rt, row, copied.reading(), it.0);
    holds(rt, row, copied.schedule().same_as(&phase.schedule()), true);
}

/// Asserts what the phase of a judgement says as a type.
fn says_by_type(rt: &impl Abort, row: usize, judged: &Judged, it: &Row) {
    match judged {
        Judged::OldOnly(phase) => is_typed(rt, row, phase, it),
        Judged::BothReadOld(phase) => is_typed(rt, row, phase, it),
        Judged::BothReadNew(phase) => is_typed(rt, row, phase, it),
        Judged::NewOnly(phase) => is_typed(rt, row, phase, it),
    }
}

/// The sides that a delete goes to by its type.
fn by_type(judged: Judged) -> (Side, Option<Side>) {
    let [first, second] = match judged {
        Judged::OldOnly(phase) => return (phase.delete_sides().side(), None),
        Judged::BothReadOld(phase) => phase.delete_sides().as_array(),
        Judged::BothReadNew(phase) => phase.delete_sides().as_array(),
        Judged::NewOnly(phase) => return (phase.delete_sides().side(), None),
    };
    (first, Some(second))
}

/// Asserts what is judged of a row's reading.
fn is_row(rt: &impl Abort, alloc: Global, row: usize, schedule: Schedule, it: &Row) {
    let judged = judge(schedule, it.0);
    is(rt, row, judged.name(), it.1);
    number_is(rt, row, judged.reading(), it.0);
    holds(rt, row, judged.schedule().same_as(&schedule), true);
    goes_to(rt, row, &judged, it);
    says_by_type(rt, row, &judged, it);
    is(rt, row, by_type(judged), (it.4, it.5));
    is_printed(rt, alloc, row, &it.1, it.2);
}

#[test]
fn each_bound_belongs_to_the_later_phase(rt: HostRuntime) {
    let schedule = must(&rt, Schedule::new(1000, 100));
    for (row, it) in ROWS.iter().enumerate() {
        is_row(&rt, rt.alloc(), row, schedule, it);
    }
}

/// A start, an interval, why there is no schedule of them, if there is none, and that refusal's number.
static LIMITS: [(u64, u64, Option<ScheduleError>, u8); 5] = [
    (1000, 100, None, 0),
    (18446744073709551415, 100, None, 0),
    (1000, 0, Some(ScheduleError::ZeroInterval), 1),
    (18446744073709551416, 100, Some(ScheduleError::TooLate), 2),
    (u64::MAX, u64::MAX, Some(ScheduleError::TooLate), 2),
];

/// Asserts what a schedule tells, and its copy.
fn tells(rt: &impl Abort, row: usize, schedule: &Schedule, start: u64, interval: u64) {
    is(rt, row, schedule.hops(), 1);
    number_is(rt, row, schedule.start(0), start);
    number_is(rt, row, schedule.interval(0), interval);
    number_is(rt, row, schedule.least_interval(), interval);
    holds(rt, row, schedule.copy().same_as(schedule), true);
}

/// Asserts whether there is such a schedule.
fn is_limited(rt: &impl Abort, row: usize, it: &(u64, u64, Option<ScheduleError>, u8)) {
    match Schedule::new(it.0, it.1) {
        Ok(schedule) => {
            is(rt, row, None, it.2);
            tells(rt, row, &schedule, it.0, it.1);
        }
        Err(refusal) => {
            is(rt, row, Some(refusal), it.2);
            is(rt, row, refusal.number(), it.3);
        }
    }
}

#[test]
fn schedules_have_limits(rt: HostRuntime) {
    for (row, it) in LIMITS.iter().enumerate() {
        is_limited(&rt, row, it);
    }
}

/// So many migrations in a row: the first at 1000 with 100 seconds, the others with 50, each from the end of the last on.
fn many_hops(rt: &impl Abort, count: u32) -> Schedule {
    let mut schedule = must(rt, Schedule::new(1000, 100));
    for start in [1200, 1300, 1400] {
        if schedule.hops() < count {
            schedule = match schedule.then(start, 50) {
                Ok(longer) => longer,
                Err(_) => rt.panic("a migration was refused"),
            };
        }
    }
    schedule
}

/// A reading, and the hop and the phase then.
static HOPS: [(u64, u32, PhaseName); 7] = [
    (999, 0, PhaseName::OldOnly),
    (1199, 0, PhaseName::BothReadNew),
    (1200, 1, PhaseName::BothReadOld),
    (1249, 1, PhaseName::BothReadOld),
    (1250, 1, PhaseName::BothReadNew),
    (1299, 1, PhaseName::BothReadNew),
    (1300, 1, PhaseName::NewOnly),
];

/// Asserts which hop and which phase a row's reading is in, also where an earlier judgement comes to it.
fn is_in_hop(rt: &impl Abort, row: usize, schedule: Schedule, it: &(u64, u32, PhaseName)) {
    let judged = judge(schedule, it.0);
    is(rt, row, (judged.hop(), judged.name()), (it.1, it.2));
    let Ok(later) = judge(schedule, 0).later(it.0) else {
        rt.panic("a later reading was refused");
    };
    is(rt, row, (later.hop(), later.name()), (it.1, it.2));
}

#[test]
fn the_last_hop_that_has_begun_is_in_force(rt: HostRuntime) {
    let schedule = many_hops(&rt, 2);
    number_is(&rt, 7, schedule.least_interval(), 50);
    for (row, it) in HOPS.iter().enumerate() {
        is_in_hop(&rt, row, schedule, it);
    }
}

/// How many migrations there are, the start and the interval of one more, why it is refused, if it is, and the number.
static MORE: [(u32, u64, u64, Option<ScheduleError>, u8); 10] = [
    (1, 1200, 50, None, 0),
    (1, 1199, 50, Some(ScheduleError::TooSoon), 3),
    (2, 1300, 50, None, 0),
    (2, 1299, 50, Some(ScheduleError::TooSoon), 3),
    (2, 1299, 0, Some(ScheduleError::ZeroInterval), 1),
    (2, u64::MAX, 1, Some(ScheduleError::TooLate), 2),
    (4, 1500, 50, Some(ScheduleError::TooManyHops), 4),
    (4, 0, 50, Some(ScheduleError::TooManyHops), 4),
    (4, u64::MAX, 1, Some(ScheduleError::TooLate), 2),
    (4, 1500, 0, Some(ScheduleError::ZeroInterval), 1),
];

/// Asserts whether there may be such a migration more, and that a refusal hands the schedule back.
fn is_followed(rt: &impl Abort, row: usize, it: &(u32, u64, u64, Option<ScheduleError>, u8)) {
    let schedule = many_hops(rt, it.0);
    match schedule.then(it.1, it.2) {
        Ok(longer) => {
            is(rt, row, None, it.3);
            is(rt, row, longer.hops(), it.0.saturating_add(1));
        }
        Err((refusal, back)) => {
            is(rt, row, (Some(refusal), refusal.number()), (it.3, it.4));
            holds(rt, row, back.same_as(&schedule), true);
        }
    }
}

#[test]
fn one_more_migration_follows_the_last(rt: HostRuntime) {
    for (row, it) in MORE.iter().enumerate() {
        is_followed(&rt, row, it);
    }
}

/// Asserts that the latest schedule ends, and is another than the first.
fn ends(rt: &impl Abort, last: Schedule, other: Schedule) {
    is(rt, 0, judge(last, u64::MAX).name(), PhaseName::NewOnly);
    holds(rt, 1, last.same_as(&other), false);
}

#[test]
fn the_latest_schedule_ends(rt: HostRuntime) {
    let last = must(&rt, Schedule::new(18446744073709551415, 100));
    ends(&rt, last, must(&rt, Schedule::new(1000, 100)));
}

/// A reading, whether what was judged at 1099 takes it, and what it is then.
type Later = (u64, bool, PhaseName, u64);

static LATER: [Later; 4] = [
    (1100, true, PhaseName::BothReadNew, 1100),
    (1099, true, PhaseName::BothReadOld, 1099),
    (1098, false, PhaseName::BothReadOld, 1099),
    (999, false, PhaseName::BothReadOld, 1099),
];

fn is_later(rt: &impl Abort, row: usize, judged: &Judged, it: &Later) {
    let answer = judged.copy().later(it.0);
    holds(rt, row, answer.is_ok(), it.1);
    let (Ok(kept) | Err(kept)) = answer;
    is(rt, row, kept.name(), it.2);
    number_is(rt, row, kept.reading(), it.3);
}

#[test]
fn later_takes_no_earlier_reading(rt: HostRuntime) {
    let judged = judge(must(&rt, Schedule::new(1000, 100)), 1099);
    for (row, it) in LATER.iter().enumerate() {
        is_later(&rt, row, &judged, it);
    }
}

/// Asserts what a name is printed as.
fn is_printed<T: Display>(rt: &impl Abort, alloc: Global, row: usize, name: &T, text: &str) {
    says(
        rt,
        row,
        must(rt, format!(in alloc; "{name}")).as_str(),
        text,
    );
}

/// Asserts what a side is called, and which pool it is of the first and the fourth hop.
fn is_side(rt: &impl Abort, alloc: Global, row: usize, side: Side, text: &str) {
    is_printed(rt, alloc, row, &side, text);
    count_is(rt, row, side.pool_number(0), row);
    count_is(rt, row, side.pool_number(3), row.saturating_add(3));
}

#[test]
fn a_hop_moves_to_the_next_pool(rt: HostRuntime) {
    is_side(&rt, rt.alloc(), 0, Side::Old, "old");
    is_side(&rt, rt.alloc(), 1, Side::New, "new");
}

#[test]
fn laws_can_be_cited() {
    laws::overlap();
    laws::read_up();
    laws::deletes_up();
    laws::phase_ranges();
    laws::phase_in_force();
    laws::deletes_stay_before_start();
    laws::reads_stay_before_middle();
    laws::hop_within();
    laws::limits();
}
