//! What is counted of requests.
use super::{Step, tally_of};
use crate::tests::holds;
use mr_counting::LegTimes;
use mr_sightings::Outcome::{Acknowledged, Failed, Hit, Miss, Stored};
use mr_sightings::{Tally, Trouble};

static NAMES: [&str; 11] = [
    "SERVER_ERROR busy",
    "SERVER_ERROR leg lost",
    "SERVER_ERROR clock fault",
    "SERVER_ERROR out of memory",
    "SERVER_ERROR node refused",
    "SERVER_ERROR",
    "CLIENT_ERROR",
    "ERROR",
    "no reply to it",
    "broke off",
    "silent",
];

static MIXED: [Step; 6] = [
    (Hit, 400, 83),
    (Miss, 420, 67),
    (Stored, 600, 24),
    (Acknowledged, 2031, 23),
    (Failed(Trouble::Busy), 90, 2),
    (Failed(Trouble::Silent), 5000000, 1),
];

static OTHERS: [Step; 4] = [
    (Miss, 5000001, 2),
    (Stored, 250, 1),
    (Failed(Trouble::Busy), 1, 3),
    (Failed(Trouble::ClientError), 10, 1),
];

/// What comes of the mixed ones.
const ONE: Tally = Tally {
    requests: 200,
    hits: 83,
    misses: 67,
    stored: 24,
    acknowledged: 23,
    troubles: [2, 0, 0, 0, 0, 0, 0, 0, 0, 0, 1],
    times: LegTimes {
        counts: [2, 0, 150, 24, 23, 0, 0, 0, 0, 0, 0, 0, 0, 0, 0, 0],
        micros: 122633,
    },
    greatest: 2031,
};

/// What comes of all.
const BOTH: Tally = Tally {
    requests: 207,
    hits: 83,
    misses: 69,
    stored: 25,
    acknowledged: 23,
    troubles: [5, 0, 0, 0, 0, 0, 1, 0, 0, 0, 1],
    times: LegTimes {
        counts: [6, 1, 150, 24, 23, 0, 0, 0, 0, 0, 0, 0, 0, 0, 0, 2],
        micros: 10122898,
    },
    greatest: 5000001,
};

#[test]
fn troubles_have_names(rt: HostRuntime) {
    for (trouble, name) in Trouble::ALL.iter().zip(NAMES.iter()) {
        holds(&rt, trouble.as_str() == *name, name);
    }
}

#[test]
fn requests_are_counted(rt: HostRuntime) {
    let mut tally = tally_of(&MIXED);
    holds(&rt, tally == ONE, "one second");
    tally.plus(&tally_of(&OTHERS));
    holds(&rt, tally == BOTH, "and another one");
}

#[test]
fn counts_stay_at_the_most(rt: HostRuntime) {
    let mut tally = Tally {
        requests: u64::MAX,
        hits: u64::MAX,
        ..Tally::NONE
    };
    tally.add(Hit, 1);
    tally.plus(&tally_of(&MIXED));
    holds(&rt, tally.requests == u64::MAX, "requests");
    holds(&rt, tally.hits == u64::MAX, "hits");
    holds(&rt, tally.misses == 67, "misses");
}
