//! Seconds, as lines and as JSON.
use super::{Step, has_lines, tally_of};
use crate::tests::{holds, must};
use mr_phases::PhaseName;
use mr_sightings::Outcome::{Acknowledged, Failed, Hit, Miss, Stored};
use mr_sightings::{Second, Trouble, second_json, second_line};
use std::alloc::Global;
use std::process::Abort;

/// A second, and what is printed of it.
struct Row {
    name: &'static str,
    at: u64,
    hop: u32,
    phase: PhaseName,
    steps: &'static [Step],
    came_back: u64,
    line: &'static str,
    json: &'static str,
}

static ROWS: [Row; 7] = [
    Row {
        name: "nothing was asked",
        at: 1000,
        hop: 0,
        phase: PhaseName::OldOnly,
        steps: &[],
        came_back: 0,
        line: "second 1000 old-only of hop 0: 0 requests, 0 hits, 0 misses, median -, greatest -",
        json: r#"{"at":1000,"came_back":0,"errors":{},"greatest_micros":null,"hits":0,"hop":0,"median_micros":null,"misses":0,"phase":"old-only","requests":0}"#,
    },
    Row {
        name: "a second of everything",
        at: 1012,
        hop: 0,
        phase: PhaseName::BothReadOld,
        steps: &[
            (Hit, 400, 83),
            (Miss, 420, 67),
            (Stored, 600, 24),
            (Acknowledged, 2031, 23),
            (Failed(Trouble::Busy), 90, 2),
            (Failed(Trouble::Silent), 5000000, 1),
        ],
        came_back: 2,
        line: "second 1012 both-read-old of hop 0: 200 requests, 83 hits, 67 misses, median 0.5 ms, greatest 2.031 ms, errors 3: 2 SERVER_ERROR busy, 1 silent, came back 2",
        json: r#"{"at":1012,"came_back":2,"errors":{"SERVER_ERROR busy":2,"silent":1},"greatest_micros":2031,"hits":83,"hop":0,"median_micros":500,"misses":67,"phase":"both-read-old","requests":200}"#,
    },
    Row {
        name: "one hit that took too long",
        at: 1013,
        hop: 1,
        phase: PhaseName::BothReadNew,
        steps: &[(Hit, 5000001, 1)],
        came_back: 0,
        line: "second 1013 both-read-new of hop 1: 1 request, 1 hit, 0 misses, median over 5000 ms, greatest 5000.001 ms",
        json: r#"{"at":1013,"came_back":0,"errors":{},"greatest_micros":5000001,"hits":1,"hop":1,"median_micros":5000001,"misses":0,"phase":"both-read-new","requests":1}"#,
    },
    Row {
        name: "each trouble once",
        at: 1014,
        hop: 3,
        phase: PhaseName::NewOnly,
        steps: &[
            (Failed(Trouble::Busy), 100, 1),
            (Failed(Trouble::LegLost), 100, 1),
            (Failed(Trouble::ClockFault), 100, 1),
            (Failed(Trouble::OutOfMemory), 100, 1),
            (Failed(Trouble::NodeRefused), 100, 1),
            (Failed(Trouble::OtherServerError), 100, 1),
            (Failed(Trouble::ClientError), 100, 1),
            (Failed(Trouble::Error), 100, 1),
            (Failed(Trouble::NoReply), 100, 1),
            (Failed(Trouble::BrokeOff), 100, 1),
            (Failed(Trouble::Silent), 100, 1),
        ],
        came_back: 0,
        line: "second 1014 new-only of hop 3: 11 requests, 0 hits, 0 misses, median 0.1 ms, greatest 0.100 ms, errors 11: 1 SERVER_ERROR busy, 1 SERVER_ERROR leg lost, 1 SERVER_ERROR clock fault, 1 SERVER_ERROR out of memory, 1 SERVER_ERROR node refused, 1 SERVER_ERROR, 1 CLIENT_ERROR, 1 ERROR, 1 no reply to it, 1 broke off, 1 silent",
        json: r#"{"at":1014,"came_back":0,"errors":{"CLIENT_ERROR":1,"ERROR":1,"SERVER_ERROR":1,"SERVER_ERROR busy":1,"SERVER_ERROR clock fault":1,"SERVER_ERROR leg lost":1,"SERVER_ERROR node refused":1,"SERVER_ERROR out of memory":1,"broke off":1,"no reply to it":1,"silent":1},"greatest_micros":100,"hits":0,"hop":3,"median_micros":100,"misses":0,"phase":"new-only","requests":11}"#,
    },
    Row {
        name: "no answer",
        at: 1015,
        hop: 0,
        phase: PhaseName::BothReadOld,
        steps: &[(Failed(Trouble::Silent), 7, 3)],
        came_back: 0,
        line: "second 1015 both-read-old of hop 0: 3 requests, 0 hits, 0 misses, median -, greatest -, errors 3: 3 silent",
        json: r#"{"at":1015,"came_back":0,"errors":{"silent":3},"greatest_micros":null,"hits":0,"hop":0,"median_micros":null,"misses":0,"phase":"both-read-old","requests":3}"#,
    },
    Row {
        name: "the middle of two is the quicker",
        at: 1016,
        hop: 0,
        phase: PhaseName::BothReadOld,
        steps: &[(Miss, 100, 1), (Miss, 101, 1)],
        came_back: 0,
        line: "second 1016 both-read-old of hop 0: 2 requests, 0 hits, 2 misses, median 0.1 ms, greatest 0.101 ms",
        json: r#"{"at":1016,"came_back":0,"errors":{},"greatest_micros":101,"hits":0,"hop":0,"median_micros":100,"misses":2,"phase":"both-read-old","requests":2}"#,
    },
    Row {
        name: "the middle of three",
        at: 1017,
        hop: 0,
        phase: PhaseName::BothReadOld,
        steps: &[(Miss, 100, 1), (Miss, 101, 1), (Stored, 251, 1)],
        came_back: 0,
        line: "second 1017 both-read-old of hop 0: 3 requests, 0 hits, 2 misses, median 0.25 ms, greatest 0.251 ms",
        json: r#"{"at":1017,"came_back":0,"errors":{},"greatest_micros":251,"hits":0,"hop":0,"median_micros":250,"misses":2,"phase":"both-read-old","requests":3}"#,
    },
];

/// The second of a row.
fn second_of(row: &Row) -> Second {
    Second {
        at: row.at,
        hop: row.hop,
        phase: row.phase,
        tally: tally_of(row.steps),
        came_back: row.came_back,
    }
}

/// Prints the second of a row.
fn prints(rt: &impl Abort, alloc: Global, row: &Row) {
    let second = second_of(row);
    let line = must(rt, second_line(alloc, &second));
    holds(
        rt,
        has_lines(rt, alloc, line.as_slice(), &[row.line]),
        row.name,
    );
    let json = must(rt, second_json(alloc, &second));
    holds(
        rt,
        has_lines(rt, alloc, json.as_slice(), &[row.json]),
        row.name,
    );
}

#[test]
fn seconds_are_printed(rt: HostRuntime) {
    for row in &ROWS {
        prints(&rt, rt.alloc(), row);
    }
}
