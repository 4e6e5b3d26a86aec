//! What came back, and verdicts, as text and as JSON.
use super::has_lines;
use crate::tests::{holds, must};
use mr_phases::PhaseName;
use mr_sightings::{
    CameBack, Deed, Verdict, came_back_json, came_back_text, verdict_json, verdict_text,
};
use std::alloc::Global;
use std::process::Abort;

static FOUND: CameBack<'static> = CameBack {
    key: b"migctl-canary-00c0ffee00c0ffee-7",
    set: Deed {
        proxy: "127.0.0.1:7301",
        second: 1012,
        micros: 345678,
        hop: 0,
        phase: PhaseName::BothReadOld,
    },
    delete: Deed {
        proxy: "127.0.0.1:7302",
        second: 1013,
        micros: 120,
        hop: 0,
        phase: PhaseName::BothReadOld,
    },
    get: Deed {
        proxy: "127.0.0.1:7301",
        second: 1013,
        micros: 500007,
        hop: 0,
        phase: PhaseName::BothReadOld,
    },
};

static FOUND_LINES: [&str; 4] = [
    "came back: migctl-canary-00c0ffee00c0ffee-7",
    "  set     at 127.0.0.1:7301, second 1012.345678, both-read-old of hop 0",
    "  delete  at 127.0.0.1:7302, second 1013.000120, both-read-old of hop 0",
    "  get     at 127.0.0.1:7301, second 1013.500007, both-read-old of hop 0",
];

const FOUND_JSON: &str =
    r#"{"came_back":{"delete":{"hop":0,"micros":120,"phase":"both-read-old","proxy":"127.0.0.1:7302","second":1013},"get":{"hop":0,"micros":500007,"phase":"both-read-old","proxy":"127.0.0.1:7301","second":1013},"key":"migctl-canary-00c0ffee00c0ffee-7","set":{"hop":0,"micros":345678,"phase":"both-read-old","proxy":"127.0.0.1:7301","second":1012}}}"#;

static ODD: CameBack<'static> = CameBack {
    key: b"caf\xc3\xa9\"\\\x7f",
    set: Deed {
        proxy: "[::1]:7301",
        second: 0,
        micros: 0,
        hop: 3,
        phase: PhaseName::OldOnly,
    },
    delete: Deed {
        proxy: "proxy",
        second: 18446744073709551615,
        micros: 999999,
        hop: 0,
        phase: PhaseName::NewOnly,
    },
    get: Deed {
        proxy: "",
        second: 1,
        micros: 1,
        hop: 1,
        phase: PhaseName::BothReadNew,
    },
};

static ODD_LINES: [&str; 4] = [
    "came back: caf??\"\\?",
    "  set     at [::1]:7301, second 0.000000, old-only of hop 3",
    "  delete  at proxy, second 18446744073709551615.999999, new-only of hop 0",
    "  get     at , second 1.000001, both-read-new of hop 1",
];

const ODD_JSON: &str =
    r#"{"came_back":{"delete":{"hop":0,"micros":999999,"phase":"new-only","proxy":"proxy","second":18446744073709551615},"get":{"hop":1,"micros":1,"phase":"both-read-new","proxy":"","second":1},"key":"caf??\"\\?","set":{"hop":3,"micros":0,"phase":"old-only","proxy":"[::1]:7301","second":0}}}"#;

/// A verdict, and what is printed of it.
struct Row {
    verdict: Verdict,
    lines: &'static [&'static str],
    json: &'static str,
}

static ROWS: [Row; 6] = [
    Row {
        verdict: Verdict {
            came_back: 0,
            requests: 11872,
            proxies: 2,
            acknowledged: 1204,
            left: 0,
        },
        lines: &[
            "nothing that was deleted came back: 11,872 requests at 2 proxies, 1,204 deletes acknowledged",
        ],
        json: r#"{"verdict":{"acknowledged":1204,"came_back":0,"left":0,"proxies":2,"requests":11872}}"#,
    },
    Row {
        verdict: Verdict {
            came_back: 3,
            requests: 11872,
            proxies: 2,
            acknowledged: 1204,
            left: 0,
        },
        lines: &[
            "what was deleted came back 3 times: 11,872 requests at 2 proxies, 1,204 deletes acknowledged",
        ],
        json: r#"{"verdict":{"acknowledged":1204,"came_back":3,"left":0,"proxies":2,"requests":11872}}"#,
    },
    Row {
        verdict: Verdict {
            came_back: 1,
            requests: 1,
            proxies: 1,
            acknowledged: 1,
            left: 1,
        },
        lines: &[
            "what was deleted came back 1 time: 1 request at 1 proxy, 1 delete acknowledged",
            "1 key wasn't deleted: it expires within an hour",
        ],
        json: r#"{"verdict":{"acknowledged":1,"came_back":1,"left":1,"proxies":1,"requests":1}}"#,
    },
    Row {
        verdict: Verdict {
            came_back: 0,
            requests: 0,
            proxies: 3,
            acknowledged: 0,
            left: 5,
        },
        lines: &[
            "nothing that was deleted came back: 0 requests at 3 proxies, 0 deletes acknowledged",
            "5 keys weren't deleted: they expire within an hour",
        ],
        json: r#"{"verdict":{"acknowledged":0,"came_back":0,"left":5,"proxies":3,"requests":0}}"#,
    },
    Row {
        verdict: Verdict {
            came_back: 1000,
            requests: 999999,
            proxies: 64,
            acknowledged: 1000000,
            left: 1000,
        },
        lines: &[
            "what was deleted came back 1,000 times: 999,999 requests at 64 proxies, 1,000,000 deletes acknowledged",
            "1,000 keys weren't deleted: they expire within an hour",
        ],
        json: r#"{"verdict":{"acknowledged":1000000,"came_back":1000,"left":1000,"proxies":64,"requests":999999}}"#,
    },
    Row {
        verdict: Verdict {
            came_back: 0,
            requests: 18446744073709551615,
            proxies: 10,
            acknowledged: 100,
            left: 65536,
        },
        lines: &[
            "nothing that was deleted came back: 18,446,744,073,709,551,615 requests at 10 proxies, 100 deletes acknowledged",
            "65,536 keys weren't deleted: they expire within an hour",
        ],
        json: r#"{"verdict":{"acknowledged":100,"came_back":0,"left":65536,"proxies":10,"requests":18446744073709551615}}"#,
    },
];

/// Prints what came back.
fn tells(rt: &impl Abort, alloc: Global, found: &CameBack<'_>, lines: &[&str], json: &str) {
    let text = must(rt, came_back_text(alloc, found));
    holds(
        rt,
        has_lines(rt, alloc, text.as_slice(), lines),
        "what came back",
    );
    let text = must(rt, came_back_json(alloc, found));
    holds(
        rt,
        has_lines(rt, alloc, text.as_slice(), &[json]),
        "the same as JSON",
    );
}

/// Prints the verdict of a row.
fn judges(rt: &impl Abort, alloc: Global, row: &Row) {
    let text = must(rt, verdict_text(alloc, &row.verdict));
    holds(
        rt,
        has_lines(rt, alloc, text.as_slice(), row.lines),
        row.json,
    );
    let text = must(rt, verdict_json(alloc, &row.verdict));
    holds(
        rt,
        has_lines(rt, alloc, text.as_slice(), &[row.json]),
        row.json,
    );
}

#[test]
fn what_came_back_is_told(rt: HostRuntime) {
    tells(&rt, rt.alloc(), &FOUND, &FOUND_LINES, FOUND_JSON);
    tells(&rt, rt.alloc(), &ODD, &ODD_LINES, ODD_JSON);
}

#[test]
fn verdicts_are_told(rt: HostRuntime) {
    for row in &ROWS {
        judges(&rt, rt.alloc(), row);
    }
}
