//! Refused memory: the same call made again gives what it gives with ample memory.
use super::tally_of;
use crate::tests::{holds, must};
use mr_phases::PhaseName;
use mr_sightings::Outcome::{Failed, Hit};
use mr_sightings::{
    CameBack, Deed, Second, Table, Trouble, Verdict, came_back_json, came_back_text, second_json,
    second_line, table_text, verdict_json, verdict_text,
};
use mr_test_support::at_last;
use std::alloc::AllocError;

const DEED: Deed<'static> = Deed {
    proxy: "a",
    second: 1,
    micros: 2,
    hop: 0,
    phase: PhaseName::OldOnly,
};

static FOUND: CameBack<'static> = CameBack {
    key: b"k",
    set: DEED,
    delete: DEED,
    get: DEED,
};

static VERDICT: Verdict = Verdict {
    came_back: 1,
    requests: 2,
    proxies: 1,
    acknowledged: 1,
    left: 1,
};

#[test]
fn refused_memory_prints_seconds_later(rt: HostRuntime) {
    let second = Second {
        at: 1,
        hop: 0,
        phase: PhaseName::OldOnly,
        tally: tally_of(&[(Hit, 1, 1), (Failed(Trouble::Busy), 1, 1)]),
        came_back: 1,
    };
    let line = must(
        &rt,
        at_last!(&rt, second_line(rt.alloc(), &second), Err(AllocError)),
    );
    let again = must(&rt, second_line(rt.alloc(), &second));
    holds(&rt, line.as_slice() == again.as_slice(), "the same line");
    let json = must(
        &rt,
        at_last!(&rt, second_json(rt.alloc(), &second), Err(AllocError)),
    );
    let again = must(&rt, second_json(rt.alloc(), &second));
    holds(&rt, json.as_slice() == again.as_slice(), "the same object");
}

#[test]
fn refused_memory_tells_what_came_back_later(rt: HostRuntime) {
    let text = must(
        &rt,
        at_last!(&rt, came_back_text(rt.alloc(), &FOUND), Err(AllocError)),
    );
    let again = must(&rt, came_back_text(rt.alloc(), &FOUND));
    holds(&rt, text.as_slice() == again.as_slice(), "the same lines");
    let json = must(
        &rt,
        at_last!(&rt, came_back_json(rt.alloc(), &FOUND), Err(AllocError)),
    );
    let again = must(&rt, came_back_json(rt.alloc(), &FOUND));
    holds(&rt, json.as_slice() == again.as_slice(), "the same object");
}

#[test]
fn refused_memory_judges_later(rt: HostRuntime) {
    let text = must(
        &rt,
        at_last!(&rt, verdict_text(rt.alloc(), &VERDICT), Err(AllocError)),
    );
    let again = must(&rt, verdict_text(rt.alloc(), &VERDICT));
    holds(&rt, text.as_slice() == again.as_slice(), "the same lines");
    let json = must(
        &rt,
        at_last!(&rt, verdict_json(rt.alloc(), &VERDICT), Err(AllocError)),
    );
    let again = must(&rt, verdict_json(rt.alloc(), &VERDICT));
    holds(&rt, json.as_slice() == again.as_slice(), "the same object");
}

#[test]
fn refused_memory_adds_rows_later(rt: HostRuntime) {
    let tally = tally_of(&[(Hit, 1, 1)]);
    let mut table = Table::new(rt.alloc());
    let added = at_last!(
        &rt,
        table.add(0, PhaseName::OldOnly, &tally),
        Err(AllocError)
    );
    must(&rt, added);
    holds(&rt, table.rows().len() == 1, "one row");
    let text = must(
        &rt,
        at_last!(&rt, table_text(rt.alloc(), &table), Err(AllocError)),
    );
    let again = must(&rt, table_text(rt.alloc(), &table));
    holds(&rt, text.as_slice() == again.as_slice(), "the same table");
}
