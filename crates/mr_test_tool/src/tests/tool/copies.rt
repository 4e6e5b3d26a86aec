//! Copies of what words ask for, each with memory refused once.
use super::is;
use crate::tests::must;
use mr_test_support::{at_last, grant_memory, refuse_memory};
use mr_tool::{CanaryValues, Span, TimelineValues, Wanted, WatchValues, read_words};
use std::alloc::{AllocError, Global};
use std::env::Env;
use std::process::Abort;

const TIMELINE: &[&str] = &[
    "timeline",
    "--config",
    "fleet.json",
    "--readings",
    "999,1100",
];

const WATCH: &[&str] = &["watch", "--config", "fleet.json", "--once", "a:1", "b:2"];

const CANARY: &[&str] = &[
    "canary",
    "--config",
    "fleet.json",
    "--seconds",
    "9",
    "--clients",
    "3",
    "--keys",
    "7",
    "--rate",
    "11",
    "--prefix",
    "k",
    "--json",
    "a:1",
    "b:2",
];

const CHECK: &[&str] = &["check", "transcript.json"];

/// The same command, copied where memory is refused once.
fn copied<'a>(rt: &(impl Abort + Env), alloc: Global, words: &'a [&'a str]) -> Wanted<'a> {
    let wanted = must(rt, read_words(alloc, words));
    must(rt, at_last!(rt, wanted.copy(), Err(AllocError)))
}

/// Asserts what a timeline is of.
fn expect_timeline(rt: &impl Abort, values: &TimelineValues) {
    is(rt, values.config, "fleet.json");
    is(rt, values.readings(), Some([999, 1100].as_slice()));
}

/// Asserts what a watch is of.
fn expect_watch(rt: &impl Abort, values: &WatchValues) {
    is(
        rt,
        (values.config, values.once, values.json),
        ("fleet.json", true, false),
    );
    is(rt, values.addresses(), ["a:1", "b:2"].as_slice());
}

/// Asserts what a canary is of.
fn expect_canary(rt: &impl Abort, values: &CanaryValues) {
    is(rt, values.config, "fleet.json");
    is(rt, values.span, Span::Seconds(9));
    is(rt, (values.clients, values.keys, values.rate), (3, 7, 11));
    is(rt, (values.prefix, values.json), ("k", true));
    is(rt, values.proxies(), ["a:1", "b:2"].as_slice());
}

#[test]
fn refused_memory_copies_a_timeline_later(rt: HostRuntime) {
    match copied(&rt, rt.alloc(), TIMELINE) {
        Wanted::Timeline(values) => {
            let again = at_last!(&rt, values.copy(), Err(AllocError));
            expect_timeline(&rt, &values);
            expect_timeline(&rt, &must(&rt, again));
        }
        _ => rt.panic("another command"),
    }
}

#[test]
fn refused_memory_copies_a_watch_later(rt: HostRuntime) {
    match copied(&rt, rt.alloc(), WATCH) {
        Wanted::Watch(values) => {
            let again = at_last!(&rt, values.copy(), Err(AllocError));
            expect_watch(&rt, &values);
            expect_watch(&rt, &must(&rt, again));
        }
        _ => rt.panic("another command"),
    }
}

#[test]
fn refused_memory_copies_a_canary_later(rt: HostRuntime) {
    match copied(&rt, rt.alloc(), CANARY) {
        Wanted::Canary(values) => {
            let again = at_last!(&rt, values.copy(), Err(AllocError));
            expect_canary(&rt, &values);
            expect_canary(&rt, &must(&rt, again));
        }
        _ => rt.panic("another command"),
    }
}

#[test]
fn a_command_is_copied(rt: HostRuntime) {
    match copied(&rt, rt.alloc(), CHECK) {
        Wanted::Check(file) => is(&rt, file, Some("transcript.json")),
        _ => rt.panic("another command"),
    }
}
