//! Refused memory: the same call made again gives what it gives with ample memory, and nothing was written before. That whole
//! commands leave nothing half printed is looked at from outside (`tests/refused`).
use super::{FLEET, HELD, UPGRADED, is};
use crate::tests::must;
use mr_configs::{Config, PlanError};
use mr_pools::NamedHash;
use mr_scripts::upgrade_script;
use mr_test_support::{at_last, grant_memory, refuse_memory};
use mr_text::{Key, OverWriter, Request};
use mr_tool::{
    MigrationWords, PlanValues, Planned, PrintFault, Wanted, WordsFault, read_words, write_plan,
};
use std::alloc::Global;
use std::env::Env;
use std::process::Abort;

const PLAN: &[&str] = &["plan", "--config", "fleet.json", "--at", "1000"];

const SIX_WORDS: &[&str] = &[
    "plan",
    "7001,7002",
    "7101,7102,7103",
    "1000",
    "100",
    "sum",
    "999",
];

#[test]
fn refused_memory_reads_words_later(rt: HostRuntime) {
    let read = at_last!(&rt, read_words(rt.alloc(), PLAN), Err(WordsFault::Memory));
    match must(&rt, read) {
        Wanted::Plan(
            PlanValues {
                planned: Planned::InFile(path),
                at,
            },
        ) => is(&rt, (path, at), ("fleet.json", 1000)),
        _ => rt.panic("another command"),
    }
}

/// Asserts what six words say.
fn expect_migration(rt: &impl Abort, words: &MigrationWords) {
    is(rt, (words.old, words.new), ("7001,7002", "7101,7102,7103"));
    is(rt, (words.start, words.interval), (1000, 100));
    is(rt, words.hash, NamedHash::Sum);
}

#[test]
fn refused_memory_reads_six_words_later(rt: HostRuntime) {
    let read = at_last!(
        &rt,
        read_words(rt.alloc(), SIX_WORDS),
        Err(WordsFault::Memory)
    );
    match must(&rt, read) {
        Wanted::Plan(
            PlanValues {
                planned: Planned::InWords(words),
                at,
            },
        ) => {
            expect_migration(&rt, &words);
            is(&rt, at, 999);
        }
        _ => rt.panic("another command"),
    }
}

fn delete(rt: &impl Abort, alloc: Global) -> Request {
    Request::Delete {
        key: must(rt, Key::new(alloc, b"k")),
        noreply: false,
    }
}

/// What is written of a plan, in the second of two calls where memory was refused in the first: then that wrote nothing.
fn plan_at_last(rt: &(impl Abort + Env), alloc: Global, config: &Config) -> Vec<u8> {
    let (request, again) = (delete(rt, alloc), delete(rt, alloc));
    let mut writer = OverWriter::new(must(rt, Vec::with_capacity(alloc, 256)));
    refuse_memory(rt);
    let first = write_plan(alloc, config, 1000, request, &mut writer);
    grant_memory(rt);
    let written = writer.into_inner();
    if first != Err(PrintFault::Memory) {
        must(rt, first);
        return written;
    }
    is(rt, written.len(), 0);
    let mut writer = OverWriter::new(written);
    must(rt, write_plan(alloc, config, 1000, again, &mut writer));
    writer.into_inner()
}

#[test]
fn refused_memory_writes_a_plan_later(rt: HostRuntime) {
    let config = must(&rt, Config::read(rt.alloc(), FLEET));
    let written = plan_at_last(&rt, rt.alloc(), &config);
    let wanted = b"phase both-read-old at 1000\nleg 0 old 7002\nleg 1 new 7103\n";
    is(&rt, written.as_slice(), wanted.as_slice());
}

/// The program prints a line end behind it.
#[test]
fn refused_memory_upgrades_a_script_later(rt: HostRuntime) {
    let upgraded = at_last!(
        &rt,
        upgrade_script(rt.alloc(), HELD),
        Err(PlanError::OutOfMemory)
    );
    let mut text = must(&rt, upgraded);
    must(&rt, text.push(b'\n'));
    is(&rt, text.as_slice(), UPGRADED);
}
