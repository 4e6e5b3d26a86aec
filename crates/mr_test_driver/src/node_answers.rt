//! What the program says of the loops of a node to who asks by a line.

use crate::notes::say_heard;
use crossbeam_channel::Receiver;
use mr_driver::{CacheLook, Doors, LoopEvent, SharedCache};
use mr_loop::ServedCounts;
use std::alloc::Global;
use std::io;
use std::sync::Wait;
use std::time::Clock;

/// What all loops of a node tell together.
#[derive(Clone, Copy)]
struct Sum {
    came: u64,
    left: u64,
    hits: u64,
    misses: u64,
    stored: u64,
    deleted: u64,
    not_found: u64,
    failed: u64,
}

impl Sum {
    /// What these loops tell.
    fn of(reports: &[ServedCounts]) -> Sum {
        let mut sum = Sum {
            came: 0,
            left: 0,
            hits: 0,
            misses: 0,
            stored: 0,
            deleted: 0,
            not_found: 0,
            failed: 0,
        };
        for report in reports {
            sum.add(report);
        }
        sum
    }

    /// What one more loop tells.
    fn add(&mut self, report: &ServedCounts) {
        self.came = self.came.saturating_add(report.came);
        self.left = self.left.saturating_add(report.left);
        self.hits = self.hits.saturating_add(report.hits);
        self.misses = self.misses.saturating_add(report.misses);
        self.stored = self.stored.saturating_add(report.stored);
        self.deleted = self.deleted.saturating_add(report.deleted);
        self.not_found = self.not_found.saturating_add(report.not_found);
        self.failed = self.failed.saturating_add(report.failed);
    }

    /// Says what the loops tell of what they served.
    fn say<R: Print>(&self, rt: &R) -> io::Result<()> {
        let Sum {
            hits,
            misses,
            stored,
            deleted,
            not_found,
            failed,
            ..
        } = self;
        println!(rt;
            "done hits {hits} misses {misses} stored {stored} deleted {deleted} not_found {not_found} failed {failed}"
        )
    }
}

/// Says what is known of the cache.
fn say_cache<R: Print>(rt: &R, look: CacheLook) -> io::Result<()> {
    let CacheLook {
        items,
        capacity,
        evicted,
    } = look;
    println!(rt; "cache items {items} capacity {capacity} evicted {evicted}")
}

/// Says what was heard since the last question, what the cache holds, and what the loops tell of themselves, which ends with a line of
/// its own.
fn answer<R: Wait + Clock + Print>(
    rt: &R,
    alloc: Global,
    doors: &Doors<ServedCounts>,
    cache: &SharedCache,
    heard: &Receiver<LoopEvent>,
) -> io::Result<()> {
    say_heard(rt, heard)?;
    let reports = doors.ask(rt, alloc)?;
    let sum = Sum::of(reports.as_slice());
    sum.say(rt)?;
    say_cache(rt, cache.look(rt))?;
    let loops = reports.len();
    let came = sum.came;
    let left = sum.left;
    let full = u64::from(doors.is_full());
    println!(rt; "told loops {loops} came {came} left {left} full {full}")
}

/// Answers each line of the input.
pub(crate) fn answer_of_node<R: Wait + Clock + Input + Print>(
    rt: &R,
    alloc: Global,
    doors: &Doors<ServedCounts>,
    cache: &SharedCache,
    heard: &Receiver<LoopEvent>,
) {
    for line in rt.lines(alloc) {
        if line.is_err() || answer(rt, alloc, doors, cache, heard).is_err() {
            return;
        }
    }
}
