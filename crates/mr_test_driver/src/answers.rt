//! What the program says of the loops of a proxy to who asks by a line.

use crate::notes::say_heard;
use crossbeam_channel::Receiver;
use mr_driver::{Doors, LinkReport, LoopEvent, LoopReport};
use std::alloc::Global;
use std::io;
use std::sync::Wait;
use std::time::Clock;

/// What all loops tell of the link to one node.
#[derive(Clone, Copy)]
struct NodeSum {
    up: u64,
    dials: u64,
    breaks: u64,
    carried: u64,
    lost: u64,
}

impl NodeSum {
    /// Nothing yet.
    const NONE: NodeSum = NodeSum {
        up: 0,
        dials: 0,
        breaks: 0,
        carried: 0,
        lost: 0,
    };

    /// What one more loop tells.
    fn add(&mut self, link: &LinkReport) {
        self.up = self.up.saturating_add(u64::from(link.is_up));
        self.dials = self.dials.saturating_add(link.counts.dials);
        self.breaks = self.breaks.saturating_add(link.counts.breaks);
        self.carried = self.carried.saturating_add(link.counts.carried);
        self.lost = self.lost.saturating_add(link.counts.lost);
    }
}

/// Says what the loops tell of the link to a node, if they have it. Whether they do.
fn say_node<R: Print>(rt: &R, reports: &[LoopReport], node: usize) -> io::Result<bool> {
    let mut sum = NodeSum::NONE;
    let mut is_there = false;
    for report in reports {
        if let Some(link) = report.links.get(node) {
            sum.add(link);
            is_there = true;
        }
    }
    if is_there {
        let NodeSum {
            up,
            dials,
            breaks,
            carried,
            lost,
        } = sum;
        println!(rt;
            "node {node} up {up} dials {dials} breaks {breaks} carried {carried} lost {lost}"
        )?;
    }
    Ok(is_there)
}

/// Says what was heard since the last question, and what the loops tell of themselves, which ends with a line of its own.
fn answer<R: Wait + Clock + Print>(
    rt: &R,
    alloc: Global,
    doors: &Doors<LoopReport>,
    heard: &Receiver<LoopEvent>,
) -> io::Result<()> {
    say_heard(rt, heard)?;
    let reports = doors.ask(rt, alloc)?;
    let mut came: u64 = 0;
    let mut left: u64 = 0;
    let mut held: u64 = 0;
    let mut under_way: u64 = 0;
    for report in &reports {
        came = came.saturating_add(report.clients.came);
        left = left.saturating_add(report.clients.left);
        held = held.saturating_add(report.clients.held_back);
        under_way = under_way.saturating_add(report.counts.under_way);
    }
    for node in 0..usize::MAX {
        if !say_node(rt, reports.as_slice(), node)? {
            break;
        }
    }
    let loops = reports.len();
    let full = u64::from(doors.is_full());
    println!(rt;
        "told loops {loops} came {came} left {left} held {held} under_way {under_way} full {full}"
    )
}

/// Answers each line of the input.
pub(crate) fn answer_of_proxy<R: Wait + Clock + Input + Print>(
    rt: &R,
    alloc: Global,
    doors: &Doors<LoopReport>,
    heard: &Receiver<LoopEvent>,
) {
    for line in rt.lines(alloc) {
        if line.is_err() || answer(rt, alloc, doors, heard).is_err() {
            return;
        }
    }
}
