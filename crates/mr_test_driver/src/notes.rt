//! What is heard of loops, until somebody asks.

use crossbeam_channel::{Receiver, Sender};
use mr_driver::{Hears, LoopEvent};
use std::io;
use std::sync::Wait;

/// Keeps what is heard until somebody asks.
pub(crate) struct Notes<R: Wait + Drop> {
    rt: R,
    to: Sender<LoopEvent>,
}

impl<R: Wait + Drop> Drop for Notes<R> {
    fn drop(self) {
        let Self { rt: _, to: _ } = self;
    }
}

impl<R: Wait + Drop> Notes<R> {
    /// What is heard goes there.
    pub(crate) fn new(rt: R, to: Sender<LoopEvent>) -> Notes<R> {
        Notes { rt, to }
    }
}

impl<R: Wait + Drop> Hears for Notes<R> {
    fn hear(&self, event: LoopEvent) {
        let _ = self.to.send(&self.rt, event);
    }
}

/// Says what was heard since the last question.
pub(crate) fn say_heard<R: Wait + Print>(rt: &R, heard: &Receiver<LoopEvent>) -> io::Result<()> {
    for _ in 0..u64::MAX {
        match heard.try_recv(rt) {
            Ok(event) => println!(rt; "heard {event:?}")?,
            Err(_) => break,
        }
    }
    Ok(())
}
