//! How far a link is, and when its node is dialled.
ghost use Rattle.std.specs.Prelude.{◌≡◌, true, not};
ghost use Rattle.mr_driver.specs.Stages.{begun, paused, dialed_at, up_at, refused_at, ended_at, is_up_in, is_dialed_in, is_due_at, trouble_at};

use crate::hearing::LinkTrouble;
use crate::times::{has_passed, next_pause};

/// How far a link is.
#[derive(Clone, Copy, Debug, PartialEq, Eq)]
pub(crate) enum Stage {
    /// Its node isn't dialled before this moment.
    Down(u64),
    /// Its node was dialled at this moment, and hasn't answered.
    Dialed(u64),
    /// There is a connection since this moment.
    Up(u64),
}

/// How far a link is, and how long the last pause before a dial was. Moments and pauses are in microseconds.
#[derive(Clone, Copy, Debug, PartialEq, Eq)]
pub(crate) struct Progress {
    pub(crate) stage: Stage,
    pub(crate) pause: u64,
    /// It was heard that there is no connection.
    pub(crate) is_told: bool,
}

impl Progress {
    /// A link whose node may be dialled at once.
    pub(crate) fn new() -> Progress
        ensures { result ≡ begun }
    {
        Progress {
            stage: Stage::Down(0),
            pause: 0,
            is_told: false,
        }
    }

    /// A pause from this moment on.
    fn start_pause(&mut self, now: u64, pause: u64)
        ensures { self.new ≡ paused now pause self.old }
    {
        self.stage = Stage::Down(now.saturating_add(pause));
        self.pause = pause;
    }

    /// The node is dialled.
    pub(crate) fn dial(&mut self, now: u64)
        ensures { self.new ≡ dialed_at now self.old }
    {
        self.stage = Stage::Dialed(now);
    }

    /// There is a connection.
    pub(crate) fn come_up(&mut self, now: u64)
        ensures { self.new ≡ up_at now self.old }
    {
        self.stage = Stage::Up(now);
        self.is_told = false;
    }

    /// The node couldn't be dialled.
    pub(crate) fn refuse(&mut self, now: u64)
        ensures { self.new ≡ refused_at now self.old }
    {
        let pause = next_pause(self.pause, 0);
        self.start_pause(now, pause);
    }

    /// The link has ended, or the node didn't answer. One that is down stays as it is.
    pub(crate) fn end(&mut self, now: u64)
        ensures { self.new ≡ ended_at now self.old }
    {
        match self.stage {
            Stage::Down(_) => {}
            Stage::Dialed(_) => self.refuse(now),
            Stage::Up(since) => {
                let pause = next_pause(self.pause, now.saturating_sub(since));
                self.start_pause(now, pause);
            }
        }
    }

    /// That there is no connection is heard. Whether that is news.
    pub(crate) fn tell_down(&mut self) -> bool
        ensures news { result ≡ not self.old.is_told }
        ensures told { self.new ≡ record self.old { is_told = true } }
    {
        let is_news = !self.is_told;
        self.is_told = true;
        is_news
    }

    /// Whether there is a connection.
    pub(crate) fn is_up(&self) -> bool
        ensures { result ≡ is_up_in self.now }
    {
        match self.stage {
            Stage::Up(_) => true,
            _ => false,
        }
    }

    /// Whether the node was dialled and hasn't answered.
    pub(crate) fn is_dialed(&self) -> bool
        ensures { result ≡ is_dialed_in self.now }
    {
        match self.stage {
            Stage::Dialed(_) => true,
            _ => false,
        }
    }

    /// Whether the node is to be dialled.
    pub(crate) fn is_due(&self, now: u64) -> bool
        ensures { result ≡ is_due_at now self.now }
    {
        match self.stage {
            Stage::Down(until) => until <= now,
            _ => false,
        }
    }

    /// What the time has done to it, where the machine has a connection or doesn't, and a dial may be unanswered for so long: one
    /// that is up was silent where the machine gave it up.
    pub(crate) fn trouble_at(&self, is_up: bool, bound: u64, now: u64) -> Option<LinkTrouble>
        ensures { result ≡ trouble_at is_up bound now self.now }
    {
        match self.stage {
            Stage::Down(_) => None,
            Stage::Dialed(since) => {
                if has_passed(bound, since, now) {
                    Some(LinkTrouble::NotReached)
                } else {
                    None
                }
            }
            Stage::Up(_) => {
                if is_up {
                    None
                } else {
                    Some(LinkTrouble::Silent)
                }
            }
        }
    }
}
