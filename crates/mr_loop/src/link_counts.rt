//! What a link counts of its legs and its connections, each count since the loop began and as far as 64 bits go.
ghost use Rattle.std.specs.Prelude.{◌≡◌};
ghost use Rattle.mr_loop.specs.Counts.{no_link_counts, one_carried, one_lost, one_unsent, leg_carried, leg_lost, leg_unsent, break_counted, dial_counted};

use crate::sent_legs::SentLeg;
use mr_counting::{LegTimes, one_more};

/// What became of the legs of a link, and of its connections.
#[derive(Clone, Copy, Debug, PartialEq, Eq)]
pub struct LinkCounts {
    /// Dials that were begun.
    pub dials: u64,
    /// Connections that were there and are gone.
    pub breaks: u64,
    /// Legs whose replies came.
    pub carried: u64,
    /// Legs that went and whose connection was gone before a reply that answers them, and those that couldn't go.
    pub lost: u64,
    /// How long those took that went: to the reply, or to the connection's end.
    pub times: LegTimes,
}

impl LinkCounts {
    /// Nothing yet.
    pub(crate) fn new() -> LinkCounts
        ensures { result ≡ no_link_counts }
    {
        LinkCounts {
            dials: 0,
            breaks: 0,
            carried: 0,
            lost: 0,
            times: LegTimes::NONE,
        }
    }

    /// The reply of one leg came, after so many microseconds.
    #[inline(always)]
    fn add_one_carried(&mut self, time: u64)
        ensures { self.new ≡ one_carried time self.old }
    {
        self.carried = one_more(self.carried);
        self.times.add_leg(time);
    }

    /// The reply came at this time that is a leg's, and of those that travelled with it.
    #[inline(always)]
    pub(crate) fn add_carried(&mut self, now: u64, sent: &SentLeg)
        ensures { self.new ≡ leg_carried now sent.now self.old }
    {
        let time = now.saturating_sub(sent.sent_at);
        self.add_one_carried(time);
        for _other in sent.others.as_slice() {
            self.add_one_carried(time);
        }
    }

    /// One leg that went is lost, after so many microseconds.
    fn add_one_lost(&mut self, time: u64)
        ensures { self.new ≡ one_lost time self.old }
    {
        self.lost = one_more(self.lost);
        self.times.add_leg(time);
    }

    /// A leg went with others, and at this time no reply can come any more that answers them.
    pub(crate) fn add_lost(&mut self, now: u64, sent: &SentLeg)
        ensures { self.new ≡ leg_lost now sent.now self.old }
    {
        let time = now.saturating_sub(sent.sent_at);
        self.add_one_lost(time);
        for _other in sent.others.as_slice() {
            self.add_one_lost(time);
        }
    }

    /// One leg couldn't go.
    fn add_one_unsent(&mut self)
        ensures { self.new ≡ one_unsent self.old }
    {
        self.lost = one_more(self.lost);
    }

    /// A leg couldn't go, nor those that were to travel with it.
    pub(crate) fn add_unsent(&mut self, sent: &SentLeg)
        ensures { self.new ≡ leg_unsent sent.now self.old }
    {
        self.add_one_unsent();
        for _other in sent.others.as_slice() {
            self.add_one_unsent();
        }
    }

    /// The connection is gone, if there was one.
    pub(crate) fn add_break(&mut self, was_up: bool)
        ensures { self.new ≡ break_counted was_up self.old }
    {
        if was_up {
            self.breaks = one_more(self.breaks);
        }
    }

    /// A dial began.
    pub(crate) fn add_dial(&mut self)
        ensures { self.new ≡ dial_counted self.old }
    {
        self.dials = one_more(self.dials);
    }
}
