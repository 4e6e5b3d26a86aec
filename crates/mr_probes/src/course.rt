//! How the asking goes on.
ghost use Rattle.std.specs.Prelude.{◌≡◌, ◌<◌, ◌-◌, ◌^◌};
ghost use Rattle.mr_probes.specs.CanaryView.{is_due, gone_on};

use crate::dice::Dice;
use crate::pace::Pace;
use crate::wish::Wish;

/// How the asking goes on.
#[derive(Clone, Copy, Debug, PartialEq, Eq)]
pub struct Course {
    /// When requests are due.
    pub pace: Pace,
    /// By what they are drawn.
    pub dice: Dice,
    /// The client whose turn it is.
    pub turn: usize,
    /// Where each key that was set is deleted once more: the first key that may still have to be.
    pub cleaning: Option<usize>,
    /// After so many microseconds without a reply a request is given up.
    pub give_up: u64,
}

impl Course {
    /// Whether a request is due.
    pub(crate) fn is_due(&self, now: u64) -> bool
        ensures { result ≡ is_due now self.now }
    {
        self.pace.is_due(now)
    }

    /// The client of this place asked this.
    pub(crate) fn go_on(&mut self, place: usize, now: u64, wish: Wish)
        requires { place < 2 ^ 64 - 1 }
        ensures { self.new ≡ gone_on place now wish self.old }
    {
        self.turn = place + 1;
        self.pace.go_on(now);
        if wish.cleans {
            self.cleaning = Some(wish.key.saturating_add(1));
        } else {
            self.dice.go_on();
        }
    }
}
