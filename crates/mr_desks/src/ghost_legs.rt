//! The legs that were sent, which only contracts see.
ghost use Rattle.std.specs.Prelude.{◌≡◌, [], ◌∷◌, ◌++◌};

use mr_proxy::LegSheet;
use std::marker::Model;
use std::snapshot::Snapshot;

/// What was sent: nothing, or one more leg after those that contracts remember.
#[derive(Drop)]
pub enum SentLegs {
    /// Nothing yet.
    Nothing,
    /// One more leg.
    More(Snapshot<SentLegs>, Snapshot<LegSheet>),
}

/// The legs that were sent, which contracts see as a list and the program doesn't keep.
#[derive(Drop)]
pub struct GhostLegs {
    legs: SentLegs,
}

impl Model for GhostLegs {
    ghost use Rattle.std.specs.Prelude.{List};
    ghost use Rattle.mr_proxy.specs.declared.sheet.LegSheet.{LegSheet};
    ghost use Rattle.mr_desks.specs.SentLegs.{legs_of};

    ghost Value = { List LegSheet };

    ghost view = { λ g. legs_of g.legs };
}

impl GhostLegs {
    /// No legs.
    pub fn new() -> GhostLegs
        ensures { result ≡ [] }
    {
        GhostLegs {
            legs: SentLegs::Nothing,
        }
    }

    /// Adds a leg at the end.
    pub fn add(&mut self, leg: &LegSheet)
        ensures { self.new ≡ self.old ++ leg.now ∷ [] }
    {
        self.add_remembered(Snapshot::of(leg));
    }

    /// Adds a leg at the end that contracts remember.
    pub fn add_remembered(&mut self, leg: Snapshot<LegSheet>)
        ensures { self.new ≡ self.old ++ leg.value ∷ [] }
    {
        let before = Snapshot::of(&self.legs);
        self.legs = SentLegs::More(before, leg);
    }
}
