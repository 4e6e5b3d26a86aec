//! What was found of the premises.
ghost use Rattle.std.specs.Prelude.{◌≡◌};
ghost use Rattle.mr_watch.specs.Finding.{finding_after};

/// What was found of a premise so far.
#[derive(Clone, Copy, Debug, PartialEq, Eq)]
pub enum Finding {
    /// No look could tell yet.
    Unseen,
    /// It was seen to hold, and never to be broken.
    Holds,
    /// It was seen to be broken.
    Broken,
}

impl Finding {
    /// After a look that saw the premise broken, or saw it hold, or neither. What was broken once stays broken.
    pub(crate) fn after(self, broken: bool, holds: bool) -> Finding
        ensures { result ≡ finding_after self broken holds }
    {
        if self == Finding::Broken || broken {
            Finding::Broken
        } else if holds {
            Finding::Holds
        } else {
            self
        }
    }
}

/// What was found of each premise of the theorem.
#[derive(Clone, Copy, Debug, PartialEq, Eq)]
pub struct Findings {
    /// All proxies have the configuration that the watcher has.
    pub same: Finding,
    /// Each new pool is empty when its migration begins.
    pub empty: Finding,
    /// No two proxies' clocks differ by more than the least interval.
    pub near: Finding,
    /// No clock goes back.
    pub forward: Finding,
}

impl Findings {
    ghost use Rattle.mr_watch.specs.Findings.{all_unseen};

    /// Before the first look.
    pub fn unseen() -> Findings
        ensures { result ≡ all_unseen }
    {
        Findings {
            same: Finding::Unseen,
            empty: Finding::Unseen,
            near: Finding::Unseen,
            forward: Finding::Unseen,
        }
    }
}
