//! The phases by name.
ghost use Rattle.std.specs.Prelude.{◌≡◌, Some};
ghost use Rattle.mr_phases.specs.PhaseText.{phase_text};

use std::fmt;

/// The name of a phase of a migration, in the order in which they follow one another.
#[derive(Clone, Copy, Debug, PartialEq, Eq, Hash)]
pub enum PhaseName {
    /// Everything goes to the old pool.
    OldOnly,
    /// Gets and sets go to the old pool, deletes to both.
    BothReadOld,
    /// Gets and sets go to the new pool, deletes to both.
    BothReadNew,
    /// Everything goes to the new pool.
    NewOnly,
}

impl PhaseName {
    /// The printed name: `old-only`, `both-read-old`, `both-read-new` or `new-only`.
    pub fn as_str(self) -> &'static str
        ensures { result.now ≡ phase_text self }
    {
        match self {
            PhaseName::OldOnly => "old-only",
            PhaseName::BothReadOld => "both-read-old",
            PhaseName::BothReadNew => "both-read-new",
            PhaseName::NewOnly => "new-only",
        }
    }
}

impl fmt::Display for PhaseName {
    ghost output = { λ p. Some (phase_text p) };

    fn fmt<W: fmt::Write>(&self, f: &mut fmt::Formatter<W>) -> fmt::Result {
        f.write_str(self.as_str())
    }
}
