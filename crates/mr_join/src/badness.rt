//! Which of two replies the client is told of.
ghost use Rattle.std.specs.Prelude.{◌≡◌};
ghost use Rattle.mr_join.specs.Join.{badness_of, worse_of};

use crate::leg_reply::LegReply;

impl LegReply {
    /// How bad the reply is: 0 where the leg did what was asked, 1 where there was nothing to delete, 2 where it failed.
    pub fn badness(&self) -> u8
        ensures { result ≡ badness_of self.now }
    {
        match self {
            LegReply::Hit { .. } | LegReply::Miss | LegReply::Stored | LegReply::Deleted => 0,
            LegReply::NotFound => 1,
            LegReply::Failed(_) => 2,
        }
    }
}

/// The reply of greater badness, and `a` where both are as bad.
pub fn worse(a: LegReply, b: LegReply) -> LegReply
    ensures { result ≡ worse_of a b }
{
    if a.badness() < b.badness() { b } else { a }
}
