//! Legs, which are moved and never copied, so that none is sent twice.
ghost use Rattle.std.specs.Prelude.{◌≡◌};

use crate::sheet::{LegBack, LegSheet};
use mr_join::LegReply;
use std::marker::Model;

/// A leg on its way. Only `issue` makes one, and it can't be copied: what is sent once comes back at most once.
#[derive(Debug, Drop)]
pub struct Leg {
    sheet: LegSheet,
}

impl Model for Leg {
    ghost use Rattle.mr_proxy.specs.declared.sheet.LegSheet.{LegSheet};

    ghost Value = { LegSheet };

    ghost view = { λ l. l.sheet };
}

impl Leg {
    /// A leg of this sheet.
    #[inline(always)]
    pub(crate) fn of(sheet: LegSheet) -> Leg
        ensures { result ≡ sheet }
    {
        Leg { sheet }
    }

    /// Looks at what is sent.
    #[inline(always)]
    pub fn sheet(&self) -> &LegSheet
        ensures { result.now ≡ self.now }
    {
        &self.sheet
    }

    /// Gives what is sent; the leg is gone.
    pub fn into_sheet(self) -> LegSheet
        ensures { result ≡ self }
    {
        self.sheet
    }

    /// The leg comes back with this reply.
    pub fn returned(self, reply: LegReply) -> LegBack
        ensures sheet { result.sheet ≡ self }
        ensures reply { result.reply ≡ reply }
    {
        LegBack {
            sheet: self.sheet,
            reply,
        }
    }
}
