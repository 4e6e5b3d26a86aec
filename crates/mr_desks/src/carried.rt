//! A leg that was carried, with its reply.
ghost use Rattle.std.specs.Prelude.{◌≡◌, IfOk};
ghost use Rattle.mr_text.specs.declared.cause.Cause.TheVariants.{LegLost};
ghost use Rattle.mr_join.specs.declared.leg_reply.LegReply.TheVariants.{Failed};
ghost use Rattle.mr_desks.specs.Direct.{CarriesOnce};

use crate::carrier::Carrier;
use mr_join::LegReply;
use mr_proxy::{Leg, LegBack};
use mr_text::Cause;
use std::alloc::AllocError;
use std::marker::PhantomData;
use std::mem;

/// A leg that a carrier of this type carried, with its reply. What is lost on the way comes back as lost.
#[derive(Debug)]
pub struct Carried<C: Carrier> {
    back: LegBack,
    of: PhantomData<C>,

    /// The reply is one that a carrier of this type may give for the sheet.
    pub ghost gave: { ∥ C.gave back.sheet back.reply ∥₁ },
}

impl<C: Carrier> Drop for Carried<C> {
    fn drop(self) {
        let Self { back: _, of: _ } = self;
    }
}

impl<C: Carrier> Carried<C> {
    /// Carries a leg, once. Where that fails the leg is lost.
    pub fn of(carrier: &mut C, leg: Leg) -> Carried<C>
        ensures sheet { result.back.sheet ≡ leg }
        ensures once { CarriesOnce C.carries C.faults carrier.old result.back carrier.new }
    {
        let reply = match carrier.carry(leg.sheet()) {
            Ok(reply) => reply,
            Err(_) => LegReply::Failed(Cause::LegLost),
        };
        Carried {
            back: leg.returned(reply),
            of: PhantomData,
        }
    }

    /// Looks at the leg and its reply.
    pub fn back(&self) -> &LegBack
        ensures back { result.now ≡ self.now.back }
        ensures gave { ∥ C.gave result.now.sheet result.now.reply ∥₁ }
    {
        &self.back
    }

    /// An equal value. It is the same leg: taken twice, the second is a stranger.
    pub fn copy(&self) -> Result<Carried<C>, AllocError>
        ensures { IfOk result (λ carried. carried.back ≡ self.now.back) }
    {
        Ok(Carried {
            back: self.back.copy()?,
            of: PhantomData,
        })
    }

    /// Takes the reply out, and leaves the leg as a lost one.
    pub(crate) fn take_reply(&mut self) -> LegReply
        ensures reply { result ≡ self.old.back.reply }
        ensures gave { ∥ C.gave self.old.back.sheet result ∥₁ }
        ensures left { self.new.back ≡ record self.old.back { reply = Failed LegLost } }
    {
        mem::replace(&mut self.back.reply, LegReply::Failed(Cause::LegLost))
    }
}
