//! What goes over a link.
ghost use Rattle.std.specs.Prelude.{◌≡◌};
ghost use Rattle.mr_proxy.specs.declared.sheet.LegBack.{LegBack};
ghost use Rattle.mr_desks.specs.Direct.{CarriesOnce};

use crossbeam_channel::Sender;
use mr_desks::{Carried, Carrier};
use mr_proxy::{Leg, LegSheet};
use std::marker::Model;
use std::sync::Wait;

/// A leg on its way to the thread that owns the connection to its node, with the way back to the session that sent it.
/// Whoever waits for the leg learns that it is lost once this is dropped.
pub(crate) struct LinkJob<C: Carrier> {
    leg: Leg,
    back: Sender<Carried<C>>,
}

impl<C: Carrier> Drop for LinkJob<C> {
    fn drop(self) {
        let Self { leg: _, back: _ } = self;
    }
}

impl<C: Carrier> Model for LinkJob<C> {
    ghost use Rattle.mr_proxy.specs.declared.sheet.LegSheet.{LegSheet};

    ghost Value = { LegSheet };

    ghost view = { λ job. job.leg };
}

impl<C: Carrier> LinkJob<C> {
    /// A leg whose reply is sent back here.
    pub(crate) fn new(leg: Leg, back: Sender<Carried<C>>) -> LinkJob<C>
        ensures { result ≡ leg }
    {
        LinkJob { leg, back }
    }

    /// Looks at what is sent.
    pub(crate) fn sheet(&self) -> &LegSheet
        ensures { result.now ≡ self.now }
    {
        self.leg.sheet()
    }

    /// Gives the leg back that wasn't carried.
    pub(crate) fn into_leg(self) -> Leg
        ensures { result ≡ self }
    {
        let Self { leg, back: _ } = self;
        leg
    }

    /// Carries the leg, once, and sends what came of it back. That nobody waits for it any more is no matter.
    pub(crate) fn carry<R: Wait>(self, rt: &R, carrier: &mut C)
        ensures { (back : LegBack) × (back.sheet ≡ self) × CarriesOnce C.carries C.faults carrier.old back carrier.new }
    {
        let Self { leg, back } = self;
        let _ = back.send(rt, Carried::of(carrier, leg));
    }
}
