//! Carriers that bring a leg late, when its request was given up.
ghost use Rattle.std.specs.Prelude.{◌+◌, option_map};
ghost use Rattle.mr_desks.specs.Carriers.{SendIs, ReceiveIs};

use super::{IN_TIME, Kept, NEW, Row, SILENT, direct, goes_so};
use crate::tests::must;
use mr_desks::{Carried, Carrier, Carriers, DirectCarriers, RecordedProxy};
use mr_proxy::Leg;
use mr_test_nodes::{Nodes, ToNode, make_nodes, recorded_proxy};
use mr_text::GhostCount;
use std::alloc::Global;
use std::process::Abort;
use std::sync::Wait;

/// Carriers that bring nothing the first time they are asked, and from then on what came, the leg that was late first.
struct Late<C: Carrier> {
    inner: DirectCarriers<C>,
    was_asked: bool,
    withheld: GhostCount,
}

impl<C: Carrier + Drop> Drop for Late<C> {
    fn drop(self) {
        let Self {
            inner: _,
            was_asked: _,
            withheld: _,
        } = self;
    }
}

impl<C: Carrier> Carriers<C> for Late<C> {
    ghost told = { λ c. record c.inner.told { losses = c.inner.told.losses + c.withheld } };

    fn send(&mut self, leg: Leg) -> Option<Leg> {
        self.inner.send(leg)
    }

    fn receive(&mut self) -> Option<Carried<C>> {
        if self.was_asked {
            return self.inner.receive();
        }
        self.was_asked = true;
        self.withheld.add_one();
        None
    }
}

/// The set was performed, but nothing of it came back in time.
static SET: Row = Row {
    sends: b"set k 7 0 1\r\nv\r\nget k\r\nget k\r\n",
    told: "SERVER_ERROR leg lost\r\nVALUE k 7 1\r\nv\r\nEND\r\nVALUE k 7 1\r\nv\r\nEND\r\n",
    reads: 2,
    kept: &[
        Kept {
            given_up: true,
            ..IN_TIME
        },
        IN_TIME,
        IN_TIME,
    ],
    ..SILENT
};

/// Asserts how the session of that client goes over these caches.
fn play<'x, R: Wait + Abort>(rt: &'x R, alloc: Global, nodes: &'x Nodes) {
    let desk: RecordedProxy<ToNode<'x, R>> = must(rt, recorded_proxy(alloc, 0, &NEW, 20));
    let mut carriers = Late {
        inner: must(rt, direct(rt, alloc, nodes)),
        was_asked: false,
        withheld: GhostCount::new(),
    };
    let _ = goes_so(rt, alloc, &desk, &mut carriers, 0, &SET);
}

#[test]
fn a_late_leg_is_dropped(rt: HostRuntime) {
    let nodes = must(&rt, make_nodes(rt.alloc(), 3));
    play(&rt, rt.alloc(), &nodes);
}
