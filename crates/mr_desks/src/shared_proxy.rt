//! A proxy without a book that many threads share.
ghost use Rattle.std.specs.Prelude.{IfOk, IsOk};
ghost use Rattle.mr_desks.specs.Desk.{DeskTakes};
ghost use Rattle.mr_desks.specs.Taking.{TakenStands, TakenInTime};

use crate::carried::Carried;
use crate::carrier::Carrier;
use crate::desk::Desk;
use crate::desk_error::DeskError;
use crate::share::Share;
use crate::shared_state::SharedState;
use mr_clock::Clock;
use mr_history::OpId;
use mr_proxy::{Answer, Issued, ProxyCore, Taken};
use mr_text::Request;
use std::sync::{Mutex, Wait};

/// A proxy that many threads share, whose steps aren't recorded.
pub struct SharedProxy<C: Carrier> {
    state: Mutex<SharedState<C>>,
}

impl<C: Carrier> Drop for SharedProxy<C> {
    fn drop(self) {
        let Self { state: _ } = self;
    }
}

impl<C: Carrier> SharedProxy<C> {
    ghost use Rattle.mr_proxy.specs.ProxyView.{IsFresh};

    /// The fresh proxy, shared. It takes no memory.
    pub fn new(core: ProxyCore) -> SharedProxy<C>
        requires { IsFresh core }
    {
        SharedProxy {
            state: Mutex::new(SharedState::new(core)),
        }
    }
}

impl<C: Carrier> Desk<C> for SharedProxy<C> {
    ghost use Rattle.std.specs.Prelude.{false};

    ghost recorded = { false };

    fn is_recorded(&self) -> bool {
        false
    }

    fn share(&self) -> Share {
        Share::new()
    }

    fn issue<R: Wait, K: Clock>(
        &self,
        rt: &R,
        share: &mut Share,
        clock: &mut K,
        request: &Request,
    ) -> Result<Issued, DeskError> {
        self.state.lock(rt).issue(share, clock, request)
    }

    /// Takes a leg that came back, and moves its reply. It takes no memory, and never fails.
    fn take<R: Wait>(&self, rt: &R, carried: &mut Carried<C>) -> Result<Taken, DeskError>
        ensures taken { IfOk result (DeskTakes C.gave carried.old.back) }
        ensures stands { IfOk result (TakenStands C.gave) }
        ensures in_time { IfOk result TakenInTime }
        ensures never_fails { IsOk result }
    {
        Ok(self.state.lock(rt).take(carried))
    }

    fn give_up<R: Wait>(&self, rt: &R, op: OpId) -> Result<Answer, DeskError> {
        self.state.lock(rt).give_up(op)
    }
}
