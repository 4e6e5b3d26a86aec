//! A proxy with its book that many threads share.
ghost use Rattle.std.specs.Prelude.{◌≡◌, IfOk, IfErr};

use crate::carried::Carried;
use crate::carrier::Carrier;
use crate::desk::Desk;
use crate::desk_error::DeskError;
use crate::recorded_state::RecordedState;
use crate::share::Share;
use mr_clock::Clock;
use mr_history::OpId;
use mr_proxy::{Answer, Issued, ProxyCore, Taken};
use mr_text::Request;
use std::alloc::Global;
use std::marker::Model;
use std::sync::{Mutex, Wait};

/// A proxy that many threads share, with the book of its steps. Beside the lock it keeps the proxy as it was at first.
pub struct RecordedProxy<C: Carrier> {
    state: Mutex<RecordedState<C>>,
    opening: ProxyCore,
}

impl<C: Carrier> Drop for RecordedProxy<C> {
    fn drop(self) {
        let Self {
            state: _,
            opening: _,
        } = self;
    }
}

impl<C: Carrier> Model for RecordedProxy<C> {
    ghost use Rattle.mr_proxy.specs.ProxyView.{ProxyView, IsFresh};

    ghost Value = { ProxyView };

    ghost view = { λ p. p.opening };

    ghost invariant = { λ p. IsFresh p.opening };
}

impl<C: Carrier> RecordedProxy<C> {
    ghost use Rattle.mr_proxy.specs.ProxyView.{opening_of, IsFresh};

    /// The fresh proxy, shared, with an empty book, which keeps at most so many steps. Where memory is refused the proxy
    /// comes back.
    pub fn new(alloc: Global, core: ProxyCore, limit: u64) -> Result<RecordedProxy<C>, ProxyCore>
        requires { IsFresh core }
        ensures opening { IfOk result (λ proxy. proxy ≡ opening_of core) }
        ensures back { IfErr result (λ back. back ≡ core) }
    {
        match core.opening(alloc) {
            Ok(opening) => Ok(RecordedProxy::of(RecordedState::new(alloc, core, limit), opening)),
            Err(_) => Err(core),
        }
    }

    /// A proxy with this state under its lock.
    pub(crate) fn of(state: RecordedState<C>, opening: ProxyCore) -> RecordedProxy<C>
        requires { IsFresh opening }
        ensures { result ≡ opening }
    {
        RecordedProxy {
            state: Mutex::new(state),
            opening,
        }
    }

    /// Opens the lock, and hands out what is under it and the proxy as it was at first.
    pub(crate) fn into_parts(self) -> (RecordedState<C>, ProxyCore)
        ensures opening { result.1 ≡ self }
        ensures fresh { IsFresh result.1 }
    {
        let Self { state, opening } = self;
        (state.into_inner(), opening)
    }

    /// The proxy as it was at first.
    pub fn opening(&self) -> &ProxyCore
        ensures opening { result.now ≡ self.now }
        ensures fresh { IsFresh self.now }
    {
        &self.opening
    }
}

impl<C: Carrier> Desk<C> for RecordedProxy<C> {
    ghost use Rattle.std.specs.Prelude.{true};

    ghost recorded = { true };

    fn is_recorded(&self) -> bool {
        true
    }

    fn share(&self) -> Share {
        Share::new()
    }

    fn issue<R: Wait, K: Clock>(
        &self,
        rt: &R,
        share: &mut Share,
        clock: &mut K,
        request: &Request,
    ) -> Result<Issued, DeskError> {
        self.state.lock(rt).issue(share, clock, request)
    }

    fn take<R: Wait>(&self, rt: &R, carried: &mut Carried<C>) -> Result<Taken, DeskError> {
        self.state.lock(rt).take(carried)
    }

    fn give_up<R: Wait>(&self, rt: &R, op: OpId) -> Result<Answer, DeskError> {
        self.state.lock(rt).give_up(op)
    }
}
