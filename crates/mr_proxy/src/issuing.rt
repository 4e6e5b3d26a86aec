//! Requests that a proxy issues by a copy.
ghost use Rattle.std.specs.Prelude.{◌≡◌, ◌≢◌, ◌≤◌, length, All, None, MatchOption, IfSome};
ghost use Rattle.mr_text.specs.declared.request.Request.{Request};
ghost use Rattle.mr_proxy.specs.Issue.{refusal_of, next_op, sheets_of, after_issue};
ghost use Rattle.mr_proxy.specs.Sheets.{IsPlaced};

use crate::issued::Issued;
use crate::proxy_core::ProxyCore;
use mr_text::Request;

/// Issues a copy of a request at a reading of the proxy's clock, in seconds since the epoch, as the proxy does. None where
/// the proxy refuses it or memory is refused; then nothing changes.
pub fn issue_copy(core: &mut ProxyCore, reading: u64, request: &Request) -> Option<Issued>
    requires { request.now ≢ Request.Quit }
    ensures accepted { IfSome result (λ _. refusal_of core.old ≡ None) }
    ensures state { MatchOption result (core.new ≡ core.old)
        (λ _. core.new ≡ after_issue core.old reading request.now) }
    ensures op { IfSome result (λ issued. issued.op ≡ next_op core.old) }
    ensures legs { IfSome result (λ issued. issued.legs.items ≡ sheets_of core.old reading request.now) }
    ensures has_leg { IfSome result (λ issued. 1 ≤ length issued.legs.items) }
    ensures nodes { IfSome result (λ issued. All (IsPlaced core.old.routing) issued.legs.items) }
{
    let Ok(own) = request.copy() else {
        return None;
    };
    match core.issue(reading, own) {
        Ok(issued) => Some(issued),
        Err(_) => None,
    }
}
