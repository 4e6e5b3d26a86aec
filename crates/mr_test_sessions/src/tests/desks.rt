//! Desks, their books, and the carriers of legs, at one proxy whose new pool is 7101.
mod books;
mod carriers;
mod closings;
mod memory;
mod plays;

ghost use Rattle.std.specs.Prelude.{◌≢◌};
ghost use Rattle.mr_text.specs.declared.request.Request.{Request};

use super::broken::Broken;
use crate::tests::must;
use mr_clock::FixedClock;
use mr_desks::{Desk, DeskError, RecordedProxy, Share};
use mr_proxy::Issued;
use mr_test_nodes::recorded_proxy;
use mr_text::Request;
use std::alloc::Global;
use std::process::Abort;
use std::sync::Wait;

/// The nodes of the new pool.
const NEW: [&[u8]; 1] = [b"7101"];

/// A proxy whose carriers never reach their nodes, and whose book keeps at most so many steps.
fn desk_of(rt: &impl Abort, alloc: Global, limit: u64) -> RecordedProxy<Broken> {
    must(rt, recorded_proxy(alloc, 0, &NEW, limit))
}

/// Issues a request at a second of the phase in which deletes go to both sides and gets to the old one.
fn issue(
    rt: &impl Wait,
    desk: &RecordedProxy<Broken>,
    share: &mut Share,
    request: &Request,
) -> Result<Issued, DeskError>
    requires { request.now ≢ Request.Quit }
{
    desk.issue(rt, share, &mut FixedClock(1000), request)
}
