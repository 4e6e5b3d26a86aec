//! Whether a leg that came back is one that a proxy waits for.
ghost use Rattle.std.specs.Prelude.{◌≡◌, ◌≢◌, Some, true, false};
ghost use Rattle.mr_proxy.specs.Transitions.{open_sheet};

use mr_proxy::{LegSheet, ProxyCore};

/// Whether this is the sheet of an open leg of the proxy's own.
pub(crate) fn awaits(core: &ProxyCore, sheet: &LegSheet) -> bool
    ensures own { result ≡ true → open_sheet core.now sheet.now.id ≡ Some sheet.now }
    ensures foreign { result ≡ false → open_sheet core.now sheet.now.id ≢ Some sheet.now }
{
    match core.sheet_of(sheet.id) {
        Some(own) => own.same_as(sheet),
        None => false,
    }
}
