//! What a link worker calls before it carries a leg.
use mr_proxy::LegSheet;

/// What each link worker calls before it carries a leg. It may wait, and holds no lock of this crate while it does.
pub trait Gate {
    /// A leg of this sheet will be carried next.
    fn before_carry(&self, sheet: &LegSheet);
}

/// A gate that does nothing.
#[derive(Clone, Copy, Debug)]
pub struct OpenGate;

impl Gate for OpenGate {
    fn before_carry(&self, _sheet: &LegSheet) {}
}
