//! What is known of the place that the output goes to.

/// What is known of the place that the output goes to.
#[derive(Clone, Copy, Debug, PartialEq, Eq)]
pub struct Screen {
    /// Whether it is a terminal.
    pub terminal: bool,
    /// Whether a terminal may be given colours.
    pub colours: bool,
}
