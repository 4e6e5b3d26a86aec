//! How a service of requests ends.

/// How a service of requests ended.
#[derive(Clone, Copy, Debug, PartialEq, Eq)]
pub enum Ended {
    /// The client quit.
    Quit,
    /// All requests were read and served.
    Ended,
    /// A request was refused with this number, after which nothing more can be read.
    Refused(u8),
}
