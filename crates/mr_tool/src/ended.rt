//! How a command ends that meets no fault.

/// What a command came to that met no fault.
#[derive(Clone, Copy, Debug, PartialEq, Eq)]
pub enum Ended {
    /// What was wanted was done.
    Done,
    /// A transcript was checked, and it isn't accepted.
    NotAccepted,
    /// A service came to its end, and not every client ended without a fault; or a watch did, and a premise was seen broken or a
    /// service was never reached; or a canary did, and what was deleted came back.
    Faulted,
}
