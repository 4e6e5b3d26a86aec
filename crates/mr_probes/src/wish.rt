//! What a client is to ask.
/// A kind of request.
#[derive(Clone, Copy, Debug, PartialEq, Eq)]
pub enum Kind {
    /// The key's value is asked for.
    Get,
    /// The key is given a value.
    Set,
    /// The key's value is taken away.
    Delete,
}

/// What a client is to ask.
#[derive(Clone, Copy, Debug, PartialEq, Eq)]
pub struct Wish {
    /// The number of the key.
    pub key: usize,
    /// What is asked.
    pub kind: Kind,
    /// Whether it is the last delete of its key.
    pub cleans: bool,
}
