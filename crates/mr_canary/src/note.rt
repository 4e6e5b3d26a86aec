//! What clients of a canary note.
/// A request of a canary's client.
#[derive(Clone, Copy, Debug, PartialEq, Eq)]
pub struct Probe {
    /// Its number: how many notes there were before its own.
    pub number: u64,
    /// The client.
    pub client: u32,
    /// When it was issued, by the clock of the canary. No verdict depends on it.
    pub time: u64,
    /// The number of its key.
    pub key: usize,
}

/// What a request asks for.
#[derive(Clone, Copy, Debug, PartialEq, Eq)]
pub enum Asked {
    /// The key's value.
    Get,
    /// That the key has this value. No other set of the key has it.
    Set {
        /// How many sets of the key there were before.
        value: u64,
    },
    /// That the key has no value.
    Delete,
}

/// What came of a request.
#[derive(Clone, Copy, Debug, PartialEq, Eq)]
pub enum Answer {
    /// The key has this value.
    Hit {
        /// The value.
        value: u64,
    },
    /// The key has no value.
    Miss,
    /// The value was stored.
    Stored,
    /// The value was taken away.
    Deleted,
    /// There was nothing to take away.
    NotFound,
    /// An error, a text that is no answer to this request, or none before the connection broke or the time was up.
    Unanswered,
}

/// What clients know of one moment.
#[derive(Clone, Copy, Debug, PartialEq, Eq)]
pub enum Note {
    /// A request was issued. It is noted before the first byte of it is sent.
    Issued {
        /// The request.
        probe: Probe,
        /// What it asks for.
        asked: Asked,
    },
    /// An answer came. It is noted after the last byte of it came.
    Answered {
        /// The number of its request.
        number: u64,
        /// The answer.
        answer: Answer,
    },
}

/// A hit that shows what an acknowledged delete should have taken away.
#[derive(Clone, Copy, Debug, PartialEq, Eq)]
pub struct Conviction {
    /// The value. Its set was answered with STORED before the delete was issued.
    pub value: u64,
    /// The delete. It was acknowledged before the get was issued.
    pub delete: Probe,
    /// The get.
    pub get: Probe,
}
