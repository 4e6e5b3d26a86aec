//! What the loops of a run may hold.
use crate::words::Words;
use mr_loop::Limits;
use std::test::Fail;

/// What the loops of a run may hold.
#[derive(Clone, Copy)]
pub struct Bounds {
    /// How many clients each proxy has at once.
    pub places: usize,
    /// What a proxy may hold of a client and of a link.
    pub limits: Limits,
    /// How many bytes of its answers a proxy may leave unread at a node.
    pub most_unread: usize,
}

impl Bounds {
    /// The bounds that these words say.
    pub fn of(words: &mut Words<'_>) -> Result<Bounds, Fail> {
        Ok(Bounds {
            places: words.count()?,
            limits: Limits {
                most_legs: words.count()?,
                most_begun: words.count()?,
                most_unread: words.count()?,
                leg_timeout: words.number()?,
            },
            most_unread: words.count()?,
        })
    }
}
