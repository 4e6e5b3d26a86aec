//! How long a service lasts.

use crate::patience::Patience;

/// How many connections a service asks for, how many reads it makes of each at most, and how long it waits for who is silent.
#[derive(Clone, Copy, Debug)]
pub struct ServiceBounds {
    /// How many connections are asked for.
    pub clients: u64,
    /// How many reads are made of a connection at most. A proxy makes as many of a node for each leg.
    pub turns: u64,
    /// How long it waits for clients and for nodes.
    pub patience: Patience,
}
