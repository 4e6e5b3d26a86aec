//! A proxy of a fleet.
use crate::fleet_client::FleetClient;
use mr_clock::Clock;
use mr_desks::{Carrier, RecordedProxy};
use mr_text::{Sink, Source};

/// A proxy of a fleet, with its clients and with what carries its legs.
#[derive(Drop)]
pub struct FleetProxy<C: Carrier, K: Clock, S: Source, W: Sink> {
    /// The proxy.
    pub desk: RecordedProxy<C>,
    /// Its clients.
    pub clients: Vec<FleetClient<K, S, W>>,
    /// A list for each pool, the old one first, with one carrier for each node. A leg whose carrier is missing is handed
    /// back, and a carrier that no leg names is never used.
    pub carriers: Vec<Vec<C>>,
}
