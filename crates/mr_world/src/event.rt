//! What may happen to a fleet.
ghost use Rattle.std.specs.Prelude.{◌≡◌, IfOk};

use mr_history::OpId;
use mr_pools::NodeName;
use mr_text::Request;
use std::alloc::AllocError;

/// One thing that happens to a fleet. A message or a reply that no event names is lost; one that several name came
/// several times.
#[derive(Debug, Drop)]
pub enum Event {
    /// The clock of a proxy shows another reading.
    Clock {
        /// The proxy's number.
        proxy: u32,
        /// The reading, in seconds since the epoch.
        reading: u64,
    },
    /// A client sends a request to a proxy.
    Client {
        /// The proxy's number.
        proxy: u32,
        /// What is asked. A quit does nothing.
        request: Request,
    },
    /// A message reaches its node, which performs it.
    Deliver {
        /// The message's number.
        message: usize,
        /// The reading of the node's clock, in seconds since the epoch.
        now: u64,
    },
    /// A node's reply reaches the proxy that sent the message.
    Return {
        /// The reply's number.
        reply: usize,
    },
    /// The proxy of a request gives it up.
    GiveUp {
        /// The request's name.
        op: OpId,
    },
    /// A node loses all that it holds.
    NodeRestart {
        /// The node's name.
        node: NodeName,
    },
    /// A proxy forgets all requests under way. Its clock stays.
    ProxyRestart {
        /// The proxy's number.
        proxy: u32,
    },
}

impl Event {
    /// An equal event.
    pub fn copy(&self) -> Result<Event, AllocError>
        ensures { IfOk result (λ event. event ≡ self.now) }
    {
        Ok(match self {
            Event::Clock { proxy, reading } => Event::Clock {
                proxy: *proxy,
                reading: *reading,
            },
            Event::Client { proxy, request } => Event::Client {
                proxy: *proxy,
                request: request.copy()?,
            },
            Event::Deliver { message, now } => Event::Deliver {
                message: *message,
                now: *now,
            },
            Event::Return { reply } => Event::Return { reply: *reply },
            Event::GiveUp { op } => Event::GiveUp { op: *op },
            Event::NodeRestart { node } => Event::NodeRestart { node: node.copy()? },
            Event::ProxyRestart { proxy } => Event::ProxyRestart { proxy: *proxy },
        })
    }
}
