//! Messages to nodes, and the replies that come back.
ghost use Rattle.std.specs.Prelude.{◌≡◌, IfOk};

use mr_join::LegReply;
use mr_proxy::LegSheet;
use std::alloc::AllocError;

/// A leg on its way from a proxy to a node.
#[derive(Debug, Drop)]
pub struct Message {
    /// What the proxy sent.
    pub sheet: LegSheet,
    /// The number of the node among all nodes of the fleet.
    pub node: usize,
}

/// One delivery of a message: what its node replied.
#[derive(Debug, Drop)]
pub struct Delivery {
    /// The message's number.
    pub message: usize,
    /// The node's reply.
    pub reply: LegReply,
}

impl Message {
    /// An equal message.
    pub fn copy(&self) -> Result<Message, AllocError>
        ensures { IfOk result (λ message. message ≡ self.now) }
    {
        Ok(Message {
            sheet: self.sheet.copy()?,
            node: self.node,
        })
    }
}

impl Delivery {
    /// An equal delivery.
    pub fn copy(&self) -> Result<Delivery, AllocError>
        ensures { IfOk result (λ delivery. delivery ≡ self.now) }
    {
        Ok(Delivery {
            message: self.message,
            reply: self.reply.copy()?,
        })
    }
}
