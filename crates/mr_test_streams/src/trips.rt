//! What goes to a node as one request.
use crate::record::Record;
use mr_node::NodeCommand;
use mr_text::{Item, ItemList, Key, Reply};
use std::alloc::Global;
use std::test::Fail;

/// A request to a node.
#[derive(Drop)]
pub struct Trip {
    /// The numbers of the legs that it asks for, among the world's messages, in their order.
    pub messages: Vec<usize>,
    /// Those of what the node said of each, among the world's replies; none before it performed them.
    pub replies: Vec<usize>,
}

/// What is said of a get of this key, where these items are left of those that were found, and the first of them then. The later
/// ones stand in their list from the last one on.
fn dealt_one(
    alloc: Global,
    key: &Key,
    next: Option<Item>,
    later: &mut Vec<Item>,
) -> (Reply, Option<Item>) {
    match next {
        Some(item) if item.key == *key => (Reply::Items(ItemList::one(item)), later.pop()),
        other => (Reply::Items(ItemList::new(Vec::new(alloc))), other),
    }
}

impl Record {
    /// Whether two messages are gets of one request.
    pub fn travel_together(&self, one: usize, other: usize) -> bool {
        match (self.world.sent().get(one), self.world.sent().get(other)) {
            (Some(one), Some(other)) => {
                matches!(&one.sheet.command, NodeCommand::Get(_))
                    && matches!(&other.sheet.command, NodeCommand::Get(_))
                    && one.sheet.id.op == other.sheet.id.op
            }
            _ => false,
        }
    }

    /// What a node's reply says of each of the messages that came to it in one request.
    pub fn dealt(&mut self, messages: &[usize], said: Reply) -> Result<Vec<Reply>, Fail> {
        let mut dealt = Vec::new(self.alloc);
        let Reply::Items(items) = said else {
            if messages.len() != 1 {
                return Err(Fail::from("a node refuses gets"));
            }
            dealt.push(said)?;
            return Ok(dealt);
        };
        let (mut next, mut later) = items.into_reversed(self.alloc);
        for message in messages {
            let Some(sent) = self.world.sent().get(*message) else {
                return Err(Fail::from("no such message was sent"));
            };
            let (one, left) = dealt_one(self.alloc, sent.sheet.command.key(), next, &mut later);
            next = left;
            dealt.push(one)?;
        }
        if next.is_some() {
            self.differs();
        }
        Ok(dealt)
    }
}
