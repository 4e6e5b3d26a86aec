//! Messages that reach their nodes.
ghost use Rattle.std.specs.Prelude.{◌≡◌, ◌++◌, ◌<◌, ◌≤◌, length, All, IfOk, OnOk, OnErr, MatchResult, option_to_list};
ghost use Rattle.mr_history.specs.History.{Fits};
ghost use Rattle.mr_world.specs.declared.event.Event.TheVariants.{Deliver};
ghost use Rattle.mr_world.specs.Network.{IsReady, DoesEvent};
ghost use Rattle.mr_world.specs.Nodes.{PerformsAt};
ghost use Rattle.mr_world.specs.Steps.{performed};

use crate::message::Delivery;
use crate::network::Network;
use crate::nodes::Nodes;
use crate::note::Note;
use mr_history::{Author, Entry, History};
use mr_join::LegReply;
use mr_node::NodeCommand;
use mr_proxy::{LegSheet, WorldError};
use std::alloc::AllocError;

/// What the history gains when a node performs the leg.
fn entry_of(sheet: &LegSheet) -> Result<Option<Entry>, AllocError>
    ensures { IfOk result (λ entry. option_to_list entry ≡ performed sheet.now sheet.now.command) }
{
    Ok(match &sheet.command {
        NodeCommand::Get(_) => None,
        NodeCommand::Set {
            key,
            flags,
            exptime: _,
            block,
        } => Some(Entry::Stored {
            by: Author::By(sheet.id.op),
            key: key.copy()?,
            flags: *flags,
            block: block.copy()?,
        }),
        NodeCommand::Delete(key) => Some(Entry::Removed {
            op: sheet.id.op,
            side: sheet.side,
            key: key.copy()?,
        }),
    })
}

/// Appends the entry, if there is one.
fn append(history: &mut History, entry: Option<Entry>)
    requires fits { All (Fits history.old.entries) (option_to_list entry) }
    requires spare { 1 ≤ history.old.spare }
    ensures { history.new.entries ≡ history.old.entries ++ option_to_list entry }
{
    if let Some(entry) = entry {
        history.push(entry);
    }
}

/// The node of a number performs a copy of the command.
fn perform(
    nodes: &mut Nodes,
    number: usize,
    now: u64,
    command: &NodeCommand,
) -> Result<LegReply, AllocError>
    requires { number < length nodes.old }
    ensures { MatchResult result
        (λ reply. PerformsAt nodes.old number now command.now reply nodes.new)
        (λ _. nodes.new ≡ nodes.old) }
{
    nodes.perform(number, now, command.copy()?)
}

/// The node of a number performs the leg, and the history gains what that leads to.
fn perform_leg(
    nodes: &mut Nodes,
    number: usize,
    history: &mut History,
    now: u64,
    sheet: &LegSheet,
) -> Result<LegReply, AllocError>
    requires within { number < length nodes.old }
    requires fits { All (Fits history.old.entries) (performed sheet.now sheet.now.command) }
    requires spare { 1 ≤ history.old.spare }
    ensures step { IfOk result (λ reply. PerformsAt nodes.old number now sheet.now.command reply nodes.new) }
    ensures history { OnOk result (history.new.entries ≡ history.old.entries ++ performed sheet.now sheet.now.command) }
    ensures unchanged { OnErr result ((nodes.new ≡ nodes.old) × (history.new.entries ≡ history.old.entries)) }
{
    let entry = entry_of(sheet)?;
    let Ok(reply) = perform(nodes, number, now, &sheet.command) else {
        drop(entry);
        return Err(AllocError);
    };
    append(history, entry);
    Ok(reply)
}

impl Network {
    /// The message's node performs it now, and its reply is sent.
    pub(crate) fn deliver(&mut self, number: usize, now: u64) -> Result<Note, WorldError>
        requires { IsReady self.old }
        ensures { DoesEvent self.old (Deliver number now) result self.new }
    {
        if number >= self.sent.len() {
            return Err(WorldError::NoSuchMessage);
        }
        self.replies.reserve(1)?;
        self.history.reserve(1)?;
        let message = &self.sent[number];
        let reply = perform_leg(
            &mut self.nodes,
            message.node,
            &mut self.history,
            now,
            &message.sheet,
        )?;
        let told = self.replies.len();
        self.replies.push_reserved(Delivery {
            message: number,
            reply,
        });
        Ok(Note::Performed { reply: told })
    }
}
