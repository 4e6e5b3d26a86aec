//! The steps of a picture: what each event of a transcript is to it, by numbers alone.
ghost use Rattle.std.specs.Prelude.{◌≡◌, slice_get, IfOk};
ghost use Rattle.mr_drawing.specs.Steps.{kind_of, outcome_of, leg_of, issue_of, clock_of, arrival_of, way_back, back_of, step_of, reach_view, unplayed, step_at, steps_from};

use crate::blame::{Blame, is_blamed};
use crate::names::node_lane;
use mr_history::OpId;
use mr_join::LegReply;
use mr_node::NodeCommand;
use mr_phases::{PhaseName, RequestKind, Side, judge};
use mr_pools::NodeName;
use mr_world::{Delivery, Event, Message, Note, ProxySetup};
use std::alloc::{AllocError, Global};

/// What a node answered to a leg.
#[derive(Clone, Copy, Debug, PartialEq, Eq)]
pub enum Outcome {
    /// A get found an item.
    Hit,
    /// A get found none.
    Miss,
    /// A set was performed.
    Stored,
    /// A delete found an item.
    Deleted,
    /// A delete found none.
    Absent,
    /// The leg wasn't performed, or isn't known to be.
    Failed,
}

/// A leg of a request.
#[derive(Clone, Copy, Debug, PartialEq, Eq)]
pub struct Leg {
    /// The number of its message.
    pub message: usize,
    /// The request.
    pub op: OpId,
    /// The lane of its node.
    pub node: usize,
    /// What the node is told to do.
    pub kind: RequestKind,
    /// The side whose pool has the node.
    pub side: Side,
}

/// A request that was issued.
#[derive(Clone, Copy, Debug, PartialEq, Eq)]
pub struct Issue {
    /// The request.
    pub op: OpId,
    /// The number of its first message; the others follow it.
    pub first: usize,
    /// How many messages there are.
    pub count: usize,
    /// The verdict blames it.
    pub blamed: bool,
}

/// A reply that came back.
#[derive(Clone, Copy, Debug, PartialEq, Eq)]
pub struct Back {
    /// The number of the reply.
    pub reply: usize,
    /// The leg that it answers.
    pub leg: Leg,
    /// What the node answered.
    pub outcome: Outcome,
    /// The request was answered then.
    pub answers: bool,
}

/// What an event is to a picture.
#[derive(Clone, Copy, Debug, PartialEq, Eq)]
pub enum Step {
    /// A proxy stands in this phase of this hop from now on.
    Clock {
        /// The proxy's number.
        proxy: u32,
        /// The phase.
        phase: PhaseName,
        /// The hop in force, counted from 0.
        hop: u32,
    },
    /// A proxy was told to end a connection, which does nothing.
    Quit {
        /// The proxy's number.
        proxy: u32,
    },
    /// A proxy accepted a request.
    Issue(Issue),
    /// A message reached its node, which sent this reply.
    Arrive {
        /// The number of the reply.
        reply: usize,
        /// The leg that arrived.
        leg: Leg,
    },
    /// A reply came back to its proxy.
    Back(Back),
    /// A request was given up.
    GiveUp {
        /// The request.
        op: OpId,
    },
    /// The node of this lane lost all that it held.
    NodeRestart {
        /// The lane of the node.
        node: usize,
    },
    /// A proxy forgot its requests.
    ProxyRestart {
        /// The proxy's number.
        proxy: u32,
    },
    /// The event was refused.
    Refused,
    /// The event stands behind one that was refused.
    Unplayed,
}

/// What steps are made of, beside the events themselves.
#[derive(Clone, Copy)]
pub struct Reach<'a> {
    /// The proxies by their numbers.
    pub proxies: &'a [ProxySetup],
    /// The names of the nodes by their lanes.
    pub names: &'a [NodeName],
    /// Each message that was sent, by its number.
    pub sent: &'a [Message],
    /// Each delivery, by the number of its reply.
    pub replies: &'a [Delivery],
    /// The requests that the verdict blames.
    pub blame: Blame,
}

/// What a command tells a node to do.
fn kind_of(command: &NodeCommand) -> RequestKind
    ensures { result ≡ kind_of command.now }
{
    match command {
        NodeCommand::Get(_) => RequestKind::Get,
        NodeCommand::Set { .. } => RequestKind::Set,
        NodeCommand::Delete(_) => RequestKind::Delete,
    }
}

/// What a reply says.
fn outcome_of(reply: &LegReply) -> Outcome
    ensures { result ≡ outcome_of reply.now }
{
    match reply {
        LegReply::Hit { .. } => Outcome::Hit,
        LegReply::Miss => Outcome::Miss,
        LegReply::Stored => Outcome::Stored,
        LegReply::Deleted => Outcome::Deleted,
        LegReply::NotFound => Outcome::Absent,
        LegReply::Failed(_) => Outcome::Failed,
    }
}

/// The leg of the message of this number.
fn leg_of(number: usize, message: &Message) -> Leg
    ensures { result ≡ leg_of number message.now }
{
    Leg {
        message: number,
        op: message.sheet.id.op,
        node: message.node,
        kind: kind_of(&message.sheet.command),
        side: message.sheet.side,
    }
}

/// A clock's new reading.
fn clock_of(proxies: &[ProxySetup], proxy: u32, reading: u64) -> Step
    ensures { result ≡ clock_of proxy reading (slice_get proxies.now proxy) }
{
    match proxies.get(proxy as usize) {
        Some(setup) => {
            let judged = judge(setup.schedule, reading);
            Step::Clock {
                proxy,
                phase: judged.name(),
                hop: judged.hop(),
            }
        }
        None => Step::Unplayed,
    }
}

/// A client's request.
fn issue_of(blame: Blame, proxy: u32, note: Note) -> Step
    ensures { result ≡ issue_of blame proxy note }
{
    match note {
        Note::Issued { op, first, count } => Step::Issue(Issue {
            op,
            first,
            count,
            blamed: is_blamed(blame, op),
        }),
        _ => Step::Quit { proxy },
    }
}

/// A message that reached its node.
fn arrival_of(sent: &[Message], number: usize, note: Note) -> Step
    ensures { result ≡ arrival_of number (slice_get sent.now number) note }
{
    match (sent.get(number), note) {
        (Some(message), Note::Performed { reply }) => Step::Arrive {
            reply,
            leg: leg_of(number, message),
        },
        _ => Step::Unplayed,
    }
}

/// A reply of this number to the message of that number.
fn way_back(sent: &[Message], reply: usize, delivery: &Delivery, note: Note) -> Step
    ensures { result ≡ way_back reply delivery.now note (slice_get sent.now delivery.now.message) }
{
    match sent.get(delivery.message) {
        Some(message) => Step::Back(Back {
            reply,
            leg: leg_of(delivery.message, message),
            outcome: outcome_of(&delivery.reply),
            answers: matches!(note, Note::Answered { .. }),
        }),
        None => Step::Unplayed,
    }
}

/// A reply that came back.
fn back_of(sent: &[Message], replies: &[Delivery], reply: usize, note: Note) -> Step
    ensures { result ≡ back_of sent.now reply note (slice_get replies.now reply) }
{
    match replies.get(reply) {
        Some(delivery) => way_back(sent, reply, delivery, note),
        None => Step::Unplayed,
    }
}

/// What an event is to a picture of which this became.
fn step_of(reach: &Reach<'_>, event: &Event, note: Note) -> Step
    ensures { result ≡ step_of (reach_view reach.now) event.now note }
{
    match event {
        Event::Clock { proxy, reading } => clock_of(reach.proxies, *proxy, *reading),
        Event::Client { proxy, .. } => issue_of(reach.blame, *proxy, note),
        Event::Deliver { message, .. } => arrival_of(reach.sent, *message, note),
        Event::Return { reply } => back_of(reach.sent, reach.replies, *reply, note),
        Event::GiveUp { op } => Step::GiveUp { op: *op },
        Event::NodeRestart { node } => Step::NodeRestart {
            node: node_lane(reach.names, node),
        },
        Event::ProxyRestart { proxy } => Step::ProxyRestart { proxy: *proxy },
    }
}

/// What an event is to a picture of which nothing became: it was refused, where it is the first of these.
fn unplayed(notes: usize, place: usize) -> Step
    ensures { result ≡ unplayed notes place }
{
    if place == notes {
        Step::Refused
    } else {
        Step::Unplayed
    }
}

/// What the event at this place is to a picture.
fn step_at(reach: &Reach<'_>, event: &Event, notes: &[Note], place: usize) -> Step
    ensures { result ≡ step_at (reach_view reach.now) event.now notes.now place }
{
    match notes.get(place) {
        Some(note) => step_of(reach, event, *note),
        None => unplayed(notes.len(), place),
    }
}

/// What each event is to a picture, in order. The notes are those of the events that were accepted, from the first on.
pub fn steps_of(
    alloc: Global,
    reach: &Reach<'_>,
    events: &[Event],
    notes: &[Note],
) -> Result<Vec<Step>, AllocError>
    ensures { IfOk result (λ steps. steps.items ≡ steps_from (reach_view reach.now) notes.now 0 events.now) }
{
    let mut steps = Vec::with_capacity(alloc, events.len())?;
    for place in 0..events.len() {
        steps.push(step_at(reach, &events[place], notes, place))?;
    }
    Ok(steps)
}
