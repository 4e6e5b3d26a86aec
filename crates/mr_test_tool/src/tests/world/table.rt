//! The table of events, played by hand over proxies and nodes.
ghost use Rattle.std.specs.Prelude.{◌≢◌};
ghost use Rattle.mr_text.specs.declared.request.Request.{Request};

use super::fleets::routing;
use super::telling::{Told, only, says, tell_reply, tell_request};
use mr_history::{Author, OpId};
use mr_join::LegReply;
use mr_node::{CacheNode, NodeCommand, Perform};
use mr_phases::{Schedule, Side};
use mr_pools::NodeName;
use mr_proxy::{Answer, Issued, Leg, LegBack, LegId, LegSheet, ProxyCore, ProxyError, Taken};
use mr_text::Request;
use mr_world::{Event, Note, World, WorldError};
use std::alloc::Global;
use std::test::Fail;

/// What becomes of an event.
type Outcome = Result<Note, WorldError>;

/// A proxy and what its clock shows.
#[derive(Drop)]
struct Proxy {
    core: ProxyCore,
    reading: u64,
}

/// Proxies and nodes, with lists of their own.
#[derive(Drop)]
pub struct Table {
    proxies: Vec<Proxy>,
    nodes: Vec<CacheNode>,
    sent: Vec<LegSheet>,
    backs: Vec<LegBack>,
    lines: Vec<Told>,
}

/// A proxy of this number.
fn proxy_at(alloc: Global, number: u32, reading: u64) -> Result<Proxy, Fail> {
    let schedule = Schedule::new(1000, 100)?;
    let core = ProxyCore::new(alloc, number, 0, routing(alloc)?, schedule, 4);
    Ok(Proxy { core, reading })
}

/// Two proxies, the first at 999 and the second at 1050.
fn two_proxies(alloc: Global) -> Result<Vec<Proxy>, Fail> {
    let first = proxy_at(alloc, 0, 999)?;
    Ok(vec![in alloc; first, proxy_at(alloc, 1, 1050)?]?)
}

/// The nodes 7001, 7002, 7101, 7102 and 7103.
fn five_nodes(alloc: Global) -> Result<Vec<CacheNode>, Fail> {
    let mut nodes = Vec::new(alloc);
    for _ in 0..5 {
        nodes.push(CacheNode::new(alloc, 4)?)?;
    }
    Ok(nodes)
}

/// The place of a sheet's node among the five.
fn node_of(sheet: &LegSheet) -> usize {
    match sheet.side {
        Side::Old => sheet.node as usize,
        Side::New => (sheet.node as usize).saturating_add(2),
    }
}

/// The place of the node of a name among the five.
fn node_named(name: &NodeName) -> usize {
    match name.as_bytes() {
        b"7001" => 0,
        b"7002" => 1,
        b"7101" => 2,
        b"7102" => 3,
        b"7103" => 4,
        _ => 5,
    }
}

/// What the history gains when a node performs the leg.
fn line_of_leg(sheet: &LegSheet) -> Option<Told> {
    let op = sheet.id.op;
    match &sheet.command {
        NodeCommand::Get(_) => None,
        NodeCommand::Set { key, block, .. } => Some(Told::Stored(
            Author::By(op),
            only(key.as_bytes()),
            only(block.as_bytes()),
        )),
        NodeCommand::Delete(key) => Some(Told::Removed(op, sheet.side, only(key.as_bytes()))),
    }
}

/// What a node replies to the leg.
fn reply_to(
    nodes: &mut Vec<CacheNode>,
    sheet: &LegSheet,
    now: u64,
) -> Result<LegReply, WorldError> {
    let command = sheet.command.copy()?;
    match nodes.get_mut(node_of(sheet)) {
        Some(node) => Ok(node.perform(now, command)?),
        None => Err(WorldError::NoSuchNode),
    }
}

/// Whether the client wants an answer.
fn wants_answer(request: &Request) -> bool {
    match request {
        Request::Set { noreply, .. } | Request::Delete { noreply, .. } => !*noreply,
        _ => true,
    }
}

fn world_error_of(refusal: ProxyError) -> WorldError {
    match refusal {
        ProxyError::OutOfMemory => WorldError::OutOfMemory,
        _ => WorldError::IssueRefused(refusal),
    }
}

/// What the history gains by an answer.
fn line_of_answer(answer: Answer) -> Option<Told> {
    if wants_answer(answer.request()) {
        Some(tell_reply(answer.op(), &answer.into_reply()))
    } else {
        None
    }
}

/// What the proxy does with a request.
fn issue(proxy: &mut Proxy, request: Request) -> Result<Issued, WorldError>
    requires { request ≢ Request.Quit }
{
    match proxy.core.issue(proxy.reading, request) {
        Ok(issued) => Ok(issued),
        Err((refusal, _)) => Err(world_error_of(refusal)),
    }
}

/// What the proxy of a leg does with its reply.
fn take(proxies: &mut Vec<Proxy>, id: LegId, reply: LegReply) -> Result<Taken, WorldError> {
    match proxies.get_mut(id.op.proxy as usize) {
        Some(proxy) => Ok(proxy.core.take_reply(id, reply)),
        None => Err(WorldError::NoSuchProxy),
    }
}

/// Adds a value behind the others.
fn push<T: Drop>(list: &mut Vec<T>, value: T) -> Result<(), WorldError> {
    match list.push(value) {
        Ok(()) => Ok(()),
        Err(_) => Err(WorldError::OutOfMemory),
    }
}

fn send(sent: &mut Vec<LegSheet>, legs: Vec<Leg>) -> Result<(), WorldError> {
    for leg in legs {
        push(sent, leg.into_sheet())?;
    }
    Ok(())
}

impl Table {
    /// Two proxies at 999 and 1050, and nodes that hold nothing.
    pub fn new(alloc: Global) -> Result<Table, Fail> {
        Ok(Table {
            proxies: two_proxies(alloc)?,
            nodes: five_nodes(alloc)?,
            sent: Vec::new(alloc),
            backs: Vec::new(alloc),
            lines: Vec::new(alloc),
        })
    }

    /// Whether the world tells the same, and so many messages and replies.
    pub fn is_like(&self, world: &World) -> bool {
        says(world.history(), self.lines.as_slice())
            && world.sent().len() == self.sent.len()
            && world.replies().len() == self.backs.len()
    }

    /// Adds what the history gains, if anything.
    fn tell(&mut self, line: Option<Told>) -> Result<(), WorldError> {
        match line {
            Some(line) => push(&mut self.lines, line),
            None => Ok(()),
        }
    }

    fn set_clock(&mut self, proxy: u32, reading: u64) -> Outcome {
        match self.proxies.get_mut(proxy as usize) {
            Some(proxy) => {
                proxy.reading = reading;
                Ok(Note::Nothing)
            }
            None => Err(WorldError::NoSuchProxy),
        }
    }

    fn ask(&mut self, proxy: u32, request: Request) -> Outcome {
        let Some(proxy) = self.proxies.get_mut(proxy as usize) else {
            return Err(WorldError::NoSuchProxy);
        };
        if let Request::Quit = request {
            return Ok(Note::Nothing);
        }
        let asked = request.copy()?;
        let issued = issue(proxy, request)?;
        self.note_issue(issued, &asked)
    }

    fn note_issue(&mut self, issued: Issued, asked: &Request) -> Outcome {
        let Issued { op, legs } = issued;
        let first = self.sent.len();
        let count = legs.len();
        push(&mut self.lines, tell_request(op, asked))?;
        send(&mut self.sent, legs)?;
        Ok(Note::Issued { op, first, count })
    }

    fn deliver(&mut self, message: usize, now: u64) -> Outcome {
        let Some(sheet) = self.sent.get(message) else {
            return Err(WorldError::NoSuchMessage);
        };
        let reply = reply_to(&mut self.nodes, sheet, now)?;
        let sheet = sheet.copy()?;
        self.note_reply(LegBack { sheet, reply })
    }

    fn note_reply(&mut self, back: LegBack) -> Outcome {
        self.tell(line_of_leg(&back.sheet))?;
        let reply = self.backs.len();
        push(&mut self.backs, back)?;
        Ok(Note::Performed { reply })
    }

    fn take_back(&mut self, reply: usize) -> Outcome {
        let Some(back) = self.backs.get(reply) else {
            return Err(WorldError::NoSuchMessage);
        };
        let LegBack { sheet, reply } = back.copy()?;
        let taken = take(&mut self.proxies, sheet.id, reply)?;
        self.note_taking(taken)
    }

    fn note_taking(&mut self, taken: Taken) -> Outcome {
        match taken {
            Taken::Waiting => Ok(Note::Waiting),
            Taken::Stranger(_) => Ok(Note::Stranger),
            Taken::Answered(answer) => self.note_answer(answer),
        }
    }

    fn note_answer(&mut self, answer: Answer) -> Outcome {
        let op = answer.op();
        self.tell(line_of_answer(answer))?;
        Ok(Note::Answered { op })
    }

    fn give_up(&mut self, op: OpId) -> Outcome {
        let Some(proxy) = self.proxies.get_mut(op.proxy as usize) else {
            return Err(WorldError::NoSuchOp);
        };
        match proxy.core.give_up(op) {
            Ok(answer) => self.note_answer(answer),
            Err(_) => Err(WorldError::NoSuchOp),
        }
    }

    fn restart_node(&mut self, name: &NodeName) -> Outcome {
        match self.nodes.get_mut(node_named(name)) {
            Some(node) => {
                node.restart();
                Ok(Note::Nothing)
            }
            None => Err(WorldError::NoSuchNode),
        }
    }

    fn restart_proxy(&mut self, proxy: u32) -> Outcome {
        let Some(proxy) = self.proxies.get_mut(proxy as usize) else {
            return Err(WorldError::NoSuchProxy);
        };
        match proxy.core.restart() {
            Ok(()) => Ok(Note::Nothing),
            Err(refusal) => Err(world_error_of(refusal)),
        }
    }

    /// What becomes of an event.
    pub fn step(&mut self, event: Event) -> Outcome {
        match event {
            Event::Clock { proxy, reading } => self.set_clock(proxy, reading),
            Event::Client { proxy, request } => self.ask(proxy, request),
            Event::Deliver { message, now } => self.deliver(message, now),
            Event::Return { reply } => self.take_back(reply),
            Event::GiveUp { op } => self.give_up(op),
            Event::NodeRestart { node } => self.restart_node(&node),
            Event::ProxyRestart { proxy } => self.restart_proxy(proxy),
        }
    }
}
