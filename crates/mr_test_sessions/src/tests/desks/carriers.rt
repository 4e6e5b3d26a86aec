//! Legs that are carried to caches of the same process, and legs that are lost.
ghost use Rattle.std.specs.Prelude.{◌≢◌};
ghost use Rattle.mr_text.specs.declared.request.Request.{Request};

use super::{NEW, desk_of, issue};
use crate::tests::broken::broken_carriers;
use crate::tests::{delete_of, first_leg, get_of, is, is_at, must};
use mr_clock::{FixedClock, ListClock};
use mr_desks::{
    Carrier, Carriers, Desk, DirectCarriers, Gate, LocalCarrier, OpenGate, RecordedProxy,
    SharedNode, SharedProxy,
};
use mr_join::LegReply;
use mr_node::{CacheNode, NodeCommand, Perform};
use mr_proxy::{Answer, Leg, LegSheet, Taken};
use mr_test_nodes::{Nodes, ToNode, carriers_to_all, core_of, make_nodes, recorded_proxy};
use mr_test_support::reply_text;
use mr_text::{Block, Cause, Key, Request};
use std::alloc::Global;
use std::process::Abort;
use std::sync::Wait;

/// Sends legs until one is handed back, and says whether none was.
fn send_all<C: Carrier, L: Carriers<C>>(carriers: &mut L, legs: Vec<Leg>) -> bool {
    for leg in legs {
        if carriers.send(leg).is_some() {
            return false;
        }
    }
    true
}

/// The answer to a request that has at most two legs, which were sent.
fn take_answer<C: Carrier, D: Desk<C>, L: Carriers<C>, R: Wait + Abort>(
    rt: &R,
    desk: &D,
    carriers: &mut L,
) -> Answer {
    for _ in 0..2 {
        let Some(mut carried) = carriers.receive() else {
            rt.panic("no leg came back");
        };
        if let Taken::Answered(answer) = must(rt, desk.take(rt, &mut carried)) {
            return answer;
        }
    }
    rt.panic("not answered")
}

/// The answer to a request whose legs go through these carriers; it is given up once a leg is handed back.
fn answer_to<C: Carrier, D: Desk<C>, L: Carriers<C>, R: Wait + Abort>(
    rt: &R,
    desk: &D,
    carriers: &mut L,
    request: &Request,
) -> Answer
    requires { request.now ≢ Request.Quit }
{
    let issued = desk.issue(rt, &mut desk.share(), &mut FixedClock(1000), request);
    let issued = must(rt, issued);
    if send_all(carriers, issued.legs) {
        take_answer(rt, desk, carriers)
    } else {
        must(rt, desk.give_up(rt, issued.op))
    }
}

/// A set of `k` to the item that these tests use.
fn set_of(rt: &impl Abort, alloc: Global) -> NodeCommand {
    NodeCommand::Set {
        key: must(rt, Key::new(alloc, b"k")),
        flags: 7,
        exptime: 0,
        block: must(rt, Block::new(alloc, b"v")),
    }
}

/// Sets `k` at the second of these caches.
fn set_second(rt: &(impl Wait + Abort), alloc: Global, nodes: &[SharedNode]) {
    match nodes.get(1) {
        Some(node) => {
            let _ = must(rt, node.desk(rt).perform(0, set_of(rt, alloc)));
        }
        None => rt.panic("no second cache"),
    }
}

/// An answer: how many legs its request had, whether it was given up, and what a client is told.
#[derive(Clone, Copy, Debug, PartialEq, Eq)]
struct Answered<'a> {
    legs: usize,
    given_up: bool,
    told: &'a str,
}

/// What is asked of a proxy, at a second of the phase in which deletes go to both sides and gets to the old one.
#[derive(Clone, Copy)]
enum Asked {
    Get,
    Delete,
}

impl Asked {
    /// The request for the key `k`.
    fn request(self, rt: &impl Abort, alloc: Global) -> Request
        ensures { result ≢ Request.Quit }
    {
        match self {
            Asked::Get => get_of(rt, alloc, &[b"k"]),
            Asked::Delete => delete_of(rt, alloc, b"k"),
        }
    }
}

/// What is asked, and how it has to be answered.
struct Row {
    asked: Asked,
    legs: usize,
    given_up: bool,
    told: &'static str,
}

/// Asserts how the request of a row was answered.
fn is_answer(rt: &impl Abort, alloc: Global, number: usize, answer: Answer, row: &Row) {
    let legs = answer.slots().len();
    let given_up = answer.given_up();
    let text = must(rt, reply_text(alloc, &answer.into_reply()));
    let answered = Answered {
        legs,
        given_up,
        told: must(rt, str::from_utf8(&text)),
    };
    let wanted = Answered {
        legs: row.legs,
        given_up: row.given_up,
        told: row.told,
    };
    is_at(rt, number, "answer", &answered, &wanted);
}

/// Asserts how requests are answered whose legs go through these carriers.
fn answers_so<C: Carrier, D: Desk<C>, L: Carriers<C>, R: Wait + Abort>(
    rt: &R,
    alloc: Global,
    desk: &D,
    carriers: &mut L,
    rows: &[Row],
) {
    for (number, row) in rows.iter().enumerate() {
        let answer = answer_to(rt, desk, carriers, &row.asked.request(rt, alloc));
        is_answer(rt, alloc, number, answer, row);
    }
}

/// A get finds what the node that its key names keeps, a delete takes it from there, and the next get finds nothing. The sum
/// of the bytes of `k` is odd, so the second cache of the old pool keeps it, and the one of the new pool doesn't.
static UNTIL_DELETED: [Row; 3] = [
    Row {
        asked: Asked::Get,
        legs: 1,
        given_up: false,
        told: "VALUE k 7 1\r\nv\r\nEND\r\n",
    },
    Row {
        asked: Asked::Delete,
        legs: 2,
        given_up: false,
        told: "NOT_FOUND\r\n",
    },
    Row {
        asked: Asked::Get,
        legs: 1,
        given_up: false,
        told: "END\r\n",
    },
];

/// Asserts so at a proxy over these caches.
fn hits_until_deleted<'x, D: Desk<ToNode<'x, R>>, R: Wait + Abort>(
    rt: &'x R,
    alloc: Global,
    nodes: &'x Nodes,
    desk: &D,
) {
    let pools = must(rt, carriers_to_all(rt, alloc, nodes));
    let mut carriers = DirectCarriers::new(alloc, pools);
    set_second(rt, alloc, &nodes.old);
    answers_so(rt, alloc, desk, &mut carriers, &UNTIL_DELETED);
}

/// The same through either kind of desk.
fn play<'x, R: Wait + Abort>(rt: &'x R, alloc: Global, nodes: &'x Nodes) {
    let recorded: RecordedProxy<ToNode<'x, R>> = must(rt, recorded_proxy(alloc, 0, &NEW, 20));
    hits_until_deleted(rt, alloc, nodes, &recorded);
    let shared: SharedProxy<ToNode<'x, R>> = SharedProxy::new(must(rt, core_of(alloc, 0, &NEW)));
    hits_until_deleted(rt, alloc, nodes, &shared);
}

#[test]
fn legs_are_performed_on_the_nodes_that_they_name(rt: HostRuntime) {
    let nodes = must(&rt, make_nodes(rt.alloc(), 1));
    play(&rt, rt.alloc(), &nodes);
}

/// Asserts how requests are answered whose legs reach no node: there are so many carriers for each pool.
fn loses(rt: &(impl Wait + Abort), alloc: Global, counts: &[usize], rows: &[Row]) {
    let mut carriers = broken_carriers(rt, alloc, counts);
    answers_so(rt, alloc, &desk_of(rt, alloc, 9), &mut carriers, rows);
    is(rt, "came", &carriers.receive().is_some(), &false);
}

static LOST: [Row; 1] = [Row {
    asked: Asked::Delete,
    legs: 2,
    given_up: false,
    told: "SERVER_ERROR leg lost\r\n",
}];

#[test]
fn a_leg_whose_link_is_broken_is_lost(rt: HostRuntime) {
    loses(&rt, rt.alloc(), &[2, 1], &LOST);
}

static HANDED_BACK: [Row; 1] = [Row {
    asked: Asked::Get,
    legs: 1,
    given_up: true,
    told: "SERVER_ERROR leg lost\r\n",
}];

#[test]
fn a_leg_without_a_carrier_is_handed_back(rt: HostRuntime) {
    loses(&rt, rt.alloc(), &[], &HANDED_BACK);
}

/// The flags of the item that a get found, if it found one.
fn flags_of(reply: &LegReply) -> Option<u32> {
    match reply {
        LegReply::Hit { flags, .. } => Some(*flags),
        _ => None,
    }
}

/// Asserts which flags the item has that a shared node keeps of a key.
fn keeps(
    rt: &(impl Wait + Abort),
    alloc: Global,
    node: &SharedNode,
    name: &[u8],
    wanted: Option<u32>,
) {
    let key = must(rt, Key::new(alloc, name));
    let reply = must(rt, node.desk(rt).get(0, &key));
    is(rt, "flags", &flags_of(&reply), &wanted);
    is(
        rt,
        "missed",
        &matches!(reply, LegReply::Miss),
        &wanted.is_none(),
    );
}

#[test]
fn a_shared_node_keeps_what_it_held(rt: HostRuntime) {
    let mut node = must(&rt, CacheNode::new(rt.alloc(), 4));
    let _ = must(&rt, node.perform(0, set_of(&rt, rt.alloc())));
    let shared = SharedNode::new(node);
    keeps(&rt, rt.alloc(), &shared, b"k", Some(7));
    keeps(&rt, rt.alloc(), &shared, b"a", None);
}

/// The one leg of a get of `k`.
fn one_leg(rt: &(impl Wait + Abort), alloc: Global) -> Leg {
    let desk = desk_of(rt, alloc, 9);
    let get = get_of(rt, alloc, &[b"k"]);
    first_leg(rt, must(rt, issue(rt, &desk, &mut desk.share(), &get)).legs)
}

/// Asserts that a carrier to this cache whose clock fails says so.
fn says_so<'x, R: Wait + Abort>(rt: &'x R, alloc: Global, node: &'x SharedNode, sheet: &LegSheet) {
    let clock = ListClock::new(Vec::new(alloc));
    let reply = must(rt, LocalCarrier::new(rt, node, clock).carry(sheet));
    let fails = matches!(reply, LegReply::Failed(Cause::ClockFault));
    is(rt, "clock fault", &fails, &true);
}

#[test]
fn a_carrier_whose_clock_fails_says_so(rt: HostRuntime) {
    let leg = one_leg(&rt, rt.alloc());
    OpenGate.before_carry(leg.sheet());
    let node = SharedNode::new(must(&rt, CacheNode::new(rt.alloc(), 4)));
    says_so(&rt, rt.alloc(), &node, leg.sheet());
}
