//! What a script says once it is read, and the refusals that the program doesn't print whole. Most texts are one script with
//! a part changed.
use super::{first_hop, is, is_for, moves_between, replace_part};
use crate::tests::must;
use mr_configs::PlanError;
use mr_history::OpId;
use mr_phases::Schedule;
use mr_pools::NamedHash;
use mr_proxy::ProxyError;
use mr_scripts::{Script, read_events};
use mr_text::{Key, Request};
use mr_transcripts::write_transcript;
use mr_world::{Event, HeldItem, ProxySetup, Setup, WorldError};
use std::alloc::Global;
use std::process::Abort;
use std::test::Fail;

/// A script with each kind of event and of request, an item that is held, and one proxy.
const SCRIPT: &str = r#"{
  "format": 1,
  "setup": {
    "capacity": 4,
    "config": {
      "hash": "sum",
      "pools": {
        "new": {"servers": ["7101", "7102", "7103"]},
        "old": {"servers": ["7001", "7002"]}
      },
      "route": {
        "type": "MigrateRoute",
        "from": "PoolRoute|old",
        "to": "PoolRoute|new",
        "start_time": 1000,
        "interval": 100
      }
    },
    "held": [{"node": "7101", "key": "h", "flags": 5, "data": "d"}],
    "proxies": [{"reading": 999, "room": 3}]
  },
  "events": [
    {"do": "clock", "proxy": 1, "reading": 10},
    {"do": "client", "proxy": 2, "request": {"kind": "get", "keys": ["a", "k"]}},
    {"do": "client", "proxy": 3, "request": {"kind": "set", "key": "b", "flags": 6, "exptime": -7, "data": "v", "noreply": true}},
    {"do": "client", "proxy": 4, "request": {"kind": "delete", "key": "c", "noreply": false}},
    {"do": "deliver", "message": 8, "now": 9},
    {"do": "return", "reply": 11},
    {"do": "give_up", "op": [12, 13, 14]},
    {"do": "node_restart", "node": "7009"},
    {"do": "proxy_restart", "proxy": 15}]
}"#;

/// The script of a text.
fn read(rt: &impl Abort, alloc: Global, text: &str, case: &str) -> Result<Script, Fail> {
    match read_events(alloc, text.as_bytes()) {
        Ok(script) => Ok(script),
        Err(refusal) => {
            is_for(rt, Some(refusal), None, case);
            Err(Fail::from("refused"))
        }
    }
}

/// The script with one part changed, read.
fn read_with(rt: &impl Abort, alloc: Global, part: &str, new: &str) -> Script {
    let text = must(rt, replace_part(rt, alloc, SCRIPT, (part, new)));
    must(rt, read(rt, alloc, text.as_str(), new))
}

/// The script as it stands, read.
fn read_whole(rt: &impl Abort, alloc: Global) -> Script {
    must(rt, read(rt, alloc, SCRIPT, "the script"))
}

/// Whether an item is the one that is held in the script.
fn is_held(item: &HeldItem) -> bool {
    item.node.as_str() == "7101"
        && item.key.as_bytes() == b"h".as_slice()
        && item.flags == 5
        && item.block.as_bytes() == b"d".as_slice()
}

/// Whether a schedule starts then, and its phases last so long.
fn is_schedule(schedule: Schedule, start: u64, interval: u64) -> bool {
    first_hop(schedule) == (start, interval)
}

/// Asserts that a proxy has the script's common configuration.
fn is_common(rt: &impl Abort, proxy: &ProxySetup) {
    is(rt, is_schedule(proxy.schedule, 1000, 100), true);
    is(rt, proxy.routing.hash() == NamedHash::Sum, true);
    moves_between(
        rt,
        &proxy.routing,
        &["7001", "7002"],
        &["7101", "7102", "7103"],
    );
}

/// Asserts what the script says of its setup.
fn setup_is_so(rt: &impl Abort, setup: &Setup) {
    is(rt, setup.capacity(), 4);
    let [item] = setup.held() else {
        rt.panic("no item");
    };
    is(rt, is_held(item), true);
    let [proxy] = setup.proxies() else {
        rt.panic("no proxy");
    };
    is(rt, (proxy.reading, proxy.room) == (999, 3), true);
    is_common(rt, proxy);
}

#[test]
fn a_setup_is_read(rt: HostRuntime) {
    setup_is_so(&rt, read_whole(&rt, rt.alloc()).setup());
}

/// Asserts that a proxy has the configuration of its own that the script below gives it.
fn is_own(rt: &impl Abort, proxy: &ProxySetup) {
    is(rt, is_schedule(proxy.schedule, 7, 3600), true);
    is(rt, proxy.routing.hash() == NamedHash::Fnv, true);
    moves_between(rt, &proxy.routing, &["x"], &["7101"]);
}

/// Two proxies, of which the second has a configuration of its own.
const TWO: &str =
    r#"{"reading": 1, "room": 2}, {"reading": 3, "room": 4, "config": {"pools": {"a": {"servers": ["x"]}, "b": {"servers": ["7101"]}}, "route": {"type": "MigrateRoute", "from": "PoolRoute|a", "to": "PoolRoute|b", "start_time": 7}}}"#;

/// Asserts what is said of the two.
fn proxies_are_so(rt: &impl Abort, proxies: &[ProxySetup]) {
    let [first, second] = proxies else {
        rt.panic("no two proxies");
    };
    is(rt, (first.reading, first.room) == (1, 2), true);
    is_common(rt, first);
    is(rt, (second.reading, second.room) == (3, 4), true);
    is_own(rt, second);
}

#[test]
fn a_proxy_may_have_its_own_configuration(rt: HostRuntime) {
    let script = read_with(&rt, rt.alloc(), r#"{"reading": 999, "room": 3}"#, TWO);
    proxies_are_so(&rt, script.setup().proxies());
}

/// An event of a script as plain values.
fn is_simple(event: &Event, index: usize) -> bool {
    match event {
        Event::Clock { proxy, reading } => index == 0 && (*proxy, *reading) == (1, 10),
        Event::Client { proxy, request } => is_client(*proxy, request, index),
        Event::Deliver { message, now } => index == 4 && (*message, *now) == (8, 9),
        Event::Return { reply } => index == 5 && *reply == 11,
        Event::GiveUp { op } => {
            let wanted = OpId {
                proxy: 12,
                incarnation: 13,
                number: 14,
            };
            index == 6 && *op == wanted
        }
        Event::NodeRestart { node } => index == 7 && node.as_str() == "7009",
        Event::ProxyRestart { proxy } => index == 8 && *proxy == 15,
    }
}

/// Whether the keys are those of the script's get, in order.
fn are_two(keys: &[Key]) -> bool {
    match keys {
        [first, second] => {
            first.as_bytes() == b"a".as_slice() && second.as_bytes() == b"k".as_slice()
        }
        _ => false,
    }
}

/// Whether a request is the one that the script has at this index.
fn is_client(proxy: u32, request: &Request, index: usize) -> bool {
    match request {
        Request::Get { keys } => (index, proxy) == (1, 2) && are_two(keys.as_slice()),
        Request::Set {
            key,
            flags,
            exptime,
            block,
            noreply,
        } => {
            (index, proxy) == (2, 3)
                && key.as_bytes() == b"b".as_slice()
                && (*flags, *exptime, *noreply) == (6, -7, true)
                && block.as_bytes() == b"v".as_slice()
        }
        Request::Delete { key, noreply } => {
            (index, proxy) == (3, 4) && key.as_bytes() == b"c".as_slice() && !*noreply
        }
        Request::Quit => false,
    }
}

/// Asserts that these are the events of the script.
fn events_are_so(rt: &impl Abort, events: &[Event]) {
    is(rt, events.len(), 9);
    for (index, event) in events.iter().enumerate() {
        is(rt, is_simple(event, index), true);
    }
}

#[test]
fn events_are_read_in_order(rt: HostRuntime) {
    events_are_so(&rt, read_whole(&rt, rt.alloc()).events());
}

#[test]
fn a_copied_script_says_the_same(rt: HostRuntime) {
    let copied = must(&rt, read_whole(&rt, rt.alloc()).copy());
    setup_is_so(&rt, copied.setup());
    events_are_so(&rt, copied.events());
}

/// What is changed in the script, and why it is none then: the first event, one in the middle and the last, and the setup.
static REFUSED: [(&str, &str, PlanError); 5] = [
    (
        r#""do": "clock""#,
        r#""do": "wait""#,
        PlanError::BadEvent(0),
    ),
    (
        r#""key": "c""#,
        r#""key": "\u0100""#,
        PlanError::BadEvent(3),
    ),
    (r#""7009""#, r#""""#, PlanError::BadEvent(7)),
    (
        r#""proxy": 15"#,
        r#""proxy": 4294967296"#,
        PlanError::BadEvent(8),
    ),
    (
        r#"{"node": "7101""#,
        r#"{"node": "7004""#,
        PlanError::BadSetup(WorldError::NoSuchNode),
    ),
];

/// Why the script with one part changed is none.
fn refusal_with(rt: &impl Abort, alloc: Global, part: &str, new: &str) -> Option<PlanError> {
    let text = must(rt, replace_part(rt, alloc, SCRIPT, (part, new)));
    read_events(alloc, text.as_bytes()).err()
}

#[test]
fn a_refusal_names_the_event_or_what_the_fleet_lacks(rt: HostRuntime) {
    for (part, new, wanted) in &REFUSED {
        let found = refusal_with(&rt, rt.alloc(), part, new);
        is_for(&rt, found, Some(*wanted), new);
    }
}

/// A set of a block of one byte more than a block may have.
fn set_too_long(rt: &impl Abort, alloc: Global) -> String {
    let mut set = must(rt, String::from_str(alloc, SET_BEGINS));
    for _ in 0..8193 {
        must(rt, set.push('x'));
    }
    must(rt, set.push_str("\"}"));
    set
}

const SET_BEGINS: &str = r#"{"kind": "set", "key": "c", "flags": 0, "exptime": 0, "data": ""#;

#[test]
fn a_block_that_is_too_long_is_refused_with_its_event(rt: HostRuntime) {
    let set = set_too_long(&rt, rt.alloc());
    let delete = r#"{"kind": "delete", "key": "c", "noreply": false}"#;
    let found = refusal_with(&rt, rt.alloc(), delete, set.as_str());
    is_for(&rt, found, Some(PlanError::BadEvent(3)), "8,193 bytes");
}

/// How the script's events begin behind its proxies.
const BEGINNING: &str = r#""room": 3}]
  },
  "events": [
    {"do": "clock", "proxy": 1, "reading": 10}"#;

/// What begins in its place, and why the first event is refused then: it names the second proxy of one, a request of the
/// sixth, or the proxy has no room.
static REFUSED_PLAYS: [(&str, WorldError); 3] = [
    (BEGINNING, WorldError::NoSuchProxy),
    (
        r#""room": 3}]}, "events": [{"do": "give_up", "op": [5, 0, 0]}"#,
        WorldError::NoSuchOp,
    ),
    (
        r#""room": 0}]}, "events": [{"do": "client", "proxy": 0, "request": {"kind": "get", "keys": ["k"]}}"#,
        WorldError::IssueRefused(ProxyError::NoRoom),
    ),
];

#[test]
fn a_refused_event_is_told_with_its_refusal(rt: HostRuntime) {
    for (new, wanted) in &REFUSED_PLAYS {
        let script = read_with(&rt, rt.alloc(), BEGINNING, new);
        let found = write_transcript(rt.alloc(), script).err();
        is_for(&rt, found, Some(PlanError::EventRefused(0, *wanted)), new);
    }
}
