//! A canary that is played before servers: one that does what it is asked, and one that keeps what it should delete.
use super::{holds, must};
use mr_node::{CacheNode, answer_on};
use mr_pools::{NamedHash, Routing};
use mr_probes::{
    Canary, Goes, KeyError, Plan, Stamp, choose_keys, name_key, read_stamp, stamp_text,
};
use mr_test_support::{at_last, grant_memory, refuse_memory, reply_text, routing};
use mr_text::{Key, Reply, Request, RequestReader};
use std::alloc::{AllocError, Global};
use std::process::Abort;

/// The run of these tests.
const RUN: u64 = 0xc0_ffee;

/// The keys of so many numbers.
fn keys(rt: &impl Abort, alloc: Global, count: u64) -> Vec<Key> {
    let mut keys = Vec::new(alloc);
    for number in 0..count {
        let key = must(rt, name_key(alloc, "canary-", RUN, number));
        must(rt, keys.push(key));
    }
    keys
}

/// What a canary of so many clients is to do, which asks a thousand times a second.
fn plan(rt: &impl Abort, alloc: Global, clients: usize, count: u64) -> Plan {
    Plan {
        run: RUN,
        keys: keys(rt, alloc, count),
        clients,
        rate: 1000,
        give_up: 2_000_000,
    }
}

/// Such a canary.
fn canary(rt: &impl Abort, alloc: Global, clients: usize, count: u64) -> Canary {
    must(rt, Canary::new(alloc, plan(rt, alloc, clients, count)))
}

/// A server, and whether it keeps what it should delete.
#[derive(Drop)]
struct Server {
    node: CacheNode,
    keeps: bool,
}

impl Server {
    fn new(rt: &impl Abort, alloc: Global, keeps: bool) -> Server {
        Server {
            node: must(rt, CacheNode::new(alloc, 1000)),
            keeps,
        }
    }

    /// What the request comes to.
    fn reply(&mut self, alloc: Global, request: Request) -> Reply {
        match &request {
            Request::Quit => return Reply::Error,
            Request::Delete { .. } if self.keeps => return Reply::Deleted,
            _ => {}
        }
        answer_on(alloc, &mut self.node, 1, request)
    }

    /// The answer to the request of this text.
    fn answer(&mut self, rt: &impl Abort, alloc: Global, text: &[u8]) -> Vec<u8> {
        let mut reader = RequestReader::new(alloc);
        must(rt, reader.feed(text));
        match must(rt, reader.next()) {
            Some(request) => must(rt, reply_text(alloc, &self.reply(alloc, request))),
            None => Vec::new(alloc),
        }
    }
}

/// What the client has to write goes to the server, and the answer comes back.
fn turn(
    rt: &impl Abort,
    alloc: Global,
    canary: &mut Canary,
    server: &mut Server,
    place: usize,
    now: u64,
) {
    let text = must(rt, Vec::from_slice(alloc, canary.output(place)));
    if text.is_empty() {
        return;
    }
    canary.on_written(place, text.len());
    let answer = server.answer(rt, alloc, &text);
    let half = answer.len() / 2;
    let first = canary.on_bytes(place, now, &answer[..half]);
    let last = canary.on_bytes(place, now.saturating_add(100), &answer[half..]);
    holds(rt, first == Goes::On && last == Goes::On, "it goes on");
}

/// So many milliseconds before one server.
fn play(rt: &impl Abort, alloc: Global, canary: &mut Canary, server: &mut Server, millis: u64) {
    for place in 0..canary.clients() {
        canary.on_up(place, 0);
    }
    for milli in 0..millis {
        let now = milli.saturating_mul(1000);
        canary.on_tick(now);
        for place in 0..canary.clients() {
            turn(rt, alloc, canary, server, place, now);
        }
    }
}

/// The last deletes.
fn clean(rt: &impl Abort, alloc: Global, canary: &mut Canary, server: &mut Server) {
    canary.clean();
    for step in 0..1000u64 {
        canary.on_tick(10_000_000 + step);
        for place in 0..canary.clients() {
            turn(rt, alloc, canary, server, place, 10_000_000 + step);
        }
    }
}

fn plays_honest(rt: &impl Abort, alloc: Global) {
    let mut canary = canary(rt, alloc, 2, 4);
    let mut server = Server::new(rt, alloc, false);
    play(rt, alloc, &mut canary, &mut server, 4000);
    holds(rt, canary.came_back() == 0, "nothing came back");
    holds(rt, canary.take_conviction().is_none(), "no conviction");
    let second = canary.take_second();
    holds(
        rt,
        second.requests > 3900 && second.requests < 4100,
        "a thousand in a second",
    );
    holds(
        rt,
        second.hits > 0 && second.misses > 0 && second.stored > 0 && second.acknowledged > 0,
        "all kinds",
    );
    holds(rt, canary.take_second().requests == 0, "nothing since");
    holds(rt, !canary.is_over(), "it isn't over");
    clean(rt, alloc, &mut canary, &mut server);
    holds(rt, canary.is_over() && canary.left() == 0, "all is deleted");
    holds(
        rt,
        canary.take_second().acknowledged == 4,
        "one delete of each key",
    );
}

fn plays_stale(rt: &impl Abort, alloc: Global) {
    let mut canary = canary(rt, alloc, 2, 4);
    let mut server = Server::new(rt, alloc, true);
    play(rt, alloc, &mut canary, &mut server, 1000);
    let count = canary.came_back();
    holds(rt, count > 64, "much came back");
    for _ in 0..64 {
        match canary.take_conviction() {
            Some(found) => {
                holds(
                    rt,
                    found.conviction.value == found.stamp.value,
                    "the value of the hit",
                );
                holds(
                    rt,
                    found.stamp.run == RUN && found.stamp.client < 2,
                    "by a client of the run",
                );
                holds(
                    rt,
                    found.stamp.time < found.conviction.delete.time,
                    "set before the delete",
                );
            }
            None => holds(rt, false, "64 are kept"),
        }
    }
    holds(rt, canary.take_conviction().is_none(), "and no more");
    holds(rt, canary.came_back() == count, "each is counted");
}

fn leaves(rt: &impl Abort, alloc: Global) {
    let mut canary = canary(rt, alloc, 3, 1);
    holds(
        rt,
        canary.on_bytes(0, 1, b"END\r\n") == Goes::Off,
        "no connection",
    );
    canary.on_up(0, 1);
    holds(
        rt,
        canary.is_up(0) && !canary.is_up(1) && !canary.is_up(9),
        "one is up",
    );
    holds(
        rt,
        canary.on_bytes(0, 1, b"END\r\n") == Goes::Off,
        "nothing asked",
    );
    holds(rt, !canary.is_up(0), "it is left");
    canary.on_up(0, 1);
    canary.on_tick(2);
    let waits = canary.output(0).len();
    holds(rt, waits > 0 && canary.output(9).is_empty(), "one asks");
    canary.on_written(0, waits);
    holds(rt, canary.output(0).is_empty(), "all is written");
    holds(
        rt,
        canary.on_bytes(0, 3, b"SERVER_ERROR busy\r\n") == Goes::On,
        "busy",
    );
    canary.on_tick(1_000_000);
    canary.on_written(0, 1000);
    holds(
        rt,
        canary.on_bytes(0, 1_000_001, b"gibberish\r\n") == Goes::Off,
        "nonsense",
    );
    canary.on_up(1, 1_100_000);
    canary.on_tick(1_100_000);
    canary.on_broken(1, 1_100_001);
    canary.on_up(2, 1_200_000);
    canary.on_tick(1_200_000);
    canary.on_written(2, 1000);
    canary.on_tick(3_200_000);
    holds(rt, canary.is_up(2), "it waits for as long as it may");
    canary.on_tick(3_200_001);
    holds(rt, !canary.is_up(2), "too long");
    let second = canary.take_second();
    holds(rt, second.requests == 4, "four came to something");
    holds(
        rt,
        second.troubles[0] == 1
            && second.troubles[8] == 1
            && second.troubles[9] == 1
            && second.troubles[10] == 1,
        "each by its reason",
    );
}

fn stamps(rt: &impl Abort, alloc: Global) {
    let stamp = Stamp {
        run: RUN,
        key: 7,
        value: u64::MAX,
        client: 1,
        time: 1_012_345_678,
    };
    let text = must(rt, stamp_text(alloc, &stamp));
    let said: &[u8] =
        b"0000000000c0ffee-0000000000000007-ffffffffffffffff-0000000000000001-000000003c572b4e";
    holds(rt, text.as_slice() == said, "the text");
    holds(rt, read_stamp(&text) == Some(stamp), "read back");
    holds(
        rt,
        read_stamp(
            b"0000000000c0ffee-0000000000000007-FFFFFFFFFFFFFFFF-0000000000000001-000000003c572b4e",
        ).is_none(),
        "capital letters",
    );
    holds(rt, read_stamp(b"").is_none(), "nothing");
}

fn chooses(rt: &impl Abort, alloc: Global) {
    let routing: Routing = must(
        rt,
        routing(alloc, &[b"7003", b"7004", b"7005"], NamedHash::Fnv),
    );
    let chosen = must(rt, choose_keys(alloc, &routing, "canary-", RUN, 2));
    holds(
        rt,
        chosen.bare == 0 && chosen.keys.len() < 10,
        "each node has a key",
    );
    let three = must(rt, choose_keys(alloc, &routing, "canary-", RUN, 64));
    holds(rt, three.keys.len() == 64, "no more than are asked for");
    for number in 0..2 {
        for node in 0..routing.pool(number).len() {
            holds(
                rt,
                chosen
                    .keys
                    .iter()
                    .any(|key| routing.place(number, key) == node),
                "this one too",
            );
        }
    }
    match chosen.keys.first() {
        Some(key) => holds(
            rt,
            key.as_bytes() == b"canary-0000000000c0ffee-0".as_slice(),
            "the first",
        ),
        None => holds(rt, false, "there is one"),
    }
    let bad = choose_keys(alloc, &routing, "a b", RUN, 2);
    holds(
        rt,
        matches!(bad, Err(KeyError::BadPrefix)),
        "no key has a space",
    );
}

#[test]
fn nothing_comes_back(rt: HostRuntime) {
    plays_honest(&rt, rt.alloc());
}

#[test]
fn what_was_deleted_comes_back(rt: HostRuntime) {
    plays_stale(&rt, rt.alloc());
}

#[test]
fn connections_are_left(rt: HostRuntime) {
    leaves(&rt, rt.alloc());
}

#[test]
fn data_is_read_back(rt: HostRuntime) {
    stamps(&rt, rt.alloc());
}

#[test]
fn each_node_has_a_key(rt: HostRuntime) {
    chooses(&rt, rt.alloc());
}

#[test]
fn refused_memory_chooses_keys_later(rt: HostRuntime) {
    let routing: Routing = must(
        &rt,
        routing(rt.alloc(), &[b"7003", b"7004", b"7005"], NamedHash::Fnv),
    );
    let chosen = must(
        &rt,
        at_last!(
            &rt,
            choose_keys(rt.alloc(), &routing, "canary-", RUN, 2),
            Err(KeyError::OutOfMemory)
        ),
    );
    let again = must(&rt, choose_keys(rt.alloc(), &routing, "canary-", RUN, 2));
    holds(
        &rt,
        chosen.keys.len() == again.keys.len() && chosen.bare == 0,
        "the same keys",
    );
}

#[test]
fn refused_memory_begins_a_canary_later(rt: HostRuntime) {
    let first = plan(&rt, rt.alloc(), 2, 4);
    let second = plan(&rt, rt.alloc(), 2, 4);
    refuse_memory(&rt);
    let made = Canary::new(rt.alloc(), first);
    grant_memory(&rt);
    let canary = match made {
        Ok(canary) => canary,
        Err(AllocError) => must(&rt, Canary::new(rt.alloc(), second)),
    };
    holds(&rt, canary.clients() == 2, "all clients are there");
    holds(
        &rt,
        canary.key(3).is_some() && canary.key(4).is_none(),
        "all keys are",
    );
}

#[test]
fn refused_memory_asks_later(rt: HostRuntime) {
    let mut canary = canary(&rt, rt.alloc(), 1, 4);
    canary.on_up(0, 1);
    refuse_memory(&rt);
    canary.on_tick(1);
    grant_memory(&rt);
    canary.on_tick(2);
    holds(&rt, !canary.output(0).is_empty(), "it is asked by now");
    holds(&rt, canary.take_second().requests == 0, "none is answered");
}
