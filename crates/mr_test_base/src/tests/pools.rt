//! Worked values of names, hashes, pools and routings.
mod memory;

ghost use Rattle.std.specs.Prelude.{◌≡◌, length};

use super::{are, count_is, holds, is, says};
use crate::tests::must;
use mr_pools::{Fnv1a32, KeyHash, NamedHash, NodeName, Pool, PoolError, Routing, SumHash, laws};
use mr_text::Key;
use std::alloc::Global;
use std::process::Abort;

/// A pool of these nodes.
fn pool(rt: &impl Abort, alloc: Global, texts: &[&str]) -> Result<Pool, PoolError> {
    let mut names = Vec::new(alloc);
    for text in texts {
        must(
            rt,
            names.push(must(rt, NodeName::new(alloc, text.as_bytes()))),
        );
    }
    Pool::new(names)
}

/// The old pool is 7001 and 7002, the new one 7101 to 7103.
fn routing(rt: &impl Abort, alloc: Global, hash: NamedHash) -> Routing
    ensures { length result.pools ≡ 2 }
{
    let new: [&[u8]; 3] = [b"7101", b"7102", b"7103"];
    must(rt, mr_test_support::routing(alloc, &new, hash))
}

/// A key, and where it is kept: its spot by its sum, the places in the old and the new pool by that, with their nodes, and
/// its spot by FNV-1a with the places by that.
struct Row {
    key: &'static [u8],
    sum: u32,
    by_sum: (usize, usize),
    nodes: (&'static str, &'static str),
    fnv: u32,
    by_fnv: (usize, usize),
}

/// The spots of `a`, `b` and `foobar` by FNV-1a are published.
static KEYS: [Row; 4] = [
    Row {
        key: b"k",
        sum: 107,
        by_sum: (1, 2),
        nodes: ("7002", "7103"),
        fnv: 3993778410,
        by_fnv: (0, 0),
    },
    Row {
        key: b"a",
        sum: 97,
        by_sum: (1, 1),
        nodes: ("7002", "7102"),
        fnv: 3826002220,
        by_fnv: (0, 1),
    },
    Row {
        key: b"b",
        sum: 98,
        by_sum: (0, 2),
        nodes: ("7001", "7103"),
        fnv: 0xe70c_2de5,
        by_fnv: (1, 1),
    },
    Row {
        key: b"foobar",
        sum: 633,
        by_sum: (1, 0),
        nodes: ("7002", "7101"),
        fnv: 0xbf9c_f968,
        by_fnv: (0, 1),
    },
];

/// Asserts which spot a key has.
fn has_spot<H: KeyHash>(rt: &impl Abort, row: usize, hash: &H, key: &Key, spot: u32) {
    is(rt, row, hash.spot(key), spot);
}

/// Asserts which spots a key has, by either hash and by its name.
fn has_spots(rt: &impl Abort, row: usize, key: &Key, it: &Row) {
    has_spot(rt, row, &SumHash, key, it.sum);
    has_spot(rt, row, &NamedHash::Sum, key, it.sum);
    has_spot(rt, row, &Fnv1a32, key, it.fnv);
    has_spot(rt, row, &NamedHash::Fnv, key, it.fnv);
}

/// Asserts which places a routing gives a key, and which nodes these are.
fn places(rt: &impl Abort, row: usize, routing: &Routing, key: &Key, it: &Row) {
    is(rt, row, routing.hops(), 1);
    count_is(
        rt,
        row,
        routing.old_pool(0).pick(&SumHash, key),
        it.by_sum.0,
    );
    count_is(
        rt,
        row,
        routing.new_pool(0).pick(&NamedHash::Sum, key),
        it.by_sum.1,
    );
    let old = routing.pool(0).name(routing.place(0, key));
    says(rt, row, old.as_str(), it.nodes.0);
    let new = routing.pool(1).name(routing.place(1, key));
    says(rt, row, new.as_str(), it.nodes.1);
}

/// Asserts where a key is kept by a routing by the sum and one by FNV-1a.
fn is_kept(rt: &impl Abort, row: usize, sum: &Routing, fnv: &Routing, key: &Key, it: &Row) {
    has_spots(rt, row, key, it);
    places(rt, row, sum, key, it);
    is(rt, row, fnv.hash(), NamedHash::Fnv);
    count_is(rt, row, fnv.place(0, key), it.by_fnv.0);
    count_is(rt, row, fnv.place(1, key), it.by_fnv.1);
}

#[test]
fn hashes_place_keys(rt: HostRuntime) {
    let sum = routing(&rt, rt.alloc(), NamedHash::Sum);
    let fnv = routing(&rt, rt.alloc(), NamedHash::Fnv);
    for (row, it) in KEYS.iter().enumerate() {
        let key = must(&rt, Key::new(rt.alloc(), it.key));
        is_kept(&rt, row, &sum, &fnv, &key, it);
    }
}

/// Asserts which name a hash has.
fn is_called(rt: &impl Abort, row: usize, hash: NamedHash, name: &str) {
    says(rt, row, hash.as_str(), name);
    is(rt, row, NamedHash::from_name(name), Some(hash));
}

#[test]
fn hashes_have_names(rt: HostRuntime) {
    is_called(&rt, 0, NamedHash::Sum, "sum");
    is_called(&rt, 1, NamedHash::Fnv, "fnv1a32");
    is(&rt, 2, NamedHash::from_name("fnv"), None);
}

/// Asserts that bytes are no name.
fn is_no_name(rt: &impl Abort, alloc: Global, row: usize, bytes: &[u8]) {
    is(
        rt,
        row,
        NodeName::new(alloc, bytes).err(),
        Some(PoolError::BadName),
    );
}

/// Asserts that bytes are a name, which is equal to its copy, but not to the name `x`.
fn is_name(rt: &impl Abort, alloc: Global, row: usize, bytes: &[u8]) {
    let name = must(rt, NodeName::new(alloc, bytes));
    are(rt, row, name.as_bytes(), bytes);
    are(rt, row, name.as_str().as_bytes(), bytes);
    holds(rt, row, name == must(rt, name.copy()), true);
    holds(rt, row, name == must(rt, NodeName::new(alloc, b"x")), false);
}

#[test]
fn names_are_visible_ascii(rt: HostRuntime) {
    is_name(&rt, rt.alloc(), 0, b"!~");
    is_no_name(&rt, rt.alloc(), 1, b"");
    for byte in b" ,\x7f\x80" {
        is_no_name(&rt, rt.alloc(), usize::from(*byte), &[b'a', *byte]);
    }
}

#[test]
fn names_have_up_to_255_bytes(rt: HostRuntime) {
    let long = [b'x'; 256];
    is_name(&rt, rt.alloc(), 0, &long[..255]);
    is_no_name(&rt, rt.alloc(), 1, &long);
}

/// A pool of so many nodes, each of another name unless all are to have the same.
fn many_nodes(
    rt: &impl Abort,
    alloc: Global,
    count: u32,
    are_equal: bool,
) -> Result<Pool, PoolError> {
    let mut names = Vec::new(alloc);
    for number in 0..count {
        let text = must(
            rt,
            format!(in alloc; "n{}", if are_equal { 0 } else { number }),
        );
        must(
            rt,
            names.push(must(rt, NodeName::new(alloc, text.as_bytes()))),
        );
    }
    Pool::new(names)
}

/// Asserts why there is no such pool.
fn is_no_pool(rt: &impl Abort, row: usize, answer: Result<Pool, PoolError>, wanted: PoolError) {
    is(rt, row, answer.err(), Some(wanted));
}

/// Asserts that of two faults the first in their order is told.
fn are_refused(rt: &impl Abort, alloc: Global) {
    is_no_pool(rt, 0, pool(rt, alloc, &[]), PoolError::EmptyPool);
    let repeated = pool(rt, alloc, &["7001", "7001"]);
    is_no_pool(rt, 1, repeated, PoolError::RepeatedName);
    let many = many_nodes(rt, alloc, 1025, false);
    is_no_pool(rt, 2, many, PoolError::TooManyNodes);
    let many = many_nodes(rt, alloc, 1025, true);
    is_no_pool(rt, 3, many, PoolError::TooManyNodes);
}

#[test]
fn pools_are_refused_in_order(rt: HostRuntime) {
    are_refused(&rt, rt.alloc());
    let most = must(&rt, many_nodes(&rt, rt.alloc(), 1024, false));
    count_is(&rt, 4, most.len(), 1024);
}

/// Asserts that pools of these nodes share a name.
fn share_a_name(rt: &impl Abort, alloc: Global, row: usize, old: &[&str], new: &[&str]) {
    let old = must(rt, pool(rt, alloc, old));
    let new = must(rt, pool(rt, alloc, new));
    let refusal = Routing::new(old, new, NamedHash::Sum).err();
    is(rt, row, refusal, Some(PoolError::SharedName));
}

#[test]
fn routings_share_no_name(rt: HostRuntime) {
    share_a_name(&rt, rt.alloc(), 0, &["7001"], &["7001"]);
    share_a_name(&rt, rt.alloc(), 1, &["7001", "7002"], &["7101", "7002"]);
    is(&rt, 2, PoolError::SharedName.number(), 5);
}

/// Asserts that a routing and its copy are equal, and what the copy tells.
fn is_copy(rt: &impl Abort, routing: &Routing, copy: &Routing) {
    holds(rt, 0, routing.same_as(copy), true);
    is(rt, 0, (routing.hops(), copy.hops()), (1, 1));
    count_is(rt, 1, copy.old_pool(0).names().len(), 2);
    count_is(rt, 2, copy.pools().len(), 2);
    holds(rt, 3, copy.pools()[1].same_as(routing.new_pool(0)), true);
    is(rt, 4, copy.hash(), NamedHash::Sum);
}

/// Asserts that two routings differ in their hashes alone.
fn differ_in_hash(rt: &impl Abort, sum: &Routing, fnv: &Routing) {
    is(rt, 5, (sum.hops(), fnv.hops()), (1, 1));
    holds(rt, 5, sum.old_pool(0).same_as(fnv.old_pool(0)), true);
    holds(rt, 6, sum.old_pool(0).same_as(fnv.new_pool(0)), false);
    holds(rt, 7, sum.same_as(fnv), false);
}

/// A routing of copies of the same pools by the other hash.
fn routing_by_fnv(rt: &impl Abort, sum: &Routing) -> Routing {
    is(rt, 8, sum.hops(), 1);
    let old = must(rt, sum.old_pool(0).copy());
    let new = must(rt, sum.new_pool(0).copy());
    must(rt, Routing::new(old, new, NamedHash::Fnv))
}

#[test]
fn copies_are_equal(rt: HostRuntime) {
    let routing = routing(&rt, rt.alloc(), NamedHash::Sum);
    is_copy(&rt, &routing, &must(&rt, routing.copy()));
    differ_in_hash(&rt, &routing, &routing_by_fnv(&rt, &routing));
}

#[test]
fn laws_can_be_cited() {
    laws::limits();
    laws::pools_share_no_name();
    laws::names_are_distinct();
    laws::names_stand_once();
}

/// A routing of so many pools, each of one node, and of two where there are to be fewer.
fn chain_of(rt: &impl Abort, alloc: Global, nodes: &[&str]) -> Routing {
    let mut routing = routing(rt, alloc, NamedHash::Sum);
    for node in nodes {
        routing = match routing.then(must(rt, pool(rt, alloc, &[*node]))) {
            Ok(longer) => longer,
            Err(_) => rt.panic("a pool was refused"),
        };
    }
    routing
}

/// The nodes of pools behind the first two, the node of one more, and why that is refused, if it is, with the number.
type More = (&'static [&'static str], &'static str, Option<PoolError>, u8);

static MORE: [More; 6] = [
    (&[], "7201", None, 0),
    (&[], "7001", Some(PoolError::SharedName), 5),
    (&["7201"], "7102", Some(PoolError::SharedName), 5),
    (&["7201", "7301"], "7201", Some(PoolError::SharedName), 5),
    (
        &["7201", "7301", "7401"],
        "7501",
        Some(PoolError::TooManyPools),
        7,
    ),
    (
        &["7201", "7301", "7401"],
        "7001",
        Some(PoolError::TooManyPools),
        7,
    ),
];

/// Asserts whether a routing may go on to such a pool, and that a refusal hands both back.
fn goes_on(rt: &impl Abort, alloc: Global, row: usize, it: &More) {
    let routing = chain_of(rt, alloc, it.0);
    let kept = must(rt, routing.copy());
    match routing.then(must(rt, pool(rt, alloc, &[it.1]))) {
        Ok(longer) => {
            is(rt, row, None, it.2);
            count_is(rt, row, longer.pools().len(), it.0.len().saturating_add(3));
        }
        Err((refusal, back, pool)) => {
            is(rt, row, (Some(refusal), refusal.number()), (it.2, it.3));
            holds(rt, row, back.same_as(&kept), true);
            count_is(rt, row, pool.len(), 1);
        }
    }
}

#[test]
fn a_routing_goes_on_to_one_more_pool(rt: HostRuntime) {
    for (row, it) in MORE.iter().enumerate() {
        goes_on(&rt, rt.alloc(), row, it);
    }
}
