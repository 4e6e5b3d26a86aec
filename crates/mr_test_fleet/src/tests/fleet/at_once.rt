//! Clients and links that run at the same time: a leg is held until another client of the same proxy has its answers, and replies
//! are received in the order of their legs all the same.
ghost use Rattle.std.specs.Prelude.{◌≡◌, [], false};

use super::{proxy_of, run, went_well};
use crate::tests::{is, is_at, must};
use mr_clock::FixedClock;
use mr_desks::{Carrier, Gate, Step};
use mr_fleet::{FleetClient, FleetEnd, FleetProxy};
use mr_history::OpId;
use mr_node::NodeCommand;
use mr_proxy::LegSheet;
use mr_test_nodes::{Nodes, ToNode, carriers_to_all, make_nodes};
use mr_text::{GhostBytes, GhostCount, OverReader, Sink, Source, WriteFault};
use std::alloc::Global;
use std::io::Read;
use std::process::Abort;
use std::sync::{Mutex, Wait};
use std::thread::Threads;
use std::time::{Clock, Duration};
use std::{io, thread};

/// How often a flag is looked at.
const TURNS: u64 = 20_000;

/// What has happened.
#[derive(Drop)]
struct Flags {
    /// How many legs are to be seen yet, before a client that waits asks.
    unseen: Mutex<u64>,
    /// They were all seen.
    seen: Mutex<bool>,
    /// The client that waited for them has its answers.
    answered: Mutex<bool>,
    /// Someone waited in vain.
    in_vain: Mutex<bool>,
}

impl Flags {
    /// Nothing has happened, and so many legs are to be seen.
    fn new(unseen: u64) -> Flags {
        Flags {
            unseen: Mutex::new(unseen),
            seen: Mutex::new(false),
            answered: Mutex::new(false),
            in_vain: Mutex::new(false),
        }
    }
}

fn set<R: Wait>(rt: &R, flag: &Mutex<bool>) {
    *flag.lock(rt) = true;
}

fn is_set<R: Wait>(rt: &R, flag: &Mutex<bool>) -> bool {
    *flag.lock(rt)
}

/// Looks at a flag until it is set: so many times, a millisecond apart.
fn await_flag<R: Wait + Clock>(rt: &R, flag: &Mutex<bool>, in_vain: &Mutex<bool>) {
    for _ in 0..TURNS {
        if is_set(rt, flag) {
            return;
        }
        thread::sleep(rt, Duration::from_millis(1));
    }
    set(rt, in_vain);
}

/// Notes that one more leg was seen.
fn see<R: Wait>(rt: &R, flags: &Flags) {
    let mut unseen = flags.unseen.lock(rt);
    *unseen = unseen.saturating_sub(1);
    if *unseen == 0 {
        set(rt, &flags.seen);
    }
}

/// A gate that sees the gets of a key, and holds each get of `b` until the client that waits is answered.
struct HoldsGetOfB<'x, R> {
    rt: &'x R,
    flags: &'x Flags,
    sees: &'x [u8],
}

impl<'x, R> Drop for HoldsGetOfB<'x, R> {
    fn drop(self) {
        let Self {
            rt: _,
            flags: _,
            sees: _,
        } = self;
    }
}

impl<'x, R: Wait + Clock> Gate for HoldsGetOfB<'x, R> {
    fn before_carry(&self, sheet: &LegSheet) {
        if let NodeCommand::Get(key) = &sheet.command {
            if key.as_bytes() == self.sees {
                see(self.rt, self.flags);
            }
            if key.as_bytes() == b"b".as_slice() {
                await_flag(self.rt, &self.flags.answered, &self.flags.in_vain);
            }
        }
    }
}

/// What a client sends; nothing before the legs are seen, where it is to wait for that.
struct Asks<'x, R> {
    rt: &'x R,
    flags: &'x Flags,
    waits: bool,
    input: &'x [u8],
}

impl<'x, R> Drop for Asks<'x, R> {
    fn drop(self) {
        let Self {
            rt: _,
            flags: _,
            waits: _,
            input: _,
        } = self;
    }
}

impl<'x, R: Wait + Clock> Read for Asks<'x, R> {
    fn read(&mut self, buffer: &mut [u8]) -> io::Result<usize> {
        if self.waits {
            self.waits = false;
            await_flag(self.rt, &self.flags.seen, &self.flags.in_vain);
        }
        let count = self.input.len().min(buffer.len());
        let (given, left) = self.input.split_at(count);
        buffer[..count].copy_from_slice(given);
        self.input = left;
        Ok(count)
    }
}

/// What a client is answered. Where it is to, it tells when it was answered `END`.
struct Told<'x, R> {
    rt: &'x R,
    flags: &'x Flags,
    tells: bool,
    kept: Vec<u8>,
    handed: GhostBytes,
    calls: GhostCount,
    failures: GhostCount,
    last_failed: bool,
}

impl<'x, R> Drop for Told<'x, R> {
    fn drop(self) {
        let Self {
            rt: _,
            flags: _,
            tells: _,
            kept: _,
            handed: _,
            calls: _,
            failures: _,
            last_failed: _,
        } = self;
    }
}

impl<'x, R> Told<'x, R> {
    /// A client that wasn't answered yet.
    fn new(rt: &'x R, alloc: Global, flags: &'x Flags, tells: bool) -> Told<'x, R>
        ensures { (result.kept.items ≡ []) × (result.handed ≡ []) × (result.calls ≡ 0) × (result.failures ≡ 0) × (result.last_failed ≡ false) }
    {
        Told {
            rt,
            flags,
            tells,
            kept: Vec::new(alloc),
            handed: GhostBytes::new(),
            calls: GhostCount::new(),
            failures: GhostCount::new(),
            last_failed: false,
        }
    }
}

impl<'x, R: Wait> Sink for Told<'x, R> {
    ghost use Rattle.std.specs.Prelude.{None};

    ghost told = { λ s. record { written = s.kept.items; handed = s.handed; calls = s.calls; failures = s.failures; last_failed = s.last_failed; contents = None } };

    fn write_all(&mut self, bytes: &[u8]) -> Result<(), WriteFault> {
        self.calls.add_one();
        self.handed.extend(bytes);
        if self.kept.extend_from_slice(bytes).is_err() {
            self.failures.add_one();
            self.last_failed = true;
            return Err(WriteFault);
        }
        self.last_failed = false;
        if self.tells && self.kept.ends_with(b"END\r\n") {
            set(self.rt, &self.flags.answered);
        }
        Ok(())
    }
}

/// A client of the fleet.
type Client<'x, R> = FleetClient<FixedClock, OverReader<Asks<'x, R>>, Told<'x, R>>;

/// A proxy of the fleet.
type Proxy<'x, R> = FleetProxy<ToNode<'x, R>, FixedClock, OverReader<Asks<'x, R>>, Told<'x, R>>;

/// A client whose clock shows 999. Where it waits until the legs are seen, those that are held wait for its answers.
fn client<'x, R: Wait + Clock>(
    rt: &'x R,
    alloc: Global,
    flags: &'x Flags,
    input: &'x [u8],
    waits: bool,
) -> Client<'x, R> {
    let asks = Asks {
        rt,
        flags,
        waits,
        input,
    };
    FleetClient::new(
        FixedClock(999),
        OverReader::new(asks),
        Told::new(rt, alloc, flags, waits),
        3,
    )
}

/// The proxy of this number, with these clients.
fn proxy<'x, R: Wait + Clock + Abort>(
    rt: &'x R,
    alloc: Global,
    nodes: &'x Nodes,
    number: u32,
    clients: Vec<Client<'x, R>>,
) -> Proxy<'x, R> {
    let carriers = must(rt, carriers_to_all(rt, alloc, nodes));
    proxy_of(rt, alloc, number, clients, carriers)
}

/// A fleet: what the clients of its first proxy send whose legs are held, of which key so many gets are seen before another
/// client of that proxy asks, and how many requests the clients of each proxy issue, and what they are told.
struct Row {
    held: &'static [&'static [u8]],
    sees: &'static [u8],
    unseen: u64,
    wanted: &'static [(&'static [u64], &'static [&'static str])],
}

/// The first proxy: some clients have legs that are held, which wait for the answers of the last one.
fn first<'x, R: Wait + Clock + Abort>(
    rt: &'x R,
    alloc: Global,
    nodes: &'x Nodes,
    flags: &'x Flags,
    row: &Row,
) -> Proxy<'x, R> {
    let mut clients = Vec::new(alloc);
    for input in row.held {
        must(rt, clients.push(client(rt, alloc, flags, input, false)));
    }
    let requests = b"set k 0 0 1\r\nv\r\nget k\r\n";
    must(rt, clients.push(client(rt, alloc, flags, requests, true)));
    proxy(rt, alloc, nodes, 0, clients)
}

/// The second proxy, with one client.
fn second<'x, R: Wait + Clock + Abort>(
    rt: &'x R,
    alloc: Global,
    nodes: &'x Nodes,
    flags: &'x Flags,
) -> Proxy<'x, R> {
    let mut clients = Vec::new(alloc);
    must(
        rt,
        clients.push(client(rt, alloc, flags, b"get a\r\n", false)),
    );
    proxy(rt, alloc, nodes, 1, clients)
}

/// What tells which answers it was written.
trait IsTold {
    /// The answers so far.
    fn text(&self) -> &[u8];
}

impl<'x, R> IsTold for Told<'x, R> {
    fn text(&self) -> &[u8] {
        &self.kept
    }
}

/// Asserts that the clients of a proxy went well, issued so many requests, and were told so.
fn were_told<C: Carrier, K: mr_clock::Clock, S: Source, W: Sink + IsTold>(
    rt: &impl Abort,
    proxy: usize,
    end: &FleetEnd<C, K, S, W>,
    issued: &[u64],
    told: &[&str],
) {
    went_well(rt, proxy, end, issued);
    for (client, wanted) in end.ends.iter().zip(told) {
        let told = must(rt, str::from_utf8(client.writer.text()));
        is_at(rt, proxy, "told", &told, wanted);
    }
}

/// How many legs of a request came back in these steps of a book.
fn count_back(steps: &[Step], op: OpId) -> u32 {
    let mut count: u32 = 0;
    for step in steps {
        if let Step::Take(back) = step {
            if back.sheet.id.op == op {
                count = count.saturating_add(1);
            }
        }
    }
    count
}

/// Asserts that the legs of each request came back in the order in which they were sent.
fn came_in_order(rt: &impl Abort, steps: &[Step]) {
    for (row, step) in steps.iter().enumerate() {
        if let Step::Take(back) = step {
            let (before, _) = steps.split_at(row);
            let count = count_back(before, back.sheet.id.op);
            is_at(rt, row, "leg", &back.sheet.id.place, &count);
        }
    }
}

/// Asserts the same of the book of a proxy.
fn were_received_in_order<C: Carrier, K: mr_clock::Clock, S: Source, W: Sink>(
    rt: &impl Abort,
    end: &FleetEnd<C, K, S, W>,
) {
    match &end.book {
        Ok(book) => came_in_order(rt, &book.steps),
        Err(_) => rt.panic("a book that differs"),
    }
}

/// Runs the fleet, and asserts what came of it.
fn goes_so<
    C: Carrier + Send + Drop,
    K: mr_clock::Clock + Send + Drop,
    S: Source + Send + Drop,
    W: Sink + IsTold + Send + Drop,
    G: Gate + Sync,
    R: Threads + Wait + Abort + Sync,
>(
    rt: &R,
    alloc: Global,
    first: FleetProxy<C, K, S, W>,
    second: FleetProxy<C, K, S, W>,
    gate: &G,
    row: &Row,
) {
    let ends = run(rt, alloc, first, second, gate);
    for (proxy, (end, (issued, told))) in ends.iter().zip(row.wanted).enumerate() {
        were_told(rt, proxy, end, issued, told);
        were_received_in_order(rt, end);
    }
}

/// The same over these caches, with a gate that holds the legs of `get b`.
fn play<'x, R: Threads + Wait + Clock + Abort + Sync>(
    rt: &'x R,
    alloc: Global,
    nodes: &'x Nodes,
    flags: &'x Flags,
    row: &Row,
) {
    let first = first(rt, alloc, nodes, flags, row);
    let second = second(rt, alloc, nodes, flags);
    let sees = row.sees;
    goes_so(
        rt,
        alloc,
        first,
        second,
        &HoldsGetOfB { rt, flags, sees },
        row,
    );
}

/// The same over new caches, and asserts that nobody waited in vain.
fn nobody_waits_in_vain<R: Threads + Wait + Clock + Abort + Sync>(
    rt: &R,
    alloc: Global,
    row: &Row,
) {
    let nodes = must(rt, make_nodes(alloc, 3));
    let flags = Flags::new(row.unseen);
    play(rt, alloc, &nodes, &flags, row);
    is(rt, "seen", &is_set(rt, &flags.seen), &true);
    is(rt, "in vain", &is_set(rt, &flags.in_vain), &false);
}

/// What the last client of the first proxy is told.
const STORED_AND_GOT: &str = "STORED\r\nVALUE k 0 1\r\nv\r\nEND\r\n";

/// The one leg of a client is held, at a node that the last client doesn't ask.
static HELD: Row = Row {
    held: &[b"get b\r\n"],
    sees: b"b",
    unseen: 1,
    wanted: &[
        (&[1, 2], &["END\r\n", STORED_AND_GOT]),
        (&[1], &["END\r\n"]),
    ],
};

#[test]
fn a_held_leg_holds_no_other_client(rt: HostRuntime) {
    nobody_waits_in_vain(&rt, rt.alloc(), &HELD);
}

/// Two clients wait for the first of their legs, and their other legs went to the node that the last client asks.
static ELSEWHERE: Row = Row {
    held: &[b"get b k\r\n", b"get b k\r\n"],
    sees: b"k",
    unseen: 2,
    wanted: &[
        (&[1, 1, 2], &["END\r\n", "END\r\n", STORED_AND_GOT]),
        (&[1], &["END\r\n"]),
    ],
};

#[test]
fn who_waits_elsewhere_holds_no_worker(rt: HostRuntime) {
    nobody_waits_in_vain(&rt, rt.alloc(), &ELSEWHERE);
}

/// The second and the last leg of a client are performed before the others.
static OUT_OF_ORDER: Row = Row {
    held: &[b"get b k d c\r\n"],
    sees: b"c",
    unseen: 1,
    wanted: &[
        (&[1, 2], &["END\r\n", STORED_AND_GOT]),
        (&[1], &["END\r\n"]),
    ],
};

#[test]
fn replies_are_received_in_the_order_of_their_legs(rt: HostRuntime) {
    nobody_waits_in_vain(&rt, rt.alloc(), &OUT_OF_ORDER);
}
