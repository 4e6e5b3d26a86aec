//! A fleet that is refused memory: its proxies come back before any thread is made; or each client is told what it may be told
//! and each book stands, whatever was refused while it ran. The first client asks once the second one is at its end: a client
//! without a thread is at its end at once, and is the only one.
use super::proxy_of;
use crate::tests::{is, must};
use mr_clock::{Clock, ClockFault};
use mr_desks::{Carrier, CloseError, OpenGate, WorkerError};
use mr_fleet::{FleetClient, FleetEnd, FleetProxy, run_fleet};
use mr_node::Ended;
use mr_test_nodes::{Nodes, ToNode, carriers_to_all, make_nodes};
use mr_test_support::{grant_memory, refuse_memory};
use mr_text::{OverReader, OverWriter, Source};
use std::alloc::Global;
use std::env::Env;
use std::io::Read;
use std::process::Abort;
use std::sync::Wait;
use std::sync::atomic::{AtomicBool, Ordering};
use std::thread::Threads;
use std::time::Duration;
use std::{io, thread, time};

/// How often it is looked at whether a client is at its end.
const TURNS: u64 = 20_000;

/// What has happened.
#[derive(Drop)]
struct Course {
    /// The second client is at its end.
    over: AtomicBool,
    /// The first client waited for that in vain.
    in_vain: AtomicBool,
}

impl Course {
    fn new() -> Course {
        Course {
            over: AtomicBool::new(false),
            in_vain: AtomicBool::new(false),
        }
    }

    /// Looks at whether the second client is at its end until it is: so many times, a millisecond apart.
    fn await_end(&self, rt: &impl time::Clock) {
        for _ in 0..TURNS {
            if self.over.load(Ordering::SeqCst) {
                return;
            }
            thread::sleep(rt, Duration::from_millis(1));
        }
        self.in_vain.store(true, Ordering::SeqCst);
    }
}

/// Which client this is.
#[derive(Clone, Copy, PartialEq, Eq)]
enum Which {
    First,
    Second,
}

/// A clock that shows 999. It is dropped once its client is at its end.
struct Steady<'x> {
    course: &'x Course,
    which: Which,
}

impl<'x> Drop for Steady<'x> {
    fn drop(self) {
        let Self { course, which } = self;
        if which == Which::Second {
            course.over.store(true, Ordering::SeqCst);
        }
    }
}

impl<'x> Clock for Steady<'x> {
    ghost failures = { λ _. 0 };

    ghost reads = { λ _ _ _. Unit {0} };

    fn now(&mut self) -> Result<u64, ClockFault> {
        Ok(999)
    }
}

/// What a client sends.
struct Asks<'x, R> {
    rt: &'x R,
    course: &'x Course,
    which: Which,
    input: &'x [u8],
}

impl<'x, R> Drop for Asks<'x, R> {
    fn drop(self) {
        let Self {
            rt: _,
            course: _,
            which: _,
            input: _,
        } = self;
    }
}

impl<'x, R: time::Clock> Read for Asks<'x, R> {
    fn read(&mut self, buffer: &mut [u8]) -> io::Result<usize> {
        if self.which == Which::First {
            self.course.await_end(self.rt);
        }
        let count = self.input.len().min(buffer.len());
        let (given, left) = self.input.split_at(count);
        buffer[..count].copy_from_slice(given);
        self.input = left;
        Ok(count)
    }
}

/// What a client is answered by.
type Output = OverWriter<Vec<u8>>;

/// A client of the fleet.
type Client<'x, R> = FleetClient<Steady<'x>, OverReader<Asks<'x, R>>, Output>;

/// The fleet's one proxy, and how it ended.
type Proxy<'x, R> = FleetProxy<ToNode<'x, R>, Steady<'x>, OverReader<Asks<'x, R>>, Output>;

type Fleet<'x, R> = Vec<Proxy<'x, R>>;

/// A client that sends this, with room for what it is answered.
fn client<'x, R: time::Clock + Abort>(
    rt: &'x R,
    alloc: Global,
    course: &'x Course,
    which: Which,
    input: &'x [u8],
) -> Client<'x, R> {
    let asks = Asks {
        rt,
        course,
        which,
        input,
    };
    FleetClient::new(
        Steady { course, which },
        OverReader::new(asks),
        OverWriter::new(must(rt, Vec::with_capacity(alloc, 64))),
        3,
    )
}

/// A fleet of one proxy with two clients, each of which gets a key of another node.
fn fleet_of<'x, R: Wait + time::Clock + Abort>(
    rt: &'x R,
    alloc: Global,
    nodes: &'x Nodes,
    course: &'x Course,
) -> Fleet<'x, R> {
    let mut clients = Vec::new(alloc);
    let first = client(rt, alloc, course, Which::First, b"get b\r\n");
    must(rt, clients.push(first));
    let second = client(rt, alloc, course, Which::Second, b"get k\r\n");
    must(rt, clients.push(second));
    let carriers = must(rt, carriers_to_all(rt, alloc, nodes));
    let mut proxies = Vec::new(alloc);
    must(rt, proxies.push(proxy_of(rt, alloc, 0, clients, carriers)));
    proxies
}

/// How a client may end, and what it may be told then.
type Told = (Result<Ended, WorkerError>, &'static [u8]);

/// The first is where no memory is refused. Behind the third a client wasn't served to its end.
static ENDS: [Told; 5] = [
    (Ok(Ended::Ended), b"END\r\n"),
    (Ok(Ended::Ended), b"SERVER_ERROR out of memory\r\n"),
    (Ok(Ended::Ended), b"SERVER_ERROR leg lost\r\n"),
    (Err(WorkerError::OutOfMemory), b""),
    (Err(WorkerError::NoThread), b""),
];

/// Which of these ends this is.
fn place_of(ended: Result<Ended, WorkerError>, written: &[u8]) -> Option<usize> {
    let there = (ended, written);
    for (place, told) in ENDS.iter().enumerate() {
        if *told == there {
            return Some(place);
        }
    }
    None
}

/// Whether the book of a proxy stands with what its clients did, or memory to close it was refused.
fn stands<C: Carrier, K: Clock, S: Source>(end: &FleetEnd<C, K, S, Output>) -> bool {
    matches!(&end.book, Ok(_) | Err(CloseError::OutOfMemory(_)))
}

/// How many clients came to an end behind this one of those above. Each came to one of them.
fn count_behind<C: Carrier + Drop, K: Clock + Drop, S: Source + Drop>(
    rt: &impl Abort,
    end: FleetEnd<C, K, S, Output>,
    most: usize,
) -> u64 {
    let mut count: u64 = 0;
    for client in end.ends {
        let (result, written) = (client.result, client.writer.into_inner());
        match place_of(result, &written) {
            Some(place) if place <= most => {}
            Some(_) => count = count.saturating_add(1),
            None => rt.panic("another end"),
        }
    }
    count
}

/// Asserts how a fleet ended: no more than so many clients came to an end behind this one.
fn ended<C: Carrier + Drop, K: Clock + Drop, S: Source + Drop>(
    rt: &impl Abort,
    ends: Vec<FleetEnd<C, K, S, Output>>,
    most: usize,
    allowed: u64,
) {
    is(rt, "proxies", &ends.len(), &1);
    for end in ends {
        is(rt, "a book that stands", &stands(&end), &true);
        is(rt, "clients", &end.ends.len(), &2);
        let behind = count_behind(rt, end, most);
        is(rt, "few behind", &(behind <= allowed), &true);
    }
}

/// Runs the fleet, again where memory for its ends is refused.
fn run_at_last<'x, R: Threads + Wait + time::Clock + Abort + Sync + Env>(
    rt: &'x R,
    alloc: Global,
    nodes: &'x Nodes,
    course: &'x Course,
) {
    let proxies = fleet_of(rt, alloc, nodes, course);
    refuse_memory(rt);
    let first = run_fleet(rt, alloc, proxies, &OpenGate);
    grant_memory(rt);
    match first {
        Err((refusal, back)) => {
            is(rt, "a refusal", &refusal, &WorkerError::OutOfMemory);
            let ends = must(rt, run_fleet(rt, alloc, back, &OpenGate));
            ended(rt, ends, 0, 0);
        }
        Ok(ends) => ended(rt, ends, 2, 1),
    }
    let in_vain = course.in_vain.load(Ordering::SeqCst);
    is(rt, "in vain", &in_vain, &false);
}

#[test]
fn refused_memory_costs_one_client_of_a_fleet_at_most(rt: HostRuntime) {
    let nodes = must(&rt, make_nodes(rt.alloc(), 3));
    let course = Course::new();
    run_at_last(&rt, rt.alloc(), &nodes, &course);
}
