//! Many clients at once, while the migration goes through all four phases.
use super::{goes_well, proxy_of};
use crate::tests::{is, must};
use mr_clock::{Clock, ClockFault};
use mr_desks::OpenGate;
use mr_fleet::{FleetClient, FleetProxy};
use mr_test_nodes::{Nodes, ToNode, carriers_to_all, make_nodes};
use mr_text::{OverReader, OverWriter};
use std::alloc::{AllocError, Global};
use std::io;
use std::io::{Read, Write};
use std::process::Abort;
use std::sync::atomic::{AtomicU64, Ordering};
use std::sync::{Mutex, Wait};
use std::thread::Threads;

/// How many clients each proxy has.
const CLIENTS: usize = 4;

/// How many requests each client sends.
const REQUESTS: u64 = 200;

/// How many requests of a client move the clock by one second.
const REQUESTS_PER_SECOND: u64 = 4;

/// What the shared clock shows at first: the proxy that is ahead by the interval isn't in its second phase yet either.
const FIRST_SECOND: u64 = 890;

/// How many seconds the clock of the second proxy is ahead of that of the first: as many as the interval has.
const AHEAD: u64 = 100;

/// How many keys there are: each is kept by one cache of either pool, and none of the caches is without one.
const KEYS: u64 = 4;

/// What all clients share.
#[derive(Drop)]
struct Course {
    /// The seconds that the clocks show.
    seconds: AtomicU64,
    /// How many stamps were given.
    stamps: AtomicU64,
}

impl Course {
    fn new() -> Course {
        Course {
            seconds: AtomicU64::new(FIRST_SECOND),
            stamps: AtomicU64::new(0),
        }
    }

    /// A number that is greater than all that were given before.
    fn stamp(&self) -> u64 {
        self.stamps.fetch_add(1, Ordering::SeqCst)
    }
}

/// The clock of a proxy, ahead of the shared one by so many seconds.
struct Ahead<'x> {
    course: &'x Course,
    seconds: u64,
}

impl<'x> Drop for Ahead<'x> {
    fn drop(self) {
        let Self {
            course: _,
            seconds: _,
        } = self;
    }
}

impl<'x> Clock for Ahead<'x> {
    ghost failures = { λ _. 0 };

    ghost reads = { λ _ _ _. Unit {0} };

    fn now(&mut self) -> Result<u64, ClockFault> {
        let shared = self.course.seconds.load(Ordering::SeqCst);
        Ok(shared.saturating_add(self.seconds))
    }
}

/// What a request asks for.
#[derive(Clone, Copy, PartialEq, Eq)]
enum Asked {
    Set,
    Get,
    Delete,
}

/// A request, when it was sent, and when the last piece of its answer came.
#[derive(Drop)]
struct Exchange {
    asked: Asked,
    key: u64,
    value: u64,
    sent: u64,
    answered: u64,
    answer: Vec<u8>,
}

/// The exchanges of one client, in order.
type Log = Mutex<Vec<Exchange>>;

/// What a client asks for in the request of this number. No two requests have the same value.
fn request_of(alloc: Global, client: u64, number: u64, sent: u64) -> Exchange {
    let mixed = client.wrapping_mul(5).wrapping_add(number);
    let asked = match mixed % 5 {
        0 => Asked::Set,
        2 => Asked::Delete,
        _ => Asked::Get,
    };
    Exchange {
        asked,
        key: client.wrapping_add(number / 3) % KEYS,
        value: client
            .wrapping_mul(1000)
            .wrapping_add(number)
            .wrapping_add(100_000),
        sent,
        answered: 0,
        answer: Vec::new(alloc),
    }
}

/// The text of a request.
fn text_of(alloc: Global, request: &Exchange) -> Result<String, AllocError> {
    let key = request.key;
    let value = request.value;
    match request.asked {
        Asked::Set => format!(in alloc; "set k{key} 0 0 6\r\n{value}\r\n"),
        Asked::Get => format!(in alloc; "get k{key}\r\n"),
        Asked::Delete => format!(in alloc; "delete k{key}\r\n"),
    }
}

/// What a client sends: one request each time it is read. Now and then it moves the clock.
struct Asks<'x, R> {
    rt: &'x R,
    alloc: Global,
    course: &'x Course,
    log: &'x Log,
    client: u64,
    sent: u64,
}

impl<'x, R> Drop for Asks<'x, R> {
    fn drop(self) {
        let Self {
            rt: _,
            alloc: _,
            course: _,
            log: _,
            client: _,
            sent: _,
        } = self;
    }
}

impl<'x, R: Wait> Read for Asks<'x, R> {
    fn read(&mut self, buffer: &mut [u8]) -> io::Result<usize> {
        if self.sent >= REQUESTS {
            return Ok(0);
        }
        if self.sent % REQUESTS_PER_SECOND == 0 {
            self.course.seconds.fetch_add(1, Ordering::SeqCst);
        }
        let request = request_of(self.alloc, self.client, self.sent, self.course.stamp());
        self.sent = self.sent.saturating_add(1);
        let text = text_of(self.alloc, &request)?;
        self.log.lock(self.rt).push(request)?;
        let bytes = text.as_bytes();
        let count = bytes.len().min(buffer.len());
        buffer[..count].copy_from_slice(&bytes[..count]);
        Ok(count)
    }
}

/// What a client is answered: each piece belongs to the answer to its last request.
struct Told<'x, R> {
    rt: &'x R,
    course: &'x Course,
    log: &'x Log,
}

impl<'x, R> Drop for Told<'x, R> {
    fn drop(self) {
        let Self {
            rt: _,
            course: _,
            log: _,
        } = self;
    }
}

impl<'x, R: Wait> Write for Told<'x, R> {
    fn write(&mut self, bytes: &[u8]) -> io::Result<usize> {
        let mut log = self.log.lock(self.rt);
        if let Some(last) = log.last_mut() {
            last.answer.extend_from_slice(bytes)?;
            last.answered = self.course.stamp();
        }
        Ok(bytes.len())
    }

    fn flush(&mut self) -> io::Result<()> {
        Ok(())
    }
}

/// The value of a get's answer, where it has one.
fn hit_of(answer: &[u8]) -> Option<u64> {
    if answer.len() != 27 {
        return None;
    }
    let mut value: u64 = 0;
    for digit in answer.get(14..20)? {
        value = value
            .wrapping_mul(10)
            .wrapping_add(u64::from(digit.wrapping_sub(b'0')));
    }
    Some(value)
}

/// The set of a value.
fn set_of(logs: &[Vec<Exchange>], value: u64) -> Option<&Exchange> {
    for log in logs {
        for exchange in log {
            if exchange.asked == Asked::Set && exchange.value == value {
                return Some(exchange);
            }
        }
    }
    None
}

/// Whether a delete was acknowledged.
fn is_acknowledged(answer: &[u8]) -> bool {
    answer == b"DELETED\r\n".as_slice() || answer == b"NOT_FOUND\r\n".as_slice()
}

/// Whether a delete of the key was sent after this moment, and acknowledged before the other.
fn was_deleted(logs: &[Vec<Exchange>], key: u64, after: u64, before: u64) -> bool {
    for log in logs {
        for exchange in log {
            if exchange.asked == Asked::Delete
                && exchange.key == key
                && after < exchange.sent
                && exchange.answered < before
                && is_acknowledged(&exchange.answer)
            {
                return true;
            }
        }
    }
    false
}

/// Whether a get may have found this value: it was set by then, and if it was answered that it is stored, no delete of the
/// key was sent after that and acknowledged before the get was sent.
fn is_right(logs: &[Vec<Exchange>], get: &Exchange, value: u64) -> bool {
    let Some(set) = set_of(logs, value) else {
        return false;
    };
    set.key == get.key
        && set.sent < get.answered
        && (set.answer.as_slice() != b"STORED\r\n".as_slice()
            || !was_deleted(logs, get.key, set.answered, get.sent))
}

/// How many gets found something, and how many of these found what they may not.
fn count_hits(logs: &[Vec<Exchange>]) -> (u64, u64) {
    let mut hits: u64 = 0;
    let mut wrong: u64 = 0;
    for log in logs {
        for exchange in log {
            if exchange.asked == Asked::Get {
                if let Some(value) = hit_of(&exchange.answer) {
                    hits = hits.saturating_add(1);
                    if !is_right(logs, exchange, value) {
                        wrong = wrong.saturating_add(1);
                    }
                }
            }
        }
    }
    (hits, wrong)
}

/// A client of this number, whose clock is ahead by so many seconds.
fn client<'x, R: Wait>(
    rt: &'x R,
    alloc: Global,
    course: &'x Course,
    seconds: u64,
    client: u64,
    log: &'x Log,
) -> Client<'x, R> {
    let asks = Asks {
        rt,
        alloc,
        course,
        log,
        client,
        sent: 0,
    };
    FleetClient::new(
        Ahead { course, seconds },
        OverReader::new(asks),
        OverWriter::new(Told { rt, course, log }),
        REQUESTS.saturating_add(1),
    )
}

/// A client of a fleet.
type Client<'x, R> = FleetClient<Ahead<'x>, OverReader<Asks<'x, R>>, OverWriter<Told<'x, R>>>;

/// A proxy of the fleet.
type Proxy<'x, R> = FleetProxy<
    ToNode<'x, R>,
    Ahead<'x>,
    OverReader<Asks<'x, R>>,
    OverWriter<Told<'x, R>>,
>;

/// The clients of a proxy, each with a log of its own, the first of this number.
fn clients<'x, R: Wait + Abort>(
    rt: &'x R,
    alloc: Global,
    course: &'x Course,
    seconds: u64,
    first: u64,
    logs: &'x [Log],
) -> Vec<Client<'x, R>> {
    let mut clients = Vec::new(alloc);
    let mut number = first;
    for log in logs {
        must(
            rt,
            clients.push(client(rt, alloc, course, seconds, number, log)),
        );
        number = number.wrapping_add(1);
    }
    clients
}

/// The proxy of this number, whose clients' clocks are ahead by so many seconds.
fn proxy<'x, R: Wait + Abort>(
    rt: &'x R,
    alloc: Global,
    nodes: &'x Nodes,
    course: &'x Course,
    number: u32,
    seconds: u64,
    logs: &'x [Log],
) -> Proxy<'x, R> {
    let carriers = must(rt, carriers_to_all(rt, alloc, nodes));
    let first = u64::from(number).wrapping_mul(CLIENTS as u64);
    let clients = clients(rt, alloc, course, seconds, first, logs);
    proxy_of(rt, alloc, number, clients, carriers)
}

/// The logs of all clients of one proxy.
fn logs(rt: &impl Abort, alloc: Global) -> Vec<Log> {
    let mut logs = Vec::new(alloc);
    for _ in 0..CLIENTS {
        must(rt, logs.push(Mutex::new(Vec::new(alloc))));
    }
    logs
}

/// Takes the exchanges out of the logs of one proxy's clients.
fn add_exchanges(rt: &impl Abort, logs: Vec<Log>, all: &mut Vec<Vec<Exchange>>) {
    for log in logs {
        must(rt, all.push(log.into_inner()));
    }
}

/// Runs the fleet over these caches, where the second proxy is ahead by so many seconds, and asserts that each client has all
/// its answers.
fn play<'x, R: Threads + Wait + Abort + Sync>(
    rt: &'x R,
    alloc: Global,
    nodes: &'x Nodes,
    course: &'x Course,
    ahead: u64,
    logs: &'x [Vec<Log>; 2],
) {
    let first = proxy(rt, alloc, nodes, course, 0, 0, &logs[0]);
    let second = proxy(rt, alloc, nodes, course, 1, ahead, &logs[1]);
    let issued = [REQUESTS; CLIENTS];
    goes_well(rt, alloc, first, second, &OpenGate, &[&issued, &issued]);
}

/// Asserts that some gets found something, and none what it may not.
fn are_right(rt: &impl Abort, all: &[Vec<Exchange>]) {
    let (hits, wrong) = count_hits(all);
    is(rt, "some hits", &(hits > 0), &true);
    is(rt, "wrong hits", &wrong, &0);
}

#[test]
fn no_get_finds_what_an_acknowledged_delete_took_away(rt: HostRuntime) {
    let nodes = must(&rt, make_nodes(rt.alloc(), 3));
    let course = Course::new();
    let logs = [logs(&rt, rt.alloc()), logs(&rt, rt.alloc())];
    play(&rt, rt.alloc(), &nodes, &course, AHEAD, &logs);
    let seconds = course.seconds.load(Ordering::SeqCst);
    is(&rt, "all phases", &(seconds >= 1200), &true);
    let [first, second] = logs;
    let mut all = Vec::new(rt.alloc());
    add_exchanges(&rt, first, &mut all);
    add_exchanges(&rt, second, &mut all);
    are_right(&rt, &all);
}
