//! Whole runs, over files, inputs and outputs in memory. Those of services are over sockets of this machine, and each waits
//! for threads.
use super::is;
use crate::tests::tool::files_at::{FilesAt, Place};
use mr_servers::HostServers;
use mr_text::{OverReader, OverWriter, Source};
use mr_tool::{Sources, run_words};
use std::alloc::Global;
use std::fmt::Debug;
use std::io;
use std::io::Read;
use std::net::{Net, TcpListener, TcpStream};
use std::process::Abort;
use std::random::RandomSource;
use std::sync::Wait;
use std::thread::Threads;
use std::time::Clock;

mod arguments;
mod copies;
mod devices;
mod files_at;
mod memory;
mod reads;
mod runs;
mod services;

/// A configuration of the smallest fleet that shows all: two old nodes, three new ones.
const FLEET: &[u8] = b"{\"hash\":\"sum\",\
    \"pools\":{\"new\":{\"servers\":[\"7101\",\"7102\",\"7103\"]},\"old\":{\"servers\":[\"7001\",\"7002\"]}},\
    \"route\":{\"type\":\"MigrateRoute\",\"from\":\"PoolRoute|old\",\"to\":\"PoolRoute|new\",\
    \"start_time\":1000,\"interval\":100}}";

/// A script: one proxy, before the migration, gets a key that nothing stored.
const SCRIPT: &[u8] =
    b"{\"events\":[{\"do\":\"client\",\"proxy\":0,\"request\":{\"keys\":[\"k\"],\"kind\":\"get\"}},\
    {\"do\":\"deliver\",\"message\":0,\"now\":999},{\"do\":\"return\",\"reply\":0}],\"format\":1,\
    \"setup\":{\"capacity\":4,\"config\":{\"hash\":\"sum\",\"pools\":{\"new\":{\"servers\":[\"7101\",\
    \"7102\",\"7103\"]},\"old\":{\"servers\":[\"7001\",\"7002\"]}},\
    \"route\":{\"from\":\"PoolRoute|old\",\"interval\":100,\"start_time\":1000,\"to\":\"PoolRoute|new\",\
    \"type\":\"MigrateRoute\"}},\"held\":[],\"proxies\":[{\"reading\":999,\"room\":4}]}}";

/// Its transcript, with its line end.
const TRANSCRIPT: &[u8] =
    b"{\"events\":[{\"do\":\"client\",\"proxy\":0,\"request\":{\"keys\":[\"k\"],\"kind\":\"get\"}},\
    {\"do\":\"deliver\",\"message\":0,\"now\":999},{\"do\":\"return\",\"reply\":0}],\"format\":1,\
    \"history\":[{\"entry\":\"issued\",\"op\":[0,0,0],\"proxy\":0,\"request\":{\"keys\":[\"k\"],\
    \"kind\":\"get\"}},{\"entry\":\"answered\",\"op\":[0,0,0],\"reply\":{\"items\":[]}}],\
    \"notes\":[{\"issued\":[0,0,0],\"messages\":[0,1]},{\"performed\":0},{\"answered\":[0,0,0]}],\
    \"premises\":{\"forward\":true,\"near\":true,\"new_empty\":true,\"same\":true},\
    \"setup\":{\"capacity\":4,\"config\":{\"hash\":\"sum\",\"pools\":{\"new\":{\"servers\":[\"7101\",\
    \"7102\",\"7103\"]},\"old\":{\"servers\":[\"7001\",\"7002\"]}},\
    \"route\":{\"from\":\"PoolRoute|old\",\"interval\":100,\"start_time\":1000,\"to\":\"PoolRoute|new\",\
    \"type\":\"MigrateRoute\"}},\"held\":[],\"proxies\":[{\"reading\":999,\"room\":4}]},\
    \"verdict\":\"safe\"}\n";

/// A script of which a node holds an item with the data `v`.
const HELD: &[u8] =
    b"{\"format\":1,\"events\":[{\"do\":\"client\",\"proxy\":0,\"request\":{\"kind\":\"get\",\"keys\":[\"k\"]}},\
    {\"do\":\"deliver\",\"message\":0,\"now\":999},{\"do\":\"return\",\"reply\":0}],\
    \"setup\":{\"capacity\":4,\"config\":{\"hash\":\"sum\",\"pools\":{\"new\":{\"servers\":[\"7101\",\
    \"7102\",\"7103\"]},\"old\":{\"servers\":[\"7001\",\"7002\"]}},\
    \"route\":{\"from\":\"PoolRoute|old\",\"interval\":100,\"start_time\":1000,\"to\":\"PoolRoute|new\",\
    \"type\":\"MigrateRoute\"}},\"held\":[{\"node\":\"7002\",\"key\":\"k\",\"flags\":0,\"data\":\"v\"}],\
    \"proxies\":[{\"reading\":999,\"room\":4}]}}";

/// The same script in format 2, with its line end: the keys in order, and two hexadecimal digits for the byte of the data.
const UPGRADED: &[u8] =
    b"{\"events\":[{\"do\":\"client\",\"proxy\":0,\"request\":{\"keys\":[\"k\"],\"kind\":\"get\"}},\
    {\"do\":\"deliver\",\"message\":0,\"now\":999},{\"do\":\"return\",\"reply\":0}],\"format\":2,\
    \"setup\":{\"capacity\":4,\"config\":{\"hash\":\"sum\",\"pools\":{\"new\":{\"servers\":[\"7101\",\
    \"7102\",\"7103\"]},\"old\":{\"servers\":[\"7001\",\"7002\"]}},\
    \"route\":{\"from\":\"PoolRoute|old\",\"interval\":100,\"start_time\":1000,\"to\":\"PoolRoute|new\",\
    \"type\":\"MigrateRoute\"}},\"held\":[{\"data\":\"76\",\"flags\":0,\"key\":\"k\",\"node\":\"7002\"}],\
    \"proxies\":[{\"reading\":999,\"room\":4}]}}\n";

/// What is printed of the transcript.
const ACCEPTED: &[u8] =
    b"premises same true new_empty true forward true near true\nverdict safe\naccepted\n";

/// The files that runs find.
static PLACES: [Place<'static>; 4] = [
    ("fleet.json", FLEET),
    ("script.json", SCRIPT),
    ("transcript.json", TRANSCRIPT),
    ("held.json", HELD),
];

/// What a run left.
#[derive(Drop)]
struct Ran {
    status: u8,
    output: Vec<u8>,
    faults: Vec<u8>,
}

fn run_over<
    R: Net<Listener = TcpListener, Stream = TcpStream>
        + Threads
        + Wait
        + Clock
        + RandomSource
        + Sync,
    S: Sources,
    I: Source,
>(rt: &R, alloc: Global, words: &[&str], sources: &mut S, input: &mut I) -> Ran {
    let mut output = OverWriter::new(Vec::new(alloc));
    let mut faults = OverWriter::new(Vec::new(alloc));
    let status = run_words(
        alloc,
        &mut HostServers::new(rt),
        words,
        sources,
        input,
        &mut output,
        &mut faults,
    );
    Ran {
        status,
        output: output.into_inner(),
        faults: faults.into_inner(),
    }
}

/// Asserts what a run left.
fn expect_run(rt: &impl Abort, ran: &Ran, status: u8, output: &[u8], faults: &[u8]) {
    is(rt, ran.status, status);
    is(rt, ran.output.as_slice(), output);
    is(rt, ran.faults.as_slice(), faults);
}

/// Asserts which value a row of a table comes to.
fn is_in<T: PartialEq + Debug + Drop>(rt: &impl Abort, place: usize, value: T, wanted: T) {
    assert_eq!(rt; value, wanted, "in row {place}, counted from 0");
}

/// Asserts what the run of a row of a table left.
fn expect_row(rt: &impl Abort, place: usize, ran: &Ran, status: u8, output: &[u8], faults: &[u8]) {
    is_in(rt, place, ran.status, status);
    is_in(rt, place, ran.output.as_slice(), output);
    is_in(rt, place, ran.faults.as_slice(), faults);
}

/// A reader that gives one byte a read.
#[derive(Drop)]
struct ByteByByte<'a> {
    bytes: &'a [u8],
}

impl Read for ByteByByte<'_> {
    fn read(&mut self, buffer: &mut [u8]) -> io::Result<usize> {
        let end = buffer.len().min(1);
        self.bytes.read(&mut buffer[..end])
    }
}

fn byte_by_byte<'a>(bytes: &'a [u8]) -> OverReader<ByteByByte<'a>> {
    OverReader::new(ByteByByte { bytes })
}
