//! Proxies and nodes that threads share: desks and their books, carriers, sessions and fleets.
use super::proxy::core;
use super::text::get;
use mr_clock::{Clock, FixedClock};
use mr_node::{CacheNode, Ended};
use mr_proxy::{Leg, ProxyCore};
use mr_text::{OverReader, OverWriter, Sink, Source};
use mr_workers::{
    Book, Carried, Carrier, Carriers, ClientEnd, CloseError, Desk, DirectCarriers, FleetClient,
    FleetEnd, FleetProxy, Gate, LinkCarriers, LocalCarrier, NodeLink, OpenGate, RecordedProxy,
    RecordedState, Served, SharedNode, SharedProxy, WorkerError, close, run_fleet, serve_client,
};
use std::alloc::{AllocError, Global};
use std::sync::Wait;
use std::test::Fail;
use std::thread::Threads;

/// A carrier to a shared node, whose clock shows 999.
type ToNode<'x, R> = LocalCarrier<'x, FixedClock, R>;

/// A carrier over bytes in memory.
type OverBytes<'x> = NodeLink<OverReader<&'x [u8]>, OverWriter<Vec<u8>>>;

/// What a session over the links of a fleet is served with.
type ByLinks<'x, R> = LinkCarriers<'x, ToNode<'x, R>, R>;

/// Serves a client that gets one key: how its session went, and what it was written.
fn serve<C: Carrier, D: Desk<C>, L: Carriers<C>, R: Wait>(
    rt: &R,
    alloc: Global,
    desk: &D,
    carriers: &mut L,
) -> (Served, Vec<u8>) {
    let mut reader = OverReader::new(&b"get k\r\n"[..]);
    let mut writer = OverWriter::new(Vec::new(alloc));
    let served = serve_client(
        rt,
        alloc,
        desk,
        &mut FixedClock(999),
        &mut reader,
        &mut writer,
        carriers,
        2,
    );
    (served, writer.into_inner())
}

/// The same over links.
fn serve_by_links<'x, D: Desk<ToNode<'x, R>>, R: Wait>(
    rt: &R,
    alloc: Global,
    desk: &D,
    carriers: &mut ByLinks<'x, R>,
) -> Result<Ended, WorkerError> {
    serve(rt, alloc, desk, carriers).0.ended
}

/// Carriers to a node that stands for both nodes of the old pool.
fn carriers_to<'x, R: Wait>(
    rt: &'x R,
    alloc: Global,
    node: &'x SharedNode,
) -> Result<DirectCarriers<ToNode<'x, R>>, AllocError> {
    let mut old = Vec::new(alloc);
    old.push(LocalCarrier::new(rt, node, FixedClock(999)))?;
    old.push(LocalCarrier::new(rt, node, FixedClock(999)))?;
    let mut pools = Vec::new(alloc);
    pools.push(old)?;
    Ok(DirectCarriers::new(alloc, pools))
}

/// A proxy with a book of at most two steps.
fn recorded_proxy<C: Carrier>(alloc: Global) -> Result<RecordedProxy<C>, Fail> {
    match RecordedProxy::new(alloc, core(alloc)?, 2) {
        Ok(desk) => Ok(desk),
        Err(_) => Err(Fail::from("no memory")),
    }
}

/// The book of a proxy that one session was served at.
fn book_of<C: Carrier>(
    alloc: Global,
    desk: RecordedProxy<C>,
    served: Served,
) -> Result<Book, Fail> {
    let mut sessions = Vec::new(alloc);
    sessions.push(served.answers)?;
    match close(alloc, desk, &[served.share], &sessions) {
        Ok(book) => Ok(book),
        Err(CloseError::BookDiffers(_)) => Err(Fail::from("the book differs")),
        Err(CloseError::OutOfMemory(_)) => Err(Fail::from("no memory")),
    }
}

/// The first leg of a get.
fn leg(alloc: Global, core: &mut ProxyCore) -> Result<Leg, Fail> {
    let Ok(mut issued) = core.issue(999, get(alloc)?) else {
        return Err(Fail::from("refused"));
    };
    match issued.legs.pop() {
        Some(leg) => Ok(leg),
        None => Err(Fail::from("no leg")),
    }
}

/// A link whose node replies with these bytes.
fn link(alloc: Global, bytes: &[u8]) -> OverBytes<'_> {
    NodeLink::new(
        alloc,
        OverReader::new(bytes),
        OverWriter::new(Vec::new(alloc)),
        1,
    )
}

/// How the clients of a proxy ended.
fn results_of<C: Carrier, K: Clock, S: Source, W: Sink>(
    alloc: Global,
    ends: &[ClientEnd<C, K, S, W>],
) -> Result<Vec<Result<Ended, WorkerError>>, AllocError> {
    let mut results = Vec::new(alloc);
    for end in ends {
        results.push(end.result)?;
    }
    Ok(results)
}

/// Runs a fleet of one proxy.
fn run<
    C: Carrier + Send + Drop,
    K: Clock + Send + Drop,
    S: Source + Send + Drop,
    W: Sink + Send + Drop,
    G: Gate + Sync,
    R: Threads + Wait + Sync,
>(
    rt: &R,
    alloc: Global,
    proxy: FleetProxy<C, K, S, W>,
    gate: &G,
) -> Result<FleetEnd<C, K, S, W>, Fail> {
    let mut proxies = Vec::new(alloc);
    proxies.push(proxy)?;
    let Ok(mut ends) = run_fleet(rt, alloc, proxies, gate) else {
        return Err(Fail::from("no memory"));
    };
    match ends.pop() {
        Some(end) => Ok(end),
        None => Err(Fail::from("no end")),
    }
}

/// A client that gets one key.
fn client(
    alloc: Global,
) -> FleetClient<FixedClock, OverReader<&'static [u8]>, OverWriter<Vec<u8>>> {
    let reader = OverReader::new(b"get k\r\n".as_slice());
    FleetClient::new(FixedClock(999), reader, OverWriter::new(Vec::new(alloc)), 2)
}

/// A gate that holds no link of a fleet.
fn open_gate() -> OpenGate {
    OpenGate
}

/// A shared node that keeps one item.
fn node(alloc: Global) -> Result<SharedNode, Fail> {
    Ok(SharedNode::new(CacheNode::new(alloc, 1)?))
}

/// What comes of a leg that is carried once.
fn carry<C: Carrier>(carrier: &mut C, leg: Leg) -> Carried<C> {
    Carried::of(carrier, leg)
}

/// How many steps the book of a locked proxy has.
fn count_steps<C: Carrier>(state: &RecordedState<C>) -> usize {
    state.steps().len()
}

/// Serves a client that gets one key at a proxy without a book.
fn serve_unrecorded<C: Carrier, L: Carriers<C>, R: Wait>(
    rt: &R,
    alloc: Global,
    desk: &SharedProxy<C>,
    carriers: &mut L,
) -> Served {
    serve(rt, alloc, desk, carriers).0
}
