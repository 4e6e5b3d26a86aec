//! The commands of the program, and the services that it begins.
use super::get;
use super::plan::config;
use mr_clock::FixedClock;
use mr_desks::{Desk, SharedNode};
use mr_pools::NamedHash;
use mr_servers::HostServers;
use mr_sockets::OverListener;
use mr_test_support::routing;
use mr_text::{OverReader, OverWriter};
use mr_tool::{
    HostFiles, LoopValues, SocketCarrier, WRONG_WORDS, Wanted, read_words, run_words, serve_node,
    serve_proxy, write_plan,
};
use std::alloc::Global;
use std::net::{Net, TcpListener, TcpStream};
use std::sync::Wait;
use std::test::Fail;
use std::thread::Threads;
use std::time::Clock;

#[test]
fn words_are_read(rt: HostRuntime) -> Result<(), Fail> {
    let wanted = read_words(rt.alloc(), &["run"])?;
    assert!(rt; matches!(wanted, Wanted::Run(None)));
    Ok(())
}

#[test]
fn loops_are_counted(rt: HostRuntime) {
    let values = LoopValues {
        loops: None,
        max_clients: 1,
        quiet: false,
    };
    assert_eq!(rt;
        (values.count(0), values.count(3), values.count(9)),
        (1, 3, 4)
    );
}

#[test]
fn a_plan_is_written(rt: HostRuntime) -> Result<(), Fail> {
    let mut output = OverWriter::new(Vec::new(rt.alloc()));
    let config = config(rt.alloc())?;
    write_plan(rt.alloc(), &config, 999, get(rt.alloc())?, &mut output)?;
    let written = output.into_inner();
    assert_eq!(rt;
        written.as_slice(),
        b"phase old-only at 999\nleg 0 old 7002\n".as_slice()
    );
    Ok(())
}

#[test]
fn wrong_words_have_their_status(rt: HostRuntime) {
    let status = run_words(
        rt.alloc(),
        &mut HostServers::new(&rt),
        &["no command"],
        &mut HostFiles::new(&rt),
        &mut OverReader::new(&b""[..]),
        &mut OverWriter::new(Vec::new(rt.alloc())),
        &mut OverWriter::new(Vec::new(rt.alloc())),
    );
    assert_eq!(rt; status, WRONG_WORDS);
}

/// Serves a proxy to nobody.
fn serve_proxy_to_nobody<
    N: Net<Listener = TcpListener, Stream = TcpStream> + Copy + Send + Sync,
    D: Desk<SocketCarrier<N>> + Sync,
    R: Threads + Wait + Clock + Sync,
>(rt: &R, alloc: Global, net: N, listener: OverListener, desk: &D) -> Result<u64, Fail> {
    let routing = routing(alloc, &[b"7101"], NamedHash::Sum)?;
    let (_, served) = serve_proxy(
        rt,
        alloc,
        net,
        listener,
        desk,
        &routing,
        0,
        1,
        &FixedClock(999),
    );
    Ok(served)
}

/// Serves a node to nobody.
fn serve_node_to_nobody<R: Threads + Wait + Clock + Sync>(
    rt: &R,
    alloc: Global,
    listener: OverListener,
    node: &SharedNode,
) -> u64 {
    let (_, served) = serve_node(rt, alloc, listener, node, 0, 1, &FixedClock(999));
    served
}
