//! One cache, and the service of requests over it.
use super::text::key;
use mr_clock::FixedClock;
use mr_join::LegReply;
use mr_node::{CacheNode, Ended, NodeCommand, NodeError, Perform, serve};
use mr_text::{OverReader, OverWriter};
use std::alloc::{AllocError, Global};
use std::test::Fail;

/// Performs a command at 999.
fn perform<P: Perform>(node: &mut P, command: NodeCommand) -> Result<LegReply, AllocError> {
    node.perform(999, command)
}

/// Serves a client that sends these bytes to a fresh cache, in one read at most.
fn serve_once(alloc: Global, bytes: &[u8]) -> Result<Ended, NodeError> {
    let mut node = CacheNode::new(alloc, 1)?;
    let mut writer = OverWriter::new(Vec::new(alloc));
    let mut reader = OverReader::new(bytes);
    serve(
        alloc,
        &mut node,
        &mut reader,
        &mut writer,
        &mut FixedClock(999),
        1,
    )
}

#[test]
fn a_cache_is_served(rt: HostRuntime) -> Result<(), Fail> {
    assert_eq!(rt; serve_once(rt.alloc(), b"quit\r\n"), Ok(Ended::Quit));
    assert_eq!(rt;
        serve_once(rt.alloc(), b"get k"),
        Err(NodeError::TurnsSpent)
    );
    let mut node = CacheNode::new(rt.alloc(), 1)?;
    let reply = perform(&mut node, NodeCommand::Get(key(rt.alloc())?))?;
    assert!(rt; matches!(reply, LegReply::Miss));
    Ok(())
}
