//! The lines of nodes.
ghost use Rattle.std.specs.Prelude.{◌≡◌, ◌++◌, OnOk};
ghost use Rattle.mr_watch.specs.Nodes.{nodes_head, pool_cell, node_line, line_in, lines_in, no_nodes, with_node, pool_with, pool_of, counted, reached_text, held_text, sums_line, pool_text, pools_text, nodes_text};

use crate::look::NodeSeen;
use crate::shown::{push_left, push_padding, push_perhaps_cell, push_short};
use itoa::Buffer;
use std::alloc::AllocError;

/// How many nodes of a pool have a line each.
const MOST_LINES: u64 = 16;

/// The nodes of a pool, summed up as far as 64 bits count.
#[derive(Clone, Copy, Debug, PartialEq, Eq)]
pub(crate) struct PoolSeen {
    /// How many nodes it has.
    pub(crate) nodes: u64,
    /// How many of them were reached.
    pub(crate) seen: u64,
    /// How many items they hold.
    pub(crate) items: u64,
    /// How many keys they were asked for and had.
    pub(crate) hits: u64,
}

impl PoolSeen {
    /// No node.
    fn none() -> PoolSeen
        ensures { result ≡ no_nodes }
    {
        PoolSeen {
            nodes: 0,
            seen: 0,
            items: 0,
            hits: 0,
        }
    }

    /// One node more.
    fn with(self, node: &NodeSeen<'_>) -> PoolSeen
        ensures { result ≡ with_node self node.now }
    {
        let seen = if node.items.is_some() { 1 } else { 0 };
        PoolSeen {
            nodes: self.nodes.saturating_add(1),
            seen: self.seen.saturating_add(seen),
            items: self.items.saturating_add(node.items.unwrap_or(0)),
            hits: self.hits.saturating_add(node.hits.unwrap_or(0)),
        }
    }

    /// One node more where it is in this pool.
    fn with_if(self, pool: u32, node: &NodeSeen<'_>) -> PoolSeen
        ensures { result ≡ pool_with pool self node.now }
    {
        if node.pool == pool {
            self.with(node)
        } else {
            self
        }
    }
}

/// The nodes of a pool, summed up.
pub(crate) fn pool_of(pool: u32, nodes: &[NodeSeen<'_>]) -> PoolSeen
    ensures { result ≡ pool_of pool nodes.now }
{
    let mut sums = PoolSeen::none();
    for node in nodes {
        sums = sums.with_if(pool, node);
    }
    sums
}

/// Adds the number of a pool, at the right of a column of four.
fn push_pool_cell(text: &mut Vec<u8>, pool: u32) -> Result<(), AllocError>
    ensures { OnOk result (text.new.items ≡ text.old.items ++ pool_cell pool) }
{
    let mut buffer = Buffer::new();
    let digits = buffer.format(pool).as_bytes();
    push_padding(text, 4usize.saturating_sub(digits.len()))?;
    text.extend_from_slice(digits)?;
    text.extend_from_slice(b" ")?;
    Ok(())
}

/// Adds the line of a node.
fn push_node(text: &mut Vec<u8>, node: &NodeSeen<'_>) -> Result<(), AllocError>
    ensures { OnOk result (text.new.items ≡ text.old.items ++ node_line node.now) }
{
    push_pool_cell(text, node.pool)?;
    push_left(text, 24, node.name.as_bytes())?;
    push_perhaps_cell(text, node.items)?;
    push_perhaps_cell(text, node.hits)?;
    text.extend_from_slice(b"\n")?;
    Ok(())
}

/// Adds the line of a node where it is in this pool.
fn push_if_in(text: &mut Vec<u8>, pool: u32, node: &NodeSeen<'_>) -> Result<(), AllocError>
    ensures { OnOk result (text.new.items ≡ text.old.items ++ line_in pool node.now) }
{
    if node.pool == pool {
        push_node(text, node)
    } else {
        Ok(())
    }
}

/// Adds the line of each node of a pool.
fn push_each_in(text: &mut Vec<u8>, pool: u32, nodes: &[NodeSeen<'_>]) -> Result<(), AllocError>
    ensures { OnOk result (text.new.items ≡ text.old.items ++ lines_in pool nodes.now) }
{
    for node in nodes {
        push_if_in(text, pool, node)?;
    }
    Ok(())
}

/// Adds how many there are of what a word names, which ends in an s unless there is one.
pub(crate) fn push_counted(text: &mut Vec<u8>, count: u64, word: &str) -> Result<(), AllocError>
    ensures { OnOk result (text.new.items ≡ text.old.items ++ counted count word.now) }
{
    push_short(text, count)?;
    text.extend_from_slice(word.as_bytes())?;
    if count == 1 {
        return Ok(());
    }
    text.extend_from_slice(b"s")?;
    Ok(())
}

/// Adds how many nodes there are, and were reached.
fn push_reached(text: &mut Vec<u8>, sums: &PoolSeen) -> Result<(), AllocError>
    ensures { OnOk result (text.new.items ≡ text.old.items ++ reached_text sums.now) }
{
    push_short(text, sums.nodes)?;
    text.extend_from_slice(b" nodes, ")?;
    push_short(text, sums.seen)?;
    text.extend_from_slice(b" seen, ")?;
    Ok(())
}

/// Adds what they hold, and ends the line.
fn push_held(text: &mut Vec<u8>, sums: &PoolSeen) -> Result<(), AllocError>
    ensures { OnOk result (text.new.items ≡ text.old.items ++ held_text sums.now) }
{
    push_counted(text, sums.items, " item")?;
    text.extend_from_slice(b", ")?;
    push_counted(text, sums.hits, " hit")?;
    text.extend_from_slice(b"\n")?;
    Ok(())
}

/// Adds a pool in one line.
fn push_sums(text: &mut Vec<u8>, pool: u32, sums: &PoolSeen) -> Result<(), AllocError>
    ensures { OnOk result (text.new.items ≡ text.old.items ++ sums_line pool sums.now) }
{
    push_pool_cell(text, pool)?;
    push_reached(text, sums)?;
    push_held(text, sums)?;
    Ok(())
}

/// Adds the lines of a pool: of each node, or one where there are more than `MOST_LINES`.
fn push_pool(text: &mut Vec<u8>, pool: u32, nodes: &[NodeSeen<'_>]) -> Result<(), AllocError>
    ensures { OnOk result (text.new.items ≡ text.old.items ++ pool_text nodes.now pool) }
{
    let sums = pool_of(pool, nodes);
    if sums.nodes <= MOST_LINES {
        push_each_in(text, pool, nodes)
    } else {
        push_sums(text, pool, &sums)
    }
}

/// Adds the lines of so many pools.
fn push_pools(text: &mut Vec<u8>, nodes: &[NodeSeen<'_>], pools: u32) -> Result<(), AllocError>
    ensures { OnOk result (text.new.items ≡ text.old.items ++ pools_text nodes.now pools) }
{
    for pool in 0..pools {
        push_pool(text, pool, nodes)?;
    }
    Ok(())
}

/// Adds what stands above the lines of nodes.
#[tactic(auto, unfolding(crate::specs::Nodes::nodes_head))]
fn push_head(text: &mut Vec<u8>) -> Result<(), AllocError>
    ensures { OnOk result (text.new.items ≡ text.old.items ++ nodes_head) }
{
    text.extend_from_slice(b"pool node                       items    hits\n")?;
    Ok(())
}

/// Adds the lines of nodes, of so many pools.
pub(crate) fn push_nodes(
    text: &mut Vec<u8>,
    nodes: &[NodeSeen<'_>],
    pools: u32,
) -> Result<(), AllocError>
    ensures { OnOk result (text.new.items ≡ text.old.items ++ nodes_text nodes.now pools) }
{
    push_head(text)?;
    push_pools(text, nodes, pools)?;
    Ok(())
}
