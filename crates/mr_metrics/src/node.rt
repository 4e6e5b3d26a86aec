//! What a node tells of itself.
ghost use Rattle.std.specs.Prelude.{◌≡◌, ◌++◌, IfOk, OnOk};
ghost use Rattle.mr_metrics.specs.Node.{address_family, items_family, capacity_family, gets_family, sets_family, deletes_family, evictions_family, node_loops_family, performed_text, node_text};

use crate::exposition::Kind;
use crate::families::{Count, push_info, push_one, push_two};
use crate::service::{ServiceSnapshot, push_service};
use std::alloc::{AllocError, Global};

/// What is known of a node at a moment.
#[derive(Clone, Copy, Debug)]
pub struct NodeSnapshot<'a> {
    /// What is known of its service.
    pub service: ServiceSnapshot<'a>,
    /// Where clients connect.
    pub address: &'a str,
    /// How many items it holds.
    pub items: u64,
    /// How many items it holds at most.
    pub capacity: u64,
    /// How many keys were asked for and found.
    pub hits: u64,
    /// How many keys were asked for and not found.
    pub misses: u64,
    /// How many values were stored.
    pub stored: u64,
    /// How many keys were deleted.
    pub deleted: u64,
    /// How many keys were to be deleted and not found.
    pub not_found: u64,
    /// How many items went since a new one took their room.
    pub evicted: u64,
    /// How many loops serve its clients.
    pub loops: u64,
}

/// Adds where clients connect.
fn push_address(text: &mut Vec<u8>, address: &str) -> Result<(), AllocError>
    ensures { OnOk result (text.new.items ≡ text.old.items ++ address_family address.now) }
{
    push_info(
        text,
        "migctl_node_info",
        "Where clients of the node connect.",
        "address",
        address,
    )
}

/// Adds how many items are held.
fn push_items(text: &mut Vec<u8>, items: u64) -> Result<(), AllocError>
    ensures { OnOk result (text.new.items ≡ text.old.items ++ items_family items) }
{
    push_one(
        text,
        "migctl_node_items",
        "Items that the node holds.",
        Kind::Gauge,
        items,
    )
}

/// Adds how many items are held at most.
fn push_capacity(text: &mut Vec<u8>, capacity: u64) -> Result<(), AllocError>
    ensures { OnOk result (text.new.items ≡ text.old.items ++ capacity_family capacity) }
{
    push_one(
        text,
        "migctl_node_capacity_items",
        "Items that the node holds at most.",
        Kind::Gauge,
        capacity,
    )
}

/// Adds how many keys were asked for, by whether they were found.
fn push_gets(text: &mut Vec<u8>, hits: u64, misses: u64) -> Result<(), AllocError>
    ensures { OnOk result (text.new.items ≡ text.old.items ++ gets_family hits misses) }
{
    let name = "migctl_node_gets_total";
    let hits = Count {
        at: "hit",
        count: hits,
    };
    let misses = Count {
        at: "miss",
        count: misses,
    };
    push_two(
        text,
        name,
        "Keys that were asked for.",
        "result",
        &hits,
        &misses,
    )
}

/// Adds how many values were stored.
fn push_stored(text: &mut Vec<u8>, stored: u64) -> Result<(), AllocError>
    ensures { OnOk result (text.new.items ≡ text.old.items ++ sets_family stored) }
{
    push_one(
        text,
        "migctl_node_sets_total",
        "Values that were stored.",
        Kind::Counter,
        stored,
    )
}

/// Adds how many keys were to be deleted, by whether they were found.
fn push_deletes(text: &mut Vec<u8>, deleted: u64, not_found: u64) -> Result<(), AllocError>
    ensures { OnOk result (text.new.items ≡ text.old.items ++ deletes_family deleted not_found) }
{
    let name = "migctl_node_deletes_total";
    let deleted = Count {
        at: "deleted",
        count: deleted,
    };
    let not_found = Count {
        at: "not found",
        count: not_found,
    };
    push_two(
        text,
        name,
        "Keys that were to be deleted.",
        "result",
        &deleted,
        &not_found,
    )
}

/// Adds how many items went for others.
fn push_evicted(text: &mut Vec<u8>, evicted: u64) -> Result<(), AllocError>
    ensures { OnOk result (text.new.items ≡ text.old.items ++ evictions_family evicted) }
{
    push_one(
        text,
        "migctl_node_evictions_total",
        "Items that went since a new one took their room.",
        Kind::Counter,
        evicted,
    )
}

/// Adds how many loops there are.
fn push_node_loops(text: &mut Vec<u8>, loops: u64) -> Result<(), AllocError>
    ensures { OnOk result (text.new.items ≡ text.old.items ++ node_loops_family loops) }
{
    push_one(
        text,
        "migctl_node_loops",
        "Loops that serve clients.",
        Kind::Gauge,
        loops,
    )
}

/// Adds what it performed.
fn push_performed(text: &mut Vec<u8>, snapshot: &NodeSnapshot<'_>) -> Result<(), AllocError>
    ensures { OnOk result (text.new.items ≡ text.old.items ++ performed_text snapshot.now) }
{
    push_gets(text, snapshot.hits, snapshot.misses)?;
    push_stored(text, snapshot.stored)?;
    push_deletes(text, snapshot.deleted, snapshot.not_found)?;
    push_evicted(text, snapshot.evicted)?;
    Ok(())
}

/// What a node tells of itself, in the text exposition format of version 0.0.4.
pub fn node_metrics(alloc: Global, snapshot: &NodeSnapshot<'_>) -> Result<Vec<u8>, AllocError>
    ensures { IfOk result (λ text. text.items ≡ node_text snapshot.now) }
{
    let mut text = Vec::new(alloc);
    push_service(&mut text, &snapshot.service)?;
    push_address(&mut text, snapshot.address)?;
    push_items(&mut text, snapshot.items)?;
    push_capacity(&mut text, snapshot.capacity)?;
    push_performed(&mut text, snapshot)?;
    push_node_loops(&mut text, snapshot.loops)?;
    Ok(text)
}
