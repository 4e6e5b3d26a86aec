//! What a proxy counts of its nodes: of legs to them, and of its connections to them, which are its links.
ghost use Rattle.std.specs.Prelude.{◌≡◌, ◌++◌, OnOk};
ghost use Rattle.mr_metrics.specs.Exposition.{family_head};
ghost use Rattle.mr_metrics.specs.declared.exposition.Kind.TheVariants.{Counter};
ghost use Rattle.mr_metrics.specs.Links.{leg_sample, leg_samples, legs_family, fact_of, link_sample, link_samples, link_family, up_family, breaks_family, dials_family, links_text};

use crate::exposition::{Kind, push_family, push_sample};
use crate::label::Label;
use crate::number::Number;
use itoa::Buffer;
use std::alloc::AllocError;

/// What is known of a node: what became of the legs to it, and how its links stand.
#[derive(Clone, Copy, Debug)]
pub struct LinkCount<'a> {
    /// The node's pool, counted from 0.
    pub pool: u64,
    /// The node's name.
    pub node: &'a str,
    /// How many legs were carried.
    pub carried: u64,
    /// How many were lost.
    pub lost: u64,
    /// How many loops have a connection to it.
    pub up: u64,
    /// How many connections to it were there and are gone.
    pub breaks: u64,
    /// How many connections to it were begun.
    pub dials: u64,
}

/// Which number of a node is told.
#[derive(Clone, Copy, Debug, PartialEq, Eq)]
pub(crate) enum LinkFact {
    /// How many loops have a connection to it.
    Up,
    /// How many connections to it are gone.
    Breaks,
    /// How many connections to it were begun.
    Dials,
}

/// Adds how many legs to a node had an outcome.
fn push_leg<'a>(
    text: &mut Vec<u8>,
    name: &str,
    row: &LinkCount<'a>,
    outcome: &'a str,
    count: u64,
) -> Result<(), AllocError>
    ensures { OnOk result (text.new.items ≡ text.old.items ++ leg_sample name.now row.now outcome.now count) }
{
    let mut buffer = Buffer::new();
    let pool = Label {
        name: "pool",
        value: buffer.format(row.pool),
    };
    let node = Label {
        name: "node",
        value: row.node,
    };
    let outcome = Label {
        name: "outcome",
        value: outcome,
    };
    push_sample(text, name, &[pool, node, outcome], Number::Whole(count))
}

/// Adds the samples of legs, node by node.
fn push_each_leg(text: &mut Vec<u8>, name: &str, rows: &[LinkCount<'_>]) -> Result<(), AllocError>
    ensures { OnOk result (text.new.items ≡ text.old.items ++ leg_samples name.now rows.now) }
{
    for row in rows {
        push_leg(text, name, row, "carried", row.carried)?;
        push_leg(text, name, row, "lost", row.lost)?;
    }
    Ok(())
}

/// Adds a counter with these samples.
fn push_family_of_legs(
    text: &mut Vec<u8>,
    name: &str,
    help: &str,
    rows: &[LinkCount<'_>],
) -> Result<(), AllocError>
    ensures { OnOk result (text.new.items ≡ text.old.items
        ++ (family_head name.now help.now Counter ++ leg_samples name.now rows.now)) }
{
    push_family(text, name, help, Kind::Counter)?;
    push_each_leg(text, name, rows)?;
    Ok(())
}

/// Adds what became of legs, by node.
pub(crate) fn push_legs(text: &mut Vec<u8>, rows: &[LinkCount<'_>]) -> Result<(), AllocError>
    ensures { OnOk result (text.new.items ≡ text.old.items ++ legs_family rows.now) }
{
    push_family_of_legs(
        text,
        "migctl_proxy_legs_total",
        "Legs of requests, by pool, by node and by what became of them.",
        rows,
    )
}

/// What is told of a node.
fn fact_of(fact: LinkFact, row: &LinkCount<'_>) -> u64
    ensures { result ≡ fact_of fact row.now }
{
    match fact {
        LinkFact::Up => row.up,
        LinkFact::Breaks => row.breaks,
        LinkFact::Dials => row.dials,
    }
}

/// Adds a number of a node.
fn push_link(
    text: &mut Vec<u8>,
    name: &str,
    fact: LinkFact,
    row: &LinkCount<'_>,
) -> Result<(), AllocError>
    ensures { OnOk result (text.new.items ≡ text.old.items ++ link_sample name.now fact row.now) }
{
    let mut buffer = Buffer::new();
    let pool = Label {
        name: "pool",
        value: buffer.format(row.pool),
    };
    let node = Label {
        name: "node",
        value: row.node,
    };
    push_sample(text, name, &[pool, node], Number::Whole(fact_of(fact, row)))
}

/// Adds the same number of each node, in order.
fn push_each_link(
    text: &mut Vec<u8>,
    name: &str,
    fact: LinkFact,
    rows: &[LinkCount<'_>],
) -> Result<(), AllocError>
    ensures { OnOk result (text.new.items ≡ text.old.items ++ link_samples name.now fact rows.now) }
{
    for row in rows {
        push_link(text, name, fact, row)?;
    }
    Ok(())
}

/// Adds a family of one number for each node.
fn push_family_of_links(
    text: &mut Vec<u8>,
    name: &str,
    help: &str,
    kind: Kind,
    fact: LinkFact,
    rows: &[LinkCount<'_>],
) -> Result<(), AllocError>
    ensures { OnOk result (text.new.items ≡ text.old.items ++ link_family name.now help.now kind fact rows.now) }
{
    push_family(text, name, help, kind)?;
    push_each_link(text, name, fact, rows)?;
    Ok(())
}

/// Adds how many loops have a connection to each node.
fn push_up(text: &mut Vec<u8>, rows: &[LinkCount<'_>]) -> Result<(), AllocError>
    ensures { OnOk result (text.new.items ≡ text.old.items ++ up_family rows.now) }
{
    push_family_of_links(
        text,
        "migctl_proxy_link_up",
        "Loops that have a connection to the node, by pool and by node.",
        Kind::Gauge,
        LinkFact::Up,
        rows,
    )
}

/// Adds how many connections to each node broke.
fn push_breaks(text: &mut Vec<u8>, rows: &[LinkCount<'_>]) -> Result<(), AllocError>
    ensures { OnOk result (text.new.items ≡ text.old.items ++ breaks_family rows.now) }
{
    push_family_of_links(
        text,
        "migctl_proxy_link_breaks_total",
        "Connections to the node that were there and are gone, by pool and by node.",
        Kind::Counter,
        LinkFact::Breaks,
        rows,
    )
}

/// Adds how many connections to each node were begun.
fn push_dials(text: &mut Vec<u8>, rows: &[LinkCount<'_>]) -> Result<(), AllocError>
    ensures { OnOk result (text.new.items ≡ text.old.items ++ dials_family rows.now) }
{
    push_family_of_links(
        text,
        "migctl_proxy_link_dials_total",
        "Connections to the node that were begun, by pool and by node.",
        Kind::Counter,
        LinkFact::Dials,
        rows,
    )
}

/// Adds how the links to each node stand.
pub(crate) fn push_links(text: &mut Vec<u8>, rows: &[LinkCount<'_>]) -> Result<(), AllocError>
    ensures { OnOk result (text.new.items ≡ text.old.items ++ links_text rows.now) }
{
    push_up(text, rows)?;
    push_breaks(text, rows)?;
    push_dials(text, rows)?;
    Ok(())
}
