//! What a running proxy tells of itself, by what its loops count together.
ghost use Rattle.std.specs.Prelude.{◌≡◌, ◌++◌, IfOk, OnOk, map, drop, length};
ghost use Rattle.mr_counting.specs.LegTimes.{bound_texts, bucket_said, bucket_rows};
ghost use Rattle.mr_counting.specs.Telling.{IsSnapshotOf, TellsTotals, answer_rows, request_rows, link_said, link_row, node_rows, link_rows, who_is};

use crate::link_totals::LinkTotals;
use crate::loop_totals::LoopTotals;
use crate::rows::{answer_rows, request_rows};
use crate::standing::{next_phase, reading_in_force};
use mr_metrics::{
    AnswerCount, LinkCount, ProxySnapshot, RequestCount, ServiceSnapshot, Times, proxy_metrics,
};
use mr_phases::{Schedule, judge};
use mr_pools::{Pool, Routing};
use std::alloc::{AllocError, Global};

/// Who a proxy is to those that scrape it.
#[derive(Clone, Copy, Debug)]
pub struct ProxyIdentity<'a> {
    /// The version of the program.
    pub version: &'a str,
    /// The SHA-256 of its configuration as transcripts write it, in hexadecimal digits.
    pub config: &'a str,
    /// The names of its nodes.
    pub routing: &'a Routing,
    /// When its phases begin.
    pub schedule: Schedule,
    /// How many requests may be under way at once, in all loops together.
    pub room: u64,
    /// How many clients are served at once at most.
    pub max_clients: u64,
}

/// The row of a node.
fn link_row<'a>(pool: u64, node: &'a str, link: &LinkTotals) -> LinkCount<'a>
    ensures { link_said result ≡ link_row pool node.entry.now link.now }
{
    LinkCount {
        pool,
        node,
        carried: link.carried,
        lost: link.lost,
        up: link.up,
        breaks: link.breaks,
        dials: link.dials,
    }
}

/// Adds the rows of a pool's nodes, of which the first are counted.
fn push_pool<'a>(
    rows: &mut Vec<LinkCount<'a>>,
    number: u64,
    pool: &'a Pool,
    nodes: &[LinkTotals],
) -> Result<(), AllocError>
    ensures { OnOk result (map link_said rows.new.items
        ≡ map link_said rows.old.items ++ node_rows number pool.entry.now nodes.now) }
{
    let mut rest = nodes;
    for name in pool.names() {
        let Some((node, others)) = rest.split_first() else {
            return Ok(());
        };
        rows.push(link_row(number, name.as_str(), node))?;
        rest = others;
    }
    Ok(())
}

/// The nodes behind so many.
fn behind(nodes: &[LinkTotals], count: usize) -> &[LinkTotals]
    ensures { result.now ≡ drop count nodes.now }
{
    if count < nodes.len() {
        &nodes[count..]
    } else {
        &[]
    }
}

/// The rows of all nodes, pool by pool.
fn link_rows<'a>(
    alloc: Global,
    pools: &'a [Pool],
    nodes: &[LinkTotals],
) -> Result<Vec<LinkCount<'a>>, AllocError>
    ensures { IfOk result (λ rows. map link_said rows.items ≡ link_rows 0 pools.entry.now nodes.now) }
{
    let mut rows = Vec::new(alloc);
    let mut rest = nodes;
    let mut number: u64 = 0;
    for pool in pools {
        push_pool(&mut rows, number, pool, rest)?;
        rest = behind(rest, pool.len());
        number += 1;
    }
    Ok(rows)
}

/// What is known of a proxy: of its service, who it is, what its loops count, and whether clients wait.
fn snapshot_of<'a>(
    identity: &'a ProxyIdentity<'a>,
    service: ServiceSnapshot<'a>,
    totals: &LoopTotals,
    requests: &'a [RequestCount],
    answers: &'a [AnswerCount],
    links: &'a [LinkCount<'a>],
    leg_times: Times<'a>,
    clients_wait: bool,
) -> ProxySnapshot<'a>
    requires requests { requests.now ≡ request_rows totals.now.counts.requests }
    requires answers { answers.now ≡ answer_rows totals.now.counts.answers }
    requires links { map link_said links.now ≡ link_rows 0 identity.now.routing.now.pools totals.now.nodes }
    requires buckets { map bucket_said leg_times.buckets.now ≡ bucket_rows 0 bound_texts totals.now.times.counts }
    requires micros { leg_times.micros ≡ totals.now.times.micros }
    ensures { IsSnapshotOf (who_is identity.now) service.entry totals.now clients_wait result }
{
    let counts = totals.counts();
    let reading = reading_in_force(service.clock, counts.last_issue);
    let judged = judge(identity.schedule, reading);
    ProxySnapshot {
        service,
        config: identity.config,
        requests,
        answers,
        held_back: totals.clients().held_back,
        links,
        leg_times,
        under_way: counts.under_way,
        room: identity.room,
        last_issue: counts.last_issue,
        hop: u64::from(judged.hop()),
        phase: judged.name(),
        next_phase: next_phase(&identity.schedule, reading),
        loops: totals.loops(),
        max_clients: identity.max_clients,
        clients_wait,
    }
}

/// What a proxy tells, of whose nodes and whose legs' times this is told.
fn told<'a>(
    alloc: Global,
    identity: &'a ProxyIdentity<'a>,
    service: ServiceSnapshot<'a>,
    totals: &LoopTotals,
    links: &'a [LinkCount<'a>],
    leg_times: Times<'a>,
    clients_wait: bool,
) -> Result<Vec<u8>, AllocError>
    requires links { map link_said links.now ≡ link_rows 0 identity.now.routing.now.pools totals.now.nodes }
    requires buckets { map bucket_said leg_times.buckets.now ≡ bucket_rows 0 bound_texts totals.now.times.counts }
    requires micros { leg_times.micros ≡ totals.now.times.micros }
    ensures { IfOk result (λ text. TellsTotals (who_is identity.now) service.entry totals.now clients_wait text.items) }
{
    let counts = totals.counts();
    let requests = request_rows(&counts.requests);
    let answers = answer_rows(&counts.answers);
    let snapshot = snapshot_of(
        identity,
        service,
        totals,
        &requests,
        &answers,
        links,
        leg_times,
        clients_wait,
    );
    let text = proxy_metrics(alloc, &snapshot)?;
    Ok(text)
}

/// What a proxy tells of itself, in the text exposition format of version 0.0.4: what is known of its service, who it is, what its
/// loops count, and whether clients aren't accepted since as many are served as may be.
pub fn proxy_told<'a>(
    alloc: Global,
    identity: &'a ProxyIdentity<'a>,
    service: ServiceSnapshot<'a>,
    totals: &LoopTotals,
    clients_wait: bool,
) -> Result<Vec<u8>, AllocError>
    ensures { IfOk result (λ text. TellsTotals (who_is identity.now) service.entry totals.now clients_wait text.items) }
{
    let links = link_rows(alloc, identity.routing.pools(), totals.nodes())?;
    let buckets = totals.times().buckets();
    let leg_times = Times {
        buckets: &buckets,
        micros: totals.times().micros,
    };
    told(
        alloc,
        identity,
        service,
        totals,
        links.as_slice(),
        leg_times,
        clients_wait,
    )
}
