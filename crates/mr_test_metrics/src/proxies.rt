//! What a proxy of a row tells.
use crate::nodes::Service;
use crate::words::Words;
use mr_metrics::{
    AnswerCount, AnswerKind, Bucket, Command, LinkCount, ProxySnapshot, RequestCount, Times,
    proxy_metrics,
};
use mr_phases::PhaseName;
use std::alloc::Global;
use std::test::Fail;

/// The command of a number.
fn command_of(number: u64) -> Command {
    match number {
        0 => Command::Get,
        1 => Command::Set,
        _ => Command::Delete,
    }
}

/// The phase of a number.
pub fn phase_of(number: u64) -> PhaseName {
    match number {
        0 => PhaseName::OldOnly,
        1 => PhaseName::BothReadOld,
        2 => PhaseName::BothReadNew,
        _ => PhaseName::NewOnly,
    }
}

/// The kind of answers of a number.
fn kind_of(number: u64) -> AnswerKind {
    match number {
        0 => AnswerKind::Hit,
        1 => AnswerKind::Miss,
        2 => AnswerKind::Stored,
        3 => AnswerKind::Deleted,
        4 => AnswerKind::NotFound,
        5 => AnswerKind::LegLost,
        6 => AnswerKind::OutOfMemory,
        7 => AnswerKind::ClockFault,
        _ => AnswerKind::OtherFault,
    }
}

/// The parts of a word that is a list: none of a hyphen.
pub fn parts_of<'a>(alloc: Global, word: &'a str) -> Result<Vec<&'a str>, Fail> {
    if word == "-" {
        return Ok(Vec::new(alloc));
    }
    Ok(word.split(',').collect(alloc)?)
}

/// The counts of requests that a word says.
fn requests_of(alloc: Global, word: &str) -> Result<Vec<RequestCount>, Fail> {
    let mut rows = Vec::new(alloc);
    for part in parts_of(alloc, word)? {
        let mut words = Words::of(alloc, part, ':')?;
        rows.push(RequestCount {
            command: command_of(words.number()?),
            phase: phase_of(words.number()?),
            count: words.number()?,
        })?;
    }
    Ok(rows)
}

/// The counts of answers that a word says.
fn answers_of(alloc: Global, word: &str) -> Result<Vec<AnswerCount>, Fail> {
    let mut rows = Vec::new(alloc);
    for part in parts_of(alloc, word)? {
        let mut words = Words::of(alloc, part, ':')?;
        rows.push(AnswerCount {
            kind: kind_of(words.number()?),
            count: words.number()?,
        })?;
    }
    Ok(rows)
}

/// A node of a row, with what became of legs to it, and of links.
#[derive(Drop)]
struct Links {
    pool: u64,
    node: String,
    carried: u64,
    lost: u64,
    up: u64,
    breaks: u64,
    dials: u64,
}

/// The counts of nodes that a word says.
fn links_of(alloc: Global, word: &str) -> Result<Vec<Links>, Fail> {
    let mut rows = Vec::new(alloc);
    for part in parts_of(alloc, word)? {
        let mut words = Words::of(alloc, part, ':')?;
        rows.push(Links {
            pool: words.number()?,
            node: words.text(alloc)?,
            carried: words.number()?,
            lost: words.number()?,
            up: words.number()?,
            breaks: words.number()?,
            dials: words.number()?,
        })?;
    }
    Ok(rows)
}

/// The same, lent.
fn link_counts<'a>(alloc: Global, links: &'a [Links]) -> Result<Vec<LinkCount<'a>>, Fail> {
    let mut rows = Vec::new(alloc);
    for link in links {
        rows.push(LinkCount {
            pool: link.pool,
            node: link.node.as_str(),
            carried: link.carried,
            lost: link.lost,
            up: link.up,
            breaks: link.breaks,
            dials: link.dials,
        })?;
    }
    Ok(rows)
}

/// The buckets that a word says, as bounds and counts.
fn buckets_of<'a>(alloc: Global, word: &'a str) -> Result<Vec<Bucket<'a>>, Fail> {
    let mut rows = Vec::new(alloc);
    for part in parts_of(alloc, word)? {
        let mut words = Words::of(alloc, part, ':')?;
        rows.push(Bucket {
            bound: words.word()?,
            count: words.number()?,
        })?;
    }
    Ok(rows)
}

/// What a proxy tells whose words are these.
pub fn told_of_proxy(alloc: Global, words: &mut Words<'_>) -> Result<Vec<u8>, Fail> {
    let version = words.text(alloc)?;
    let service = Service::of(words)?;
    let config = words.text(alloc)?;
    let requests = requests_of(alloc, words.word()?)?;
    let answers = answers_of(alloc, words.word()?)?;
    let links = links_of(alloc, words.word()?)?;
    let links = link_counts(alloc, links.as_slice())?;
    let buckets = buckets_of(alloc, words.word()?)?;
    let snapshot = ProxySnapshot {
        service: service.snapshot(version.as_str()),
        config: config.as_str(),
        requests: requests.as_slice(),
        answers: answers.as_slice(),
        links: links.as_slice(),
        leg_times: Times {
            buckets: buckets.as_slice(),
            micros: words.number()?,
        },
        held_back: words.number()?,
        under_way: words.number()?,
        room: words.number()?,
        last_issue: words.perhaps()?,
        hop: words.number()?,
        phase: phase_of(words.number()?),
        next_phase: words.perhaps()?,
        loops: words.number()?,
        max_clients: words.number()?,
        clients_wait: words.number()? == 1,
    };
    Ok(proxy_metrics(alloc, &snapshot)?)
}
