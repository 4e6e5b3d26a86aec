//! What a look of a row comes to.
use crate::proxies::{parts_of, phase_of};
use crate::words::Words;
use mr_phases::Schedule;
use mr_watch::{
    Finding, Findings, Look, NodeSeen, Place, ProxySeen, ProxyTold, Traffic, View,
    all_in_last_phase, change_lines, findings_after, look_json, look_text,
};
use std::alloc::Global;
use std::test::Fail;

/// What of a proxy has numbers alone.
#[derive(Clone, Copy)]
struct Numbers {
    clock: Option<u64>,
    steps_back: u64,
    place: Place,
    traffic: Traffic,
}

/// A proxy of a row, with its texts.
#[derive(Drop)]
struct ProxyRow {
    address: String,
    asked: u64,
    answered: u64,
    known: bool,
    digest: Vec<u8>,
    numbers: Option<Numbers>,
}

/// Where a proxy of a row stands.
fn place_of(words: &mut Words<'_>) -> Result<Place, Fail> {
    Ok(Place {
        hop: words.number()?,
        phase: phase_of(words.number()?),
        next_phase: words.perhaps()?,
    })
}

/// What a proxy of a row did.
fn traffic_of(words: &mut Words<'_>) -> Result<Traffic, Fail> {
    Ok(Traffic {
        requests: words.number()?,
        hits: words.number()?,
        lost: words.number()?,
        held_back: words.perhaps()?,
    })
}

/// The numbers that a proxy of a row told.
fn numbers_of(words: &mut Words<'_>) -> Result<Numbers, Fail> {
    Ok(Numbers {
        clock: words.perhaps()?,
        steps_back: words.number()?,
        place: place_of(words)?,
        traffic: traffic_of(words)?,
    })
}

/// A proxy of a row: behind its digest stand its numbers where it was reached.
fn proxy_of(alloc: Global, part: &str) -> Result<ProxyRow, Fail> {
    let mut words = Words::of(alloc, part, ':')?;
    let address = words.text(alloc)?;
    let asked = words.number()?;
    let answered = words.number()?;
    let known = words.number()? == 1;
    let reached = words.number()?;
    let digest = words.bytes(alloc)?;
    let numbers = if reached == 1 {
        Some(numbers_of(&mut words)?)
    } else {
        None
    };
    Ok(ProxyRow {
        address,
        asked,
        answered,
        known,
        digest,
        numbers,
    })
}

/// The proxies that a word says.
fn proxies_of(alloc: Global, word: &str) -> Result<Vec<ProxyRow>, Fail> {
    let mut rows = Vec::new(alloc);
    for part in parts_of(alloc, word)? {
        rows.push(proxy_of(alloc, part)?)?;
    }
    Ok(rows)
}

/// What a proxy of a row told.
fn told_by<'a>(row: &'a ProxyRow) -> Option<ProxyTold<'a>> {
    match row.numbers {
        Some(numbers) => Some(ProxyTold {
            digest: row.digest.as_slice(),
            clock: numbers.clock,
            steps_back: numbers.steps_back,
            place: numbers.place,
            traffic: numbers.traffic,
        }),
        None => None,
    }
}

/// The same, lent.
fn proxies_seen<'a>(alloc: Global, rows: &'a [ProxyRow]) -> Result<Vec<ProxySeen<'a>>, Fail> {
    let mut seen = Vec::new(alloc);
    for row in rows {
        seen.push(ProxySeen {
            address: row.address.as_str(),
            told: told_by(row),
            known: row.known,
            asked: row.asked,
            answered: row.answered,
        })?;
    }
    Ok(seen)
}

/// A node of a row, with its name.
#[derive(Drop)]
struct NodeRow {
    pool: u32,
    name: String,
    items: Option<u64>,
    hits: Option<u64>,
}

/// The number of a pool.
fn pool_of(number: u64) -> Result<u32, Fail> {
    match u32::try_from(number) {
        Ok(pool) => Ok(pool),
        Err(_) => Err(Fail::from("a pool has 32 bits")),
    }
}

/// The nodes that a word says.
fn nodes_of(alloc: Global, word: &str) -> Result<Vec<NodeRow>, Fail> {
    let mut rows = Vec::new(alloc);
    for part in parts_of(alloc, word)? {
        let mut words = Words::of(alloc, part, ':')?;
        rows.push(NodeRow {
            pool: pool_of(words.number()?)?,
            name: words.text(alloc)?,
            items: words.perhaps()?,
            hits: words.perhaps()?,
        })?;
    }
    Ok(rows)
}

/// The same, lent.
fn nodes_seen<'a>(alloc: Global, rows: &'a [NodeRow]) -> Result<Vec<NodeSeen<'a>>, Fail> {
    let mut seen = Vec::new(alloc);
    for row in rows {
        seen.push(NodeSeen {
            pool: row.pool,
            name: row.name.as_str(),
            items: row.items,
            hits: row.hits,
        })?;
    }
    Ok(seen)
}

/// One hop more behind those that are there.
fn schedule_with(before: Option<Schedule>, start: u64, interval: u64) -> Result<Schedule, Fail> {
    let made = match before {
        Some(schedule) => schedule.then(start, interval).ok(),
        None => Schedule::new(start, interval).ok(),
    };
    match made {
        Some(schedule) => Ok(schedule),
        None => Err(Fail::from("a schedule has hops in a row")),
    }
}

/// The schedule that a word says.
fn schedule_of(alloc: Global, word: &str) -> Result<Schedule, Fail> {
    let mut schedule = None;
    for part in parts_of(alloc, word)? {
        let mut words = Words::of(alloc, part, ':')?;
        let start = words.number()?;
        schedule = Some(schedule_with(schedule, start, words.number()?)?);
    }
    match schedule {
        Some(schedule) => Ok(schedule),
        None => Err(Fail::from("a schedule has a hop")),
    }
}

/// The finding of a number.
fn finding_of(number: u64) -> Finding {
    match number {
        0 => Finding::Unseen,
        1 => Finding::Holds,
        _ => Finding::Broken,
    }
}

/// The next words, as findings.
fn findings_of(words: &mut Words<'_>) -> Result<Findings, Fail> {
    Ok(Findings {
        same: finding_of(words.number()?),
        empty: finding_of(words.number()?),
        near: finding_of(words.number()?),
        forward: finding_of(words.number()?),
    })
}

/// Everything that a look comes to, one after another.
fn shown_of(
    alloc: Global,
    before: &Findings,
    view: &View<'_>,
    colours: bool,
) -> Result<Vec<u8>, Fail> {
    let mut text = look_text(alloc, view, colours)?;
    let changes = change_lines(alloc, before, view)?;
    text.extend_from_slice(changes.as_slice())?;
    let json = look_json(alloc, view)?;
    text.extend_from_slice(json.as_bytes())?;
    if all_in_last_phase(&view.look, &view.schedule) {
        text.extend_from_slice(b"\nlast\n")?;
    }
    Ok(text)
}

/// What a look of a row comes to: its text, the lines of changes, its JSON, and whether it is the last.
pub fn told_of_look(alloc: Global, words: &mut Words<'_>) -> Result<Vec<u8>, Fail> {
    let at = words.number()?;
    let moment = words.number()?;
    let colours = words.number()? == 1;
    let expected = words.bytes(alloc)?;
    let schedule = schedule_of(alloc, words.word()?)?;
    let before = findings_of(words)?;
    let earlier_rows = proxies_of(alloc, words.word()?)?;
    let proxy_rows = proxies_of(alloc, words.word()?)?;
    let node_rows = nodes_of(alloc, words.word()?)?;
    let earlier = proxies_seen(alloc, earlier_rows.as_slice())?;
    let proxies = proxies_seen(alloc, proxy_rows.as_slice())?;
    let nodes = nodes_seen(alloc, node_rows.as_slice())?;
    let look = Look {
        began: 0,
        ended: 0,
        proxies: proxies.as_slice(),
        nodes: nodes.as_slice(),
    };
    let findings = findings_after(
        before,
        earlier.as_slice(),
        &look,
        expected.as_slice(),
        &schedule,
    );
    let view = View {
        at,
        moment,
        look,
        earlier: earlier.as_slice(),
        findings,
        expected: expected.as_slice(),
        schedule,
    };
    shown_of(alloc, &before, &view, colours)
}
