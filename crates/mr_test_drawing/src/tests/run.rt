//! The run: a set at the second proxy, a delete at the first, and a get at the second, which hits; then a restart of the first.
//! The delete's reply comes twice.
use super::must;
use mr_phases::Schedule;
use mr_pools::NamedHash;
use mr_shown::KeptVerdict;
use mr_test_support::routing;
use mr_text::{Block, Key, KeyList, Request};
use mr_world::{Event, Note, ProxySetup, Setup, World};
use std::alloc::Global;
use std::process::Abort;
use std::test::Fail;

/// What is drawn of the run.
#[derive(Drop)]
pub struct Run {
    /// The proxies as they began.
    pub proxies: Vec<ProxySetup>,
    /// The events.
    pub events: Vec<Event>,
    /// What became of them.
    pub notes: Vec<Note>,
    /// The fleet after them.
    pub world: World,
    /// What the judge says of its history.
    pub verdict: KeptVerdict,
}

fn proxy(alloc: Global, reading: u64) -> Result<ProxySetup, Fail> {
    Ok(ProxySetup {
        routing: routing(alloc, &[b"7101", b"7102", b"7103"], NamedHash::Sum)?,
        schedule: Schedule::new(1000, 100)?,
        room: 4,
        reading,
    })
}

fn proxies(alloc: Global) -> Result<Vec<ProxySetup>, Fail> {
    let mut proxies = Vec::new(alloc);
    proxies.push(proxy(alloc, 999)?)?;
    proxies.push(proxy(alloc, 1100)?)?;
    Ok(proxies)
}

fn key(alloc: Global) -> Result<Key, Fail> {
    Ok(Key::new(alloc, b"k")?)
}

fn set(alloc: Global) -> Result<Request, Fail> {
    Ok(Request::Set {
        key: key(alloc)?,
        flags: 0,
        exptime: 0,
        block: Block::new(alloc, b"v")?,
        noreply: false,
    })
}

fn delete(alloc: Global) -> Result<Request, Fail> {
    Ok(Request::Delete {
        key: key(alloc)?,
        noreply: false,
    })
}

fn get(alloc: Global) -> Result<Request, Fail> {
    let key = key(alloc)?;
    Ok(Request::Get {
        keys: KeyList::new(vec![in alloc; key]?)?,
    })
}

/// The event of this place.
fn event(alloc: Global, place: usize) -> Result<Event, Fail> {
    Ok(match place {
        0 => Event::Client {
            proxy: 1,
            request: set(alloc)?,
        },
        1 => Event::Deliver {
            message: 0,
            now: 1100,
        },
        2 => Event::Return { reply: 0 },
        3 => Event::Client {
            proxy: 0,
            request: delete(alloc)?,
        },
        4 => Event::Deliver {
            message: 1,
            now: 999,
        },
        5 | 6 => Event::Return { reply: 1 },
        7 => Event::Client {
            proxy: 1,
            request: get(alloc)?,
        },
        8 => Event::Deliver {
            message: 2,
            now: 1100,
        },
        9 => Event::Return { reply: 2 },
        10 => Event::Client {
            proxy: 0,
            request: get(alloc)?,
        },
        _ => Event::ProxyRestart { proxy: 0 },
    })
}

/// How many events there are.
pub const EVENTS: usize = 12;

fn events(alloc: Global) -> Result<Vec<Event>, Fail> {
    let mut events = Vec::new(alloc);
    for place in 0..EVENTS {
        events.push(event(alloc, place)?)?;
    }
    Ok(events)
}

fn world(alloc: Global) -> Result<World, Fail> {
    let proxies = proxies(alloc)?;
    if proxies.len() > 8 {
        return Err(Fail::from("too many proxies"));
    }
    Ok(World::new(alloc, Setup::new(proxies, 4, Vec::new(alloc)))?)
}

/// Plays the run.
pub fn play(rt: &impl Abort, alloc: Global) -> Run {
    let mut world = must(rt, world(alloc));
    let mut notes = Vec::new(alloc);
    for event in must(rt, events(alloc)) {
        must(rt, notes.push(must(rt, world.step(event))));
    }
    let verdict = must(rt, KeptVerdict::on(alloc, &world));
    Run {
        proxies: must(rt, proxies(alloc)),
        events: must(rt, events(alloc)),
        notes,
        world,
        verdict,
    }
}
