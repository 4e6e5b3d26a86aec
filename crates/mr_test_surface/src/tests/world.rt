//! A fleet that is played event by event.
use super::history::FIRST;
use super::phases::schedule;
use super::pools::routing;
use super::text::{get, key};
use mr_pools::NodeName;
use mr_text::Block;
use mr_world::{
    Delivery, Event, HeldItem, Message, Note, Premises, ProxySetup, Setup, World, WorldError,
};
use std::alloc::Global;
use std::test::Fail;

/// A proxy at 999, with room for one request.
fn proxy(alloc: Global) -> Result<ProxySetup, Fail> {
    Ok(ProxySetup {
        routing: routing(alloc)?,
        schedule: schedule()?,
        room: 1,
        reading: 999,
    })
}

/// What the key's old node holds at the beginning.
fn held_item(alloc: Global) -> Result<HeldItem, Fail> {
    Ok(HeldItem {
        node: NodeName::new(alloc, b"7002")?,
        key: key(alloc)?,
        flags: 0,
        block: Block::new(alloc, b"v")?,
    })
}

/// A fleet of one proxy.
fn fleet(alloc: Global) -> Result<World, Fail> {
    let mut proxies = Vec::new(alloc);
    proxies.push(proxy(alloc)?)?;
    let mut held = Vec::new(alloc);
    held.push(held_item(alloc)?)?;
    Ok(World::new(alloc, Setup::new(proxies, 1, held))?)
}

/// How many messages were sent, and how many delivered.
fn counts_of(sent: &[Message], replies: &[Delivery]) -> (usize, usize) {
    (sent.len(), replies.len())
}

/// A get by the only proxy.
fn ask(alloc: Global, world: &mut World) -> Result<Note, Fail> {
    let request = get(alloc)?;
    Ok(world.step(Event::Client { proxy: 0, request })?)
}

#[test]
fn a_fleet_is_played(rt: HostRuntime) -> Result<(), Fail> {
    let mut world = fleet(rt.alloc())?;
    let issued = Note::Issued {
        op: FIRST,
        first: 0,
        count: 1,
    };
    assert_eq!(rt; ask(rt.alloc(), &mut world)?, issued);
    let later = world.step(Event::Return { reply: 0 });
    assert_eq!(rt; later, Err(WorldError::NoSuchMessage));
    assert_eq!(rt; counts_of(world.sent(), world.replies()), (1, 0));
    let premises: Premises = world.premises();
    assert!(rt; premises.same && premises.new_empty && premises.forward && premises.near);
    Ok(())
}
