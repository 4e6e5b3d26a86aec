//! The world beside the table of events, on many lists of events.
use super::fleets::Fleet;
use super::holds;
use super::moves::{Asked, Move, event_of, note_of};
use super::table::Table;
use crate::tests::must;
use mr_history::OpId;
use mr_world::World;
use std::alloc::Global;
use std::process::Abort;
use std::test::Fail;

/// Two proxies at 999 and 1050, and nodes that hold nothing.
const FLEET: Fleet = Fleet {
    proxies: &[(1000, 999), (1000, 1050)],
    room: 4,
    capacity: 4,
    holders: &[],
};

/// A small generator of numbers.
#[derive(Clone, Copy)]
struct Dice {
    state: u64,
}

impl Dice {
    fn roll(&mut self, sides: u64) -> u64 {
        self.state = self
            .state
            .wrapping_mul(6_364_136_223_846_793_005)
            .wrapping_add(1_442_695_040_888_963_407);
        (self.state >> 33).checked_rem(sides).unwrap_or(0)
    }

    /// A proxy's number; one in eight is that of none.
    fn proxy(&mut self) -> u32 {
        match self.roll(8) {
            0 => 2,
            1..=4 => 0,
            _ => 1,
        }
    }

    fn place(&mut self) -> usize {
        self.roll(12) as usize
    }

    fn key(&mut self) -> u8 {
        if self.roll(3) == 0 { b'b' } else { b'k' }
    }

    fn request(&mut self) -> Asked {
        let key = self.key();
        match self.roll(8) {
            0 => Asked::Quit,
            1 => Asked::Set(key, false),
            2 => Asked::Set(key, true),
            3 => Asked::Delete(key, true),
            4..=5 => Asked::Delete(key, false),
            _ => Asked::Get(key),
        }
    }

    fn name(&mut self) -> &'static [u8] {
        match self.roll(4) {
            0 => b"7001",
            1 => b"7002",
            2 => b"7103",
            _ => b"7004",
        }
    }

    fn op(&mut self) -> OpId {
        OpId {
            proxy: self.proxy(),
            incarnation: self.roll(2),
            number: self.roll(4),
        }
    }

    fn reading(&mut self) -> u64 {
        self.roll(300).saturating_add(950)
    }

    fn next(&mut self) -> Move {
        match self.roll(24) {
            0..=1 => Move::Clock(self.proxy(), self.reading()),
            2..=7 => Move::Client(self.proxy(), self.request()),
            8..=14 => Move::Deliver(self.place(), self.roll(9)),
            15..=20 => Move::Return(self.place()),
            21 => Move::GiveUp(self.op()),
            22 => Move::NodeRestart(self.name()),
            _ => Move::ProxyRestart(self.proxy()),
        }
    }
}

/// Whether a move comes to the same in both.
fn agree_on(alloc: Global, world: &mut World, table: &mut Table, it: Move) -> Result<bool, Fail> {
    let played = note_of(alloc, world, it)?;
    let wanted = table.step(event_of(alloc, it)?);
    Ok(played == wanted)
}

/// Plays sixty moves in both, and tells whether they always agree.
fn agree_for_long(
    alloc: Global,
    world: &mut World,
    table: &mut Table,
    dice: &mut Dice,
) -> Result<bool, Fail> {
    for _ in 0..60 {
        if !agree_on(alloc, world, table, dice.next())? {
            return Ok(false);
        }
    }
    Ok(table.is_like(world))
}

/// The same, of a new table.
fn agrees_with_table(rt: &impl Abort, alloc: Global, world: &mut World, dice: &mut Dice) -> bool {
    must(
        rt,
        agree_for_long(alloc, world, &mut must(rt, Table::new(alloc)), dice),
    )
}

/// The same, of a new world and a new table.
fn both_agree(rt: &impl Abort, alloc: Global, dice: &mut Dice) -> bool {
    agrees_with_table(rt, alloc, &mut must(rt, FLEET.world(alloc)), dice)
}

#[test]
fn the_world_agrees_with_the_table(rt: HostRuntime) {
    let mut dice = Dice { state: 7 };
    for _ in 0..300 {
        holds(&rt, both_agree(&rt, rt.alloc(), &mut dice), "both agree");
    }
}
