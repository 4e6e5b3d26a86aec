//! Entries that dice choose.
use super::told::*;
use super::*;

/// A small generator of numbers.
#[derive(Clone, Copy)]
pub struct Dice {
    pub state: u64,
}

/// The items of `a` and `b` with the data `v` and `w`, and each two of them.
static ITEMS: [&[Found]; 20] = [
    &[(b'a', b'v')],
    &[(b'a', b'w')],
    &[(b'b', b'v')],
    &[(b'b', b'w')],
    &[(b'a', b'v'), (b'a', b'v')],
    &[(b'a', b'v'), (b'a', b'w')],
    &[(b'a', b'v'), (b'b', b'v')],
    &[(b'a', b'v'), (b'b', b'w')],
    &[(b'a', b'w'), (b'a', b'v')],
    &[(b'a', b'w'), (b'a', b'w')],
    &[(b'a', b'w'), (b'b', b'v')],
    &[(b'a', b'w'), (b'b', b'w')],
    &[(b'b', b'v'), (b'a', b'v')],
    &[(b'b', b'v'), (b'a', b'w')],
    &[(b'b', b'v'), (b'b', b'v')],
    &[(b'b', b'v'), (b'b', b'w')],
    &[(b'b', b'w'), (b'a', b'v')],
    &[(b'b', b'w'), (b'a', b'w')],
    &[(b'b', b'w'), (b'b', b'v')],
    &[(b'b', b'w'), (b'b', b'w')],
];

/// The items at a place.
fn items_at(place: usize) -> &'static [Found] {
    match ITEMS.get(place) {
        Some(items) => items,
        None => &[],
    }
}

impl Dice {
    fn roll(&mut self, sides: u64) -> u64 {
        self.state = self
            .state
            .wrapping_mul(6_364_136_223_846_793_005)
            .wrapping_add(1_442_695_040_888_963_407);
        (self.state >> 33).checked_rem(sides).unwrap_or(0)
    }

    fn op(&mut self) -> OpId {
        let proxy = if self.roll(2) == 0 { 0 } else { 1 };
        op(proxy, self.roll(9))
    }

    fn name(&mut self) -> u8 {
        if self.roll(3) == 0 { b'b' } else { b'a' }
    }

    fn data(&mut self) -> u8 {
        if self.roll(16) == 0 { b'w' } else { b'v' }
    }

    fn author(&mut self) -> Author {
        if self.roll(3) == 0 {
            Author::Beginning
        } else {
            Author::By(self.op())
        }
    }

    /// One of the first four items.
    fn item(&mut self) -> usize {
        let name = usize::from(self.roll(3) == 0);
        2 * name + usize::from(self.roll(16) == 0)
    }

    fn one_item(&mut self) -> &'static [Found] {
        items_at(self.item())
    }

    fn two_items(&mut self) -> &'static [Found] {
        let first = self.item().saturating_add(1).saturating_mul(4);
        items_at(first.saturating_add(self.item()))
    }

    fn answer(&mut self) -> Told {
        let op = self.op();
        match self.roll(8) {
            0 => Told::IsStored(op),
            1..=3 => Told::IsDeleted(op),
            4 => Told::NotFound(op),
            5 => Told::Items(op, self.two_items()),
            _ => Told::Items(op, self.one_item()),
        }
    }

    pub fn entry(&mut self) -> Told {
        match self.roll(16) {
            0..=2 => Told::Get(self.op(), self.name()),
            3..=6 => Told::Delete(self.op(), self.name()),
            7 => Told::Stored(self.author(), self.name(), self.data()),
            8 => Told::Set(self.op(), self.name(), self.data()),
            9 => Told::Removed(self.op(), Side::New, self.name()),
            _ => self.answer(),
        }
    }
}
