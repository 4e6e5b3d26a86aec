//! The one or two sides that a request goes to.
ghost use Rattle.std.specs.Prelude.{◌≡◌, List, [], ◌∷◌, length, slice_get};
ghost use Rattle.mr_phases.specs.declared.side.Side.{Side};
ghost use Rattle.mr_phases.specs.Sides.{sides_in};

use crate::side::Side;
use std::marker::Model;
use std::slice;

const BOTH: [Side; 2] = [Side::Old, Side::New];

/// How many sides a delete goes to, as a type: `OneSide` or `TwoSides`.
pub trait SideCount {
    ghost sides: { Self → List Side };

    /// The same sides as a value that can be gone over by place.
    fn into_sides(self) -> Sides
        ensures { sides_in result ≡ sides self };
}

/// One side alone.
#[derive(Clone, Copy, Debug, PartialEq, Eq)]
pub struct OneSide {
    side: Side,
}

impl Model for OneSide {
    ghost use Rattle.mr_phases.specs.declared.side.Side.{Side};

    ghost Value = { Side };

    ghost view = { λ one. one.side };

    ghost inverse = { λ side. record { side = side } };
}

impl OneSide {
    /// This side alone.
    pub(crate) fn of(side: Side) -> OneSide
        ensures { result ≡ side }
    {
        OneSide { side }
    }

    /// The side.
    pub fn side(self) -> Side
        ensures { result ≡ self }
    {
        self.side
    }
}

impl SideCount for OneSide {
    ghost sides = { λ side. side ∷ [] };

    fn into_sides(self) -> Sides {
        Sides::One(self)
    }
}

/// Both sides.
#[derive(Clone, Copy, Debug, PartialEq, Eq)]
pub struct TwoSides;

impl TwoSides {
    /// The sides, the old one first.
    pub fn as_array(self) -> [Side; 2]
        ensures { result ≡ Side.Old ∷ Side.New ∷ [] }
    {
        BOTH
    }
}

impl SideCount for TwoSides {
    ghost sides = { λ _. Side.Old ∷ Side.New ∷ [] };

    fn into_sides(self) -> Sides {
        Sides::Two(self)
    }
}

/// The one or two sides that a request goes to, in order of place: the old side first.
#[derive(Clone, Copy, Debug, PartialEq, Eq)]
pub enum Sides {
    /// One side alone.
    One(OneSide),
    /// Both sides.
    Two(TwoSides),
}

impl Sides {
    /// How many sides there are: 1 or 2.
    pub fn count(&self) -> usize
        ensures { result ≡ length (sides_in self.now) }
    {
        self.as_slice().len()
    }

    /// The sides in order of place.
    pub fn as_slice(&self) -> &[Side]
        ensures { result.now ≡ sides_in self.now }
    {
        match self {
            Sides::One(one) => slice::from_ref(&one.side),
            Sides::Two(_) => &BOTH,
        }
    }

    /// The side at this place, counted from 0; None past the last.
    pub fn get(&self, place: usize) -> Option<Side>
        ensures { result ≡ slice_get (sides_in self.now) place }
    {
        self.as_slice().get(place).copied()
    }
}
