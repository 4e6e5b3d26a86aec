//! Numbers that look drawn, by which requests are chosen.
ghost use Rattle.std.specs.Prelude.{◌≡◌, ◌<◌, length};
ghost use Rattle.mr_probes.specs.Dice.{rolled, dice_after, kind_of, drawn};

use crate::wish::{Kind, Wish};

/// What the state grows by at each step.
const STEP: u64 = 0x9E37_79B9_7F4A_7C15;

/// The first factor by which a state is mixed.
const FIRST_FACTOR: u64 = 0xBF58_476D_1CE4_E5B9;

/// The second one.
const SECOND_FACTOR: u64 = 0x94D0_49BB_1331_11EB;

/// A generator of numbers: the public-domain splitmix64 of Sebastiano Vigna.
#[derive(Clone, Copy, Debug, PartialEq, Eq)]
pub struct Dice {
    /// Its state.
    pub state: u64,
}

/// Which of three kinds of request is asked, by a roll: of eight, one set, one delete and six gets.
fn kind_of(roll: u64) -> Kind
    ensures { result ≡ kind_of roll }
{
    match roll >> 61 {
        0 => Kind::Set,
        1 => Kind::Delete,
        _ => Kind::Get,
    }
}

impl Dice {
    /// The number that is drawn next.
    #[tactic(auto, unfolding(crate::specs::Dice::rolled))]
    pub(crate) fn roll(&self) -> u64
        ensures { result ≡ rolled self.now }
    {
        let state = self.state.wrapping_add(STEP);
        let mixed = (state ^ (state >> 30)).wrapping_mul(FIRST_FACTOR);
        let again = (mixed ^ (mixed >> 27)).wrapping_mul(SECOND_FACTOR);
        again ^ (again >> 31)
    }

    /// The number was drawn.
    pub(crate) fn go_on(&mut self)
        ensures { self.new ≡ dice_after self.old }
    {
        self.state = self.state.wrapping_add(STEP);
    }

    /// What is asked next, of so many keys.
    pub(crate) fn draw(&self, keys: usize) -> Wish
        requires { 0 < keys }
        ensures { result ≡ drawn self.now keys }
    {
        let roll = self.roll();
        Wish {
            key: (roll % keys as u64) as usize,
            kind: kind_of(roll),
            cleans: false,
        }
    }
}
