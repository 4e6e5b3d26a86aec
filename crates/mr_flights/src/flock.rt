//! The clients of a canary as the links of a loop.
ghost use Rattle.std.specs.Prelude.{◌≡◌, ◌<◌, ◌≤◌, length};
ghost use Rattle.std.specs.Borrow.{sem};
ghost use Rattle.mr_probes.specs.CanaryView.{Settles, Ticks, is_up_at, output_at, written};
ghost use Rattle.mr_probes.specs.declared.answering.Said.TheVariants.{Failed};
ghost use Rattle.mr_probes.specs.declared.client.Client.TheVariants.{Down, Idle};
ghost use Rattle.mr_sightings.specs.declared.trouble.Trouble.TheVariants.{BrokeOff};
ghost use Rattle.mr_flights.specs.Flock.{CanaryStep, TakesLinkBytes, end_of};

use mr_driver::Linked;
use mr_loop::LinkEnd;
use mr_probes::{Canary, Goes};
use std::marker::Model;

/// A canary whose clients are the links of a loop, by their places.
#[derive(Drop)]
pub struct Flock {
    canary: Canary,
}

impl Model for Flock {
    ghost use Rattle.mr_probes.specs.CanaryView.{CanaryView};

    ghost Value = { CanaryView };

    ghost view = { λ flock. flock.canary };
}

impl Flock {
    ghost use Rattle.mr_flights.specs.Lending.{LendsCanary};

    /// The clients of a canary.
    pub fn new(canary: Canary) -> Flock
        ensures { result ≡ canary }
    {
        Flock { canary }
    }

    /// The canary.
    pub fn canary(&self) -> &Canary
        ensures { result.now ≡ self.now }
    {
        &self.canary
    }

    /// The canary, which may be changed.
    pub fn canary_mut(&mut self) -> &mut Canary
        ensures* lends { sem 𝓛 (LendsCanary self.entry result) }
        ensures canary { result.now ≡ self.old }
    {
        &mut self.canary
    }
}

/// How a link stands by what a canary says of its connection.
fn end_of(goes: Goes) -> LinkEnd
    ensures { result ≡ end_of goes }
{
    match goes {
        Goes::On => LinkEnd::Whole,
        Goes::Off => LinkEnd::Mismatch,
    }
}

impl Linked for Flock {
    ghost use Rattle.mr_probes.specs.CanaryView.{output_at};

    ghost link_count = { λ canary. length canary.clients };

    ghost link_output_at = { λ canary place. output_at canary place };

    ghost link_steps = { CanaryStep };

    fn links(&self) -> usize {
        self.canary.clients()
    }

    fn on_link_dialed(&mut self, _number: usize)
        requires { _number < length self.old.clients }
        ensures { self.new ≡ self.old }
    {}

    fn on_link_up(&mut self, number: usize, now: u64)
        requires { number < length self.old.clients }
        ensures { Settles number now (Failed BrokeOff) Idle self.old self.new }
    {
        self.canary.on_up(number, now);
    }

    fn on_link_bytes(&mut self, number: usize, now: u64, bytes: &[u8]) -> LinkEnd
        requires { number < length self.old.clients }
        ensures { TakesLinkBytes number now bytes.now self.old result self.new }
    {
        end_of(self.canary.on_bytes(number, now, bytes))
    }

    fn on_link_broken(&mut self, number: usize, now: u64)
        requires { number < length self.old.clients }
        ensures { Settles number now (Failed BrokeOff) Down self.old self.new }
    {
        self.canary.on_broken(number, now);
    }

    fn link_output(&self, number: usize) -> &[u8] {
        self.canary.output(number)
    }

    fn on_link_written(&mut self, number: usize, count: usize)
        requires number { number < length self.old.clients }
        requires count { count ≤ length (output_at self.old number) }
        ensures { self.new ≡ written number count self.old }
    {
        self.canary.on_written(number, count);
    }

    fn is_link_up(&self, number: usize) -> bool
        ensures { result ≡ is_up_at self.now number }
    {
        self.canary.is_up(number)
    }

    fn on_tick(&mut self, now: u64)
        ensures { Ticks now self.old self.new }
    {
        self.canary.on_tick(now);
    }

    /// What is due is asked as time passes.
    fn awaits(&self) -> bool {
        true
    }
}
