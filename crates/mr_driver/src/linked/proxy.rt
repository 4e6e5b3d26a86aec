//! A proxy's loop as a machine that has links: one to each node.
ghost use Rattle.std.specs.Prelude.{◌≡◌, ◌<◌, ◌≤◌, length, nat_lt, slice_get};
ghost use Rattle.mr_loop.specs.Links.{is_up_at};
ghost use Rattle.mr_driver.specs.Going.{LinkStep};
ghost use Rattle.mr_loop.specs.LoopView.{LinkBreaks, LinkBytes, LinkComesUp, LinkDialed, LinkWrote, after_tick, link_output_in};

use crate::linked::Linked;
use mr_loop::{LinkEnd, ProxyLoop};

impl Linked for ProxyLoop {
    ghost link_count = { λ l. length l.links };

    ghost link_output_at = { λ l number. link_output_in (slice_get l.links number) };

    ghost link_steps = { LinkStep };

    fn links(&self) -> usize {
        ProxyLoop::links(self)
    }

    fn on_link_dialed(&mut self, number: usize)
        requires { number < length self.old.links }
        ensures { LinkDialed number self.old self.new }
    {
        ProxyLoop::on_link_dialed(self, number);
    }

    fn on_link_up(&mut self, number: usize, now: u64)
        requires { number < length self.old.links }
        ensures { LinkComesUp number now self.old self.new }
    {
        ProxyLoop::on_link_up(self, number, now);
    }

    fn on_link_bytes(&mut self, number: usize, now: u64, bytes: &[u8]) -> LinkEnd
        requires { number < length self.old.links }
        ensures { LinkBytes number now bytes.now self.old result self.new }
    {
        ProxyLoop::on_link_bytes(self, number, now, bytes)
    }

    fn on_link_broken(&mut self, number: usize, now: u64)
        requires { number < length self.old.links }
        ensures { LinkBreaks number now self.old self.new }
    {
        ProxyLoop::on_link_broken(self, number, now);
    }

    fn link_output(&self, number: usize) -> &[u8] {
        ProxyLoop::link_output(self, number)
    }

    fn on_link_written(&mut self, number: usize, count: usize)
        requires number { number < length self.old.links }
        requires count { count ≤ length (link_output_in (slice_get self.old.links number)) }
        ensures { LinkWrote number count self.old self.new }
    {
        ProxyLoop::on_link_written(self, number, count);
    }

    fn is_link_up(&self, number: usize) -> bool
        ensures { result ≡ is_up_at self.now.links number }
    {
        self.is_up(number)
    }

    fn on_tick(&mut self, now: u64)
        ensures { self.new ≡ after_tick now self.old }
    {
        ProxyLoop::on_tick(self, now);
    }

    fn awaits(&self) -> bool
        ensures { result ≡ nat_lt 0 (length self.now.front.core.outstanding) }
    {
        self.core().outstanding() > 0
    }
}
