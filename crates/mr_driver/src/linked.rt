//! What a loop asks of a machine that has links.
ghost use Rattle.std.specs.Prelude.{◌≡◌, ℕ, ◌<◌, ◌≤◌, List, length};

mod proxy;

use mr_loop::LinkEnd;

/// A machine with links, each a connection that its loop makes, and makes again where it broke. They go by their numbers. Times are in
/// microseconds of a clock that never goes back.
pub trait Linked: Drop {
    /// How many links it has.
    ghost link_count: { Self → ℕ };

    /// The bytes that are to be written over the link of a number.
    ghost link_output_at: { Self → ℕ → List ℕ };

    /// What one of these calls may make of it.
    ghost link_steps: { Self → Self → Type 0 };

    /// How many links there are.
    fn links(&self) -> usize
        ensures { result ≡ link_count self.now };

    /// A dial begins. What comes of it is told by `on_link_up` alone: of one that fails nothing is.
    fn on_link_dialed(&mut self, number: usize)
        requires { number < link_count self.old }
        ensures { link_steps self.old self.new };

    /// A connection was made at this time.
    fn on_link_up(&mut self, number: usize, now: u64)
        requires { number < link_count self.old }
        ensures { link_steps self.old self.new };

    /// Bytes came over a link at this time. Unless it goes on, the machine knows that the link has ended, and takes nothing more from it.
    fn on_link_bytes(&mut self, number: usize, now: u64, bytes: &[u8]) -> LinkEnd
        requires { number < link_count self.old }
        ensures { link_steps self.old self.new };

    /// A link broke at this time.
    fn on_link_broken(&mut self, number: usize, now: u64)
        requires { number < link_count self.old }
        ensures { link_steps self.old self.new };

    /// The bytes that are to be written over a link.
    fn link_output(&self, number: usize) -> &[u8]
        requires { number < link_count self.now }
        ensures { result.now ≡ link_output_at self.now number };

    /// So many bytes were written over a link.
    fn on_link_written(&mut self, number: usize, count: usize)
        requires number { number < link_count self.old }
        requires count { count ≤ length (link_output_at self.old number) }
        ensures { link_steps self.old self.new };

    /// Whether there is a connection for the machine. One that there was for the loop too is ended where there is none for the machine any
    /// more, as where that gave it up for its silence.
    fn is_link_up(&self, number: usize) -> bool;

    /// Time passed.
    fn on_tick(&mut self, now: u64)
        ensures { link_steps self.old self.new };

    /// Whether time does something to what went over the links, or is to go.
    fn awaits(&self) -> bool;
}
