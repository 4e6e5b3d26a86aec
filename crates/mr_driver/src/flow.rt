//! What is known of a socket.
ghost use Rattle.std.specs.Prelude.{◌≡◌, ◌||◌, ◌&&◌, not};
ghost use Rattle.mio.specs.Event.{is_error, is_read_closed, is_readable, is_writable};
ghost use Rattle.mr_driver.specs.Flow.{still, after_signs, after_reading, after_writing};

use crate::reading::Got;
use crate::writing::Put;
use mio::event::Event;

/// What an event says of a socket.
#[derive(Clone, Copy, Debug, PartialEq, Eq)]
pub struct Signs {
    /// It may be read.
    pub(crate) sends: bool,
    /// It takes bytes.
    pub(crate) takes: bool,
    /// Its end may have come, or it is broken.
    pub(crate) ends: bool,
}

/// What an event says.
pub(crate) fn signs_of(event: &Event) -> Signs
    ensures sends { result.sends ≡ is_readable event.now }
    ensures takes { result.takes ≡ is_writable event.now }
    ensures ends { result.ends ≡ (is_read_closed event.now || is_error event.now) }
{
    Signs {
        sends: event.is_readable(),
        takes: event.is_writable(),
        ends: event.is_read_closed() || event.is_error(),
    }
}

/// What is known of a socket, of which events tell changes alone.
#[derive(Clone, Copy, Debug, PartialEq, Eq)]
pub(crate) struct Flow {
    /// There may be bytes that weren't read.
    pub(crate) has_more: bool,
    /// Its end may have come, or it is broken, so that it is read until that shows.
    pub(crate) to_end: bool,
    /// It took less than was to be written. An event tells when it takes more.
    pub(crate) is_blocked: bool,
}

impl Flow {
    /// A socket of which nothing was told yet.
    pub(crate) fn new() -> Flow
        ensures { result ≡ still }
    {
        Flow {
            has_more: false,
            to_end: false,
            is_blocked: false,
        }
    }

    /// Something happened to it.
    pub(crate) fn note(&mut self, signs: Signs)
        ensures { self.new ≡ after_signs signs self.old }
    {
        if signs.sends || signs.ends {
            self.has_more = true;
        }
        if signs.ends {
            self.to_end = true;
        }
        if signs.takes {
            self.is_blocked = false;
        }
    }

    /// It was read once. All that was there came, where it wasn't what there was room for; then an event tells of more, unless its
    /// end is there already.
    pub(crate) fn note_read(&mut self, got: Got)
        ensures { self.new ≡ after_reading got self.old }
    {
        match got {
            Got::All(count) => self.has_more = self.to_end && count > 0,
            Got::Some(_) => {}
            Got::End | Got::Broken => self.has_more = false,
        }
    }

    /// It was written to once.
    pub(crate) fn note_written(&mut self, put: Put)
        ensures { self.new ≡ after_writing put self.old }
    {
        match put {
            Put::All(_) | Put::Broken => {}
            Put::Some(_) => self.is_blocked = true,
        }
    }
}
