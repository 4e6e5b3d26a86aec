//! Connections that are read and written for a bounded time.

use std::io;
use std::io::{Read, Write};
use std::net::TcpStream;
use std::time::{Clock, Duration, Instant};

/// A connection that is read and written until a moment, and not after it.
pub(crate) struct UntilThen<'a, R: Clock> {
    pub(crate) rt: &'a R,
    pub(crate) stream: &'a TcpStream,
    pub(crate) until: Instant,
}

impl<'a, R: Clock> Drop for UntilThen<'a, R> {
    fn drop(self) {
        let Self {
            rt: _,
            stream: _,
            until: _,
        } = self;
    }
}

/// How long there is still until a moment: a millisecond at least.
pub(crate) fn left_until<R: Clock>(rt: &R, until: Instant) -> io::Result<Duration> {
    let left = until.saturating_duration_since(Instant::now(rt)?);
    if left < Duration::from_millis(1) {
        return Err(io::Error::from(io::ErrorKind::TimedOut));
    }
    Ok(left)
}

impl<'a, R: Clock> UntilThen<'a, R> {
    /// How long there is still.
    fn left(&self) -> io::Result<Duration> {
        left_until(self.rt, self.until)
    }
}

impl<'a, R: Clock> Read for UntilThen<'a, R> {
    fn read(&mut self, buf: &mut [u8]) -> io::Result<usize> {
        self.stream.set_read_timeout(Some(self.left()?))?;
        let mut stream = self.stream;
        stream.read(buf)
    }
}

impl<'a, R: Clock> Write for UntilThen<'a, R> {
    fn write(&mut self, buf: &[u8]) -> io::Result<usize> {
        self.stream.set_write_timeout(Some(self.left()?))?;
        let mut stream = self.stream;
        stream.write(buf)
    }

    fn flush(&mut self) -> io::Result<()> {
        Ok(())
    }
}
