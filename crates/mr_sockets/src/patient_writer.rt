//! Writing to a client who takes nothing for a while.

use std::io;
use std::io::Write;
use std::net::TcpStream;
use std::time::Duration;

/// In how many parts of a client's time it is looked whether it took anything, where that is no longer than as many seconds. A
/// longer one has a part for each second.
const LEAST_PARTS: u64 = 8;

/// How long such a part is, in milliseconds, for each second of the whole time.
const PART_MILLIS: u64 = 125;

/// In how many parts it is looked whether a client took anything who may take nothing for so many seconds; 0 for as many as it
/// likes, in one part.
fn parts_of(seconds: u64) -> u64 {
    if seconds == 0 {
        1
    } else {
        seconds.max(LEAST_PARTS)
    }
}

/// How long each of these parts is.
fn part_of(seconds: u64) -> Duration {
    Duration::from_millis(seconds.min(LEAST_PARTS) * PART_MILLIS)
}

/// A client's connection. A write fails once its client has taken nothing for as many seconds as it may, and within a part of them
/// more: a socket's own bound begins anew with each write that found a little room, so that it comes to several times that.
pub(crate) struct PatientWriter<'a> {
    stream: &'a TcpStream,
    parts: u64,
}

impl<'a> Drop for PatientWriter<'a> {
    fn drop(self) {
        let Self {
            stream: _,
            parts: _,
        } = self;
    }
}

impl<'a> PatientWriter<'a> {
    /// The connection of a client who may take nothing for so many seconds; 0 for as many as it likes.
    pub(crate) fn new(stream: &'a TcpStream, seconds: u64) -> PatientWriter<'a> {
        if seconds > 0 {
            let _ = stream.set_write_timeout(Some(part_of(seconds)));
        }
        PatientWriter {
            stream,
            parts: parts_of(seconds),
        }
    }
}

/// Whether nothing could be written in time.
fn is_late(written: &io::Result<usize>) -> bool {
    match written {
        Ok(_) => false,
        Err(error) => match error.kind() {
            io::ErrorKind::WouldBlock | io::ErrorKind::TimedOut => true,
            _ => false,
        },
    }
}

impl<'a> Write for PatientWriter<'a> {
    fn write(&mut self, buf: &[u8]) -> io::Result<usize> {
        let mut stream = self.stream;
        for _ in 1..self.parts {
            let written = stream.write(buf);
            if !is_late(&written) {
                return written;
            }
        }
        stream.write(buf)
    }

    fn flush(&mut self) -> io::Result<()> {
        Ok(())
    }
}
