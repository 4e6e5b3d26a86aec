//! Writing without waiting.
ghost use Rattle.std.specs.Prelude.{◌≡◌, ◌≤◌, length};
ghost use Rattle.mr_driver.specs.Writing.{IsPut, count_in};

use mio::net::TcpStream;
use std::io;
use std::io::Write;

/// What one write took.
#[derive(Clone, Copy, Debug, PartialEq, Eq)]
pub(crate) enum Put {
    /// All.
    All(usize),
    /// So many bytes, and an event tells when the socket takes more.
    Some(usize),
    /// The connection is broken.
    Broken,
}

impl Put {
    /// How many bytes were taken.
    pub(crate) fn count(self) -> usize
        ensures { result ≡ count_in self }
    {
        match self {
            Put::All(count) => count,
            Put::Some(count) => count,
            Put::Broken => 0,
        }
    }
}

/// Writes once.
pub(crate) fn write_once(stream: &TcpStream, output: &[u8]) -> Put
    ensures put { IsPut (length output.now) result }
    ensures bounded { count_in result ≤ length output.now }
{
    if output.is_empty() {
        return Put::All(0);
    }
    let mut socket = stream;
    for _ in 0..u64::MAX {
        match socket.write(output) {
            Ok(0) => return Put::Broken,
            Ok(count) if count == output.len() => return Put::All(count),
            Ok(count) => return Put::Some(count),
            Err(error) => match error.kind() {
                io::ErrorKind::WouldBlock => return Put::Some(0),
                io::ErrorKind::Interrupted => {}
                _ => return Put::Broken,
            },
        }
    }
    Put::Broken
}
