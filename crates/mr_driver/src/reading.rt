//! Reading without waiting.
ghost use Rattle.std.specs.Prelude.{◌≤◌, length};
ghost use Rattle.mr_driver.specs.Reading.{IsGot};

use mio::net::TcpStream;
use std::io;
use std::io::Read;

/// What one read gave.
#[derive(Clone, Copy, Debug, PartialEq, Eq)]
pub(crate) enum Got {
    /// So many bytes. All that were there, though maybe not the end behind them.
    All(usize),
    /// So many bytes, and there may be more.
    Some(usize),
    /// No more bytes come.
    End,
    /// The connection is broken.
    Broken,
}

/// Reads once.
pub(crate) fn read_once(stream: &TcpStream, input: &mut [u8]) -> Got
    ensures { IsGot (length input.new) result }
{
    let mut socket = stream;
    match socket.read(input) {
        Ok(0) => Got::End,
        Ok(count) if count == input.len() => Got::Some(count),
        Ok(count) => Got::All(count),
        Err(error) => match error.kind() {
            io::ErrorKind::WouldBlock => Got::All(0),
            io::ErrorKind::Interrupted => Got::Some(0),
            _ => Got::Broken,
        },
    }
}
