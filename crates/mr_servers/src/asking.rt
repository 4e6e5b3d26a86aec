//! Services that are asked what they tell of themselves. No contract speaks of what they answer, nor of how long it takes.
ghost use Rattle.std.specs.Prelude.{◌≡◌, Ok, Err};
ghost use Rattle.mr_servers.specs.Asking.{GivesAnswer};

use crate::moments::moment_after;
use crate::until::{UntilThen, left_until};
use mr_http::{FetchFault, ask_stats, fetch_metrics};
use mr_sockets::{address_of, node_address};
use mr_text::{OverReader, OverWriter};
use std::alloc::{AllocError, Global};
use std::net::{Net, SocketAddr, SocketAddrV4, TcpStream};
use std::time::{Clock, Instant};

/// How long a service is asked at most, in milliseconds, from connecting to the end of its answer.
const ASK_MILLIS: u64 = 1_000;

/// A connection to an address, with the moment until which it may be asked, which is also the latest at which it may be made.
fn connect<R: Net<Stream = TcpStream> + Clock>(
    rt: &R,
    address: SocketAddrV4,
) -> Option<(TcpStream, Instant)> {
    let until = moment_after(rt, ASK_MILLIS)?;
    let Ok(left) = left_until(rt, until) else {
        return None;
    };
    match TcpStream::connect_timeout(rt, &SocketAddr::V4(address), left) {
        Ok(stream) => {
            let _ = stream.set_nodelay(true);
            Some((stream, until))
        }
        Err(_) => None,
    }
}

/// An answer, or none: only that memory was refused is told.
fn answer_of(answer: Result<Vec<u8>, FetchFault>) -> Result<Option<Vec<u8>>, AllocError>
    ensures { GivesAnswer answer result }
{
    match answer {
        Ok(bytes) => Ok(Some(bytes)),
        Err(FetchFault::OutOfMemory) => Err(AllocError),
        Err(_) => Ok(None),
    }
}

/// What a service tells of itself at an address, which is asked for a second at most. None where the text is no address, where no
/// connection is made, or where the answer isn't whole.
pub(crate) fn metrics_at<R: Net<Stream = TcpStream> + Clock>(
    rt: &R,
    alloc: Global,
    text: &str,
) -> Result<Option<Vec<u8>>, AllocError> {
    let Some(address) = address_of(text) else {
        return Ok(None);
    };
    let Some((stream, until)) = connect(rt, address) else {
        return Ok(None);
    };
    let stream = &stream;
    let mut reader = OverReader::new(UntilThen { rt, stream, until });
    let mut writer = OverWriter::new(UntilThen { rt, stream, until });
    answer_of(fetch_metrics(alloc, text, &mut reader, &mut writer))
}

/// What a memcached answers to `stats`, which is asked for a second at most. None as for `metrics_at`.
pub(crate) fn stats_at<R: Net<Stream = TcpStream> + Clock>(
    rt: &R,
    alloc: Global,
    name: &str,
) -> Result<Option<Vec<u8>>, AllocError> {
    let Some(address) = node_address(name) else {
        return Ok(None);
    };
    let Some((stream, until)) = connect(rt, address) else {
        return Ok(None);
    };
    let stream = &stream;
    let mut reader = OverReader::new(UntilThen { rt, stream, until });
    let mut writer = OverWriter::new(UntilThen { rt, stream, until });
    answer_of(ask_stats(alloc, &mut reader, &mut writer))
}
