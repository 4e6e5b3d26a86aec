//! What is asked of a service, and what is given of its answer.
ghost use Rattle.std.specs.Prelude.{◌≡◌, ◌+◌, ◌≤◌, IfOk, IfErr, OnOk};
ghost use Rattle.mr_http.specs.Fetch.{metrics_request, stats_request, IsAsked, IsFetched, IsNotAnswered, IsNotFetched};
ghost use Rattle.mr_http.specs.Pieces.{IsRead, most_reads};
ghost use Rattle.mr_http.specs.declared.pieces.Until.TheVariants.{EndOfInput, EndOfStats};

use crate::error::FetchFault;
use crate::pieces::{Until, read_until};
use crate::received::body_of;
use mr_text::{Sink, Source};
use std::alloc::{AllocError, Global};

/// The request for the metrics of a host.
fn metrics_request(alloc: Global, host: &str) -> Result<Vec<u8>, AllocError>
    ensures { IfOk result (λ request. request.items ≡ metrics_request host.now) }
{
    let mut request = Vec::new(alloc);
    request.extend_from_slice(b"GET /metrics HTTP/1.1\r\nHost: ")?;
    request.extend_from_slice(host.as_bytes())?;
    request.extend_from_slice(b"\r\nConnection: close\r\n\r\n")?;
    Ok(request)
}

/// Asks a service for its metrics in one write, with `host` as it stands, and gives the body of its response, which is read to
/// the end of the input, in at most 4,194,305 reads. A response is of status 200, has up to 64 fields and isn't sent in chunks;
/// where its length is told, its body has that length.
///
/// WriteFault where the write failed, and then nothing is read; ReadFault where a read failed; TooLarge where more than
/// `MAX_RESPONSE` bytes came; NoResponse where what came is no response with a whole body; OutOfMemory.
pub fn fetch_metrics<S: Source, W: Sink>(
    alloc: Global,
    host: &str,
    reader: &mut S,
    writer: &mut W,
) -> Result<Vec<u8>, FetchFault>
    ensures asked { OnOk result (IsAsked (metrics_request host.now) (W.told writer.old) (W.told writer.new)) }
    ensures fetched { IfOk result (λ body. IsFetched body.items (S.told reader.old) (S.told reader.new)) }
    ensures refused { IfErr result (λ fault.
        IsNotFetched (metrics_request host.now) fault (S.told reader.old) (W.told writer.old) (S.told reader.new) (W.told writer.new)) }
    ensures reads { (S.told reader.new).reads ≤ (S.told reader.old).reads + most_reads EndOfInput }
{
    let request = metrics_request(alloc, host)?;
    writer.write_all(request.as_slice())?;
    let response = read_until(alloc, reader, Until::EndOfInput)?;
    body_of(alloc, response.as_slice())
}

/// Asks a memcached for its statistics in one write, and gives all that is read, in at most 65,537 reads: until it ends in
/// `END` or in `ERROR` with its line end, or the input has ended.
///
/// WriteFault where the write failed, and then nothing is read; ReadFault where a read failed; TooLarge where more than
/// `MAX_STATS` bytes came; OutOfMemory.
pub fn ask_stats<S: Source, W: Sink>(
    alloc: Global,
    reader: &mut S,
    writer: &mut W,
) -> Result<Vec<u8>, FetchFault>
    ensures asked { OnOk result (IsAsked stats_request (W.told writer.old) (W.told writer.new)) }
    ensures read { IfOk result (λ answer. IsRead EndOfStats answer.items (S.told reader.old) (S.told reader.new)) }
    ensures refused { IfErr result (λ fault.
        IsNotAnswered stats_request EndOfStats fault (S.told reader.old) (W.told writer.old) (S.told reader.new) (W.told writer.new)) }
    ensures reads { (S.told reader.new).reads ≤ (S.told reader.old).reads + most_reads EndOfStats }
{
    writer.write_all(b"stats\r\n")?;
    read_until(alloc, reader, Until::EndOfStats)
}
