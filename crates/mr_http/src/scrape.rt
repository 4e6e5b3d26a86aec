//! The service of one scraper.
ghost use Rattle.std.specs.Prelude.{◌≡◌, ◌+◌, ◌≤◌, ℕ, List, IfOk};
ghost use Rattle.mr_http.specs.Reading.{most_reads};
ghost use Rattle.mr_http.specs.Scrape.{IsAnswer, Scrapes, status_of, unavailable_text};

use crate::heard::Heard;
use crate::reading::{HeadFault, MAX_HEAD, read_head};
use crate::response::{Status, push_response_head, refusal};
use mr_text::{Sink, Source};
use std::alloc::{AllocError, Global};
use thiserror::Error;

/// What is told where metrics are asked for.
pub trait Tells {
    /// What may be told.
    ghost told: { Self → List ℕ → Type 0 };

    /// The metrics, as a text.
    fn tell(&self, alloc: Global) -> Result<Vec<u8>, AllocError>
        ensures { IfOk result (λ text. told self.now text.items) };
}

/// Why a scraper wasn't answered.
#[derive(Clone, Copy, Debug, PartialEq, Eq, Error)]
pub enum ScrapeFault {
    /// A read failed, before anything was written.
    #[error("a read failed")]
    ReadFault,
    /// The write of the answer failed.
    #[error("a write failed")]
    WriteFault,
}

/// What is answered where there is no memory for more.
fn unavailable() -> &'static str
    ensures { result.now ≡ unavailable_text }
{
    "HTTP/1.1 503 Service Unavailable\r\nContent-Length: 0\r\nConnection: close\r\n\r\n"
}

/// How a request ends of which this was heard in so many bytes.
fn status_of(heard: Heard, bytes: usize) -> Status
    ensures { result ≡ status_of heard bytes }
{
    match heard {
        Heard::Get | Heard::Head => Status::Ok,
        Heard::OtherPath => Status::NotFound,
        Heard::OtherMethod => Status::MethodNotAllowed,
        Heard::NoHead => Status::BadRequest,
        Heard::TooManyFields => Status::HeadTooLarge,
        Heard::Unfinished if bytes >= MAX_HEAD => Status::HeadTooLarge,
        Heard::Unfinished => Status::BadRequest,
    }
}

/// The metrics, with the head of their response.
fn told<T: Tells>(alloc: Global, tells: &T) -> Result<Vec<u8>, AllocError>
    ensures { IfOk result (λ text. IsAnswer (T.told tells.now) Heard.Get 0 text.items) }
{
    let body = tells.tell(alloc)?;
    let mut text = Vec::new(alloc);
    push_response_head(&mut text, Status::Ok, body.len() as u64)?;
    text.extend_from_slice(body.as_slice())?;
    Ok(text)
}

/// The head of the metrics' response.
fn told_head<T: Tells>(alloc: Global, tells: &T) -> Result<Vec<u8>, AllocError>
    ensures { IfOk result (λ text. IsAnswer (T.told tells.now) Heard.Head 0 text.items) }
{
    let body = tells.tell(alloc)?;
    let mut text = Vec::new(alloc);
    push_response_head(&mut text, Status::Ok, body.len() as u64)?;
    Ok(text)
}

/// The answer where this was heard in so many bytes.
fn answer<T: Tells>(
    alloc: Global,
    tells: &T,
    heard: Heard,
    bytes: usize,
) -> Result<Vec<u8>, AllocError>
    ensures { IfOk result (λ text. IsAnswer (T.told tells.now) heard bytes text.items) }
{
    match heard {
        Heard::Get => told(alloc, tells),
        Heard::Head => told_head(alloc, tells),
        other => refusal(alloc, status_of(other, bytes)),
    }
}

/// Reads a scraper's request, in at most 8,193 reads, and answers it in one write. ReadFault where a read failed, before anything is written;
/// WriteFault where the write did. Where memory is refused the answer is that the service is unavailable now.
pub fn serve_scrape<T: Tells, S: Source, W: Sink>(
    alloc: Global,
    tells: &T,
    reader: &mut S,
    writer: &mut W,
) -> Result<(), ScrapeFault>
    ensures scraped { Scrapes (T.told tells.now) (S.told reader.old) (W.told writer.old) result
        (S.told reader.new) (W.told writer.new) }
    ensures reads { (S.told reader.new).reads ≤ (S.told reader.old).reads + most_reads }
{
    let text = match read_head(alloc, reader) {
        Ok(head) => answer(alloc, tells, head.heard, head.bytes.len()),
        Err(HeadFault::ReadFault) => return Err(ScrapeFault::ReadFault),
        Err(HeadFault::OutOfMemory) => Err(AllocError),
    };
    let written = match &text {
        Ok(text) => writer.write_all(text.as_slice()),
        Err(_) => writer.write_all(unavailable().as_bytes()),
    };
    match written {
        Ok(()) => Ok(()),
        Err(_) => Err(ScrapeFault::WriteFault),
    }
}
