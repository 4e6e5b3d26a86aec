//! The body of a response.
ghost use Rattle.std.specs.Prelude.{◌≡◌, ◌↔◌, ◌≤◌, length, drop, IsTrue, All, IfSome, IfNone, IfOk, IfErr};
ghost use Rattle.httparse.specs.Spans.{IsHeaderWithin, header_bytes};
ghost use Rattle.mr_http.specs.Received.{Agrees, IsBody, HasNoBody, HasNoneFor};

use crate::error::FetchFault;
use crate::heard::MAX_FIELDS;
use httparse::Status;
use httparse::spans::{EMPTY_HEADER_SPAN, HeaderSpan, parse_response};
use itoa::Buffer;
use std::alloc::Global;

/// Whether a field, with its value, agrees with a body of so many bytes.
fn agrees(name: &[u8], value: &[u8], bytes: usize) -> bool
    ensures { IsTrue result ↔ Agrees bytes (name.now, value.now) }
{
    if name.eq_ignore_ascii_case(b"Transfer-Encoding") {
        return false;
    }
    if !name.eq_ignore_ascii_case(b"Content-Length") {
        return true;
    }
    let mut buffer = Buffer::new();
    value == buffer.format(bytes as u64).as_bytes()
}

/// Whether each of the fields, which stand in the response, agrees with a body of so many bytes.
fn all_agree(response: &[u8], fields: &[HeaderSpan], bytes: usize) -> bool
    requires { All (IsHeaderWithin (length response.now)) fields.now }
    ensures { IsTrue result ↔ All (λ field. Agrees bytes (header_bytes response.now field)) fields.now }
{
    for field in fields {
        if !agrees(field.name.of(response), field.value.of(response), bytes) {
            return false;
        }
    }
    true
}

/// Where the body of a response begins. None where it has none.
fn body_start(response: &[u8]) -> Option<usize>
    ensures within { IfSome result (λ start. start ≤ length response.now) }
    ensures body { IfSome result (λ start. IsBody response.now (drop start response.now)) }
    ensures none { IfNone result (HasNoBody response.now) }
{
    let mut fields = [EMPTY_HEADER_SPAN; MAX_FIELDS];
    let Ok(Status::Complete(head)) = parse_response(response, &mut fields) else {
        return None;
    };
    if head.code != 200 {
        return None;
    }
    let bytes = response.len() - head.len;
    if all_agree(response, &fields[..head.headers], bytes) {
        Some(head.len)
    } else {
        None
    }
}

/// The body of a response. NoResponse where it has none, OutOfMemory.
pub(crate) fn body_of(alloc: Global, response: &[u8]) -> Result<Vec<u8>, FetchFault>
    ensures body { IfOk result (λ body. IsBody response.now body.items) }
    ensures refused { IfErr result (λ fault. HasNoneFor response.now fault) }
{
    let Some(start) = body_start(response) else {
        return Err(FetchFault::NoResponse);
    };
    Ok(Vec::from_slice(alloc, &response[start..])?)
}
