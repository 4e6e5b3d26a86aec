//! What is heard of the head of a request.
ghost use Rattle.std.specs.Prelude.{◌≡◌, ◌≤◌, ℕ, List, length};
ghost use Rattle.httparse.specs.Grammar.{RequestHead, ReadsRequest, HasNoRequest, MayBecomeRequest, NeverHasRequest};
ghost use Rattle.httparse.specs.Spans.{RequestExceeds};
ghost use Rattle.mr_http.specs.Heard.{heard_of, MAX_FIELDS, IsWhole, Hears};

use httparse::spans::{EMPTY_HEADER_SPAN, RequestSpans, parse_request};
use httparse::{Error, Status};

/// How many fields a head may have.
pub const MAX_FIELDS: usize = 64;

/// What is heard of the head of a request.
#[derive(Clone, Copy, Debug, PartialEq, Eq)]
pub(crate) enum Heard {
    /// A GET of the metrics.
    Get,
    /// A HEAD of the metrics.
    Head,
    /// Another path is asked for.
    OtherPath,
    /// Something else is to be done with the metrics.
    OtherMethod,
    /// The head may go on.
    Unfinished,
    /// No head begins so.
    NoHead,
    /// The head has more than `MAX_FIELDS` fields.
    TooManyFields,
}

/// What a head asks for, by its method and its target.
fn heard_of(method: &[u8], target: &[u8]) -> Heard
    ensures { result ≡ heard_of method.now target.now }
{
    if target != b"/metrics".as_slice() {
        Heard::OtherPath
    } else if method == b"GET".as_slice() {
        Heard::Get
    } else if method == b"HEAD".as_slice() {
        Heard::Head
    } else {
        Heard::OtherMethod
    }
}

/// What is heard of the bytes that came so far.
pub(crate) fn hear(bytes: &[u8]) -> Heard
    ensures hears { Hears bytes.now result }
    ensures found { (head : RequestHead) (rest : List ℕ) → ReadsRequest bytes.now head rest
        → length head.fields ≤ MAX_FIELDS → result ≡ heard_of head.method head.target }
{
    let mut fields = [EMPTY_HEADER_SPAN; MAX_FIELDS];
    match parse_request(bytes, &mut fields) {
        Ok(Status::Complete(head)) => heard_of(head.method.of(bytes), head.path.of(bytes)),
        Ok(Status::Partial) => Heard::Unfinished,
        Err(Error::TooManyHeaders) => Heard::TooManyFields,
        Err(_) => Heard::NoHead,
    }
}
