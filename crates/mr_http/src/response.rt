//! What a scraper is answered.
ghost use Rattle.std.specs.Prelude.{◌≡◌, ◌++◌, IfOk, OnOk};
ghost use Rattle.mr_http.specs.Response.{reason, media_type, status_line, field, type_field, length_field, allow_field, end_of_head, response_head, refusal_body, refusal_text};

use itoa::Buffer;
use std::alloc::{AllocError, Global};

/// How a request ended.
#[derive(Clone, Copy, Debug, PartialEq, Eq)]
pub(crate) enum Status {
    /// Here is what was asked for.
    Ok,
    /// The request is none.
    BadRequest,
    /// There is nothing at this path.
    NotFound,
    /// This can't be done with it.
    MethodNotAllowed,
    /// The head of the request is too large.
    HeadTooLarge,
}

impl Status {
    /// Its number and its words.
    fn as_str(self) -> &'static str
        ensures { result.now ≡ reason self }
    {
        match self {
            Status::Ok => "200 OK",
            Status::BadRequest => "400 Bad Request",
            Status::NotFound => "404 Not Found",
            Status::MethodNotAllowed => "405 Method Not Allowed",
            Status::HeadTooLarge => "431 Request Header Fields Too Large",
        }
    }

    /// The media type of what follows the head.
    fn media_type(self) -> &'static str
        ensures { result.now ≡ media_type self }
    {
        match self {
            Status::Ok => "text/plain; version=0.0.4; charset=utf-8",
            _ => "text/plain; charset=utf-8",
        }
    }
}

/// Adds the line of a status.
fn push_status_line(text: &mut Vec<u8>, status: Status) -> Result<(), AllocError>
    ensures { OnOk result (text.new.items ≡ text.old.items ++ status_line status) }
{
    text.extend_from_slice(b"HTTP/1.1 ")?;
    text.extend_from_slice(status.as_str().as_bytes())?;
    text.extend_from_slice(b"\r\n")?;
    Ok(())
}

/// Adds a field.
fn push_field(text: &mut Vec<u8>, name: &str, value: &str) -> Result<(), AllocError>
    ensures { OnOk result (text.new.items ≡ text.old.items ++ field name.now value.now) }
{
    text.extend_from_slice(name.as_bytes())?;
    text.extend_from_slice(b": ")?;
    text.extend_from_slice(value.as_bytes())?;
    text.extend_from_slice(b"\r\n")?;
    Ok(())
}

/// Adds the field of the media type.
fn push_type(text: &mut Vec<u8>, status: Status) -> Result<(), AllocError>
    ensures { OnOk result (text.new.items ≡ text.old.items ++ type_field status) }
{
    push_field(text, "Content-Type", status.media_type())
}

/// Adds the field of the body's length in bytes.
fn push_length(text: &mut Vec<u8>, bytes: u64) -> Result<(), AllocError>
    ensures { OnOk result (text.new.items ≡ text.old.items ++ length_field bytes) }
{
    let mut buffer = Buffer::new();
    push_field(text, "Content-Length", buffer.format(bytes))
}

/// Adds the field that says what can be done, where something else was asked for.
fn push_allow(text: &mut Vec<u8>, status: Status) -> Result<(), AllocError>
    ensures { OnOk result (text.new.items ≡ text.old.items ++ allow_field status) }
{
    match status {
        Status::MethodNotAllowed => push_field(text, "Allow", "GET, HEAD"),
        _ => Ok(()),
    }
}

/// Adds the field that says that the connection ends here, and the end of the head.
fn push_close(text: &mut Vec<u8>) -> Result<(), AllocError>
    ensures { OnOk result (text.new.items ≡ text.old.items ++ end_of_head) }
{
    text.extend_from_slice(b"Connection: close\r\n\r\n")?;
    Ok(())
}

/// Adds the head of a response whose body has so many bytes. The connection is closed after it.
pub(crate) fn push_response_head(
    text: &mut Vec<u8>,
    status: Status,
    bytes: u64,
) -> Result<(), AllocError>
    ensures { OnOk result (text.new.items ≡ text.old.items ++ response_head status bytes) }
{
    push_status_line(text, status)?;
    push_type(text, status)?;
    push_length(text, bytes)?;
    push_allow(text, status)?;
    push_close(text)?;
    Ok(())
}

/// Adds the body of a refusal: the number and the words of its status, in a line.
fn push_refusal_body(text: &mut Vec<u8>, status: Status) -> Result<(), AllocError>
    ensures { OnOk result (text.new.items ≡ text.old.items ++ refusal_body status) }
{
    text.extend_from_slice(status.as_str().as_bytes())?;
    text.extend_from_slice(b"\n")?;
    Ok(())
}

/// A refusal, whole. To a HEAD its body is left out.
pub(crate) fn refusal(alloc: Global, status: Status) -> Result<Vec<u8>, AllocError>
    ensures { IfOk result (λ text. text.items ≡ refusal_text status) }
{
    let mut text = Vec::new(alloc);
    let bytes = status.as_str().len() as u64 + 1;
    push_response_head(&mut text, status, bytes)?;
    push_refusal_body(&mut text, status)?;
    Ok(text)
}
