//! What the readers answer to a text, shown as bytes.
use crate::{reply_text, request_text};
use mr_text::{ReplyReader, RequestReader, TextError, WriteFault};
use std::alloc::Global;
use std::test::Fail;

/// What is read.
#[derive(Clone, Copy)]
pub enum Texts {
    Requests,
    Replies,
}

/// A reader of either.
#[derive(Drop)]
pub enum Reader {
    OfRequests(RequestReader),
    OfReplies(ReplyReader),
}

/// What a reader did when it was asked.
#[derive(Clone, Copy)]
enum Turn {
    Answered,
    Waits,
    Closed,
}

impl Reader {
    /// A reader of these texts, which was fed nothing.
    pub fn new(alloc: Global, texts: Texts) -> Reader {
        match texts {
            Texts::Requests => Reader::OfRequests(RequestReader::new(alloc)),
            Texts::Replies => Reader::OfReplies(ReplyReader::new(alloc)),
        }
    }

    /// Feeds it, as the readers are fed; their refusal is the error.
    pub fn feed(&mut self, piece: &[u8]) -> Result<(), TextError> {
        match self {
            Reader::OfRequests(reader) => reader.feed(piece),
            Reader::OfReplies(reader) => reader.feed(piece),
        }
    }

    /// Marks the end of its input.
    pub fn end(&mut self) {
        match self {
            Reader::OfRequests(reader) => reader.end(),
            Reader::OfReplies(reader) => reader.end(),
        }
    }

    fn add_next(&mut self, alloc: Global, answers: &mut Vec<u8>) -> Result<Turn, Fail> {
        match self {
            Reader::OfRequests(reader) => add_request(alloc, reader, answers),
            Reader::OfReplies(reader) => add_reply(alloc, reader, answers),
        }
    }
}

/// Adds the next request as it is written, or its refusal's mark.
fn add_request(
    alloc: Global,
    reader: &mut RequestReader,
    answers: &mut Vec<u8>,
) -> Result<Turn, Fail> {
    match reader.next() {
        Ok(Some(request)) => add_text(request_text(alloc, &request), answers),
        Ok(None) => Ok(Turn::Waits),
        Err(refusal) => add_refusal(refusal, answers),
    }
}

/// Adds the next reply as it is written, or its refusal's mark.
fn add_reply(alloc: Global, reader: &mut ReplyReader, answers: &mut Vec<u8>) -> Result<Turn, Fail> {
    match reader.next() {
        Ok(Some(reply)) => add_text(reply_text(alloc, &reply), answers),
        Ok(None) => Ok(Turn::Waits),
        Err(refusal) => add_refusal(refusal, answers),
    }
}

/// Adds what was written.
fn add_text(written: Result<Vec<u8>, WriteFault>, answers: &mut Vec<u8>) -> Result<Turn, Fail> {
    let text = written?;
    answers.extend_from_slice(&text)?;
    Ok(Turn::Answered)
}

/// Adds a refusal's mark.
fn add_refusal(refusal: TextError, answers: &mut Vec<u8>) -> Result<Turn, Fail> {
    answers.extend_from_slice(refusal_mark(refusal))?;
    Ok(match refusal {
        TextError::Closed => Turn::Closed,
        _ => Turn::Answered,
    })
}

/// A mark for each refusal: its number, and whether an unknown command closes.
fn refusal_mark(refusal: TextError) -> &'static [u8] {
    match refusal {
        TextError::LineTooLong => b"<1>",
        TextError::BadKey => b"<2>",
        TextError::BadNumber => b"<3>",
        TextError::WrongWords => b"<4>",
        TextError::DataTooLong => b"<5>",
        TextError::BadDataEnd => b"<6>",
        TextError::UnknownCommand { closes: false } => b"<7>",
        TextError::UnknownCommand { closes: true } => b"<7 closes>",
        TextError::Truncated => b"<8>",
        TextError::Closed => b"<9>",
        TextError::OutOfMemory => b"<10>",
    }
}

/// Adds the reader's answers until it waits or is closed, sixteen at most, and says whether it waits.
pub fn add_answers(
    alloc: Global,
    reader: &mut Reader,
    answers: &mut Vec<u8>,
) -> Result<bool, Fail> {
    add_some_answers(alloc, reader, 16, answers)
}

/// The same, so many at most.
pub fn add_some_answers(
    alloc: Global,
    reader: &mut Reader,
    most: usize,
    answers: &mut Vec<u8>,
) -> Result<bool, Fail> {
    for _ in 0..most {
        match reader.add_next(alloc, answers)? {
            Turn::Answered => {}
            Turn::Waits => return Ok(true),
            Turn::Closed => return Ok(false),
        }
    }
    Ok(false)
}

/// Feeds a reader that waits, unless there is nothing more, and adds its answers.
fn feed_and_add(
    alloc: Global,
    reader: &mut Reader,
    piece: &[u8],
    answers: &mut Vec<u8>,
) -> Result<bool, Fail> {
    reader.feed(piece)?;
    add_answers(alloc, reader, answers)
}

/// Adds the answers to a text in two pieces, asked for after each, and at the end of the input; `;` where the reader
/// waits at last.
fn add_answers_in_two(
    alloc: Global,
    reader: &mut Reader,
    pieces: (&[u8], &[u8]),
    ends: bool,
    answers: &mut Vec<u8>,
) -> Result<(), Fail> {
    let mut waits = feed_and_add(alloc, reader, pieces.0, answers)?;
    if waits && !pieces.1.is_empty() {
        waits = feed_and_add(alloc, reader, pieces.1, answers)?;
    }
    if waits && ends {
        reader.end();
        waits = add_answers(alloc, reader, answers)?;
    }
    if waits {
        answers.push(b';')?;
    }
    Ok(())
}

/// The answers of a reader that is fed a text in two pieces.
pub fn answers_in_two(
    alloc: Global,
    texts: Texts,
    pieces: (&[u8], &[u8]),
    ends: bool,
) -> Result<Vec<u8>, Fail> {
    let mut answers = Vec::new(alloc);
    let mut reader = Reader::new(alloc, texts);
    add_answers_in_two(alloc, &mut reader, pieces, ends, &mut answers)?;
    Ok(answers)
}
