//! What a reader answers to a text that comes in pieces.
use crate::digits::digits_of;
use mr_test_support::{Reader, Texts, add_some_answers};
use std::alloc::Global;
use std::test::Fail;

/// Feeds a reader that waits, adds its answers, and says whether it waits for more. Each answer but the last ones takes a
/// byte at least, so they are no more than the text has bytes, and two.
fn feed(
    alloc: Global,
    reader: &mut Reader,
    piece: &[u8],
    most: usize,
    answers: &mut Vec<u8>,
) -> Result<bool, Fail> {
    reader.feed(piece)?;
    add_some_answers(alloc, reader, most, answers)
}

/// Feeds a reader the pieces of a text, of these sizes, and what is left behind them, until it is closed.
fn feed_pieces(
    alloc: Global,
    reader: &mut Reader,
    text: &[u8],
    sizes: &[usize],
    answers: &mut Vec<u8>,
) -> Result<bool, Fail> {
    let most = text.len().saturating_add(2);
    let mut rest = text;
    for size in sizes {
        let (piece, behind) = rest.split_at((*size).min(rest.len()));
        if !feed(alloc, reader, piece, most, answers)? {
            return Ok(false);
        }
        rest = behind;
    }
    feed(alloc, reader, rest, most, answers)
}

/// The answers to a text in pieces of these sizes, after which the input ends; `;` where the reader waits at last.
pub fn answers_in(
    alloc: Global,
    texts: Texts,
    text: &[u8],
    sizes: &[usize],
) -> Result<Vec<u8>, Fail> {
    let mut answers = Vec::new(alloc);
    let mut reader = Reader::new(alloc, texts);
    if feed_pieces(alloc, &mut reader, text, sizes, &mut answers)? {
        reader.end();
        if add_some_answers(alloc, &mut reader, 2, &mut answers)? {
            answers.push(b';')?;
        }
    }
    Ok(answers)
}

/// Tells the answers to a text in pieces of these sizes, where they are others than those to the whole text.
fn add_others(
    alloc: Global,
    texts: Texts,
    text: &[u8],
    sizes: &[usize],
    whole: &[u8],
    told: &mut String,
) -> Result<(), Fail> {
    let answers = answers_in(alloc, texts, text, sizes)?;
    if answers.as_slice() != whole {
        let digits = digits_of(alloc, &answers)?;
        told.push_str(format!(in alloc; " {sizes:?} {digits}")?.as_str())?;
    }
    Ok(())
}

/// Tells the answers to the whole text, and those of each cut into two pieces, and of its single bytes, that are others.
pub fn answers_in_every(alloc: Global, texts: Texts, text: &[u8]) -> Result<String, Fail> {
    let whole = answers_in(alloc, texts, text, &[])?;
    let mut told = digits_of(alloc, &whole)?;
    let mut single = Vec::new(alloc);
    for place in 1..text.len() {
        single.push(1)?;
        add_others(alloc, texts, text, &[place], &whole, &mut told)?;
    }
    add_others(alloc, texts, text, &single, &whole, &mut told)?;
    Ok(told)
}
