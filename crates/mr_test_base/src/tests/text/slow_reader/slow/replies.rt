//! A slow reader of replies by the tables of the text.
use super::{
    add, add_block, add_number, behind, count_front, count_words, first_line, is_one_of, is_word,
    stops, value_of, word_at, words_mark,
};

/// The line of a word that stands alone, in a reply of which is told since the answer had the length `start`.
fn add_lone(line: &[u8], length: usize, answer: &mut Vec<u8>, start: usize) -> usize {
    if count_words(line) != 1 {
        return stops(answer, start, b"<4><9>");
    }
    add(answer, word_at(line, 0));
    add(answer, b"\r\n");
    length
}

/// An error: its word and a space, and the text that stands behind them in the line.
fn add_error(line: &[u8], length: usize, answer: &mut Vec<u8>) -> usize {
    let word = word_at(line, 0);
    let start = count_front(line, true).saturating_add(word.len());
    add(answer, word);
    add(answer, b" ");
    add(answer, behind(line, start.saturating_add(1)));
    add(answer, b"\r\n");
    length
}

/// An item: its line, and the block that follows it.
fn add_item(line: &[u8], bytes: &[u8], length: usize, answer: &mut Vec<u8>, start: usize) -> usize {
    let mark = words_mark(line, 4);
    if !mark.is_empty() {
        return stops(answer, start, mark);
    }
    add(answer, b"VALUE ");
    add(answer, word_at(line, 1));
    let has_flags = add_number(answer, b" ", word_at(line, 2), b"4294967295");
    if !has_flags || !add_number(answer, b" ", word_at(line, 3), b"18446744073709551615") {
        return stops(answer, start, b"<3><9>");
    }
    add(answer, b"\r\n");
    add_block(answer, start, bytes, length, value_of(word_at(line, 3)))
}

/// One more item, or the end of the items, and whether it is the end. Behind an item, or as the first line, no other
/// line may come here.
fn add_item_or_end(bytes: &[u8], answer: &mut Vec<u8>, start: usize) -> (usize, bool) {
    let (line, length) = match first_line(bytes) {
        Ok(whole) => whole,
        Err(mark) => return (stops(answer, start, mark), false),
    };
    if is_word(word_at(line, 0), b"END") {
        return (add_lone(line, length, answer, start), true);
    }
    if is_word(word_at(line, 0), b"VALUE") {
        return (add_item(line, bytes, length, answer, start), false);
    }
    (stops(answer, start, b"<4><9>"), false)
}

/// Items and their end. Nothing is given before the end is there.
fn add_items(bytes: &[u8], answer: &mut Vec<u8>) -> usize {
    let start = answer.len();
    let mut length: usize = 0;
    for _ in 0..16 {
        let (more, is_end) = add_item_or_end(behind(bytes, length), answer, start);
        if more == 0 {
            return 0;
        }
        length = length.saturating_add(more);
        if is_end {
            break;
        }
    }
    length
}

/// Words of errors.
const ERRORS: [&[u8]; 2] = [b"CLIENT_ERROR", b"SERVER_ERROR"];

/// Words that items and their end begin with.
const ITEMS: [&[u8]; 2] = [b"VALUE", b"END"];

/// Words that stand alone.
const PLAIN: [&[u8]; 4] = [b"STORED", b"DELETED", b"NOT_FOUND", b"ERROR"];

/// Adds what the front of the bytes is answered, of which this line is the first.
pub(super) fn add_front(line: &[u8], bytes: &[u8], length: usize, answer: &mut Vec<u8>) -> usize {
    let start = answer.len();
    let word = word_at(line, 0);
    if is_one_of(word, &ERRORS) {
        return add_error(line, length, answer);
    }
    if is_one_of(word, &ITEMS) {
        return add_items(bytes, answer);
    }
    if is_one_of(word, &PLAIN) {
        return add_lone(line, length, answer, start);
    }
    stops(answer, start, b"<7 closes><9>")
}
