//! A slow reader of requests by the tables of the text.
use super::{
    add, add_block, add_number, count_words, is_key, is_one_of, is_word, stops, value_of,
    without_zeros, word_at, words_mark,
};

/// Adds a get of the words but the first, and gives the mark of a line that is none.
fn add_keys(line: &[u8], answer: &mut Vec<u8>) -> &'static [u8] {
    let count = count_words(line);
    if count < 2 {
        return b"<4><9>";
    }
    add(answer, b"get");
    for place in 1..count {
        if !is_key(word_at(line, place)) {
            return b"<2><9>";
        }
        add(answer, b" ");
        add(answer, word_at(line, place));
    }
    add(answer, b"\r\n");
    b""
}

fn add_get(line: &[u8], length: usize, answer: &mut Vec<u8>) -> usize {
    let start = answer.len();
    let mark = add_keys(line, answer);
    if mark.is_empty() {
        length
    } else {
        stops(answer, start, mark)
    }
}

/// The end of a line that is written.
fn line_end(has_noreply: bool) -> &'static [u8] {
    if has_noreply {
        b" noreply\r\n"
    } else {
        b"\r\n"
    }
}

fn add_delete(line: &[u8], length: usize, answer: &mut Vec<u8>) -> usize {
    let has_zero = is_word(word_at(line, 2), b"0");
    let last = 2 + usize::from(has_zero);
    let has_noreply = is_word(word_at(line, last), b"noreply");
    let mark = words_mark(line, last + usize::from(has_noreply));
    if !mark.is_empty() {
        add(answer, mark);
        return 0;
    }
    add(answer, b"delete ");
    add(answer, word_at(line, 1));
    add(answer, line_end(has_noreply));
    length
}

/// Adds a space and a number that may have a sign, as it is written, and says whether the word is one.
fn add_signed(answer: &mut Vec<u8>, word: &[u8]) -> bool {
    let Some((b'-', size)) = word.split_first() else {
        return add_number(answer, b" ", word, b"9223372036854775807");
    };
    if is_word(without_zeros(size), b"0") {
        return add_number(answer, b" ", size, b"0");
    }
    add_number(answer, b" -", size, b"9223372036854775808")
}

/// Adds the numbers of a set, and says whether all are.
fn add_numbers(line: &[u8], answer: &mut Vec<u8>) -> bool {
    add_number(answer, b" ", word_at(line, 2), b"4294967295")
        && add_signed(answer, word_at(line, 3))
        && add_number(answer, b" ", word_at(line, 4), b"18446744073709551615")
}

fn add_set(line: &[u8], bytes: &[u8], length: usize, answer: &mut Vec<u8>) -> usize {
    let start = answer.len();
    let has_noreply = is_word(word_at(line, 5), b"noreply");
    let mark = words_mark(line, 5 + usize::from(has_noreply));
    if !mark.is_empty() {
        return stops(answer, start, mark);
    }
    add(answer, b"set ");
    add(answer, word_at(line, 1));
    if !add_numbers(line, answer) {
        return stops(answer, start, b"<3><9>");
    }
    add(answer, line_end(has_noreply));
    add_block(answer, start, bytes, length, value_of(word_at(line, 4)))
}

/// Commands that close the reader.
const CLOSING: [&[u8]; 5] = [b"add", b"replace", b"append", b"prepend", b"cas"];

/// The mark of a line of another command than get, set and delete.
fn other_mark(line: &[u8]) -> &'static [u8] {
    let command = word_at(line, 0);
    if is_one_of(command, &CLOSING) {
        b"<7 closes><9>"
    } else if !is_word(command, b"quit") {
        b"<7>"
    } else if count_words(line) == 1 {
        b"quit\r\n<9>"
    } else {
        b"<4><9>"
    }
}

/// Adds what such a line is answered.
fn add_other(line: &[u8], length: usize, answer: &mut Vec<u8>) -> usize {
    let mark = other_mark(line);
    add(answer, mark);
    if is_word(mark, b"<7>") { length } else { 0 }
}

/// Adds what the front of the bytes is answered, of which this line is the first.
pub(super) fn add_front(line: &[u8], bytes: &[u8], length: usize, answer: &mut Vec<u8>) -> usize {
    let command = word_at(line, 0);
    if is_word(command, b"get") {
        return add_get(line, length, answer);
    }
    if is_word(command, b"set") {
        return add_set(line, bytes, length, answer);
    }
    if is_word(command, b"delete") {
        return add_delete(line, length, answer);
    }
    add_other(line, length, answer)
}
