//! Slow readers of requests and replies by the tables of the text. They take no answer back from a call that wants
//! memory: where it is refused, an answer is too short, and the test that compares it fails.
mod replies;
mod requests;

use mr_test_support::Texts;

/// Adds a text.
fn add(answer: &mut Vec<u8>, text: &[u8]) {
    let _ = answer.extend_from_slice(text);
}

/// Puts this in place of what was added since the answer had this length, and reads nothing: the reader is closed, or
/// nothing is whole yet.
fn stops(answer: &mut Vec<u8>, start: usize, mark: &[u8]) -> usize {
    answer.truncate(start);
    add(answer, mark);
    0
}

fn is_word(word: &[u8], wanted: &[u8]) -> bool {
    word == wanted
}

/// Whether a word is one of these.
fn is_one_of(word: &[u8], others: &[&[u8]]) -> bool {
    for other in others {
        if is_word(word, other) {
            return true;
        }
    }
    false
}

/// How many bytes a line begins with that are spaces, or that are none.
fn count_front(line: &[u8], are_spaces: bool) -> usize {
    let mut count: usize = 0;
    for byte in line {
        if (*byte == b' ') != are_spaces {
            break;
        }
        count = count.saturating_add(1);
    }
    count
}

/// What stands behind so many bytes.
fn behind(bytes: &[u8], count: usize) -> &[u8] {
    bytes.get(count..).unwrap_or(b"")
}

/// The first word of a line, empty where there is none.
fn first_word(line: &[u8]) -> &[u8] {
    let rest = behind(line, count_front(line, true));
    rest.get(..count_front(rest, false)).unwrap_or(b"")
}

/// What stands behind the first word of a line.
fn behind_word(line: &[u8]) -> &[u8] {
    let rest = behind(line, count_front(line, true));
    behind(rest, count_front(rest, false))
}

/// The word at a place, empty where there is none.
fn word_at(line: &[u8], place: usize) -> &[u8] {
    let mut rest = line;
    for _ in 0..place {
        rest = behind_word(rest);
    }
    first_word(rest)
}

/// How many words a line has, sixteen at most.
fn count_words(line: &[u8]) -> usize {
    for place in 0..16 {
        if word_at(line, place).is_empty() {
            return place;
        }
    }
    16
}

/// The mark of a line that has not so many words, or no key behind the first; nothing for a good one.
fn words_mark(line: &[u8], count: usize) -> &'static [u8] {
    if count_words(line) != count {
        return b"<4><9>";
    }
    if is_key(word_at(line, 1)) {
        b""
    } else {
        b"<2><9>"
    }
}

fn is_key(word: &[u8]) -> bool {
    for byte in word {
        if *byte <= 32 || *byte == 127 {
            return false;
        }
    }
    !word.is_empty() && word.len() <= 250
}

fn is_number(word: &[u8]) -> bool {
    for byte in word {
        if *byte < b'0' || *byte > b'9' {
            return false;
        }
    }
    !word.is_empty()
}

/// The digits without leading zeros.
fn without_zeros(digits: &[u8]) -> &[u8] {
    let mut rest = digits;
    for _ in 1..digits.len() {
        if let Some((b'0', others)) = rest.split_first() {
            rest = others;
        }
    }
    rest
}

/// Whether digits without leading zeros are no more than others.
fn is_at_most(digits: &[u8], greatest: &[u8]) -> bool {
    if digits.len() == greatest.len() {
        return digits <= greatest;
    }
    digits.len() < greatest.len()
}

/// Adds this and the number as it is written, and says whether the word is one.
fn add_number(text: &mut Vec<u8>, front: &[u8], word: &[u8], greatest: &[u8]) -> bool {
    let digits = without_zeros(word);
    if !is_number(word) || !is_at_most(digits, greatest) {
        return false;
    }
    add(text, front);
    add(text, digits);
    true
}

fn value_of(word: &[u8]) -> usize {
    let mut value: usize = 0;
    for digit in word {
        let unit = usize::from(digit.saturating_sub(b'0'));
        value = value.saturating_mul(10).saturating_add(unit);
    }
    value
}

/// Whether the byte at this place is a wrong end of a block that ends here.
fn is_wrong_end(byte: u8, place: usize, end: usize) -> bool {
    (place == end && byte != b'\r') || (place > end && byte != b'\n')
}

/// Adds the block that follows this line, of which is told how it was written since the answer had the length `start`.
fn add_block(answer: &mut Vec<u8>, start: usize, bytes: &[u8], line: usize, size: usize) -> usize {
    if size > 1_048_576 {
        return stops(answer, start, b"<5><9>");
    }
    let end = line.saturating_add(size);
    for (place, byte) in bytes.iter().enumerate() {
        if place >= line {
            add(answer, &[*byte]);
        }
        if is_wrong_end(*byte, place, end) {
            return stops(answer, start, b"<6><9>");
        }
        if place > end {
            return place.saturating_add(1);
        }
    }
    stops(answer, start, b"")
}

/// The first line of some bytes without its end, and how many bytes it has with it; else a mark: of a line that is too
/// long, or nothing where its end isn't there yet.
fn first_line(bytes: &[u8]) -> Result<(&[u8], usize), &'static [u8]> {
    for (place, byte) in bytes.iter().enumerate() {
        if *byte == b'\n' {
            return whole_line(bytes.get(..place).unwrap_or(b""));
        }
    }
    if bytes.len() < 8194 {
        Err(b"")
    } else {
        Err(b"<1><9>")
    }
}

/// The line of these bytes before a line feed.
fn whole_line(bytes: &[u8]) -> Result<(&[u8], usize), &'static [u8]> {
    let line = match bytes {
        [front @ .., b'\r'] => front,
        _ => bytes,
    };
    if line.len() > 8192 {
        return Err(b"<1><9>");
    }
    Ok((line, bytes.len().saturating_add(1)))
}

/// Adds what the front of some bytes is answered, and gives how many bytes are read with it: none where nothing is whole
/// yet, or where the reader is closed.
fn add_front(texts: Texts, bytes: &[u8], answer: &mut Vec<u8>) -> usize {
    let (line, length) = match first_line(bytes) {
        Ok(whole) => whole,
        Err(mark) => {
            add(answer, mark);
            return 0;
        }
    };
    match texts {
        Texts::Requests => requests::add_front(line, bytes, length, answer),
        Texts::Replies => replies::add_front(line, bytes, length, answer),
    }
}

/// The mark of a reader that has no more answers, where this is left and the input is at its end.
fn last_mark(rest: &[u8]) -> &'static [u8] {
    if rest.is_empty() { b";" } else { b"<8><9>" }
}

/// Adds the answers of a reader of these bytes and then the end of the input, as the real one's are shown.
pub(super) fn add_slow_answers(texts: Texts, bytes: &[u8], answers: &mut Vec<u8>) {
    let mut rest = bytes;
    for _ in 0..16 {
        let before = answers.len();
        let length = add_front(texts, rest, answers);
        if length == 0 {
            if answers.len() == before {
                add(answers, last_mark(rest));
            }
            break;
        }
        rest = behind(rest, length);
    }
}
