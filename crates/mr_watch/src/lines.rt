//! What stands in the lines of a text that a service tells.
ghost use Rattle.std.specs.Prelude.{◌≡◌, ◌<◌, ◌∷◌, [], length, option_copied, MatchOption, IfSome};
ghost use Rattle.mr_watch.specs.Lines.{lines_of, behind, value_of, whole_number, number_of, perhaps_number_of, before_quote, label_of, number_behind_labels, sum_after, sum_of};

use mr_lines::{number_up_to, place_of_byte};

/// The first line, without its line feed, and what follows that. None where no line ends.
fn next_line(bytes: &[u8]) -> Option<(&[u8], &[u8])>
    ensures lines { MatchOption result (lines_of bytes.now ≡ []) (λ w. lines_of bytes.now ≡ w.0.now ∷ lines_of w.1.now) }
    ensures shorter { IfSome result (λ w. length w.1.now < length bytes.now) }
{
    match place_of_byte(b'\n', bytes) {
        Some(end) => Some((&bytes[..end], &bytes[end + 1..])),
        None => None,
    }
}

/// What stands behind a head, in a line that begins with it.
pub(crate) fn behind<'a>(head: &[u8], line: &'a [u8]) -> Option<&'a [u8]>
    ensures { option_copied result ≡ behind head.now line.now }
{
    if line.starts_with(head) {
        Some(&line[head.len()..])
    } else {
        None
    }
}

/// What stands behind a head in the first line that begins with it.
pub(crate) fn value_of<'a>(head: &[u8], bytes: &'a [u8]) -> Option<&'a [u8]>
    ensures { option_copied result ≡ value_of head.now bytes.now }
{
    let mut rest = bytes;
    while let Some((line, others)) = next_line(rest) {
        if let Some(word) = behind(head, line) {
            return Some(word);
        }
        rest = others;
    }
    None
}

/// The number of 64 bits that a word is.
pub(crate) fn whole_number(word: &[u8]) -> Option<u64>
    ensures { result ≡ whole_number word.now }
{
    number_up_to(u64::MAX, word)
}

/// The number behind a head.
pub(crate) fn number_of(head: &[u8], bytes: &[u8]) -> Option<u64>
    ensures { result ≡ number_of head.now bytes.now }
{
    match value_of(head, bytes) {
        Some(word) => whole_number(word),
        None => None,
    }
}

/// The number behind a head that may be missing: None where there is a head without a number.
pub(crate) fn perhaps_number_of(head: &[u8], bytes: &[u8]) -> Option<Option<u64>>
    ensures { result ≡ perhaps_number_of head.now bytes.now }
{
    match value_of(head, bytes) {
        Some(word) => match whole_number(word) {
            Some(number) => Some(Some(number)),
            None => None,
        },
        None => Some(None),
    }
}

/// What stands before the first quote.
fn before_quote(word: &[u8]) -> Option<&[u8]>
    ensures { option_copied result ≡ before_quote word.now }
{
    match place_of_byte(b'"', word) {
        Some(place) => Some(&word[..place]),
        None => None,
    }
}

/// The label behind a head, which ends with an opening quote.
pub(crate) fn label_of<'a>(head: &[u8], bytes: &'a [u8]) -> Option<&'a [u8]>
    ensures { option_copied result ≡ label_of head.now bytes.now }
{
    match value_of(head, bytes) {
        Some(word) => before_quote(word),
        None => None,
    }
}

/// The number behind the labels of a sample, whose braces have been opened.
fn number_behind_labels(word: &[u8]) -> Option<u64>
    ensures { result ≡ number_behind_labels word.now }
{
    match place_of_byte(b'}', word) {
        Some(place) => match behind(b"} ", &word[place..]) {
            Some(number) => whole_number(number),
            None => None,
        },
        None => None,
    }
}

/// The sum after a line, behind whose head this stands.
fn sum_after(sum: u64, word: Option<&[u8]>) -> Option<u64>
    ensures { result ≡ sum_after sum (option_copied word.entry) }
{
    match word {
        Some(word) => match number_behind_labels(word) {
            Some(more) => Some(sum.saturating_add(more)),
            None => None,
        },
        None => Some(sum),
    }
}

/// The sum of the numbers in all lines that begin with a head, which ends with an opening brace. What is more than 64 bits count stays
/// at the most that they do.
pub(crate) fn sum_of(head: &[u8], bytes: &[u8]) -> Option<u64>
    ensures { result ≡ sum_of head.now bytes.now }
{
    let mut sum = 0;
    let mut rest = bytes;
    while let Some((line, others)) = next_line(rest) {
        sum = sum_after(sum, behind(head, line))?;
        rest = others;
    }
    Some(sum)
}
