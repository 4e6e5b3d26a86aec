//! The words of a line, one by one.
ghost use Rattle.std.specs.Prelude.{◌≡◌, ◌≢◌, ◌∷◌, [], ◌<◌, ◌≤◌, drop, length, slice_get, Some, IfSome, MatchOption};
ghost use Rattle.std.specs.Str.{bytes_eq};
ghost use Rattle.mr_lines.specs.Words.{words_of, drop_spaces};

use crate::lines::place_of_byte;

/// The bytes from the first that isn't a space.
#[inline(always)]
fn without_spaces(mut bytes: &[u8]) -> &[u8]
    ensures bytes { result.now ≡ drop_spaces bytes.entry.now }
    ensures words { words_of result.now ≡ words_of bytes.entry.now }
    ensures length { length result.now ≤ length bytes.entry.now }
    ensures start { slice_get result.now 0 ≢ Some 32 }
{
    while let [b' ', rest @ ..] = bytes {
        bytes = rest;
    }
    bytes
}

/// The first word, and what follows it; None where there is no word.
#[inline(always)]
pub fn next_word(bytes: &[u8]) -> Option<(&[u8], &[u8])>
    ensures words { MatchOption result (words_of bytes.now ≡ []) (λ w. words_of bytes.now ≡ w.0.now ∷ words_of w.1.now) }
    ensures behind { IfSome result (λ w. w.1.now ≡ drop (length w.0.now) (drop_spaces bytes.now)) }
    ensures shorter { IfSome result (λ w. length w.1.now < length bytes.now) }
{
    let bytes = without_spaces(bytes);
    if bytes.is_empty() {
        return None;
    }
    let end = place_of_byte(b' ', bytes).unwrap_or(bytes.len());
    Some(bytes.split_at(end))
}

/// Whether the word is this text.
#[inline(always)]
pub fn is_text(word: &[u8], text: &[u8]) -> bool
    ensures { result ≡ bytes_eq word.now text.now }
{
    word == text
}
