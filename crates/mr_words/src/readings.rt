//! Readings of clocks as they are given in a word.
ghost use Rattle.std.specs.Prelude.{◌≡◌, map, IfOk, IfNone, MatchOption, List, ℕ};
ghost use Rattle.mr_words.specs.Words.{members_of, IsNumberList};

use std::alloc::{AllocError, Global};

/// What stands between the members of a list.
const SEPARATOR: char = ',';

/// The pieces of a text between its commas, empty ones too: one more than it has commas.
pub fn split_at_commas<'a>(alloc: Global, text: &'a str) -> Result<Vec<&'a str>, AllocError>
    ensures { IfOk result (λ pieces. map (λ piece. piece.now) pieces.items ≡ members_of text.now) }
{
    text.split(SEPARATOR).collect(alloc)
}

/// The numbers that a text gives with commas between them, or none where one of its members is no number of 64 bits.
pub fn numbers_in(alloc: Global, text: &str) -> Result<Option<Vec<u64>>, AllocError>
    ensures { IfOk result (λ found. MatchOption found
        ((numbers : List ℕ) → ¬ IsNumberList text.now numbers)
        (λ numbers. IsNumberList text.now numbers.items)) }
{
    let pieces = split_at_commas(alloc, text)?;
    let mut numbers = Vec::new(alloc);
    for piece in &pieces {
        let Ok(number) = piece.parse() else {
            return Ok(None);
        };
        numbers.push(number)?;
    }
    Ok(Some(numbers))
}
