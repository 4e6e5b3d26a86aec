//! Numbers as hexadecimal digits, all of them with as many.
ghost use Rattle.std.specs.Prelude.{◌≡◌, ◌^◌, ◌<◌, ◌↔◌, ◌++◌, [], ◌∷◌, ℕ, take, length, OnOk, Some};
ghost use Rattle.mr_probes.specs.Digits.{number_text, word_text};

use std::alloc::AllocError;

/// How many digits a number has.
const DIGITS: usize = 16;

/// What stands between two numbers.
const DASH: u8 = b'-';

/// Puts a number's digits behind a text. Without memory nothing is known of the text.
#[tactic(auto, unfolding(crate::specs::Digits::number_text))]
pub(crate) fn put_number(text: &mut Vec<u8>, number: u64) -> Result<(), AllocError>
    ensures { OnOk result (text.new.items ≡ text.old.items ++ number_text number) }
{
    let bytes = number.to_be_bytes();
    let mut digits = [0; DIGITS];
    match hex::encode_to_slice(bytes.as_slice(), &mut digits) {
        Ok(()) => text.extend_from_slice(&digits),
        Err(_) => unreachable!(),
    }
}

/// Puts a number's digits and a dash behind a text.
pub(crate) fn put_word(text: &mut Vec<u8>, number: u64) -> Result<(), AllocError>
    ensures { OnOk result (text.new.items ≡ text.old.items ++ word_text number) }
{
    put_number(text, number)?;
    text.push(DASH)?;
    Ok(())
}

/// The number that has these digits, all of them; None where no number has.
pub(crate) fn read_number(digits: &[u8]) -> Option<u64>
    ensures { (n : ℕ) → n < 2 ^ 64 → (result ≡ Some n) ↔ (digits.now ≡ number_text n) }
{
    let mut bytes = [0; 8];
    if hex::decode_to_slice(digits, &mut bytes).is_err() {
        return None;
    }
    let mut again = [0; DIGITS];
    if hex::encode_to_slice(bytes.as_slice(), &mut again).is_err() {
        return None;
    }
    if digits == again.as_slice() {
        Some(u64::from_be_bytes(bytes))
    } else {
        None
    }
}

/// The number that has these digits with a dash behind them.
pub(crate) fn read_word(text: &[u8]) -> Option<u64>
    ensures { (n : ℕ) → n < 2 ^ 64 → (result ≡ Some n) ↔ (text.now ≡ word_text n) }
{
    if text.len() != DIGITS + 1 || text[DIGITS] != DASH {
        return None;
    }
    read_number(&text[..DIGITS])
}
