//! What decimal digits say, within a bound.
ghost use Rattle.std.specs.Prelude.{◌≡◌, ◌≤◌, ◌^◌, pos, neg_ℤ, IfSome};
ghost use Rattle.mr_lines.specs.Numbers.{number_in, signed_in};

/// The number that a word of decimal digits is, unless it is none or above `greatest`.
pub fn number_up_to(greatest: u64, word: &[u8]) -> Option<u64>
    ensures value { result ≡ number_in greatest word.now }
    ensures within { IfSome result (λ number. number ≤ greatest) }
{
    if word.is_empty() {
        return None;
    }
    let mut number: u64 = 0;
    for byte in word {
        if !byte.is_ascii_digit() {
            return None;
        }
        let longer = u128::from(number) * 10 + u128::from(*byte - b'0');
        if longer > u128::from(greatest) {
            return None;
        }
        number = longer as u64;
    }
    Some(number)
}

/// The size of the least `i64`.
const SIZE_OF_LEAST: u64 = 1 << 63;

/// The greatest `i64`.
const GREATEST: u64 = i64::MAX as u64;

/// The number below zero of this size.
fn negative(size: u64) -> i64
    requires { size ≤ 2 ^ 63 }
    ensures { result ≡ neg_ℤ (pos size) }
{
    if size == SIZE_OF_LEAST {
        i64::MIN
    } else {
        -(size as i64)
    }
}

/// The number that a word of decimal digits is, with a minus sign before it or without.
#[tactic(auto, unfolding(crate::specs::Numbers::number_in))]
pub fn signed_number(word: &[u8]) -> Option<i64>
    ensures { result ≡ signed_in word.now }
{
    match word {
        [b'-', digits @ ..] => Some(negative(number_up_to(SIZE_OF_LEAST, digits)?)),
        _ => Some(number_up_to(GREATEST, word)? as i64),
    }
}
