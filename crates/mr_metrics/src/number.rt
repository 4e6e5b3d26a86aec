//! Numbers of samples.
ghost use Rattle.std.specs.Prelude.{◌≡◌, ◌++◌, ◌<◌, OnOk, decimal};
ghost use Rattle.mr_metrics.specs.Exposition.{shown_number, six_digits};

use itoa::Buffer;
use std::alloc::AllocError;

/// The number of a sample.
#[derive(Clone, Copy, Debug, PartialEq, Eq)]
pub(crate) enum Number {
    /// A count, or whole seconds.
    Whole(u64),
    /// A time, of so many microseconds, which is told in seconds.
    Micros(u64),
}

/// Adds a number in decimal digits.
fn push_decimal(text: &mut Vec<u8>, number: u64) -> Result<(), AllocError>
    ensures { OnOk result (text.new.items ≡ text.old.items ++ decimal number) }
{
    let mut buffer = Buffer::new();
    text.extend_from_slice(buffer.format(number).as_bytes())?;
    Ok(())
}

/// Adds a part of a second, in six digits.
#[tactic(auto, using(crate::proofs::NumberLemmas::has_digit))]
fn push_six_digits(text: &mut Vec<u8>, micros: u64) -> Result<(), AllocError>
    requires { micros < 1000000 }
    ensures { OnOk result (text.new.items ≡ text.old.items ++ six_digits micros) }
{
    let mut buffer = Buffer::new();
    let digits = buffer.format(1_000_000 + micros).as_bytes();
    text.extend_from_slice(&digits[1..])?;
    Ok(())
}

/// Adds a number, times in seconds.
pub(crate) fn push_number(text: &mut Vec<u8>, number: Number) -> Result<(), AllocError>
    ensures { OnOk result (text.new.items ≡ text.old.items ++ shown_number number) }
{
    match number {
        Number::Whole(count) => push_decimal(text, count),
        Number::Micros(micros) => {
            push_decimal(text, micros / 1_000_000)?;
            text.extend_from_slice(b".")?;
            push_six_digits(text, micros % 1_000_000)
        }
    }
}
