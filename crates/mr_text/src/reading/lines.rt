//! Where a line ends, and which bytes are the line's.
ghost use Rattle.std.specs.Prelude.{◌≡◌, ◌<◌, ◌≤◌, length, IfSome, IfOk, MatchResult, MatchOption};
ghost use Rattle.mr_lines.specs.Lines.{byte_place, without_carriage_return};
ghost use Rattle.mr_text.specs.steps.Reading.{line_reading, line_reading_at, line_read_to};
ghost use Rattle.mr_text.specs.steps.Reading.StretchReading.{Waits, Gives, Refused};
ghost use Rattle.mr_text.specs.Line.{HasLineFeed};

use crate::error::TextError;
use crate::limits::MAX_LINE;
use mr_lines::without_carriage_return;

/// The first line and the length of its bytes, its end included; None where its end isn't there yet. The place of the end, if there is
/// one, was looked for already.
#[inline(always)]
#[tactic(auto, unfolding(crate::specs::steps::Reading::line_reading))]
pub(crate) fn line_to(bytes: &[u8], end: Option<usize>) -> Result<Option<(&[u8], usize)>, TextError>
    requires end { end ≡ byte_place 10 bytes.now }
    requires within { IfSome end (λ place. place < length bytes.now) }
    ensures reading { MatchResult result
        (λ found. MatchOption found (line_reading bytes.now ≡ Waits) (λ l. line_reading bytes.now ≡ Gives l.0.now l.1))
        (λ refusal. line_reading bytes.now ≡ Refused refusal 0) }
    ensures within { IfOk result (λ found. IfSome found (λ l. (l.1 ≤ length bytes.now) × (length l.0.now ≤ MAX_LINE))) }
    ensures one_line { IfOk result (λ found. IfSome found (λ l. ¬ HasLineFeed l.0.now)) }
{
    let Some(place) = end else {
        if bytes.len() >= MAX_LINE + 2 {
            return Err(TextError::LineTooLong);
        }
        return Ok(None);
    };
    let line = without_carriage_return(&bytes[..place]);
    if line.len() > MAX_LINE {
        return Err(TextError::LineTooLong);
    }
    Ok(Some((line, place + 1)))
}
