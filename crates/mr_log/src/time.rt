//! When a line is said: a date and a time of day in UTC.
ghost use Rattle.std.specs.Prelude.{◌≡◌, ◌≤◌, ◌<◌, ◌↔◌, ◌++◌, pos, codes, decimal, IsSome, IfSome};
ghost use Rattle.jiff_core.specs.Timestamp.{nanos_of_seconds};
ghost use Rattle.mr_log.specs.Time.{IsDated, IsMoment, last_second};

use arrayvec::ArrayString;
use itoa::Buffer;
use jiff::Timestamp;
use jiff::fmt::temporal::DateTimePrinter;

/// How many bytes the text of a time has at most.
const LONGEST_TIME: usize = 33;

/// The moment so many seconds after the epoch, up to nearly the end of the year 9999.
fn moment_of(second: u64) -> Option<Timestamp>
    ensures there { IsSome result ↔ (second ≤ last_second) }
    ensures moment { IfSome result (λ moment. moment.nanosecond ≡ nanos_of_seconds (pos second)) }
{
    let second = i64::try_from(second).ok()?;
    Timestamp::from_second(second).ok()
}

/// The date and the time of day of a moment, in UTC.
fn utc_of(moment: Timestamp) -> ArrayString<LONGEST_TIME>
    ensures { IsMoment moment.nanosecond result.bytes }
{
    DateTimePrinter::new().timestamp_text(moment.to_plain())
}

/// The number of a second that has no date.
fn undated(second: u64) -> ArrayString<LONGEST_TIME>
    ensures { result.bytes ≡ codes "@" ++ decimal second }
{
    let mut buffer = Buffer::new();
    let mut text = ArrayString::new();
    text.push_str("@");
    text.push_str(buffer.format(second));
    text
}

/// When a line is said, in seconds since the epoch; None where there is no clock to tell it.
pub(crate) fn time_of(second: Option<u64>) -> ArrayString<LONGEST_TIME>
    ensures { IsDated second result.bytes }
{
    let Some(second) = second else {
        let mut text = ArrayString::new();
        text.push_str("-");
        return text;
    };
    match moment_of(second) {
        Some(moment) => utc_of(moment),
        None => undated(second),
    }
}
