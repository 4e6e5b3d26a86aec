//! What the verdicts of the judge mean for the proxies.
ghost use Rattle.mr_canary.specs.Views.{NoFalseAlarm};

/// A conviction is no false alarm. Where the notes are what clients saw of a safe history, in which each leg of a set is performed at
/// most once, no hit convicts. The theorem over bytes has it that each history is safe where its premises hold.
pub fn no_false_alarm()
    ensures { NoFalseAlarm }
{}
