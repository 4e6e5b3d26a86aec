//! How long something took, counted by how long it was.
ghost use Rattle.std.specs.Prelude.{◌≡◌, ◌++◌, IfOk, OnOk};
ghost use Rattle.mr_metrics.specs.Times.{bucket_sample, bucket_samples, counted, histogram};

use crate::exposition::{Kind, push_family, push_part};
use crate::label::Label;
use crate::number::Number;
use std::alloc::AllocError;

/// How often something took no longer than a bound, and longer than the bound before.
#[derive(Clone, Copy, Debug)]
pub struct Bucket<'a> {
    /// The bound in seconds, as it is told; `+Inf` where there is none.
    pub bound: &'a str,
    /// How often.
    pub count: u64,
}

/// How long something took each time.
#[derive(Clone, Copy, Debug)]
pub struct Times<'a> {
    /// How often it took how long, by rising bounds, of which the last is `+Inf`.
    pub buckets: &'a [Bucket<'a>],
    /// How long it took in all, in microseconds.
    pub micros: u64,
}

/// Adds the sample of a bound: how often it took no longer.
fn push_bucket(text: &mut Vec<u8>, name: &str, bound: &str, count: u64) -> Result<(), AllocError>
    ensures { OnOk result (text.new.items ≡ text.old.items ++ bucket_sample name.now bound.now count) }
{
    let labels = [Label {
        name: "le",
        value: bound,
    }];
    push_part(text, name, "_bucket", &labels, Number::Whole(count))
}

/// Adds the sample of each bound, and gives how often it was in all.
fn push_buckets(text: &mut Vec<u8>, name: &str, buckets: &[Bucket<'_>]) -> Result<u64, AllocError>
    ensures text { OnOk result (text.new.items ≡ text.old.items ++ bucket_samples name.now 0 buckets.now) }
    ensures count { IfOk result (λ count. count ≡ counted 0 buckets.now) }
{
    let mut count = 0u64;
    for bucket in buckets {
        count = count.saturating_add(bucket.count);
        push_bucket(text, name, bucket.bound, count)?;
    }
    Ok(count)
}

/// Adds a histogram. More than 64 bits count stays at the most that they do.
pub(crate) fn push_times(
    text: &mut Vec<u8>,
    name: &str,
    help: &str,
    times: &Times<'_>,
) -> Result<(), AllocError>
    ensures { OnOk result (text.new.items ≡ text.old.items ++ histogram name.now help.now times.now) }
{
    push_family(text, name, help, Kind::Histogram)?;
    let count = push_buckets(text, name, times.buckets)?;
    push_part(text, name, "_sum", &[], Number::Micros(times.micros))?;
    push_part(text, name, "_count", &[], Number::Whole(count))
}
