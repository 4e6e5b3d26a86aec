//! Families of one number, and samples at one label.
ghost use Rattle.std.specs.Prelude.{◌≡◌, ◌++◌, OnOk};
ghost use Rattle.mr_metrics.specs.Exposition.{labelled_sample};
ghost use Rattle.mr_metrics.specs.Families.{one_number, perhaps_number, info, two_counts};
ghost use Rattle.mr_metrics.specs.declared.number.Number.TheVariants.{Whole};

use crate::exposition::{Kind, push_family, push_sample};
use crate::label::Label;
use crate::number::Number;
use std::alloc::AllocError;

/// Adds a family of one number, without labels.
pub(crate) fn push_one(
    text: &mut Vec<u8>,
    name: &str,
    help: &str,
    kind: Kind,
    number: u64,
) -> Result<(), AllocError>
    ensures { OnOk result (text.new.items ≡ text.old.items ++ one_number name.now help.now kind number) }
{
    push_family(text, name, help, kind)?;
    push_sample(text, name, &[], Number::Whole(number))
}

/// Adds a family of one number that rises and falls, without a sample where there is none.
pub(crate) fn push_perhaps(
    text: &mut Vec<u8>,
    name: &str,
    help: &str,
    number: Option<u64>,
) -> Result<(), AllocError>
    ensures { OnOk result (text.new.items ≡ text.old.items ++ perhaps_number name.now help.now number) }
{
    push_family(text, name, help, Kind::Gauge)?;
    match number {
        Some(number) => push_sample(text, name, &[], Number::Whole(number)),
        None => Ok(()),
    }
}

/// Adds a sample with one label.
pub(crate) fn push_labelled(
    text: &mut Vec<u8>,
    name: &str,
    label: &str,
    value: &str,
    number: u64,
) -> Result<(), AllocError>
    ensures { OnOk result (text.new.items ≡ text.old.items ++ labelled_sample name.now label.now value.now (Whole number)) }
{
    let labels = [Label { name: label, value }];
    push_sample(text, name, &labels, Number::Whole(number))
}

/// Adds a family that tells a text: its one sample has the text in a label, and is always 1.
pub(crate) fn push_info(
    text: &mut Vec<u8>,
    name: &str,
    help: &str,
    label: &str,
    value: &str,
) -> Result<(), AllocError>
    ensures { OnOk result (text.new.items ≡ text.old.items ++ info name.now help.now label.now value.now) }
{
    push_family(text, name, help, Kind::Gauge)?;
    push_labelled(text, name, label, value, 1)
}

/// A count, with the value of the label at which it stands.
#[derive(Clone, Copy, Debug)]
pub(crate) struct Count<'a> {
    /// The value of the label.
    pub(crate) at: &'a str,
    /// The count.
    pub(crate) count: u64,
}

/// Adds a counter of two counts, each at a value of a label.
pub(crate) fn push_two(
    text: &mut Vec<u8>,
    name: &str,
    help: &str,
    label: &str,
    first: &Count<'_>,
    second: &Count<'_>,
) -> Result<(), AllocError>
    ensures { OnOk result (text.new.items ≡ text.old.items
        ++ two_counts name.now help.now label.now first.now.at.now first.now.count second.now.at.now second.now.count) }
{
    push_family(text, name, help, Kind::Counter)?;
    push_labelled(text, name, label, first.at, first.count)?;
    push_labelled(text, name, label, second.at, second.count)?;
    Ok(())
}
