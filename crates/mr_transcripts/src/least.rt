//! How long the text of a transcript is at least, as its history tells before any of the text is made.
ghost use Rattle.std.specs.Prelude.{◌≡◌, ◌-◌, ◌↔◌, IsTrue};
ghost use Rattle.serde_json.specs.View.{view};
ghost use Rattle.mr_transcripts.specs.steps.Least.{blocks_length, blocks_of_entry, blocks_of_history, filling_data, HasLongHistory};

use mr_history::Entry;
use mr_scripts::MAX_SCRIPT;
use mr_shown::Format;
use mr_text::{Item, Reply};
use serde_json::Value;

/// What is left of so many bytes beside the blocks of these items; nothing where they have more.
fn room_beside_items(room: usize, items: &[Item]) -> usize
    ensures { result ≡ room - blocks_length items.now }
{
    let mut left = room;
    for item in items {
        left = left.saturating_sub(item.block.as_bytes().len());
    }
    left
}

/// What is left of so many bytes beside the blocks of an entry.
fn room_beside_entry(room: usize, entry: &Entry) -> usize
    ensures { result ≡ room - blocks_of_entry entry.now }
{
    match entry {
        Entry::Stored { block, .. } => room.saturating_sub(block.as_bytes().len()),
        Entry::Answered {
            reply: Reply::Items(items),
            ..
        } => room_beside_items(room, items.as_slice()),
        _ => room,
    }
}

/// What is left of so many bytes beside the blocks of a history.
fn room_beside_history(room: usize, entries: &[Entry]) -> usize
    ensures { result ≡ room - blocks_of_history entries.now }
{
    let mut left = room;
    for entry in entries {
        left = room_beside_entry(left, entry);
    }
    left
}

/// The bytes of data whose text alone is as long as a transcript may be.
fn filling_data(format: Format) -> usize
    ensures { result ≡ filling_data format }
{
    match format {
        Format::One => MAX_SCRIPT,
        Format::Two => MAX_SCRIPT / 2,
    }
}

/// Whether the blocks of the history alone make the text of a script's transcript too large. It takes no memory, and time by
/// the entries and the items in them, whatever their size.
pub(crate) fn has_long_history(format: Format, script: &Value, entries: &[Entry]) -> bool
    ensures { IsTrue result ↔ HasLongHistory format (view script.now) entries.now }
{
    match script {
        Value::Object(_) => room_beside_history(filling_data(format), entries) == 0,
        _ => false,
    }
}
