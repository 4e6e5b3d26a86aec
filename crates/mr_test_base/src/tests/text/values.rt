//! Which bytes make a value, and copies of each.
use super::{Rule, are, bytes_of_rule, count_is, equal_bytes, holds, is, item};
use crate::tests::must;
use mr_test_support::{repeated_keys, reply_text, request_text};
use mr_text::{
    Block, Cause, FIXED_BUFFER, Item, ItemList, Key, KeyList, Line, MAX_BLOCK, MAX_ERROR_TEXT,
    MAX_ITEMS, MAX_KEY, MAX_LINE, Reply, Request, TextError,
};
use std::alloc::Global;
use std::process::Abort;

/// Asserts the limits.
fn limits_are(rt: &impl Abort) {
    count_is(rt, 0, MAX_KEY, 250);
    count_is(rt, 1, MAX_LINE, 8192);
    count_is(rt, 2, MAX_BLOCK, 1_048_576);
    count_is(rt, 3, MAX_ERROR_TEXT, 8179);
    count_is(rt, 4, MAX_ITEMS, 4094);
    count_is(rt, 5, FIXED_BUFFER, 4096);
}

#[test]
fn limits_are_those_of_the_text(rt: HostRuntime) {
    limits_are(&rt);
}

/// Asserts whether bytes are a key, and that its copy has them too.
fn is_key(rt: &impl Abort, alloc: Global, row: usize, bytes: &[u8], refusal: Option<TextError>) {
    let key = Key::new(alloc, bytes);
    is(rt, row, key.as_ref().err().copied(), refusal);
    if let Ok(key) = key {
        count_is(rt, row, key.len(), bytes.len());
        are(rt, row, key.as_bytes(), bytes);
        are(rt, row, must(rt, key.copy()).as_bytes(), bytes);
    }
}

#[test]
fn keys_have_1_to_250_bytes(rt: HostRuntime) {
    let bad = Some(TextError::BadKey);
    let long = [b'x'; 251];
    for count in [1, 40, 41, 250] {
        is_key(&rt, rt.alloc(), count, &long[..count], None);
    }
    is_key(&rt, rt.alloc(), 251, &long, bad);
    is_key(&rt, rt.alloc(), 0, b"", bad);
    for byte in b"\x00\t\n\r\x1f \x7f" {
        is_key(&rt, rt.alloc(), usize::from(*byte), &[b'a', *byte], bad);
    }
    for byte in b"!~\x80\xff" {
        is_key(&rt, rt.alloc(), usize::from(*byte), &[b'a', *byte], None);
    }
}

/// Asserts whether bytes are a block, and that its copy has them too.
fn is_block(rt: &impl Abort, alloc: Global, row: usize, bytes: &[u8], refusal: Option<TextError>) {
    let block = Block::new(alloc, bytes);
    is(rt, row, block.as_ref().err().copied(), refusal);
    if let Ok(block) = block {
        are(rt, row, block.as_bytes(), bytes);
        are(rt, row, must(rt, block.copy()).as_bytes(), bytes);
    }
}

#[test]
fn blocks_have_up_to_1048576_bytes(rt: HostRuntime) {
    let long = equal_bytes(&rt, rt.alloc(), b'\n', 1_048_577);
    let bad = Some(TextError::DataTooLong);
    is_block(&rt, rt.alloc(), 0, b"", None);
    let longest = long.get(..1_048_576).unwrap_or(b"");
    is_block(&rt, rt.alloc(), 1, longest, None);
    is_block(&rt, rt.alloc(), 2, &long, bad);
}

/// Texts, and why they aren't those of an error that has no name, if they aren't.
static LINES: [(Rule, Option<TextError>); 9] = [
    ((b"later", b"", 0, b""), None),
    ((b"", b"", 0, b""), None),
    ((b"busy ", b"", 0, b""), None),
    ((b"Busy", b"", 0, b""), None),
    ((b"a\r", b"", 0, b""), None),
    ((b"a\nb", b"", 0, b""), Some(TextError::WrongWords)),
    ((b"", b"x", 8179, b""), None),
    ((b"", b"x", 8179, b"\n"), Some(TextError::LineTooLong)),
    ((b"", b"x", 8180, b""), Some(TextError::LineTooLong)),
];

/// Asserts a cause's text, and its copy's.
fn tells(rt: &impl Abort, row: usize, cause: &Cause, text: &[u8]) {
    are(rt, row, cause.text(), text);
    are(rt, row, must(rt, cause.copy()).text(), text);
}

/// Asserts whether bytes are the text of an error that has no name, and that copies have them too.
fn is_line(rt: &impl Abort, alloc: Global, row: usize, bytes: &[u8], refusal: Option<TextError>) {
    let line = Line::new(alloc, bytes);
    is(rt, row, line.as_ref().err().copied(), refusal);
    if let Ok(line) = line {
        are(rt, row, line.as_bytes(), bytes);
        are(rt, row, must(rt, line.copy()).as_bytes(), bytes);
        tells(rt, row, &Cause::Other(line), bytes);
    }
}

#[test]
fn error_texts_stand_on_one_line(rt: HostRuntime) {
    for (row, it) in LINES.iter().enumerate() {
        let text = bytes_of_rule(&rt, rt.alloc(), it.0);
        is_line(&rt, rt.alloc(), row, &text, it.1);
    }
}

/// The texts of the causes that have a name.
static NAMES: [&[u8]; 13] = [
    b"line too long",
    b"bad key",
    b"bad number",
    b"wrong words",
    b"data too long",
    b"bad data end",
    b"leg lost",
    b"busy",
    b"out of memory",
    b"clock fault",
    b"book full",
    b"numbers spent",
    b"node refused",
];

/// The cause whose text stands at this place.
fn cause_at(place: usize) -> Cause {
    match place {
        0 => Cause::LineTooLong,
        1 => Cause::BadKey,
        2 => Cause::BadNumber,
        3 => Cause::WrongWords,
        4 => Cause::DataTooLong,
        5 => Cause::BadDataEnd,
        6 => Cause::LegLost,
        7 => Cause::Busy,
        8 => Cause::OutOfMemory,
        9 => Cause::ClockFault,
        10 => Cause::BookFull,
        11 => Cause::NumbersSpent,
        _ => Cause::NodeRefused,
    }
}

/// Asserts that a text is kept for a cause.
fn is_no_line(rt: &impl Abort, alloc: Global, row: usize, text: &[u8]) {
    is(
        rt,
        row,
        Line::new(alloc, text).err(),
        Some(TextError::WrongWords),
    );
}

#[test]
fn named_causes_have_texts(rt: HostRuntime) {
    for (row, text) in NAMES.iter().enumerate() {
        tells(&rt, row, &cause_at(row), text);
        is_no_line(&rt, rt.alloc(), row, text);
    }
}

/// How many bytes each key has, how many keys there are, how many bytes one more has, if there is one more, and why they
/// are no list, if they are none.
static LISTS: [(usize, usize, usize, Option<TextError>); 5] = [
    (1, 0, 0, Some(TextError::WrongWords)),
    (1, 4094, 0, None),
    (1, 4095, 0, Some(TextError::LineTooLong)),
    // `get` and 32 keys of 250 bytes leave room for a space and 156 bytes.
    (250, 32, 156, None),
    (250, 32, 157, Some(TextError::LineTooLong)),
];

/// The keys of a row.
fn keys_of(rt: &impl Abort, alloc: Global, length: usize, count: usize, last: usize) -> Vec<Key> {
    let name = equal_bytes(rt, alloc, b'x', length);
    let mut keys = must(rt, repeated_keys(alloc, &name, count));
    if last > 0 {
        let name = equal_bytes(rt, alloc, b'x', last);
        must(rt, keys.push(must(rt, Key::new(alloc, &name))));
    }
    keys
}

/// Asserts whether keys are a list, and that its copy has as many.
fn is_list(rt: &impl Abort, row: usize, keys: Vec<Key>, refusal: Option<TextError>) {
    let count = keys.len();
    match KeyList::new(keys) {
        Ok(list) => {
            is(rt, row, None, refusal);
            count_is(rt, row, list.as_slice().len(), count);
            count_is(rt, row, must(rt, list.copy()).into_vec().len(), count);
        }
        Err(found) => is(rt, row, Some(found), refusal),
    }
}

#[test]
fn key_lists_have_a_key_and_fit_a_line(rt: HostRuntime) {
    for (row, (length, count, last, refusal)) in LISTS.iter().enumerate() {
        let keys = keys_of(&rt, rt.alloc(), *length, *count, *last);
        is_list(&rt, row, keys, *refusal);
    }
}

/// A list of the keys `k`, `a` and `k`.
fn three_keys(rt: &impl Abort, alloc: Global) -> KeyList {
    let mut keys = Vec::new(alloc);
    for byte in b"kak" {
        must(rt, keys.push(must(rt, Key::new(alloc, &[*byte]))));
    }
    must(rt, KeyList::new(keys))
}

#[test]
fn key_lists_keep_order(rt: HostRuntime) {
    let list = three_keys(&rt, rt.alloc());
    let keys = must(&rt, list.copy());
    let text = must(&rt, request_text(rt.alloc(), &Request::Get { keys }));
    are(&rt, 0, &text, b"get k a k\r\n");
}

/// The copy of an item.
fn copied_item(rt: &impl Abort, alloc: Global, key: &[u8], flags: u32, block: &[u8]) -> Item {
    must(rt, item(rt, alloc, key, flags, block).copy())
}

/// A list of two items, copies.
fn two_items(rt: &impl Abort, alloc: Global) -> ItemList {
    let mut items = Vec::new(alloc);
    must(rt, items.push(copied_item(rt, alloc, b"k", 1, b"v")));
    must(rt, items.push(copied_item(rt, alloc, b"a", 2, b"")));
    ItemList::new(items)
}

#[test]
fn item_lists_keep_order(rt: HostRuntime) {
    let list = two_items(&rt, rt.alloc());
    let items = Reply::Items(must(&rt, list.copy()));
    let text = must(&rt, reply_text(rt.alloc(), &items));
    are(
        &rt,
        0,
        &text,
        b"VALUE k 1 1\r\nv\r\nVALUE a 2 0\r\n\r\nEND\r\n",
    );
    count_is(&rt, 1, list.as_slice().len(), 2);
    holds(&rt, 2, list.into_only().is_none(), true);
}

/// Asserts that a list has this item alone, as its copy does, and gives it.
fn is_only(rt: &impl Abort, row: usize, list: ItemList, it: &Item) {
    let copy = must(rt, list.copy());
    holds(rt, row, copy.same_as(&list), true);
    count_is(rt, row, list.as_slice().len(), 1);
    match list.into_only() {
        Some(only) => holds(rt, row, only.same_as(it), true),
        None => holds(rt, row, false, true),
    }
}

#[test]
fn item_lists_of_one_give_it(rt: HostRuntime) {
    let it = item(&rt, rt.alloc(), b"k", 1, b"v");
    let mut items = Vec::new(rt.alloc());
    must(&rt, items.push(must(&rt, it.copy())));
    is_only(&rt, 0, ItemList::new(items), &it);
    is_only(&rt, 1, ItemList::one(must(&rt, it.copy())), &it);
    let none = ItemList::new(Vec::new(rt.alloc()));
    holds(&rt, 2, none.into_only().is_none(), true);
}

/// Refusals, and their numbers.
static NUMBERS: [(TextError, u8); 11] = [
    (TextError::LineTooLong, 1),
    (TextError::BadKey, 2),
    (TextError::BadNumber, 3),
    (TextError::WrongWords, 4),
    (TextError::DataTooLong, 5),
    (TextError::BadDataEnd, 6),
    (TextError::UnknownCommand { closes: true }, 7),
    (TextError::UnknownCommand { closes: false }, 7),
    (TextError::Truncated, 8),
    (TextError::Closed, 9),
    (TextError::OutOfMemory, 10),
];

#[test]
fn refusals_have_numbers(rt: HostRuntime) {
    for (row, it) in NUMBERS.iter().enumerate() {
        is(&rt, row, it.0.number(), it.1);
    }
}
