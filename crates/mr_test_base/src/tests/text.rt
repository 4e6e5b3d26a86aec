//! The text protocol: its values, its readers and writers, and what devices do.
mod devices;
mod memory;
mod reader;
mod slow_reader;
mod values;
mod writer;

use super::{are, bytes_of_rule, count_is, equal_bytes, holds, is, leaves, must};
use mr_test_support::Rule;
use mr_text::{Block, Item, Key};
use std::alloc::Global;
use std::process::Abort;

/// An item of these bytes.
fn item(rt: &impl Abort, alloc: Global, key: &[u8], flags: u32, block: &[u8]) -> Item {
    Item {
        key: must(rt, Key::new(alloc, key)),
        flags,
        block: must(rt, Block::new(alloc, block)),
    }
}
