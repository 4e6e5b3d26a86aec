//! What a memcached says of itself.
ghost use Rattle.std.specs.Prelude.{◌≡◌};
ghost use Rattle.mr_watch.specs.Stats.{stat_of, items_in, hits_in, stats_of, stats_in};

use crate::lines::{value_of, whole_number};
use mr_lines::without_carriage_return;

/// What a memcached says of itself.
#[derive(Clone, Copy, Debug, PartialEq, Eq)]
pub struct StatsTold {
    /// Items that it holds.
    pub items: u64,
    /// Keys that it was asked for and had.
    pub hits: u64,
}

/// The number behind a head.
fn stat_of(head: &[u8], bytes: &[u8]) -> Option<u64>
    ensures { result ≡ stat_of head.now bytes.now }
{
    match value_of(head, bytes) {
        Some(word) => whole_number(without_carriage_return(word)),
        None => None,
    }
}

/// How many items it holds.
fn items_in(bytes: &[u8]) -> Option<u64>
    ensures { result ≡ items_in bytes.now }
{
    stat_of(b"STAT curr_items ", bytes)
}

/// How many keys it was asked for and had.
fn hits_in(bytes: &[u8]) -> Option<u64>
    ensures { result ≡ hits_in bytes.now }
{
    stat_of(b"STAT get_hits ", bytes)
}

/// Both.
fn both_in(bytes: &[u8]) -> Option<StatsTold>
    ensures { result ≡ stats_of (items_in bytes.now) (hits_in bytes.now) }
{
    Some(StatsTold {
        items: items_in(bytes)?,
        hits: hits_in(bytes)?,
    })
}

/// What the answer to `stats` says. None where it hasn't ended by `END`, or either number isn't there or isn't one of 64 bits.
pub fn read_stats(bytes: &[u8]) -> Option<StatsTold>
    ensures { result ≡ stats_in bytes.now }
{
    if bytes.ends_with(b"END\r\n") {
        both_in(bytes)
    } else {
        None
    }
}
