//! The words that name where services tell their metrics: each has to be an address.
ghost use Rattle.std.specs.Prelude.{◌≡◌, map, MatchOption, MatchResult};
ghost use Rattle.mr_tool.specs.WatchedWords.{AreAddresses, IsFirstOther, RefusesWord};

use crate::fault::Fault;
use crate::services::net_fault;
use mr_sockets::node_address;
use std::alloc::Global;

/// The first of these words that is no address at which a service may listen.
fn first_other<'a>(words: &[&'a str]) -> Option<&'a str>
    ensures { MatchOption result (AreAddresses (map (λ word. word.now) words.now))
        (λ other. IsFirstOther (map (λ word. word.now) words.now) other.now) }
{
    for word in words {
        if node_address(word).is_none() {
            return Some(word);
        }
    }
    None
}

/// Refuses the first of these words that is no address at which a service may listen.
pub fn check_words(alloc: Global, words: &[&str]) -> Result<(), Fault>
    ensures { MatchResult result (λ _. AreAddresses (map (λ word. word.now) words.now))
        (RefusesWord (map (λ word. word.now) words.now)) }
{
    match first_other(words) {
        Some(other) => Err(net_fault(alloc, other)),
        None => Ok(()),
    }
}
