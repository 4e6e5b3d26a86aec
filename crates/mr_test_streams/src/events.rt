//! What happens to a fleet, as the words of a row say it.
use crate::fleet::Fleet;
use crate::words::Words;
use std::test::Fail;

/// Lets happen what these words say.
pub fn play(fleet: &mut Fleet, words: &mut Words<'_>) -> Result<(), Fail> {
    let kind = words.word()?;
    match kind {
        "shows" => fleet.shows(words.count()?, words.number()?),
        "waits" => fleet.waits(words.number()?),
        "looks" => fleet.looks(words.count()?),
        "restarts_proxy" => fleet.restarts_proxy(words.count()?),
        "restarts_node" => fleet.restarts_node(words.count()?),
        "connects" => fleet.connects(words.count()?, words.count()?),
        "breaks" => fleet.breaks(words.count()?, words.count()?),
        "asks" => fleet.asks(words.count()?, words.count()?),
        "serves" => fleet.serves(words.count()?, words.number()?, words.count()?),
        "ends" => fleet.ends(words.count()?, words.number()?),
        "replies" => fleet.replies(words.count()?, words.count()?),
        "takes" => fleet.takes(words.count()?, words.count()?),
        "drops" => fleet.drops(words.count()?),
        _ => play_client(fleet, kind, words),
    }
}

/// The same of what happens between a proxy and a client.
fn play_client(fleet: &mut Fleet, kind: &str, words: &mut Words<'_>) -> Result<(), Fail> {
    let proxy = words.count()?;
    let client = words.count()?;
    match kind {
        "comes" => fleet.changes(proxy, client, true),
        "goes" => fleet.changes(proxy, client, false),
        "hears" => fleet.hears(proxy, client, words.bytes()?.as_slice()),
        "hears_end" => fleet.hears_end(proxy, client),
        "answers" => fleet.answers(proxy, client),
        "tells" => fleet.tells(proxy, client, words.count()?),
        _ => Err(Fail::from("no such thing happens")),
    }
}
