//! The words of a service on loops: how many loops it has, how many clients, and whether it says what happens.
ghost use Rattle.std.specs.Prelude.{◌≡◌, ◌↔◌, ℕ, Option, false, IfSome, IfNone, IsTrue, codes};
ghost use Rattle.clap.specs.Words.{found_of, one_of, rows_of, rule_of};
ghost use Rattle.mr_words.specs.Command.{flag_rule, loops_rule, max_clients_rule};
ghost use Rattle.mr_words.specs.Words.{AreLoopValues, HasLoopValues, IsNumberIfGiven, IsRoom, LacksLoopValues, is_on_loops, loop_count};
ghost use Rattle.mr_words.specs.WordSteps.{SaysWhyNoProxy, why_no_node};

use crate::options::{flag, is_given, number_between, number_or, text_in};
use clap::{Arg, ArgMatches};
use std::alloc::Global;

/// The most loops of a service.
const MOST_LOOPS: u64 = 64;

/// The most loops of a service whose words don't say how many.
const USUAL_LOOPS: u64 = 4;

/// How many clients are served at once, where the words don't say it.
const USUAL_MAX_CLIENTS: u64 = 10_000;

/// How many requests may be under way in a proxy by threads, where its words don't say it.
const USUAL_ROOM: u64 = 64;

/// How many requests may be under way in each loop, where the words don't say it.
const USUAL_LOOP_ROOM: u64 = 4096;

/// What the words say of a service on loops.
#[derive(Clone, Copy, Debug)]
pub struct LoopValues {
    /// How many loops there are, where the words say it.
    pub loops: Option<u64>,
    /// How many clients are served at once; others wait.
    pub max_clients: u64,
    /// Whether nothing is said of what happens: with `--quiet`, and without `--forever`.
    pub quiet: bool,
}

impl LoopValues {
    /// How many loops there are on a machine of so many processors. Where the words don't say it: one for each processor, but 4
    /// at most. It is one at least, and 64 at most.
    pub fn count(&self, processors: u64) -> u32
        ensures { result ≡ loop_count self.now processors }
    {
        let loops = self.loops.unwrap_or(processors.min(USUAL_LOOPS));
        loops.clamp(1, MOST_LOOPS) as u32
    }
}

/// The option that says how many loops there are.
pub fn loops_option<'a>(alloc: Global) -> Arg<'a>
    ensures rule { rule_of result ≡ loops_rule }
    ensures local { result.global ≡ false }
{
    number_between(
        alloc,
        "loops",
        1,
        MOST_LOOPS,
        "How many loops there are, 1 to 64; where it is left out as many as processors, 4 at most",
    )
}

/// The option that says how many clients are served at once.
pub fn max_clients_option<'a>(alloc: Global) -> Arg<'a>
    ensures rule { rule_of result ≡ max_clients_rule }
    ensures local { result.global ≡ false }
{
    number_between(
        alloc,
        "max-clients",
        1,
        u64::MAX,
        "How many clients are served at once, while others wait; 10000 where it is left out",
    )
}

/// The flag that has nothing said.
pub fn quiet_flag<'a>(alloc: Global) -> Arg<'a>
    ensures rule { rule_of result ≡ flag_rule (codes "quiet") }
    ensures local { result.global ≡ false }
{
    flag(alloc, "quiet", "Say nothing of what happens")
}

/// Whether a service is one on loops: with `--forever` or `--metrics`.
pub fn asks_for_loops(matches: &ArgMatches) -> bool
    ensures { result ≡ is_on_loops (rows_of (found_of matches.now)) }
{
    is_given(matches, "forever") || text_in(matches, "metrics").is_some()
}

/// How many requests may be under way, in each loop if there are loops. It is none where the option's word is no number, or
/// where no request could ever begin in a loop.
pub fn room_in(matches: &ArgMatches, on_loops: bool) -> Option<u64>
    ensures found { IfSome result (IsRoom on_loops (one_of (codes "room") (rows_of (found_of matches.now)))) }
    ensures missing { IfNone result
        ((room : ℕ) → ¬ IsRoom on_loops (one_of (codes "room") (rows_of (found_of matches.now))) room) }
{
    if !on_loops {
        return number_or(matches, "room", USUAL_ROOM);
    }
    let room = number_or(matches, "room", USUAL_LOOP_ROOM)?;
    if room == 0 { None } else { Some(room) }
}

/// The number that an option gives, if it is given. It is none where the option's word is no number.
fn number_if_given(matches: &ArgMatches, name: &str) -> Option<Option<u64>>
    ensures found { IfSome result (IsNumberIfGiven (one_of name.now (rows_of (found_of matches.now)))) }
    ensures missing { IfNone result ((number : Option ℕ)
        → ¬ IsNumberIfGiven (one_of name.now (rows_of (found_of matches.now))) number) }
{
    match matches.try_get_one(name) {
        Ok(Some(number)) => Some(Some(number)),
        Ok(None) => Some(None),
        Err(_) => None,
    }
}

/// The values of a service on loops, where each of them was found or is the usual one.
fn loop_values(matches: &ArgMatches) -> Option<LoopValues>
    ensures found { IfSome result (HasLoopValues (rows_of (found_of matches.now))) }
    ensures missing { IfNone result
        ((values : LoopValues) → ¬ HasLoopValues (rows_of (found_of matches.now)) values) }
{
    Some(LoopValues {
        loops: number_if_given(matches, "loops")?,
        max_clients: number_or(matches, "max-clients", USUAL_MAX_CLIENTS)?,
        quiet: is_given(matches, "quiet") || !is_given(matches, "forever"),
    })
}

/// Whether none of the words is given that say something of loops alone.
fn lacks_loop_values(matches: &ArgMatches) -> bool
    ensures { IsTrue result ↔ LacksLoopValues (rows_of (found_of matches.now)) }
{
    text_in(matches, "loops").is_none()
        && text_in(matches, "max-clients").is_none()
        && !is_given(matches, "quiet")
}

/// The values of a service on loops, or that it is one by threads. It is none where words that say something of loops alone are
/// given to one by threads.
pub fn loops_in(matches: &ArgMatches) -> Option<Option<LoopValues>>
    ensures found { IfSome result (AreLoopValues (rows_of (found_of matches.now))) }
    ensures missing { IfNone result
        ((values : Option LoopValues) → ¬ AreLoopValues (rows_of (found_of matches.now)) values) }
{
    if asks_for_loops(matches) {
        return Some(Some(loop_values(matches)?));
    }
    if lacks_loop_values(matches) {
        Some(None)
    } else {
        None
    }
}

/// Why a proxy has no values, though the command line took each of them.
pub fn why_no_proxy(matches: &ArgMatches) -> &'static str
    ensures { SaysWhyNoProxy (rows_of (found_of matches.now)) result.now }
{
    if asks_for_loops(matches) && room_in(matches, true).is_none() {
        return "'--room' is at least 1 with '--forever' or '--metrics'";
    }
    why_no_node(matches)
}

/// Why a node has no values, though the command line took each of them.
pub fn why_no_node(matches: &ArgMatches) -> &'static str
    ensures { result.now ≡ why_no_node (rows_of (found_of matches.now)) }
{
    if !asks_for_loops(matches) {
        return "'--loops', '--max-clients' and '--quiet' go with '--forever' or '--metrics'";
    }
    if is_given(matches, "forever") {
        "'--forever' stands in place of '--clients' and '--turns', and neither goes with it"
    } else {
        "'--turns' doesn't go with '--metrics'"
    }
}
