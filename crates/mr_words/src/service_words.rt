//! The words of the commands that serve clients: a node, and a proxy.
ghost use Rattle.std.specs.Prelude.{◌≡◌, ℕ, false, IfOk, IfSome, IfNone, codes};
ghost use Rattle.clap.specs.Words.{app_of, found_of, one_of, rows_of, rule_of};
ghost use Rattle.mr_words.specs.Command.{node_app, proxy_app, forever_rule, number_rule};
ghost use Rattle.mr_words.specs.Words.{HasNodeValues, HasProxyValues, IsBoundOr};

use crate::help::{NODE_NOTES, PROXY_NOTES};
use crate::loop_words::{
    LoopValues, asks_for_loops, loops_in, loops_option, max_clients_option, quiet_flag, room_in,
};
use crate::options::{
    config_option, flag, is_given, listen_option, metrics_option, number_option, number_or,
    quantity_option, with_option,
};
use clap::{Arg, ArgMatches, Command};
use std::alloc::{AllocError, Global};

/// How many items a node holds, where its words don't say it.
const USUAL_CAPACITY: u64 = 1024;

/// How many clients are served, where the words don't say it.
const USUAL_CLIENTS: u64 = 1;

/// How many reads are made of a connection, where the words don't say it.
const USUAL_TURNS: u64 = 1_000_000;

/// How many milliseconds a leg may wait for its node at a time, where the words of a proxy don't say it.
const USUAL_LEG_TIMEOUT: u64 = 5_000;

/// How many seconds a client may be silent, where the words don't say it: as many as it likes.
const USUAL_IDLE_TIMEOUT: u64 = 0;

/// How many clients are served, and how many reads are made of each, where that goes on for good.
const WITHOUT_END: u64 = u64::MAX;

/// The values of the command `node`.
#[derive(Clone, Copy, Debug)]
pub struct NodeValues<'a> {
    /// Where clients connect: a host and a port, with a colon between them.
    pub listen: &'a str,
    /// How many items the node holds at most.
    pub capacity: u64,
    /// How many clients are served, until the command ends.
    pub clients: u64,
    /// How many reads are made at most of each client's connection. Loops bound them by time alone.
    pub turns: u64,
    /// How many seconds a client may be silent, or read nothing of what it is answered; 0 for as many as it likes.
    pub idle_timeout: u64,
    /// Where metrics are told, if they are: a host and a port, with a colon between them.
    pub metrics: Option<&'a str>,
    /// What is said of its loops, where it runs on loops and not by threads.
    pub on_loops: Option<LoopValues>,
}

/// The values of the command `proxy`.
#[derive(Clone, Copy, Debug)]
pub struct ProxyValues<'a> {
    /// The path of the configuration's file.
    pub config: &'a str,
    /// Where clients connect: a host and a port, with a colon between them.
    pub listen: &'a str,
    /// How many requests may be under way at once, in each loop if it runs on loops.
    pub room: u64,
    /// How many clients are served, until the command ends.
    pub clients: u64,
    /// How many reads are made at most of each client's connection, and of a node for each leg. Loops bound them by time alone.
    pub turns: u64,
    /// How many milliseconds a leg's connecting, each of its reads and each of its writes may wait for its node; 0 for as
    /// many as it takes.
    pub leg_timeout: u64,
    /// How many seconds a client may be silent, or read nothing of what it is answered; 0 for as many as it likes.
    pub idle_timeout: u64,
    /// Where metrics are told, if they are: a host and a port, with a colon between them.
    pub metrics: Option<&'a str>,
    /// What is said of its loops, where it runs on loops and not by threads.
    pub on_loops: Option<LoopValues>,
}

/// The option that says how many clients are served.
fn clients_option<'a>(alloc: Global) -> Arg<'a>
    ensures rule { rule_of result ≡ number_rule (codes "clients") }
    ensures local { result.global ≡ false }
{
    number_option(
        alloc,
        "clients",
        "How many connections are served until the command ends; 1 where it is left out",
    )
}

/// The option that says how many reads are made of a connection.
fn turns_option<'a>(alloc: Global) -> Arg<'a>
    ensures rule { rule_of result ≡ number_rule (codes "turns") }
    ensures local { result.global ≡ false }
{
    number_option(
        alloc,
        "turns",
        "How many reads are made of a connection at most; 1000000 where it is left out",
    )
}

/// The option that says how long a leg may take.
fn leg_timeout_option<'a>(alloc: Global) -> Arg<'a>
    ensures rule { rule_of result ≡ number_rule (codes "leg-timeout") }
    ensures local { result.global ≡ false }
{
    quantity_option(
        alloc,
        "leg-timeout",
        "milliseconds",
        "How long a leg may take, 0 for no bound; 5000 where it is left out",
    )
}

/// The option that says how long a client may be silent.
fn idle_timeout_option<'a>(alloc: Global) -> Arg<'a>
    ensures rule { rule_of result ≡ number_rule (codes "idle-timeout") }
    ensures local { result.global ≡ false }
{
    quantity_option(
        alloc,
        "idle-timeout",
        "seconds",
        "How long a client may be silent, 0 for no bound; 0 where it is left out",
    )
}

/// The flag that stands in place of both numbers of clients and turns.
fn forever_flag<'a>(alloc: Global) -> Arg<'a>
    ensures rule { rule_of result ≡ forever_rule }
    ensures local { result.global ≡ false }
{
    flag(
        alloc,
        "forever",
        "Serve every connection for as long as it lasts, in place of --clients and --turns",
    )
}

/// The command `node`.
pub fn node_command<'a>(alloc: Global) -> Result<Command<'a>, AllocError>
    ensures { IfOk result (λ command. app_of command ≡ node_app) }
{
    let capacity = number_option(
        alloc,
        "capacity",
        "How many items the node holds at most; 1024 where it is left out",
    );
    let node = Command::new(alloc, "node")
        .about("Serves a memcached node that is empty at first")
        .after_help(NODE_NOTES);
    let node = with_option(Ok(node), listen_option(alloc));
    let node = with_option(node, capacity);
    let node = with_option(node, clients_option(alloc));
    let node = with_option(node, turns_option(alloc));
    let node = with_option(node, idle_timeout_option(alloc));
    let node = with_option(node, metrics_option(alloc));
    let node = with_option(node, forever_flag(alloc));
    let node = with_option(node, loops_option(alloc));
    let node = with_option(node, max_clients_option(alloc));
    with_option(node, quiet_flag(alloc))
}

/// The command `proxy`.
pub fn proxy_command<'a>(alloc: Global) -> Result<Command<'a>, AllocError>
    ensures { IfOk result (λ command. app_of command ≡ proxy_app) }
{
    let room = number_option(
        alloc,
        "room",
        "How many requests may be under way at once; where it is left out 64, or 4096 in each loop",
    );
    let proxy = Command::new(alloc, "proxy")
        .about("Serves a proxy that migrates the pool of a configuration")
        .after_help(PROXY_NOTES);
    let proxy = with_option(Ok(proxy), config_option(alloc));
    let proxy = with_option(proxy, listen_option(alloc));
    let proxy = with_option(proxy, room);
    let proxy = with_option(proxy, clients_option(alloc));
    let proxy = with_option(proxy, turns_option(alloc));
    let proxy = with_option(proxy, leg_timeout_option(alloc));
    let proxy = with_option(proxy, idle_timeout_option(alloc));
    let proxy = with_option(proxy, metrics_option(alloc));
    let proxy = with_option(proxy, forever_flag(alloc));
    let proxy = with_option(proxy, loops_option(alloc));
    let proxy = with_option(proxy, max_clients_option(alloc));
    with_option(proxy, quiet_flag(alloc))
}

/// The number of an option that bounds nothing that goes on for good: the greatest one there, and else the option's or the usual
/// one. It is none where the option was given there, or where its word is no number.
fn bound_or(matches: &ArgMatches, name: &str, usual: u64, without_end: bool) -> Option<u64>
    ensures found { IfSome result (IsBoundOr usual without_end (one_of name.now (rows_of (found_of matches.now)))) }
    ensures missing { IfNone result ((number : ℕ)
        → ¬ IsBoundOr usual without_end (one_of name.now (rows_of (found_of matches.now))) number) }
{
    if !without_end {
        return number_or(matches, name, usual);
    }
    match matches.get_str(name) {
        Some(_) => None,
        None => Some(WITHOUT_END),
    }
}

/// The values of the command `node`, where each of them was found or is the usual one.
pub fn node_values<'a>(matches: &ArgMatches<'a>) -> Option<NodeValues<'a>>
    ensures found { IfSome result (HasNodeValues (rows_of (found_of matches.now))) }
    ensures missing { IfNone result ((values : NodeValues) → ¬ HasNodeValues (rows_of (found_of matches.now)) values) }
{
    let forever = is_given(matches, "forever");
    Some(NodeValues {
        listen: matches.get_str("listen")?,
        capacity: number_or(matches, "capacity", USUAL_CAPACITY)?,
        clients: bound_or(matches, "clients", USUAL_CLIENTS, forever)?,
        turns: bound_or(matches, "turns", USUAL_TURNS, asks_for_loops(matches))?,
        idle_timeout: number_or(matches, "idle-timeout", USUAL_IDLE_TIMEOUT)?,
        metrics: matches.get_str("metrics"),
        on_loops: loops_in(matches)?,
    })
}

/// The values of the command `proxy`, where each of them was found or is the usual one.
pub fn proxy_values<'a>(matches: &ArgMatches<'a>) -> Option<ProxyValues<'a>>
    ensures found { IfSome result (HasProxyValues (rows_of (found_of matches.now))) }
    ensures missing { IfNone result
        ((values : ProxyValues) → ¬ HasProxyValues (rows_of (found_of matches.now)) values) }
{
    let forever = is_given(matches, "forever");
    let on_loops = asks_for_loops(matches);
    Some(ProxyValues {
        config: matches.get_str("config")?,
        listen: matches.get_str("listen")?,
        room: room_in(matches, on_loops)?,
        clients: bound_or(matches, "clients", USUAL_CLIENTS, forever)?,
        turns: bound_or(matches, "turns", USUAL_TURNS, on_loops)?,
        leg_timeout: number_or(matches, "leg-timeout", USUAL_LEG_TIMEOUT)?,
        idle_timeout: number_or(matches, "idle-timeout", USUAL_IDLE_TIMEOUT)?,
        metrics: matches.get_str("metrics"),
        on_loops: loops_in(matches)?,
    })
}
