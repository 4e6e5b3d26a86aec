//! The words of the command that asks proxies as their clients do.
ghost use Rattle.std.specs.Prelude.{◌≡◌, false, map, IfOk, IfSome, IfNone, codes};
ghost use Rattle.clap.specs.Words.{app_of, found_of, rows_of, rule_of};
ghost use Rattle.mr_words.specs.Command.{canary_app, flag_rule, number_between_rule, prefix_rule, proxies_rule};
ghost use Rattle.mr_words.specs.Words.{IsSpan, prefix_given};
ghost use Rattle.mr_words.specs.WordSteps.{GivesCanary};
ghost use Rattle.mr_words.specs.declared.canary_words.Span.{Span};

use crate::help::CANARY_NOTES;
use crate::options::{
    config_option, flag, is_given, listed, number_between, number_or, option, several, text_in,
    with_option,
};
use clap::{Arg, ArgMatches, Command};
use std::alloc::{AllocError, Global};

/// How many seconds a canary flies, where its words don't say it.
const USUAL_SECONDS: u64 = 60;

/// How many clients it has at each proxy, where its words don't say it.
const USUAL_CLIENTS: u64 = 2;

/// The most clients that it has at each proxy.
const MOST_CLIENTS: u64 = 64;

/// How many keys its clients share, where its words don't say it.
const USUAL_KEYS: u64 = 64;

/// The most keys that they share.
const MOST_KEYS: u64 = 65_536;

/// How many requests it sends in a second, where its words don't say it.
const USUAL_RATE: u64 = 200;

/// The most requests that it sends in a second.
const MOST_RATE: u64 = 100_000;

/// What its keys begin with, where its words don't say it.
const USUAL_PREFIX: &str = "migctl-canary-";

/// How long a canary flies.
#[derive(Clone, Copy, Debug, PartialEq, Eq)]
pub enum Span {
    /// So many seconds, one at least.
    Seconds(u64),
    /// Until the migrations of its configuration are over, by the clock of this machine, and ten seconds more.
    UntilMigrated,
}

/// The values of the command `canary`.
#[derive(Debug, Drop)]
pub struct CanaryValues<'a> {
    /// The path of the configuration's file.
    pub config: &'a str,
    /// How long it flies.
    pub span: Span,
    /// How many clients it has at each proxy, 1 to 64.
    pub clients: u64,
    /// How many keys its clients share, 1 to 65,536.
    pub keys: u64,
    /// How many requests it sends in a second, to all proxies together, 1 to 100,000.
    pub rate: u64,
    /// What its keys begin with.
    pub prefix: &'a str,
    /// Whether what is seen is written as JSON.
    pub json: bool,
    /// Where proxies serve clients: of each a host and a port, with a colon between them.
    pub proxies: Vec<&'a str>,
}

impl<'a> CanaryValues<'a> {
    ghost use Rattle.mr_words.specs.Words.{SameCanary, proxies_in};

    /// Where proxies serve clients.
    pub fn proxies(&self) -> &[&'a str]
        ensures { map (λ proxy. proxy.now) result.now ≡ proxies_in self.now }
    {
        self.proxies.as_slice()
    }

    /// Equal values.
    pub fn copy(&self) -> Result<CanaryValues<'a>, AllocError>
        ensures { IfOk result (SameCanary self.now) }
    {
        Ok(CanaryValues {
            config: self.config,
            span: self.span,
            clients: self.clients,
            keys: self.keys,
            rate: self.rate,
            prefix: self.prefix,
            json: self.json,
            proxies: self.proxies.clone()?,
        })
    }
}

/// The option that says how many seconds it flies.
fn seconds_option<'a>(alloc: Global) -> Arg<'a>
    ensures rule { rule_of result ≡ number_between_rule (codes "seconds") 1 18446744073709551615 }
    ensures local { result.global ≡ false }
{
    number_between(
        alloc,
        "seconds",
        1,
        u64::MAX,
        "For how many seconds it asks; 60 where it is left out",
    )
}

/// The flag that stands in place of a number of seconds.
fn until_migrated_flag<'a>(alloc: Global) -> Arg<'a>
    ensures rule { rule_of result ≡ flag_rule (codes "until-migrated") }
    ensures local { result.global ≡ false }
{
    flag(
        alloc,
        "until-migrated",
        "Ask until the last migration is over, in place of --seconds",
    )
}

/// The option that says how many clients it has at each proxy.
fn clients_option<'a>(alloc: Global) -> Arg<'a>
    ensures rule { rule_of result ≡ number_between_rule (codes "clients") 1 64 }
    ensures local { result.global ≡ false }
{
    number_between(
        alloc,
        "clients",
        1,
        MOST_CLIENTS,
        "How many clients it has at each proxy, 1 to 64; 2 where it is left out",
    )
}

/// The option that says how many keys its clients share.
fn keys_option<'a>(alloc: Global) -> Arg<'a>
    ensures rule { rule_of result ≡ number_between_rule (codes "keys") 1 65536 }
    ensures local { result.global ≡ false }
{
    number_between(
        alloc,
        "keys",
        1,
        MOST_KEYS,
        "How many keys its clients share, 1 to 65536; 64 where it is left out",
    )
}

/// The option that says how many requests it sends in a second.
fn rate_option<'a>(alloc: Global) -> Arg<'a>
    ensures rule { rule_of result ≡ number_between_rule (codes "rate") 1 100000 }
    ensures local { result.global ≡ false }
{
    number_between(
        alloc,
        "rate",
        1,
        MOST_RATE,
        "How many requests it sends in a second, 1 to 100000; 200 where it is left out",
    )
}

/// The option that says what its keys begin with.
fn prefix_option<'a>(alloc: Global) -> Arg<'a>
    ensures rule { rule_of result ≡ prefix_rule }
    ensures local { result.global ≡ false }
{
    option(
        alloc,
        "prefix",
        "text",
        "What its keys begin with; migctl-canary- where it is left out",
    )
}

/// The words that name where proxies serve clients, of which there is one at least.
fn proxies<'a>(alloc: Global) -> Arg<'a>
    ensures rule { rule_of result ≡ proxies_rule }
    ensures local { result.global ≡ false }
{
    let help = "Where a proxy serves clients, as 127.0.0.1:11210";
    several(alloc, "proxy", "proxy address", help)
}

/// The command `canary`.
pub fn canary_command<'a>(alloc: Global) -> Result<Command<'a>, AllocError>
    ensures { IfOk result (λ command. app_of command ≡ canary_app) }
{
    let json = flag(
        alloc,
        "json",
        "Write each second as one object of JSON, in a line",
    );
    let canary = Command::new(alloc, "canary")
        .about("Asks proxies as their clients do, and judges whether what was deleted comes back")
        .after_help(CANARY_NOTES);
    let canary = with_option(Ok(canary), config_option(alloc));
    let canary = with_option(canary, seconds_option(alloc));
    let canary = with_option(canary, until_migrated_flag(alloc));
    let canary = with_option(canary, clients_option(alloc));
    let canary = with_option(canary, keys_option(alloc));
    let canary = with_option(canary, rate_option(alloc));
    let canary = with_option(canary, prefix_option(alloc));
    let canary = with_option(canary, json);
    with_option(canary, proxies(alloc))
}

/// How long a canary flies. It is none where the words say both, or where the option's word is no number.
fn span_in(matches: &ArgMatches) -> Option<Span>
    ensures found { IfSome result (IsSpan (rows_of (found_of matches.now))) }
    ensures missing { IfNone result ((span : Span) → ¬ IsSpan (rows_of (found_of matches.now)) span) }
{
    if !is_given(matches, "until-migrated") {
        return Some(Span::Seconds(number_or(matches, "seconds", USUAL_SECONDS)?));
    }
    match text_in(matches, "seconds") {
        Some(_) => None,
        None => Some(Span::UntilMigrated),
    }
}

/// What the keys of a canary begin with.
fn prefix_in<'a>(matches: &ArgMatches<'a>) -> &'a str
    ensures { result.now ≡ prefix_given (rows_of (found_of matches.now)) }
{
    match text_in(matches, "prefix") {
        Some(prefix) => prefix,
        None => USUAL_PREFIX,
    }
}

/// The values of the command `canary`, where each of them was found or is the usual one.
pub fn canary_values<'a>(
    alloc: Global,
    matches: &ArgMatches<'a>,
) -> Result<Option<CanaryValues<'a>>, AllocError>
    ensures { IfOk result (GivesCanary (rows_of (found_of matches.now))) }
{
    let Some(config) = matches.get_str("config") else {
        return Ok(None);
    };
    let Some(texts) = matches.get_strs("proxy") else {
        return Ok(None);
    };
    let Some(span) = span_in(matches) else {
        return Ok(None);
    };
    let Some(clients) = number_or(matches, "clients", USUAL_CLIENTS) else {
        return Ok(None);
    };
    let Some(keys) = number_or(matches, "keys", USUAL_KEYS) else {
        return Ok(None);
    };
    let Some(rate) = number_or(matches, "rate", USUAL_RATE) else {
        return Ok(None);
    };
    Ok(Some(CanaryValues {
        config,
        span,
        clients,
        keys,
        rate,
        prefix: prefix_in(matches),
        json: is_given(matches, "json"),
        proxies: listed(alloc, texts)?,
    }))
}
