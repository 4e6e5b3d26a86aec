//! The options of the commands, and the numbers that they give.
ghost use Rattle.std.specs.Prelude.{◌≡◌, ℕ, None, Some, false, true, IfOk, IsOkAnd, IfSome, IfNone, codes};
ghost use Rattle.clap.specs.Words.{AddsArg, first_of, found_of, one_of, rows_of, rule_of};
ghost use Rattle.mr_words.specs.Command.{config_rule, flag_rule, listen_rule, metrics_rule, number_rule, number_between_rule, option_rule, several_rule};
ghost use Rattle.mr_words.specs.Words.{IsNumberOr, has_flag, path_in};

use clap::builder::ValueParser;
use clap::{Arg, ArgAction, ArgMatches, Command, value_parser};
use std::alloc::{AllocError, Global};

/// An option with a value, by its name, and what help calls its value.
pub fn option<'a>(alloc: Global, name: &'a str, value: &'a str, help: &'a str) -> Arg<'a>
    ensures rule { rule_of result ≡ option_rule name.entry.now None false }
    ensures local { result.global ≡ false }
{
    Arg::new(alloc, name)
        .long(name)
        .value_name(value)
        .action(ArgAction::Set)
        .help(help)
}

/// The option that names the file of the configuration.
pub fn config_option<'a>(alloc: Global) -> Arg<'a>
    ensures rule { rule_of result ≡ config_rule }
    ensures local { result.global ≡ false }
{
    let config = option(alloc, "config", "file", "The file of the configuration");
    config.required(true)
}

/// The option that names where clients connect.
pub fn listen_option<'a>(alloc: Global) -> Arg<'a>
    ensures rule { rule_of result ≡ listen_rule }
    ensures local { result.global ≡ false }
{
    let listen = option(alloc, "listen", "host:port", "Where clients connect");
    listen.required(true)
}

/// The option that names where metrics are told.
pub fn metrics_option<'a>(alloc: Global) -> Arg<'a>
    ensures rule { rule_of result ≡ metrics_rule }
    ensures local { result.global ≡ false }
{
    option(
        alloc,
        "metrics",
        "host:port",
        "Where metrics are told to those that scrape them; nowhere where it is left out",
    )
}

/// An option that gives a number, and may be left out.
pub fn number_option<'a>(alloc: Global, name: &'a str, help: &'a str) -> Arg<'a>
    ensures rule { rule_of result ≡ number_rule name.entry.now }
    ensures local { result.global ≡ false }
{
    quantity_option(alloc, name, "number", help)
}

/// An option that gives a number of this unit, and may be left out.
pub fn quantity_option<'a>(alloc: Global, name: &'a str, unit: &'a str, help: &'a str) -> Arg<'a>
    ensures rule { rule_of result ≡ number_rule name.entry.now }
    ensures local { result.global ≡ false }
{
    let quantity = option(alloc, name, unit, help);
    quantity.value_parser(value_parser!(u64))
}

/// An option that gives a number between these two, which are numbers that it may give, and may be left out.
pub fn number_between<'a>(
    alloc: Global,
    name: &'a str,
    least: u64,
    most: u64,
    help: &'a str,
) -> Arg<'a>
    ensures rule { rule_of result ≡ number_between_rule name.entry.now least most }
    ensures local { result.global ≡ false }
{
    let number = option(alloc, name, "number", help);
    number.value_parser(ValueParser::unsigned(least, most))
}

/// A flag, by its name.
pub fn flag<'a>(alloc: Global, name: &'a str, help: &'a str) -> Arg<'a>
    ensures rule { rule_of result ≡ flag_rule name.entry.now }
    ensures local { result.global ≡ false }
{
    Arg::new(alloc, name)
        .long(name)
        .action(ArgAction::SetTrue)
        .help(help)
}

/// Words by one name, of which there is one at least, and what help calls each.
pub fn several<'a>(alloc: Global, name: &'a str, shown: &'a str, help: &'a str) -> Arg<'a>
    ensures rule { rule_of result ≡ several_rule name.entry.now }
    ensures local { result.global ≡ false }
{
    Arg::new(alloc, name)
        .value_name(shown)
        .num_args(1..)
        .required(true)
        .action(ArgAction::Append)
        .help(help)
}

/// Whether a flag was given.
pub fn is_given(matches: &ArgMatches, name: &str) -> bool
    ensures { result ≡ has_flag name.now (rows_of (found_of matches.now)) }
{
    match matches.get_str(name) {
        Some(word) => word == "true",
        None => false,
    }
}

/// A command with one more option, where there was memory for both.
pub fn with_option<'a>(
    command: Result<Command<'a>, AllocError>,
    option: Arg<'a>,
) -> Result<Command<'a>, AllocError>
    ensures { IfOk result (λ whole. IsOkAnd command.entry (λ old. AddsArg old option.entry whole)) }
{
    command?.arg(option)
}

/// The text that the words give to an option, or to a word of their own.
pub fn text_in<'a>(matches: &ArgMatches<'a>, name: &str) -> Option<&'a str>
    ensures { path_in result ≡ first_of name.now (rows_of (found_of matches.now)) }
{
    matches.get_str(name)
}

/// The number that an option gives, or the usual one where the option was left out. It is none where the option's word is
/// no number.
pub fn number_or(matches: &ArgMatches, name: &str, usual: u64) -> Option<u64>
    ensures found { IfSome result (IsNumberOr usual (one_of name.now (rows_of (found_of matches.now)))) }
    ensures missing { IfNone result
        ((number : ℕ) → ¬ IsNumberOr usual (one_of name.now (rows_of (found_of matches.now))) number) }
{
    match matches.try_get_one(name) {
        Ok(Some(number)) => Some(number),
        Ok(None) => Some(usual),
        Err(_) => None,
    }
}

/// These texts, in a list of their own.
pub fn listed<'a>(alloc: Global, texts: &[&'a str]) -> Result<Vec<&'a str>, AllocError>
    ensures { IfOk result (λ list. list.items ≡ texts.now) }
{
    let mut list = Vec::new(alloc);
    list.extend_from_slice(texts)?;
    Ok(list)
}
