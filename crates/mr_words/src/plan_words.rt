//! The words of the command that plans a request: a configuration's file and a second, or a migration of six words.
ghost use Rattle.std.specs.Prelude.{◌≡◌, ◌↔◌, ℕ, None, Some, false, IsTrue, IfOk, IfSome, IfNone, codes};
ghost use Rattle.clap.specs.Words.{Text, app_of, first_of, found_of, rows_of, rule_of};
ghost use Rattle.mr_pools.specs.Hash.{name_of_hash};
ghost use Rattle.mr_words.specs.Command.{at_rule, plan_app, planned_file_rule, said_number_rule, said_rule};
ghost use Rattle.mr_words.specs.Words.{HasOptions, HasPlan, HasSixWords, IsNumberIn, LacksOptions, path_in};

use crate::help::{PLAN_NOTES, PLAN_USAGE};
use crate::options::{option, text_in, with_option};
use clap::{Arg, ArgAction, ArgMatches, Command, value_parser};
use mr_pools::NamedHash;
use std::alloc::{AllocError, Global};

/// What help says of the second of a plan, in both of its forms.
const AT_HELP: &str = "When the request arrives, in seconds since the epoch";

/// A migration as the words of a plan say it.
#[derive(Clone, Copy, Debug)]
pub struct MigrationWords<'a> {
    /// The names of the old pool's nodes, with commas between them.
    pub old: &'a str,
    /// The names of the new pool's nodes, with commas between them.
    pub new: &'a str,
    /// The first second of the migration, since the epoch.
    pub start: u64,
    /// How long each of its two middle phases lasts, in seconds.
    pub interval: u64,
    /// How keys are placed.
    pub hash: NamedHash,
}

/// What is planned for: the migrations of a configuration, or one that the words say.
#[derive(Clone, Copy, Debug)]
pub enum Planned<'a> {
    /// Those of the configuration in the file at this path.
    InFile(&'a str),
    /// The one of these words.
    InWords(MigrationWords<'a>),
}

/// The values of the command `plan`.
#[derive(Clone, Copy, Debug)]
pub struct PlanValues<'a> {
    /// The migrations that are planned for.
    pub planned: Planned<'a>,
    /// The moment of the plan, in seconds since the epoch.
    pub at: u64,
}

/// The option that names the file of the configuration.
fn file_option<'a>(alloc: Global) -> Arg<'a>
    ensures rule { rule_of result ≡ planned_file_rule }
    ensures local { result.global ≡ false }
{
    option(alloc, "config", "file", "The file of the configuration")
}

/// The option that says when the request of a plan arrives.
fn at_option<'a>(alloc: Global) -> Arg<'a>
    ensures rule { rule_of result ≡ at_rule }
    ensures local { result.global ≡ false }
{
    let at = option(alloc, "at", "seconds", AT_HELP);
    at.value_parser(value_parser!(u64))
}

/// One of the six words, by its name, and what help calls it.
fn said<'a>(alloc: Global, name: &'a str, shown: &'a str, help: &'a str) -> Arg<'a>
    ensures rule { rule_of result ≡ said_rule name.entry.now None }
    ensures local { result.global ≡ false }
{
    Arg::new(alloc, name)
        .value_name(shown)
        .action(ArgAction::Set)
        .help(help)
}

/// One of the six words that is a number.
fn said_number<'a>(alloc: Global, name: &'a str, shown: &'a str, help: &'a str) -> Arg<'a>
    ensures rule { rule_of result ≡ said_number_rule name.entry.now }
    ensures local { result.global ≡ false }
{
    let number = said(alloc, name, shown, help);
    number.value_parser(value_parser!(u64))
}

/// The command `plan`.
pub fn plan_command<'a>(alloc: Global) -> Result<Command<'a>, AllocError>
    ensures { IfOk result (λ command. app_of command ≡ plan_app) }
{
    let old = "The nodes of the old pool, with commas between them";
    let old = said(alloc, "old", "old", old);
    let new = "The nodes of the new pool, with commas between them";
    let new = said(alloc, "new", "new", new);
    let start = "When the migration begins, in seconds since the epoch";
    let start = said_number(alloc, "start", "start", start);
    let interval = "How long each of its two middle phases lasts, in seconds";
    let interval = said_number(alloc, "interval", "interval", interval);
    let hash = said(alloc, "hash", "hash", "How keys are placed: sum or fnv1a32");
    let second = said_number(alloc, "second", "at", AT_HELP);
    let plan = Command::new(alloc, "plan")
        .about("Prints where the request on the standard input goes")
        .override_usage(PLAN_USAGE)
        .after_help(PLAN_NOTES);
    let plan = with_option(Ok(plan), file_option(alloc));
    let plan = with_option(plan, at_option(alloc));
    let plan = with_option(plan, old);
    let plan = with_option(plan, new);
    let plan = with_option(plan, start);
    let plan = with_option(plan, interval);
    let plan = with_option(plan, hash);
    with_option(plan, second)
}

/// The number that the words give to an option, or to a word of their own. It is none where they give none.
fn number_in(matches: &ArgMatches, name: &str) -> Option<u64>
    ensures found { IfSome result (IsNumberIn name.now (rows_of (found_of matches.now))) }
    ensures missing { IfNone result ((number : ℕ) → ¬ IsNumberIn name.now (rows_of (found_of matches.now)) number) }
{
    match matches.get_one(name) {
        Some(number) => Some(number),
        None => None,
    }
}

/// The hash that the words name. It is none where they name none, or another one.
fn hash_in(matches: &ArgMatches) -> Option<NamedHash>
    ensures found { IfSome result
        (λ hash. first_of (codes "hash") (rows_of (found_of matches.now)) ≡ Some (name_of_hash hash)) }
    ensures missing { IfNone result ((hash : NamedHash)
        → ¬ (first_of (codes "hash") (rows_of (found_of matches.now)) ≡ Some (name_of_hash hash))) }
{
    NamedHash::from_name(text_in(matches, "hash")?)
}

/// The values of a plan by a configuration's file, where both of them were found.
fn file_values<'a>(matches: &ArgMatches<'a>) -> Option<(&'a str, u64)>
    ensures found { IfSome result (λ given. HasOptions (rows_of (found_of matches.now)) given.0.now given.1) }
    ensures missing { IfNone result
        ((path : Text) (at : ℕ) → ¬ HasOptions (rows_of (found_of matches.now)) path at) }
{
    Some((text_in(matches, "config")?, number_in(matches, "at")?))
}

/// The migration of the six words and the second of the plan, where each of them was found.
fn said_values<'a>(matches: &ArgMatches<'a>) -> Option<(MigrationWords<'a>, u64)>
    ensures found { IfSome result (λ given. HasSixWords (rows_of (found_of matches.now)) given.0 given.1) }
    ensures missing { IfNone result
        ((words : MigrationWords) (at : ℕ) → ¬ HasSixWords (rows_of (found_of matches.now)) words at) }
{
    let words = MigrationWords {
        old: text_in(matches, "old")?,
        new: text_in(matches, "new")?,
        start: number_in(matches, "start")?,
        interval: number_in(matches, "interval")?,
        hash: hash_in(matches)?,
    };
    Some((words, number_in(matches, "second")?))
}

/// Whether the words give neither of the two options.
fn lacks_options(matches: &ArgMatches) -> bool
    ensures { IsTrue result ↔ LacksOptions (rows_of (found_of matches.now)) }
{
    text_in(matches, "config").is_none() && text_in(matches, "at").is_none()
}

/// The values of the command `plan`, where they are those of one of its two forms, and nothing of the other one was given.
pub fn plan_values<'a>(matches: &ArgMatches<'a>) -> Option<PlanValues<'a>>
    ensures found { IfSome result (HasPlan (rows_of (found_of matches.now))) }
    ensures missing { IfNone result ((values : PlanValues) → ¬ HasPlan (rows_of (found_of matches.now)) values) }
{
    if text_in(matches, "old").is_none() {
        let (path, at) = file_values(matches)?;
        let planned = Planned::InFile(path);
        return Some(PlanValues { planned, at });
    }
    if !lacks_options(matches) {
        return None;
    }
    let (words, at) = said_values(matches)?;
    let planned = Planned::InWords(words);
    Some(PlanValues { planned, at })
}
