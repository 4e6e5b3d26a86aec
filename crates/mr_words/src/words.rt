//! The words of the command line.
ghost use Rattle.std.specs.Prelude.{◌≡◌, List, None, Some, false, map, IfOk, IsOkAnd, IfSome, IfNone, codes, option_map};
ghost use Rattle.clap.specs.Words.{AddsSubcommand, Row, app_of, found_of, rows_of, rule_of, subcommand_name_of, subcommand_rows_of};
ghost use Rattle.mr_words.specs.Command.{file_app, word_rule, timeline_app, run_app, check_app, draw_app, upgrade_app, explain_app, program_app};
ghost use Rattle.mr_words.specs.Explain.{told_by};
ghost use Rattle.mr_words.specs.Words.{AgreesWith, HasExplanation, ReadsWords, SaysPlainly, SaysVersion, ReadsAs, TellsVersion};
ghost use Rattle.mr_words.specs.WordSteps.{IsFaultOf, GivesReadings, GivesTimeline, GivesCommand, SaysWhyNoProxy, both_spans, neither_form, no_such_fault, why_no_node};

use crate::canary_words::{CanaryValues, canary_command, canary_values};
use crate::explain::{Explanation, find_explanation};
use crate::help::{
    CHECK_NOTES, DRAW_NOTES, EXPLAIN_NOTES, PROGRAM_NOTES, RUN_NOTES, TIMELINE_NOTES, UPGRADE_NOTES,
};
use crate::loop_words::{why_no_node, why_no_proxy};
use crate::options::{config_option, option};
use crate::plan_words::{PlanValues, plan_command, plan_values};
use crate::readings::numbers_in;
use crate::service_words::{
    NodeValues, ProxyValues, node_command, node_values, proxy_command, proxy_values,
};
use crate::version::VERSION;
use crate::watch_words::{WatchValues, watch_command, watch_values};
use clap::error::ErrorKind;
use clap::{Arg, ArgAction, ArgMatches, Command, Error, value_parser};
use std::alloc::{AllocError, Global};

/// The values of the command `timeline`.
#[derive(Debug, Drop)]
pub struct TimelineValues<'a> {
    /// The path of the configuration's file.
    pub config: &'a str,
    /// What clocks read, in seconds since the epoch, where it was given.
    pub readings: Option<Vec<u64>>,
}

impl<'a> TimelineValues<'a> {
    ghost use Rattle.mr_words.specs.Words.{SameTimeline, readings_in};

    /// What clocks read, where it was given.
    pub fn readings(&self) -> Option<&[u64]>
        ensures { option_map (λ numbers. numbers.now) result ≡ readings_in self.now }
    {
        match &self.readings {
            Some(readings) => Some(readings.as_slice()),
            None => None,
        }
    }

    /// Equal values.
    pub fn copy(&self) -> Result<TimelineValues<'a>, AllocError>
        ensures { IfOk result (SameTimeline self.now) }
    {
        let readings = match &self.readings {
            Some(readings) => Some(readings.clone()?),
            None => None,
        };
        let config = self.config;
        Ok(TimelineValues { config, readings })
    }
}

/// What the words ask for: a command with its values.
#[derive(Debug, Drop)]
pub enum Wanted<'a> {
    /// Where a request goes.
    Plan(PlanValues<'a>),
    /// When each phase is.
    Timeline(TimelineValues<'a>),
    /// The transcript of the script in a file, or of the one on the input.
    Run(Option<&'a str>),
    /// What is found of the transcript in a file, or of the one on the input.
    Check(Option<&'a str>),
    /// The picture of the transcript in a file, or of the one on the input.
    Draw(Option<&'a str>),
    /// The script in a file, or the one on the input, in the newest format.
    Upgrade(Option<&'a str>),
    /// The service of a node.
    Node(NodeValues<'a>),
    /// The service of a proxy.
    Proxy(ProxyValues<'a>),
    /// What is seen of a migration while it runs.
    Watch(WatchValues<'a>),
    /// What clients of its own see at proxies, and whether what was deleted comes back.
    Canary(CanaryValues<'a>),
    /// What a fault means.
    Explain(Explanation<'static>),
}

impl<'a> Wanted<'a> {
    /// The same command with equal values.
    pub fn copy(&self) -> Result<Wanted<'a>, AllocError>
        ensures { IfOk result (AgreesWith self.now) }
    {
        match self {
            Wanted::Plan(values) => Ok(Wanted::Plan(*values)),
            Wanted::Timeline(values) => Ok(Wanted::Timeline(values.copy()?)),
            Wanted::Run(file) => Ok(Wanted::Run(*file)),
            Wanted::Check(file) => Ok(Wanted::Check(*file)),
            Wanted::Draw(file) => Ok(Wanted::Draw(*file)),
            Wanted::Upgrade(file) => Ok(Wanted::Upgrade(*file)),
            Wanted::Node(values) => Ok(Wanted::Node(*values)),
            Wanted::Proxy(values) => Ok(Wanted::Proxy(*values)),
            Wanted::Watch(values) => Ok(Wanted::Watch(values.copy()?)),
            Wanted::Canary(values) => Ok(Wanted::Canary(values.copy()?)),
            Wanted::Explain(explanation) => Ok(Wanted::Explain(*explanation)),
        }
    }
}

/// Why the words give no command.
#[derive(Debug, Drop)]
pub enum WordsFault {
    /// The words are wrong, or call for help: its text is for the user.
    Wrong(Error),
    /// The words call for the version, which one line tells.
    Version,
    /// The readings are no list of numbers.
    Readings,
    /// Memory was refused.
    Memory,
}

ghost use Rattle.mr_words.specs.declared.words.WordsFault.TheVariants.{Memory};

impl From<AllocError> for WordsFault {
    ghost from_gives = { λ error fault. fault ≡ Memory };

    fn from(_error: AllocError) -> WordsFault {
        WordsFault::Memory
    }
}

impl From<Error> for WordsFault {
    ghost from_gives = { λ error fault. IsFaultOf error fault };

    fn from(error: Error) -> WordsFault {
        if error.kind() == ErrorKind::OutOfMemory {
            WordsFault::Memory
        } else if error.kind() == ErrorKind::DisplayVersion {
            WordsFault::Version
        } else {
            WordsFault::Wrong(error)
        }
    }
}

/// The command `timeline`.
fn timeline_command<'a>(alloc: Global) -> Result<Command<'a>, AllocError>
    ensures { IfOk result (λ command. app_of command ≡ timeline_app) }
{
    let readings = option(
        alloc,
        "readings",
        "list",
        "What clocks read, in seconds since the epoch, with commas between them",
    );
    Command::new(alloc, "timeline")
        .about("Prints when each phase of each migration is")
        .after_help(TIMELINE_NOTES)
        .arg(config_option(alloc))?
        .arg(readings)
}

/// A command that is given a file by its path, or else the input.
fn file_command<'a>(
    alloc: Global,
    name: &'a str,
    holds: &'a str,
    about: &'a str,
    notes: &'a str,
) -> Result<Command<'a>, AllocError>
    ensures { IfOk result (λ command. app_of command ≡ file_app name.entry.now) }
{
    let file = Arg::new(alloc, "file")
        .value_name(holds)
        .action(ArgAction::Set)
        .help("The file that holds it; without one it is on the standard input");
    Command::new(alloc, name)
        .about(about)
        .after_help(notes)
        .arg(file)
}

/// The command `run`.
fn run_command<'a>(alloc: Global) -> Result<Command<'a>, AllocError>
    ensures { IfOk result (λ command. app_of command ≡ run_app) }
{
    let about = "Plays a script and prints its transcript";
    file_command(alloc, "run", "script", about, RUN_NOTES)
}

/// The command `check`.
fn check_command<'a>(alloc: Global) -> Result<Command<'a>, AllocError>
    ensures { IfOk result (λ command. app_of command ≡ check_app) }
{
    let about = "Plays a transcript again and prints what is found of it";
    file_command(alloc, "check", "transcript", about, CHECK_NOTES)
}

/// The command `draw`.
fn draw_command<'a>(alloc: Global) -> Result<Command<'a>, AllocError>
    ensures { IfOk result (λ command. app_of command ≡ draw_app) }
{
    let about = "Draws a transcript as an SVG";
    file_command(alloc, "draw", "transcript", about, DRAW_NOTES)
}

/// The command `upgrade`.
fn upgrade_command<'a>(alloc: Global) -> Result<Command<'a>, AllocError>
    ensures { IfOk result (λ command. app_of command ≡ upgrade_app) }
{
    let about = "Prints a script in format 2";
    file_command(alloc, "upgrade", "script", about, UPGRADE_NOTES)
}

/// A word of its own, by its name.
fn word<'a>(alloc: Global, name: &'a str, help: &'a str) -> Arg<'a>
    ensures rule { rule_of result ≡ word_rule name.entry.now None }
    ensures local { result.global ≡ false }
{
    Arg::new(alloc, name)
        .required(true)
        .action(ArgAction::Set)
        .help(help)
}

/// The command `explain`.
fn explain_command<'a>(alloc: Global) -> Result<Command<'a>, AllocError>
    ensures { IfOk result (λ command. app_of command ≡ explain_app) }
{
    let layer = word(alloc, "layer", "The layer that the fault's line names");
    let number = word(alloc, "number", "The number behind it");
    Command::new(alloc, "explain")
        .about("Prints what a fault means, and what to look at first")
        .after_help(EXPLAIN_NOTES)
        .arg(layer)?
        .arg(number.value_parser(value_parser!(u64)))
}

/// A program with one more command, where there was memory for both.
fn with_command<'a>(
    program: Result<Command<'a>, AllocError>,
    command: Result<Command<'a>, AllocError>,
) -> Result<Command<'a>, AllocError>
    ensures { IfOk result
        (λ whole. IsOkAnd program.entry (λ old. IsOkAnd command.entry (λ made. AddsSubcommand old made whole))) }
{
    let command = command?;
    program?.subcommand(command)
}

/// The program with its commands. Its words begin with the command.
fn program<'a>(alloc: Global) -> Result<Command<'a>, AllocError>
    ensures { IfOk result (λ command. app_of command ≡ program_app) }
{
    let named = Command::new(alloc, "migctl").bin_name("migctl")?;
    let program = Ok(
        named
            .about("Plans, plays, checks and serves the migration of a memcached pool to a new one")
            .after_help(PROGRAM_NOTES),
    );
    let program = with_command(program, plan_command(alloc));
    let program = with_command(program, timeline_command(alloc));
    let program = with_command(program, run_command(alloc));
    let program = with_command(program, check_command(alloc));
    let program = with_command(program, draw_command(alloc));
    let program = with_command(program, upgrade_command(alloc));
    let program = with_command(program, node_command(alloc));
    let program = with_command(program, proxy_command(alloc));
    let program = with_command(program, watch_command(alloc));
    let program = with_command(program, canary_command(alloc));
    let program = with_command(program, explain_command(alloc))?;
    Ok(
        program
            .version(VERSION.number)
            .no_binary_name(true)
            .subcommand_required(true)
            .arg_required_else_help(true),
    )
}

/// The readings among the values of the command `timeline`, where they were given.
fn readings_of(alloc: Global, matches: &ArgMatches) -> Result<Option<Vec<u64>>, WordsFault>
    ensures { GivesReadings (rows_of (found_of matches.now)) result }
{
    let Some(text) = matches.get_str("readings") else {
        return Ok(None);
    };
    match numbers_in(alloc, text)? {
        Some(numbers) => Ok(Some(numbers)),
        None => Err(WordsFault::Readings),
    }
}

/// The values of the command `timeline`, where they were found.
fn timeline_values<'a>(
    alloc: Global,
    matches: &ArgMatches<'a>,
) -> Result<Option<TimelineValues<'a>>, WordsFault>
    ensures { GivesTimeline (rows_of (found_of matches.now)) result }
{
    let readings = readings_of(alloc, matches)?;
    match matches.get_str("config") {
        Some(config) => Ok(Some(TimelineValues { config, readings })),
        None => Ok(None),
    }
}

/// The explanation that the values of the command `explain` name, where there is one.
fn explanation_in(matches: &ArgMatches) -> Option<Explanation<'static>>
    ensures found { IfSome result
        (λ explanation. HasExplanation (rows_of (found_of matches.now)) (told_by explanation)) }
    ensures missing { IfNone result
        ((explanation : Explanation) → ¬ HasExplanation (rows_of (found_of matches.now)) (told_by explanation)) }
{
    find_explanation(matches.get_str("layer")?, matches.get_one("number")?)
}

/// The command that was found, where it has its values.
fn wanted_of<'a>(alloc: Global, matches: &ArgMatches<'a>) -> Result<Option<Wanted<'a>>, WordsFault>
    ensures { GivesCommand (subcommand_rows_of matches.now) result }
{
    if let Some(found) = matches.subcommand_matches("plan") {
        return match plan_values(found) {
            Some(values) => Ok(Some(Wanted::Plan(values))),
            None => Ok(None),
        };
    }
    if let Some(found) = matches.subcommand_matches("timeline") {
        return match timeline_values(alloc, found)? {
            Some(values) => Ok(Some(Wanted::Timeline(values))),
            None => Ok(None),
        };
    }
    if let Some(found) = matches.subcommand_matches("run") {
        return Ok(Some(Wanted::Run(found.get_str("file"))));
    }
    if let Some(found) = matches.subcommand_matches("check") {
        return Ok(Some(Wanted::Check(found.get_str("file"))));
    }
    if let Some(found) = matches.subcommand_matches("draw") {
        return Ok(Some(Wanted::Draw(found.get_str("file"))));
    }
    if let Some(found) = matches.subcommand_matches("upgrade") {
        return Ok(Some(Wanted::Upgrade(found.get_str("file"))));
    }
    if let Some(found) = matches.subcommand_matches("node") {
        return match node_values(found) {
            Some(values) => Ok(Some(Wanted::Node(values))),
            None => Ok(None),
        };
    }
    if let Some(found) = matches.subcommand_matches("proxy") {
        return match proxy_values(found) {
            Some(values) => Ok(Some(Wanted::Proxy(values))),
            None => Ok(None),
        };
    }
    if let Some(found) = matches.subcommand_matches("watch") {
        return match watch_values(alloc, found)? {
            Some(values) => Ok(Some(Wanted::Watch(values))),
            None => Ok(None),
        };
    }
    if let Some(found) = matches.subcommand_matches("canary") {
        return match canary_values(alloc, found)? {
            Some(values) => Ok(Some(Wanted::Canary(values))),
            None => Ok(None),
        };
    }
    if let Some(found) = matches.subcommand_matches("explain") {
        return match explanation_in(found) {
            Some(explanation) => Ok(Some(Wanted::Explain(explanation))),
            None => Ok(None),
        };
    }
    Ok(None)
}

/// Why no command has these values, though the command line took each of them: `explain` names no fault, a plan is given
/// neither of its forms or parts of both, or a service or a canary is given what doesn't go together.
fn refusal_of_values(matches: &ArgMatches) -> &'static str
    ensures explain { (subcommand_name_of matches.now ≡ Some (codes "explain")) → (result.now ≡ no_such_fault) }
    ensures plan { (subcommand_name_of matches.now ≡ Some (codes "plan")) → (result.now ≡ neither_form) }
    ensures canary { (subcommand_name_of matches.now ≡ Some (codes "canary")) → (result.now ≡ both_spans) }
    ensures proxy { (rows : List Row) → (subcommand_rows_of matches.now ≡ Some (codes "proxy", rows)) → SaysWhyNoProxy rows result.now }
    ensures node { (rows : List Row) → (subcommand_rows_of matches.now ≡ Some (codes "node", rows)) → result.now ≡ why_no_node rows }
{
    if matches.subcommand_matches("explain").is_some() {
        return "no layer of this name has a fault of this number: 'migctl explain --help' names the layers";
    }
    if matches.subcommand_matches("plan").is_some() {
        return "'plan' takes --config and --at, or six words of which the fifth is sum or fnv1a32: 'migctl plan --help' shows both";
    }
    if matches.subcommand_matches("canary").is_some() {
        return "'--until-migrated' stands in place of '--seconds', and doesn't go with it";
    }
    if let Some(found) = matches.subcommand_matches("node") {
        return why_no_node(found);
    }
    match matches.subcommand_matches("proxy") {
        Some(found) => why_no_proxy(found),
        // Each other command has its values, or is refused before.
        None => "these values don't go together",
    }
}

/// Reads the words after the program's name, of which the first names the command. Wrong words are those that the
/// command line has no place for; a call for the version, readings that are no list of numbers, and want of memory are the
/// other faults.
pub fn read_words<'a>(alloc: Global, words: &'a [&'a str]) -> Result<Wanted<'a>, WordsFault>
    ensures exactly { ReadsWords (map (λ word. word.now) words.entry.now) result }
    ensures plainly { (wanted : Wanted)
        → SaysPlainly (map (λ word. word.now) words.entry.now) wanted → ReadsAs wanted result }
    ensures version { SaysVersion (map (λ word. word.now) words.entry.now) → TellsVersion result }
{
    let mut program = program(alloc)?;
    let matches = program.try_get_matches_from_mut(words)?;
    match wanted_of(alloc, &matches)? {
        Some(wanted) => Ok(wanted),
        // The command line asks for a command and its values, so there are some, and no command has them together.
        None => {
            let error = program.error(ErrorKind::InvalidValue, refusal_of_values(&matches))?;
            Err(WordsFault::Wrong(error))
        }
    }
}
