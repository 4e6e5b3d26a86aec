//! The words of the command that watches a migration.
ghost use Rattle.std.specs.Prelude.{◌≡◌, ◌++◌, false, map, IfOk, codes};
ghost use Rattle.clap.specs.Words.{app_of, found_of, rows_of, rule_of};
ghost use Rattle.mr_words.specs.Command.{address_rule, watch_app};
ghost use Rattle.mr_words.specs.WordSteps.{GivesWatch};

use crate::help::WATCH_NOTES;
use crate::options::{config_option, flag, is_given, listed, several, with_option};
use clap::{Arg, ArgMatches, Command};
use std::alloc::{AllocError, Global};

/// The values of the command `watch`.
#[derive(Debug, Drop)]
pub struct WatchValues<'a> {
    /// The path of the configuration's file.
    pub config: &'a str,
    /// Whether there is one look alone.
    pub once: bool,
    /// Whether looks are written as JSON.
    pub json: bool,
    /// Where services tell their metrics: of each a host and a port, with a colon between them.
    pub addresses: Vec<&'a str>,
}

impl<'a> WatchValues<'a> {
    ghost use Rattle.mr_words.specs.Words.{SameWatch, addresses_in};

    /// Where services tell their metrics.
    pub fn addresses(&self) -> &[&'a str]
        ensures { map (λ address. address.now) result.now ≡ addresses_in self.now }
    {
        self.addresses.as_slice()
    }

    /// Equal values.
    pub fn copy(&self) -> Result<WatchValues<'a>, AllocError>
        ensures { IfOk result (SameWatch self.now) }
    {
        Ok(WatchValues {
            config: self.config,
            once: self.once,
            json: self.json,
            addresses: self.addresses.clone()?,
        })
    }
}

/// The words that name where services tell their metrics, of which there is one at least.
fn addresses<'a>(alloc: Global) -> Arg<'a>
    ensures rule { rule_of result ≡ address_rule }
    ensures local { result.global ≡ false }
{
    let help = "Where a proxy or a node tells its metrics, as 127.0.0.1:9001";
    several(alloc, "address", "metrics address", help)
}

/// The command `watch`.
pub fn watch_command<'a>(alloc: Global) -> Result<Command<'a>, AllocError>
    ensures { IfOk result (λ command. app_of command ≡ watch_app) }
{
    let once = flag(alloc, "once", "Look once, and end");
    let json = flag(
        alloc,
        "json",
        "Write each look as one object of JSON, in a line",
    );
    let watch = Command::new(alloc, "watch")
        .about("Watches a migration, and whether its premises hold")
        .after_help(WATCH_NOTES);
    let watch = with_option(Ok(watch), config_option(alloc));
    let watch = with_option(watch, once);
    let watch = with_option(watch, json);
    with_option(watch, addresses(alloc))
}

/// The values of the command `watch`, where each of them was found.
pub fn watch_values<'a>(
    alloc: Global,
    matches: &ArgMatches<'a>,
) -> Result<Option<WatchValues<'a>>, AllocError>
    ensures { IfOk result (GivesWatch (rows_of (found_of matches.now))) }
{
    let Some(config) = matches.get_str("config") else {
        return Ok(None);
    };
    let Some(texts) = matches.get_strs("address") else {
        return Ok(None);
    };
    Ok(Some(WatchValues {
        config,
        once: is_given(matches, "once"),
        json: is_given(matches, "json"),
        addresses: listed(alloc, texts)?,
    }))
}
