//! The command that asks proxies as their clients do, by the configuration in a file.
ghost use Rattle.std.specs.Prelude.{◌≡◌, map};
ghost use Rattle.mr_text.specs.Sink.{SinkView};
ghost use Rattle.mr_text.specs.Source.{SourceView};
ghost use Rattle.mr_flights.specs.declared.fault.FlightFault.{FlightFault};
ghost use Rattle.mr_tool.specs.CanaryCommand.{CanaryGives, IsFlightFault, end_of_canary, first_word};
ghost use Rattle.mr_tool.specs.Devices.{devices};

use crate::ended::Ended;
use crate::fault::Fault;
use crate::input::load_whole_config;
use crate::services::net_fault;
use crate::sources::Sources;
use crate::watched_words::check_words;
use mr_flights::{FlightFault, fly};
use mr_servers::HostServers;
use mr_text::{Sink, TextError};
use mr_words::CanaryValues;
use std::alloc::Global;
use std::net::{Net, TcpListener, TcpStream};
use std::random::RandomSource;
use std::sync::Wait;
use std::thread::Threads;
use std::time;

/// How the command ends of a canary of whose deletes nothing came back, or something did.
fn end_of_canary(sound: bool) -> Ended
    ensures { result ≡ end_of_canary sound }
{
    if sound { Ended::Done } else { Ended::Faulted }
}

/// The first of these words; an empty one where there is none.
fn first_word<'a>(words: &[&'a str]) -> &'a str
    ensures { result.now ≡ first_word (map (λ word. word.now) words.now) }
{
    match words.first() {
        Some(word) => word,
        None => "",
    }
}

/// The fault of a canary at these proxies that stopped so. Of one that reached none of them the first is named.
fn fault_of_flight(alloc: Global, proxies: &[&str], stopped: FlightFault) -> Fault
    ensures { IsFlightFault (map (λ proxy. proxy.now) proxies.now) stopped result }
{
    match stopped {
        FlightFault::Memory => Fault::Memory,
        FlightFault::Write => Fault::Output,
        FlightFault::NoNumber => Fault::Input,
        FlightFault::BadPrefix => Fault::Text(TextError::BadKey),
        FlightFault::Net => net_fault(alloc, first_word(proxies)),
    }
}

/// Asks proxies as their clients do, by the configuration in a file, and judges whether what was deleted comes back. A word that is no
/// address at which a service may listen is refused before any proxy is asked, and then a prefix that makes no key.
pub fn run_canary<
    R: Net<Listener = TcpListener, Stream = TcpStream>
        + Threads
        + Wait
        + time::Clock
        + RandomSource
        + Sync,
    S: Sources,
    O: Sink,
>(
    alloc: Global,
    values: &CanaryValues<'_>,
    servers: &HostServers<'_, R>,
    sources: &mut S,
    output: &mut O,
) -> Result<Ended, Fault>
    ensures { (input : SourceView) (faults : SinkView) → CanaryGives values.now servers.now.screen
        (devices (S.told sources.old) input (O.told output.old) faults)
        (devices (S.told sources.new) input (O.told output.new) faults) result }
{
    let loaded = load_whole_config(alloc, values.config, sources)?;
    check_words(alloc, values.proxies())?;
    match fly(alloc, values, servers, loaded.config(), output) {
        Ok(sound) => Ok(end_of_canary(sound)),
        Err(stopped) => Err(fault_of_flight(alloc, values.proxies(), stopped)),
    }
}
