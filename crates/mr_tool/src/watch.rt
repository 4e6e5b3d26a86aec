//! The command that watches a migration, by the configuration in a file.
ghost use Rattle.std.specs.Prelude.{◌≡◌};
ghost use Rattle.mr_text.specs.Sink.{SinkView};
ghost use Rattle.mr_text.specs.Source.{SourceView};
ghost use Rattle.mr_tool.specs.Devices.{devices};
ghost use Rattle.mr_tool.specs.WatchCommand.{WatchGives, end_of_watch};

use crate::ended::Ended;
use crate::fault::Fault;
use crate::input::load_whole_config;
use crate::sources::Sources;
use crate::watched_words::check_words;
use mr_looks::watch;
use mr_servers::HostServers;
use mr_text::Sink;
use mr_words::WatchValues;
use std::alloc::Global;
use std::net::{Net, TcpListener, TcpStream};
use std::random::RandomSource;
use std::sync::Wait;
use std::thread::Threads;
use std::time;

/// How the command ends of a watch that saw nothing wrong, or did.
fn end_of_watch(sound: bool) -> Ended
    ensures { result ≡ end_of_watch sound }
{
    if sound { Ended::Done } else { Ended::Faulted }
}

/// Watches a migration by the configuration in a file. A word that is no address at which a service may listen is refused before any
/// service is asked.
pub fn run_watch<
    R: Net<Listener = TcpListener, Stream = TcpStream>
        + Threads
        + Wait
        + time::Clock
        + RandomSource
        + Sync,
    S: Sources,
    O: Sink,
>(
    alloc: Global,
    values: &WatchValues<'_>,
    servers: &HostServers<'_, R>,
    sources: &mut S,
    output: &mut O,
) -> Result<Ended, Fault>
    ensures { (input : SourceView) (faults : SinkView) → WatchGives values.now servers.now.screen
        (devices (S.told sources.old) input (O.told output.old) faults)
        (devices (S.told sources.new) input (O.told output.new) faults) result }
{
    let loaded = load_whole_config(alloc, values.config, sources)?;
    check_words(alloc, values.addresses())?;
    let expected = loaded.digest(alloc)?;
    let sound = watch(
        alloc,
        values,
        servers,
        loaded.config(),
        expected.as_str(),
        output,
    )?;
    Ok(end_of_watch(sound))
}
