//! A run, from its words to the status of the program.
ghost use Rattle.std.specs.Prelude.{◌≡◌, ℕ, List, Err, map};
ghost use Rattle.mr_text.specs.Sink.{SinkView};
ghost use Rattle.mr_text.specs.Source.{SourceView};
ghost use Rattle.mr_tool.specs.Devices.{devices, machine, IsToldAtOnce};
ghost use Rattle.mr_tool.specs.Fault.{fault_line, not_text_line, readings_line};
ghost use Rattle.mr_tool.specs.Run.{EndsWith, Gives, IsRunOf, Runs, RunsNothing, TellsWrongWords};
ghost use Rattle.mr_tool.specs.Sources.{SourcesView};
ghost use Rattle.mr_words.specs.Words.{ReadsWords};

use crate::canary::run_canary;
use crate::commands::{
    run_check, run_draw, run_explain, run_plan, run_script, run_timeline, run_upgrade,
    write_version,
};
use crate::ended::Ended;
use crate::fault::Fault;
use crate::proxies::run_proxy;
use crate::services::run_node;
use crate::sources::Sources;
use crate::watch::run_watch;
use mr_servers::HostServers;
use mr_text::{Sink, Source};
use mr_words::{Wanted, WordsFault, read_words};
use std::alloc::Global;
use std::net::{Net, TcpListener, TcpStream};
use std::random::RandomSource;
use std::sync::Wait;
use std::thread::Threads;
use std::time;

/// The status of a command that did what was wanted.
pub const DONE: u8 = 0;

/// The status of a command that found a fault.
pub const FAULT: u8 = 1;

/// The status for wrong words or a call for help.
pub const WRONG_WORDS: u8 = 2;

/// The status of a check that doesn't accept its transcript.
pub const NOT_ACCEPTED: u8 = 3;

/// Tells a fault, which is all that is done of it.
pub fn tell_fault<F: Sink>(fault: &Fault, faults: &mut F) -> u8
    ensures status { result ≡ FAULT }
    ensures told { IsToldAtOnce (fault_line fault.now) (F.told faults.old) (F.told faults.new) }
{
    fault.tell(faults);
    FAULT
}

/// Tells that a word isn't text, which no command can have.
pub fn tell_not_text<F: Sink>(faults: &mut F) -> u8
    ensures status { result ≡ WRONG_WORDS }
    ensures told { IsToldAtOnce not_text_line (F.told faults.old) (F.told faults.new) }
{
    let _ = faults.write_all("migctl: words are not UTF-8\n".as_bytes());
    WRONG_WORDS
}

/// Tells that the readings are no list of numbers.
fn tell_bad_readings<F: Sink>(faults: &mut F) -> u8
    ensures status { result ≡ WRONG_WORDS }
    ensures told { IsToldAtOnce readings_line (F.told faults.old) (F.told faults.new) }
{
    let _ = faults.write_all("migctl: words --readings\n".as_bytes());
    WRONG_WORDS
}

/// Tells why the words are wrong, or the help that they call for.
fn tell_wrong_words<F: Sink>(alloc: Global, error: &clap::Error, faults: &mut F) -> u8
    ensures { TellsWrongWords result (F.told faults.old) (F.told faults.new) }
{
    let Ok(text) = format!(in alloc; "{error}") else {
        return tell_fault(&Fault::Memory, faults);
    };
    let _ = faults.write_all(text.as_bytes());
    WRONG_WORDS
}

/// The status of a command that ended so. Its fault is told.
fn finish<F: Sink>(gave: Result<Ended, Fault>, faults: &mut F) -> u8
    ensures { (sources : SourcesView) (input : SourceView) (output : SinkView)
        → EndsWith gave result (devices sources input output (F.told faults.old)) (devices sources input output (F.told faults.new)) }
{
    match gave {
        Ok(Ended::Done) => DONE,
        Ok(Ended::NotAccepted) => NOT_ACCEPTED,
        Ok(Ended::Faulted) => FAULT,
        Err(fault) => tell_fault(&fault, faults),
    }
}

/// What comes of a command.
fn give<
    R: Net<Listener = TcpListener, Stream = TcpStream>
        + Threads
        + Wait
        + time::Clock
        + RandomSource
        + Sync,
    S: Sources,
    I: Source,
    O: Sink,
>(
    alloc: Global,
    servers: &mut HostServers<'_, R>,
    wanted: &Wanted<'_>,
    sources: &mut S,
    input: &mut I,
    output: &mut O,
) -> Result<Ended, Fault>
    ensures { (faults : SinkView) → Gives wanted.now
        (devices (S.told sources.old) (I.told input.old) (O.told output.old) faults)
        (devices (S.told sources.new) (I.told input.new) (O.told output.new) faults) servers.old servers.new result }
{
    match wanted {
        Wanted::Plan(values) => run_plan(alloc, values, sources, input, output),
        Wanted::Timeline(values) => run_timeline(alloc, values, sources, output),
        Wanted::Run(file) => run_script(alloc, *file, sources, input, output),
        Wanted::Check(file) => run_check(alloc, *file, sources, input, output),
        Wanted::Draw(file) => run_draw(alloc, *file, sources, input, output),
        Wanted::Upgrade(file) => run_upgrade(alloc, *file, sources, input, output),
        Wanted::Node(values) => run_node(alloc, values, servers, output),
        Wanted::Proxy(values) => run_proxy(alloc, values, servers, sources, output),
        Wanted::Watch(values) => run_watch(alloc, values, servers, sources, output),
        Wanted::Canary(values) => run_canary(alloc, values, servers, sources, output),
        Wanted::Explain(explanation) => run_explain(alloc, explanation, output),
    }
}

/// Tells why the words give no command, or the version that they call for.
fn tell_no_command<O: Sink, F: Sink>(
    alloc: Global,
    fault: &WordsFault,
    output: &mut O,
    faults: &mut F,
) -> u8
    ensures { (words : List (List ℕ)) (sources : SourcesView) (input : SourceView) → ReadsWords words (Err fault.now)
        → RunsNothing words (devices sources input (O.told output.old) (F.told faults.old))
        (devices sources input (O.told output.new) (F.told faults.new)) result }
{
    match fault {
        WordsFault::Wrong(error) => tell_wrong_words(alloc, error, faults),
        WordsFault::Version => finish(write_version(output), faults),
        WordsFault::Readings => tell_bad_readings(faults),
        WordsFault::Memory => tell_fault(&Fault::Memory, faults),
    }
}

/// Runs the command that the words ask for, as `run_words` does.
fn run_wanted<
    R: Net<Listener = TcpListener, Stream = TcpStream>
        + Threads
        + Wait
        + time::Clock
        + RandomSource
        + Sync,
    S: Sources,
    I: Source,
    O: Sink,
    F: Sink,
>(
    alloc: Global,
    servers: &mut HostServers<'_, R>,
    words: &[&str],
    sources: &mut S,
    input: &mut I,
    output: &mut O,
    faults: &mut F,
) -> u8
    ensures { Runs (map (λ word. word.now) words.now)
        (devices (S.told sources.old) (I.told input.old) (O.told output.old) (F.told faults.old))
        (devices (S.told sources.new) (I.told input.new) (O.told output.new) (F.told faults.new)) servers.old servers.new result }
{
    match read_words(alloc, words) {
        Ok(wanted) => finish(
            give(alloc, servers, &wanted, sources, input, output),
            faults,
        ),
        Err(fault) => tell_no_command(alloc, &fault, output, faults),
    }
}

/// Runs the command that the words ask for, of which the first names it, and gives the program's status. A node or a proxy
/// is served by `servers`. Files come from `sources`; what the command is to print goes to `output`, and a fault to `faults`.
/// Faults are looked for in this order: the words; then for a plan the file and the
/// configuration, or the pools and the schedule that its words say, and the request; for a timeline
/// the file, the configuration; for a run, a check or an upgrade the file, or the input where none is named, and then the script
/// or the transcript; for a node its capacity, the seed and the socket; for a proxy the file, the configuration, the socket; for a
/// watch the file, the configuration, the addresses; for a canary the file, the configuration, the addresses, the number of its run, its
/// prefix, the first connection; last the output.
pub fn run_words<
    R: Net<Listener = TcpListener, Stream = TcpStream>
        + Threads
        + Wait
        + time::Clock
        + RandomSource
        + Sync,
    S: Sources,
    I: Source,
    O: Sink,
    F: Sink,
>(
    alloc: Global,
    servers: &mut HostServers<'_, R>,
    words: &[&str],
    sources: &mut S,
    input: &mut I,
    output: &mut O,
    faults: &mut F,
) -> u8
    ensures { IsRunOf (map (λ word. word.now) words.now)
        (machine (S.told sources.old) (I.told input.old) (O.told output.old) (F.told faults.old) servers.old)
        (machine (S.told sources.new) (I.told input.new) (O.told output.new) (F.told faults.new) servers.new) result }
{
    run_wanted(alloc, servers, words, sources, input, output, faults)
}
