//! The program, from its arguments to its status.
ghost use Rattle.std.specs.Prelude.{◌≡◌, drop, map, string_bytes, IfOk};
ghost use Rattle.mr_tool.specs.Devices.{machine};
ghost use Rattle.mr_tool.specs.Program.{RunsArguments};

use crate::fault::Fault;
use crate::run::{run_words, tell_fault, tell_not_text};
use crate::sources::Sources;
use mr_servers::HostServers;
use mr_text::{Sink, Source};
use std::alloc::{AllocError, Global};
use std::env::Args;
use std::net::{Net, TcpListener, TcpStream};
use std::random::RandomSource;
use std::sync::Wait;
use std::thread::Threads;
use std::{io, time};

/// The words after the program's name, each borrowed from the arguments.
fn words_of(alloc: Global, arguments: &[String]) -> Result<Vec<&str>, AllocError>
    ensures { IfOk result (λ words. map (λ word. word.now) words.items ≡ map string_bytes (drop 1 arguments.now)) }
{
    arguments.iter().skip(1).map(String::as_str).collect(alloc)
}

/// Runs the program on its arguments, of which the first is its own name and the others are its words, and gives its
/// status. Where they couldn't be had, memory was refused, or one of them isn't UTF-8.
pub fn run_arguments<
    R: Net<Listener = TcpListener, Stream = TcpStream>
        + Threads
        + Wait
        + time::Clock
        + RandomSource
        + Sync,
    S: Sources,
    I: Source,
    O: Sink,
    F: Sink,
>(
    alloc: Global,
    servers: &mut HostServers<'_, R>,
    arguments: io::Result<Args<Global>>,
    sources: &mut S,
    input: &mut I,
    output: &mut O,
    faults: &mut F,
) -> u8
    ensures { RunsArguments arguments
        (machine (S.told sources.old) (I.told input.old) (O.told output.old) (F.told faults.old) servers.old)
        (machine (S.told sources.new) (I.told input.new) (O.told output.new) (F.told faults.new) servers.new) result }
{
    let given = match arguments {
        Ok(given) => given,
        Err(error) if error.kind() == io::ErrorKind::OutOfMemory => {
            return tell_fault(&Fault::Memory, faults);
        }
        Err(_) => return tell_not_text(faults),
    };
    let Ok(arguments) = given.collect::<Vec<String>>(alloc) else {
        return tell_fault(&Fault::Memory, faults);
    };
    let Ok(words) = words_of(alloc, arguments.as_slice()) else {
        return tell_fault(&Fault::Memory, faults);
    };
    run_words(
        alloc,
        servers,
        words.as_slice(),
        sources,
        input,
        output,
        faults,
    )
}
