//! The program `migctl`: where the requests of a memcached migration go, the nodes and proxies that serve them, and what is seen of
//! it while it runs.
#![tactic(auto)]

use mr_servers::{HostServers, Screen};
use mr_text::{OverReader, OverWriter};
use mr_tool::{HostFiles, run_arguments};
use std::env;
use std::env::VarError;
use std::io::IsTerminal;
use std::process::ExitCode;
use std::thread::{self, Threads};

/// How many threads the machine runs at once; 1 where it doesn't say.
fn processors<R: Threads>(rt: &R) -> u64 {
    match thread::available_parallelism(rt) {
        Ok(count) => count.get() as u64,
        Err(_) => 1,
    }
}

fn main(rt: HostRuntime) -> ExitCode {
    let screen = Screen {
        terminal: rt.stdout().is_terminal(),
        colours: match env::var(&rt, "NO_COLOR") {
            Ok(value) => value.is_empty(),
            Err(VarError::NotPresent) => true,
            Err(_) => false,
        },
    };
    let status = run_arguments(
        rt.alloc(),
        &mut HostServers::new(&rt)
            .on(screen)
            .with_processors(processors(&rt))
            .saying(rt.stderr()),
        env::args(&rt),
        &mut HostFiles::new(&rt),
        &mut OverReader::new(rt.stdin()),
        &mut OverWriter::new(rt.stdout()),
        &mut OverWriter::new(rt.stderr()),
    );
    ExitCode::from(status)
}
