//! The command that serves a proxy: by threads, or on loops, each of which is a proxy of its own.
ghost use Rattle.std.specs.Prelude.{◌≡◌, None, Some, IfOk, MatchResult};
ghost use Rattle.mr_servers.specs.Servers.{IsOneService};
ghost use Rattle.mr_text.specs.Sink.{SinkView};
ghost use Rattle.mr_text.specs.Source.{SourceView};
ghost use Rattle.mr_tool.specs.Devices.{devices};
ghost use Rattle.mr_tool.specs.ProxyCommand.{ProxyGives, asked_by, asked_of_proxy, limits_of, loop_of, loops_of, patience_of_proxy};

use crate::ended::Ended;
use crate::fault::Fault;
use crate::input::{LoadedConfig, load_whole_config};
use crate::on_loops::{MOST_UNREAD, driver_bounds, metrics_of, telling_of};
use crate::services::end_service;
use crate::sources::Sources;
use mr_configs::Config;
use mr_driver::bound_of;
use mr_loop::{Limits, ProxyLoop};
use mr_proxy::ProxyCore;
use mr_servers::{HostServers, OpenFault};
use mr_sockets::{Patience, ServiceBounds};
use mr_text::Sink;
use mr_words::{LoopValues, ProxyValues};
use std::alloc::{AllocError, Global};
use std::net::{Net, TcpListener, TcpStream};
use std::random::RandomSource;
use std::sync::Wait;
use std::thread::Threads;
use std::time;

/// The most legs that wait in the queue of a node, at each loop: with as many no request is begun that has one more. Fewer do
/// where the room is small.
const MOST_LEGS: u64 = 1024;

/// The most requests of a client that are begun and that it isn't told of. So of one that reads nothing and asks for values of a
/// megabyte some 65 MiB are kept at most.
const MOST_BEGUN: usize = 64;

/// What a loop may hold with room for so many requests, whose legs may be without a reply for so many milliseconds, 0 for as many as
/// it takes. One node takes three quarters of the room at most, so that others are asked while it is silent.
fn limits_of(room: u64, leg_millis: u64) -> Limits
    ensures { result ≡ limits_of room leg_millis }
{
    Limits {
        most_legs: (room - room / 4).clamp(1, MOST_LEGS) as usize,
        most_unread: MOST_UNREAD,
        most_begun: MOST_BEGUN,
        leg_timeout: bound_of(leg_millis),
    }
}

/// The loop of this number: a fresh proxy of its own by the configuration.
fn loop_of(
    alloc: Global,
    config: &Config,
    values: &ProxyValues,
    number: u32,
) -> Result<ProxyLoop, AllocError>
    ensures { IfOk result (λ machine. machine ≡ loop_of config.now values.now number) }
{
    let routing = config.routing().copy()?;
    let core = ProxyCore::new(alloc, number, 0, routing, config.schedule(), values.room);
    ProxyLoop::new(alloc, core, limits_of(values.room, values.leg_timeout))
}

/// So many loops, numbered from 0.
fn loops_of(
    alloc: Global,
    config: &Config,
    values: &ProxyValues,
    count: u32,
) -> Result<Vec<ProxyLoop>, AllocError>
    ensures { IfOk result (λ machines. machines.items ≡ loops_of config.now values.now count) }
{
    let mut machines = Vec::with_capacity(alloc, count as usize)?;
    for number in 0..count {
        machines.push(loop_of(alloc, config, values, number)?)?;
    }
    Ok(machines)
}

/// How long a proxy waits for its clients and for its nodes.
fn patience_of(values: &ProxyValues) -> Patience
    ensures { result ≡ patience_of_proxy values.now }
{
    Patience {
        client_seconds: values.idle_timeout,
        leg_millis: values.leg_timeout,
    }
}

/// Serves a fresh proxy by threads. Memory is refused for its routing, and then no service was asked for.
fn serve_by_threads<
    R: Net<Listener = TcpListener, Stream = TcpStream>
        + Threads
        + Wait
        + time::Clock
        + RandomSource
        + Sync,
>(
    alloc: Global,
    values: &ProxyValues,
    servers: &mut HostServers<'_, R>,
    config: &Config,
) -> Result<Result<u64, OpenFault>, Fault>
    requires { values.now.on_loops ≡ None }
    ensures { MatchResult result
        (λ served. IsOneService (asked_by None values.now config.now servers.old.processors) servers.old served servers.new)
        (λ fault. (fault ≡ Fault.Memory) × (servers.new ≡ servers.old)) }
{
    let routing = config.routing().copy()?;
    let core = ProxyCore::new(alloc, 0, 0, routing, config.schedule(), values.room);
    let bounds = ServiceBounds {
        clients: values.clients,
        turns: values.turns,
        patience: patience_of(values),
    };
    Ok(servers.serve_proxy(alloc, values.listen, core, config.routing(), bounds))
}

/// Serves fresh proxies on loops, which tell of themselves as the values say. Memory is refused for the loops or for the
/// digest of the configuration, and then no service was asked for.
fn serve_on_loops<
    R: Net<Listener = TcpListener, Stream = TcpStream>
        + Threads
        + Wait
        + time::Clock
        + RandomSource
        + Sync,
>(
    alloc: Global,
    values: &ProxyValues,
    loops: &LoopValues,
    servers: &mut HostServers<'_, R>,
    loaded: &LoadedConfig,
) -> Result<Result<u64, OpenFault>, Fault>
    requires { values.now.on_loops ≡ Some loops.now }
    ensures { MatchResult result
        (λ served. IsOneService (asked_by (Some loops.now) values.now loaded.now.config servers.old.processors) servers.old served servers.new)
        (λ fault. (fault ≡ Fault.Memory) × (servers.new ≡ servers.old)) }
{
    let count = loops.count(servers.processors());
    let machines = loops_of(alloc, loaded.config(), values, count)?;
    let digest = loaded.digest(alloc)?;
    let bounds = driver_bounds(values.clients, loops, patience_of(values));
    let telling = telling_of(loops, values.metrics);
    let config = digest.as_str();
    Ok(servers.drive_proxy(alloc, values.listen, config, telling, machines, bounds))
}

/// Serves fresh proxies by this configuration where the values say, by threads or on loops. Where memory is refused, no service
/// was asked for.
fn serve_loaded<
    R: Net<Listener = TcpListener, Stream = TcpStream>
        + Threads
        + Wait
        + time::Clock
        + RandomSource
        + Sync,
>(
    alloc: Global,
    values: &ProxyValues,
    servers: &mut HostServers<'_, R>,
    loaded: &LoadedConfig,
) -> Result<Result<u64, OpenFault>, Fault>
    ensures { MatchResult result
        (λ served. IsOneService (asked_of_proxy values.now loaded.now.config servers.old.processors) servers.old served servers.new)
        (λ fault. (fault ≡ Fault.Memory) × (servers.new ≡ servers.old)) }
{
    match &values.on_loops {
        Some(loops) => serve_on_loops(alloc, values, loops, servers, loaded),
        None => serve_by_threads(alloc, values, servers, loaded.config()),
    }
}

/// Serves a proxy by the configuration in a file, and writes how many of its clients ended without a fault once all have.
pub fn run_proxy<
    R: Net<Listener = TcpListener, Stream = TcpStream>
        + Threads
        + Wait
        + time::Clock
        + RandomSource
        + Sync,
    S: Sources,
    O: Sink,
>(
    alloc: Global,
    values: &ProxyValues,
    servers: &mut HostServers<'_, R>,
    sources: &mut S,
    output: &mut O,
) -> Result<Ended, Fault>
    ensures { (input : SourceView) (faults : SinkView) → ProxyGives values.now
        (devices (S.told sources.old) input (O.told output.old) faults)
        (devices (S.told sources.new) input (O.told output.new) faults) servers.old servers.new result }
{
    let loaded = load_whole_config(alloc, values.config, sources)?;
    let served = serve_loaded(alloc, values, servers, &loaded)?;
    end_service(
        alloc,
        values.listen,
        metrics_of(&values.on_loops, values.metrics),
        values.clients,
        served,
        output,
    )
}
