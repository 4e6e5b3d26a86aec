//! The commands that serve clients: what is printed once all of them have ended, and the command that serves a node: by threads, or
//! on loops that share it.
ghost use Rattle.std.specs.Prelude.{◌≡◌, Err, IfOk, IsSome};
ghost use Rattle.mr_servers.specs.Servers.{IsOneService};
ghost use Rattle.mr_text.specs.Sink.{SinkView};
ghost use Rattle.mr_text.specs.Source.{SourceView};
ghost use Rattle.mr_tool.specs.Devices.{devices};
ghost use Rattle.mr_tool.specs.Fault.{IsNetFault};
ghost use Rattle.mr_tool.specs.Services.{served_line, EndsService, MakesNode, NodeGives, asked_of_node, patience_of_node};
ghost use Rattle.mr_tool.specs.Sources.{SourcesView};
ghost use Rattle.mr_words.specs.Words.{path_in};

use crate::ended::Ended;
use crate::fault::Fault;
use crate::on_loops::{MOST_UNREAD, driver_bounds, metrics_of, telling_of};
use mr_node::NodeError;
use mr_printing::push_number;
use mr_servers::{HostServers, NodeLoops, OpenFault};
use mr_sockets::{Patience, SeededNode, ServiceBounds};
use mr_text::Sink;
use mr_words::{NodeValues, write_at_once};
use std::alloc::{AllocError, Global};
use std::net::{Net, TcpListener, TcpStream};
use std::random::RandomSource;
use std::sync::Wait;
use std::thread::Threads;
use std::time;

/// The fault of an address at which no socket can be opened.
pub(crate) fn net_fault(alloc: Global, address: &str) -> Fault
    ensures { IsNetFault address.now result }
{
    match format!(in alloc; "migctl: net {address}\n") {
        Ok(line) => Fault::Net(line),
        Err(_) => Fault::Memory,
    }
}

/// The line that says how many clients ended without a fault.
fn line_of(alloc: Global, served: u64) -> Result<Vec<u8>, AllocError>
    ensures { IfOk result (λ text. text.items ≡ served_line served) }
{
    let mut text = Vec::new(alloc);
    text.extend_from_slice(b"served ")?;
    push_number(&mut text, served)?;
    text.extend_from_slice(b"\n")?;
    Ok(text)
}

/// Writes what came of a service: how many of its clients ended without a fault, or which socket it lacked, or that it lacked memory.
pub(crate) fn end_service<O: Sink>(
    alloc: Global,
    listen: &str,
    metrics: Option<&str>,
    clients: u64,
    served: Result<u64, OpenFault>,
    output: &mut O,
) -> Result<Ended, Fault>
    requires { served ≡ Err OpenFault.Metrics → IsSome metrics }
    ensures { EndsService (record { listen = listen.now; metrics = path_in metrics.entry }) clients served
        (O.told output.old) (O.told output.new) result }
{
    let served = match served {
        Ok(served) => served,
        Err(OpenFault::Net) => return Err(net_fault(alloc, listen)),
        Err(OpenFault::Metrics) => return Err(net_fault(alloc, metrics.unwrap_or(listen))),
        Err(OpenFault::OutOfMemory) => return Err(Fault::Memory),
    };
    let line = line_of(alloc, served)?;
    write_at_once(line.as_slice(), output)?;
    if served == clients {
        Ok(Ended::Done)
    } else {
        Ok(Ended::Faulted)
    }
}

/// An empty node of a capacity, its keys hashed by a seed that is drawn for it. Where it could hold nothing, none is drawn.
fn make_node<
    R: Net<Listener = TcpListener, Stream = TcpStream>
        + Threads
        + Wait
        + time::Clock
        + RandomSource
        + Sync,
>(alloc: Global, capacity: u64, servers: &mut HostServers<'_, R>) -> Result<SeededNode, Fault>
    ensures { MakesNode capacity servers.old result servers.new }
{
    if capacity == 0 {
        return Err(Fault::Node(NodeError::ZeroCapacity));
    }
    let seed = servers.draw_seed()?;
    let node = SeededNode::new(alloc, capacity as usize, seed)?;
    Ok(node)
}

/// How long a node waits for its clients.
fn patience_of(values: &NodeValues) -> Patience
    ensures { result ≡ patience_of_node values.now }
{
    Patience {
        client_seconds: values.idle_timeout,
        leg_millis: 0,
    }
}

/// Serves a node where the values say, by threads or on loops.
fn serve_made<
    R: Net<Listener = TcpListener, Stream = TcpStream>
        + Threads
        + Wait
        + time::Clock
        + RandomSource
        + Sync,
>(
    alloc: Global,
    values: &NodeValues,
    servers: &mut HostServers<'_, R>,
    node: SeededNode,
) -> Result<u64, OpenFault>
    ensures { IsOneService (asked_of_node values.now node servers.old.processors) servers.old result servers.new }
{
    let patience = patience_of(values);
    let Some(loops) = &values.on_loops else {
        let bounds = ServiceBounds {
            clients: values.clients,
            turns: values.turns,
            patience,
        };
        return servers.serve_node(alloc, values.listen, node, bounds);
    };
    let machines = NodeLoops {
        count: loops.count(servers.processors()),
        most_unread: MOST_UNREAD,
    };
    let bounds = driver_bounds(values.clients, loops, patience);
    let telling = telling_of(loops, values.metrics);
    servers.drive_node(alloc, values.listen, telling, node, machines, bounds)
}

/// Serves a node, and writes how many of its clients ended without a fault once all have.
pub fn run_node<
    R: Net<Listener = TcpListener, Stream = TcpStream>
        + Threads
        + Wait
        + time::Clock
        + RandomSource
        + Sync,
    O: Sink,
>(
    alloc: Global,
    values: &NodeValues,
    servers: &mut HostServers<'_, R>,
    output: &mut O,
) -> Result<Ended, Fault>
    ensures { (sources : SourcesView) (input : SourceView) (faults : SinkView) → NodeGives values.now
        (devices sources input (O.told output.old) faults)
        (devices sources input (O.told output.new) faults) servers.old servers.new result }
{
    let node = make_node(alloc, values.capacity, servers)?;
    let served = serve_made(alloc, values, servers, node);
    end_service(
        alloc,
        values.listen,
        metrics_of(&values.on_loops, values.metrics),
        values.clients,
        served,
        output,
    )
}
