//! The flight of a canary: its proxies are reached, asked, second by second, and what is left of its keys is deleted.
ghost use Rattle.std.specs.Prelude.{◌≡◌, IfErr};
ghost use Rattle.mr_driver.specs.Going.{GoesOn};
ghost use Rattle.mr_flights.specs.Flock.{CanaryStep};
ghost use Rattle.mr_flights.specs.Flight.{FliesConfig, FliesOut, FliesSeconds, HasFlown, WritesEnding, is_over, looks_of, most_of};
ghost use Rattle.mr_flights.specs.Log.{fresh_log};
ghost use Rattle.mr_flights.specs.Scene.{scene_of};
ghost use Rattle.mr_flights.specs.declared.fault.FlightFault.TheVariants as fault;
ghost use Rattle.mr_probes.specs.CanaryView.{CanaryView, begun_cleaning};
ghost use Rattle.mr_text.specs.Sink.{SinkView};

use crate::fault::FlightFault;
use crate::flock::Flock;
use crate::log::Log;
use crate::plans::{addresses_of, clients_of, make_canary};
use crate::scene::{SECOND, Scene};
use crate::seeing::write_second;
use crate::showing::{Manner, ending_text, manner_of};
use mr_configs::Config;
use mr_counting::{ClockWatch, sum_of};
use mr_driver::Solo;
use mr_probes::Canary;
use mr_servers::HostServers;
use mr_sightings::Verdict;
use mr_text::Sink;
use mr_words::{CanaryValues, Span, write_at_once};
use std::alloc::Global;
use std::net::{Net, TcpListener, TcpStream};
use std::random::RandomSource;
use std::sync::Wait;
use std::thread::Threads;
use std::time;

/// How many milliseconds a proxy may leave a dial unanswered.
const DIAL_MILLIS: u64 = 5_000;

/// How many microseconds pass between two looks at whether a proxy was reached, or whether the last deletes were answered.
const STEP: u64 = 100_000;

/// How many such looks a second has.
const STEPS_OF_SECOND: u64 = 10;

/// How many such looks there are: five seconds of them.
const STEPS: u64 = 50;

/// For how many seconds a canary flies on once the last migration is over.
const LAST_SECONDS: u64 = 10;

/// Drives the loop until this moment of its own clock, in microseconds.
fn drive<R: Net + time::Clock + Wait>(
    solo: &mut Solo<'_, R, Flock>,
    moment: u64,
) -> Result<(), FlightFault>
    ensures fault { IfErr result (λ stopped. stopped ≡ fault.Net) }
    ensures canary { GoesOn CanaryStep solo.old.machine solo.new.machine }
{
    match solo.drive_until(moment) {
        Ok(()) => Ok(()),
        Err(_) => Err(FlightFault::Net),
    }
}

/// Whether one of the clients has a connection.
fn has_connection(canary: &Canary) -> bool {
    for client in 0..canary.clients() {
        if canary.is_up(client) {
            return true;
        }
    }
    false
}

/// Waits until a client has a connection, for five seconds at most.
#[tactic(auto, using(crate::proofs::FlightLemmas::stays, crate::proofs::FlightLemmas::went_on))]
fn reach<R: Net + time::Clock + Wait>(solo: &mut Solo<'_, R, Flock>) -> Result<(), FlightFault>
    ensures fault { IfErr result (λ stopped. stopped ≡ fault.Net) }
    ensures canary { GoesOn CanaryStep solo.old.machine solo.new.machine }
{
    for _ in 0..STEPS {
        drive(solo, sum_of(solo.now(), STEP))?;
        if has_connection(solo.machine().canary()) {
            return Ok(());
        }
    }
    Err(FlightFault::Net)
}

/// How many looks there are at whether so many deletes were answered: those of the time that they take at this rate in a second, and of
/// five seconds more.
fn looks_of(deletes: usize, rate: u64) -> u64
    ensures { result ≡ looks_of deletes rate }
{
    let steps = (deletes as u64).saturating_mul(STEPS_OF_SECOND);
    sum_of(steps / rate.max(1), STEPS)
}

/// Deletes the keys, at this rate in a second: until each delete was answered, or five seconds behind the time that they take.
#[tactic(auto, using(crate::proofs::FlightLemmas::stays, crate::proofs::FlightLemmas::went_on))]
fn clean<R: Net + time::Clock + Wait>(
    solo: &mut Solo<'_, R, Flock>,
    rate: u64,
) -> Result<(), FlightFault>
    ensures fault { IfErr result (λ stopped. stopped ≡ fault.Net) }
    ensures canary { GoesOn CanaryStep (begun_cleaning solo.old.machine) solo.new.machine }
{
    solo.machine_mut().canary_mut().clean();
    let deletes = solo.machine().canary().left();
    for _ in 0..looks_of(deletes, rate) {
        if solo.machine().canary().is_over() {
            return Ok(());
        }
        drive(solo, sum_of(solo.now(), STEP))?;
    }
    Ok(())
}

/// The most seconds of a flight.
fn most_of(span: Span) -> u64
    ensures { result ≡ most_of span }
{
    match span {
        Span::Seconds(seconds) => seconds,
        Span::UntilMigrated => u64::MAX,
    }
}

/// Whether a flight ends behind the seconds that are kept there, though it might have more.
fn is_over(span: Span, log: &Log) -> bool
    ensures { result ≡ is_over span log.now }
{
    match span {
        Span::Seconds(_) => false,
        Span::UntilMigrated => log.migrated >= LAST_SECONDS,
    }
}

/// Asks, second by second, and writes what is seen in each, until the flight is over.
fn fly_seconds<
    R: Net<Listener = TcpListener, Stream = TcpStream>
        + Threads
        + Wait
        + time::Clock
        + RandomSource
        + Sync,
    O: Sink,
>(
    alloc: Global,
    manner: Manner,
    span: Span,
    scene: &Scene<'_>,
    servers: &HostServers<'_, R>,
    solo: &mut Solo<'_, R, Flock>,
    log: &mut Log,
    output: &mut O,
) -> Result<(), FlightFault>
    requires { log.old ≡ fresh_log }
    ensures { FliesSeconds manner span (scene_of scene.now) solo.old.machine log.new solo.new.machine
        (O.told output.old) result (O.told output.new) }
{
    let mut end = solo.now();
    for number in 0..most_of(span) {
        end = sum_of(end, SECOND);
        drive(solo, end)?;
        let canary = solo.machine_mut().canary_mut();
        write_second(alloc, manner, scene, servers.second(), canary, log, output)?;
        if is_over(span, log) {
            return Ok(());
        }
    }
    Ok(())
}

/// Writes the table of the seconds that are kept there, and the verdict. Says whether nothing came back.
fn write_ending<O: Sink>(
    alloc: Global,
    manner: Manner,
    scene: &Scene<'_>,
    canary: &Canary,
    log: &Log,
    output: &mut O,
) -> Result<bool, FlightFault>
    ensures { WritesEnding manner (scene_of scene.now) canary.now log.now (O.told output.old) result (O.told output.new) }
{
    let came_back = canary.came_back();
    let verdict = Verdict {
        came_back,
        requests: log.total.requests,
        proxies: scene.proxies.len() as u64,
        acknowledged: log.total.acknowledged,
        left: canary.left() as u64,
    };
    let text = ending_text(alloc, manner, &log.table, &verdict)?;
    write_at_once(text.as_slice(), output)?;
    Ok(came_back == 0)
}

/// Writes what was seen while the keys were deleted, as of this second, and then the ending. Says whether nothing came back.
fn end_flight<O: Sink>(
    alloc: Global,
    manner: Manner,
    span: Span,
    scene: &Scene<'_>,
    at: u64,
    canary: &mut Canary,
    log: &mut Log,
    output: &mut O,
) -> Result<bool, FlightFault>
    ensures { (first before : CanaryView) (begin : SinkView) → HasFlown manner span (scene_of scene.now) first log.old before begin (O.told output.old)
        → GoesOn CanaryStep (begun_cleaning before) canary.old → FliesOut manner span (scene_of scene.now) first begin result (O.told output.new) }
{
    write_second(alloc, manner, scene, at, canary, log, output)?;
    write_ending(alloc, manner, scene, canary, log, output)
}

/// Flies to the end, once the proxies were reached: what is written of it, and whether nothing came back.
fn fly_out<
    R: Net<Listener = TcpListener, Stream = TcpStream>
        + Threads
        + Wait
        + time::Clock
        + RandomSource
        + Sync,
    O: Sink,
>(
    alloc: Global,
    manner: Manner,
    span: Span,
    rate: u64,
    scene: &Scene<'_>,
    servers: &HostServers<'_, R>,
    solo: &mut Solo<'_, R, Flock>,
    output: &mut O,
) -> Result<bool, FlightFault>
    ensures { FliesOut manner span (scene_of scene.now) solo.old.machine (O.told output.old) result (O.told output.new) }
{
    let mut log = Log::new(alloc);
    fly_seconds(alloc, manner, span, scene, servers, solo, &mut log, output)?;
    clean(solo, rate)?;
    let canary = solo.machine_mut().canary_mut();
    let at = servers.second();
    end_flight(alloc, manner, span, scene, at, canary, &mut log, output)
}

/// Asks the proxies that these values name as their clients do, by this configuration, and writes what is seen: each second, what came
/// back in it, and at the end a table and the verdict. Says whether nothing that was deleted came back. The first of these faults that
/// there is: NoNumber where the machine gives no number for the run, BadPrefix where the prefix makes no key, Net where no proxy is
/// reached within five seconds, Write where the output fails; and Memory wherever that is refused. What was written stays.
pub fn fly<
    R: Net<Listener = TcpListener, Stream = TcpStream>
        + Threads
        + Wait
        + time::Clock
        + RandomSource
        + Sync,
    O: Sink,
>(
    alloc: Global,
    values: &CanaryValues<'_>,
    servers: &HostServers<'_, R>,
    config: &Config,
    output: &mut O,
) -> Result<bool, FlightFault>
    ensures { FliesConfig values.now servers.now.screen config.now (O.told output.old) result (O.told output.new) }
{
    let Ok(run) = servers.draw_number() else {
        return Err(FlightFault::NoNumber);
    };
    let flock = Flock::new(make_canary(alloc, values, config, run)?);
    let addresses = addresses_of(alloc, values.proxies(), clients_of(values))?;
    let watch = ClockWatch::new();
    let mut solo = servers.open_solo(alloc, flock, addresses.as_slice(), DIAL_MILLIS, &watch)?;
    reach(&mut solo)?;
    let scene = Scene {
        proxies: values.proxies(),
        schedule: config.schedule(),
        begun: servers.microseconds().saturating_sub(solo.now()),
    };
    let manner = manner_of(values.json, servers.screen());
    fly_out(
        alloc,
        manner,
        values.span,
        values.rate,
        &scene,
        servers,
        &mut solo,
        output,
    )
}
