//! A watch of a migration: it looks each second, and writes what it sees, until every proxy is in the last phase.
ghost use Rattle.std.specs.Prelude.{◌≡◌};
ghost use Rattle.mr_looks.specs.Posts.{AreUnasked, addresses_of};
ghost use Rattle.mr_looks.specs.Watch.{EndsWatch, WatchesConfig, WritesAll, WritesLook, WritesLooks, fleet_of, fleet_seen, sight};
ghost use Rattle.mr_looks.specs.WatchText.{manner_of};
ghost use Rattle.mr_words.specs.Words.{addresses_in};

use crate::last_lines::{is_sound, last_lines};
use crate::looking::{Seen, look};
use crate::manner::{Manner, manner_of, text_of};
use crate::posts::{Post, earlier_in, posts_at, proxies_in, unreached_in};
use mr_configs::Config;
use mr_phases::Schedule;
use mr_servers::HostServers;
use mr_text::Sink;
use mr_watch::{Findings, Look, View, all_in_last_phase, findings_after};
use mr_words::{PrintFault, WatchValues, write_at_once};
use std::alloc::Global;
use std::net::{Net, TcpListener, TcpStream};
use std::random::RandomSource;
use std::sync::Wait;
use std::thread::Threads;
use std::time;

/// How many milliseconds lie between the beginnings of two looks, where the first isn't longer.
const LOOK_MILLIS: u64 = 1_000;

/// What came of a look.
#[derive(Clone, Copy, Debug)]
struct Found {
    /// What was found of the premises so far.
    findings: Findings,
    /// Whether every proxy is in the last phase.
    migrated: bool,
}

/// Writes a text in one call, or nothing where it is empty.
fn write_all<O: Sink>(text: &[u8], output: &mut O) -> Result<(), PrintFault>
    ensures { WritesAll text.now (O.told output.old) result (O.told output.new) }
{
    if text.is_empty() {
        return Ok(());
    }
    write_at_once(text, output)
}

/// Finds what a look says of the premises, and writes what is shown of it.
fn write_look<O: Sink>(
    alloc: Global,
    manner: Manner,
    first: bool,
    before: Findings,
    seen: &Seen<'_>,
    posts: &[Post<'_>],
    expected: &str,
    schedule: Schedule,
    output: &mut O,
) -> Result<Found, PrintFault>
    ensures { WritesLook manner (fleet_seen schedule expected.now (sight seen.now posts.now)) first before
        (sight seen.now posts.now) (O.told output.old) result (O.told output.new) }
{
    let earlier = earlier_in(alloc, first, posts)?;
    let proxies = proxies_in(alloc, posts)?;
    let look = Look {
        began: seen.began,
        ended: seen.ended,
        proxies: proxies.as_slice(),
        nodes: seen.nodes.as_slice(),
    };
    let expected = expected.as_bytes();
    let findings = findings_after(before, earlier.as_slice(), &look, expected, &schedule);
    let view = View {
        at: seen.second,
        moment: seen.moment,
        look,
        earlier: earlier.as_slice(),
        findings,
        expected,
        schedule,
    };
    let text = text_of(alloc, manner, first, &before, &view)?;
    write_all(text.as_slice(), output)?;
    Ok(Found {
        findings,
        migrated: all_in_last_phase(&look, &schedule),
    })
}

/// Waits until the next look begins, where the one that began then wasn't longer.
fn wait_for_next<
    R: Net<Listener = TcpListener, Stream = TcpStream>
        + Threads
        + Wait
        + time::Clock
        + RandomSource
        + Sync,
>(servers: &HostServers<'_, R>, began: u64) {
    let passed = servers.milliseconds().saturating_sub(began);
    let left = LOOK_MILLIS.saturating_sub(passed);
    if left > 0 {
        servers.pause(left);
    }
}

/// Looks until every proxy is in the last phase, or once, and writes what is shown of each look. Gives what was found.
fn write_looks<
    R: Net<Listener = TcpListener, Stream = TcpStream>
        + Threads
        + Wait
        + time::Clock
        + RandomSource
        + Sync,
    O: Sink,
>(
    alloc: Global,
    servers: &HostServers<'_, R>,
    manner: Manner,
    once: bool,
    config: &Config,
    expected: &str,
    posts: &mut [Post<'_>],
    output: &mut O,
) -> Result<Findings, PrintFault>
    requires { AreUnasked posts.old }
    ensures { WritesLooks manner once (fleet_of config.now expected.now (addresses_of posts.old)) posts.new
        (O.told output.old) result (O.told output.new) }
{
    let schedule = config.schedule();
    let mut findings = Findings::unseen();
    let mut first = true;
    for number in 0..u64::MAX {
        let seen = look(alloc, servers, config.routing(), posts)?;
        let found = write_look(
            alloc, manner, first, findings, &seen, posts, expected, schedule, output,
        )?;
        findings = found.findings;
        first = false;
        if once || found.migrated {
            return Ok(findings);
        }
        wait_for_next(servers, seen.began);
    }
    Ok(findings)
}

/// Writes the last lines, and says whether nothing wrong was seen.
fn end_watch<O: Sink>(
    alloc: Global,
    manner: Manner,
    findings: Findings,
    posts: &[Post<'_>],
    output: &mut O,
) -> Result<bool, PrintFault>
    ensures { EndsWatch manner posts.now findings (O.told output.old) result (O.told output.new) }
{
    let unreached = unreached_in(alloc, posts)?;
    let text = last_lines(alloc, manner, &findings, unreached.as_slice())?;
    write_all(text.as_slice(), output)?;
    Ok(is_sound(&findings, unreached.as_slice()))
}

/// Watches a migration of this configuration, of which `expected` is the digest: looks each second, and writes what it sees, until
/// every proxy is in the last phase, or once where that is wanted. Says whether nothing wrong was seen: no premise broken, and each
/// service reached. Texts that were written stay where memory is refused or a write fails; nothing is written after that.
pub fn watch<
    R: Net<Listener = TcpListener, Stream = TcpStream>
        + Threads
        + Wait
        + time::Clock
        + RandomSource
        + Sync,
    O: Sink,
>(
    alloc: Global,
    values: &WatchValues<'_>,
    servers: &HostServers<'_, R>,
    config: &Config,
    expected: &str,
    output: &mut O,
) -> Result<bool, PrintFault>
    ensures { WatchesConfig (manner_of values.now.json values.now.once servers.now.screen) values.now.once
        (fleet_of config.now expected.now (addresses_in values.now)) (O.told output.old) result (O.told output.new) }
{
    let manner = manner_of(values, servers.screen());
    let mut posts = posts_at(alloc, values.addresses())?;
    let findings = write_looks(
        alloc,
        servers,
        manner,
        values.once,
        config,
        expected,
        posts.as_mut_slice(),
        output,
    )?;
    end_watch(alloc, manner, findings, posts.as_slice(), output)
}
