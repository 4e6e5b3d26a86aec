//! The lines of proxies.
ghost use Rattle.std.specs.Prelude.{◌≡◌, ◌++◌, None, OnOk};
ghost use Rattle.mr_watch.specs.Proxies.{proxies_head, second_then, phase_cell, clock_cell, traffic_cells, proxy_cells, proxy_line, proxy_lines, proxies_text};

use crate::look::ProxySeen;
use crate::rate::rate_of;
use crate::shown::{
    Colour, push_cell, push_coloured, push_left, push_padding, push_perhaps_cell, push_signed_cell,
};
use crate::told::{ProxyTold, Traffic};
use mr_phases::PhaseName;
use std::alloc::AllocError;

/// Adds a phase in a column of thirteen.
fn push_phase(text: &mut Vec<u8>, colours: bool, phase: PhaseName) -> Result<(), AllocError>
    ensures { OnOk result (text.new.items ≡ text.old.items ++ phase_cell colours phase) }
{
    let name = phase.as_str();
    push_coloured(text, colours, Colour::Cyan, name)?;
    push_padding(text, 13usize.saturating_sub(name.len()))?;
    Ok(())
}

/// What the watcher's clock says at an answer, if it said `at` at a moment before.
fn second_then(at: u64, moment: u64, answered: u64) -> u64
    ensures { result ≡ second_then at moment answered }
{
    at.saturating_add(answered.saturating_sub(moment) / 1_000)
}

/// Adds by how many seconds a clock is ahead of the watcher's, or behind it.
fn push_clock(text: &mut Vec<u8>, at: u64, clock: Option<u64>) -> Result<(), AllocError>
    ensures { OnOk result (text.new.items ≡ text.old.items ++ clock_cell at clock) }
{
    match clock {
        Some(reading) if reading < at => push_signed_cell(text, "-", at - reading),
        Some(reading) => push_signed_cell(text, "+", reading - at),
        None => push_perhaps_cell(text, None),
    }
}

/// Adds what it did, and ends the line.
fn push_traffic(text: &mut Vec<u8>, rate: Option<u64>, traffic: &Traffic) -> Result<(), AllocError>
    ensures { OnOk result (text.new.items ≡ text.old.items ++ traffic_cells rate traffic.now) }
{
    push_perhaps_cell(text, rate)?;
    push_cell(text, traffic.hits)?;
    push_cell(text, traffic.lost)?;
    push_perhaps_cell(text, traffic.held_back)?;
    text.extend_from_slice(b"\n")?;
    Ok(())
}

/// Adds what stands behind the address of a proxy that answered.
fn push_told(
    text: &mut Vec<u8>,
    colours: bool,
    at: u64,
    rate: Option<u64>,
    told: &ProxyTold<'_>,
) -> Result<(), AllocError>
    ensures { OnOk result (text.new.items ≡ text.old.items
        ++ (phase_cell colours told.now.place.phase ++ (clock_cell at told.now.clock ++ traffic_cells rate told.now.traffic))) }
{
    push_phase(text, colours, told.place.phase)?;
    push_clock(text, at, told.clock)?;
    push_traffic(text, rate, &told.traffic)?;
    Ok(())
}

/// Adds that it didn't answer.
fn push_unreached(text: &mut Vec<u8>, colours: bool) -> Result<(), AllocError>
    ensures { OnOk result (text.new.items ≡ text.old.items ++ proxy_cells colours 0 None None) }
{
    push_coloured(text, colours, Colour::Red, "unreached")?;
    text.extend_from_slice(b"\n")?;
    Ok(())
}

/// Adds what stands behind the address.
fn push_cells(
    text: &mut Vec<u8>,
    colours: bool,
    at: u64,
    rate: Option<u64>,
    told: &Option<ProxyTold<'_>>,
) -> Result<(), AllocError>
    ensures { OnOk result (text.new.items ≡ text.old.items ++ proxy_cells colours at rate told.now) }
{
    match told {
        Some(told) => push_told(text, colours, at, rate, told),
        None => push_unreached(text, colours),
    }
}

/// Adds the line of a proxy, where the watcher's clock said `at` at a moment.
fn push_proxy(
    text: &mut Vec<u8>,
    colours: bool,
    at: u64,
    moment: u64,
    earlier: &[ProxySeen<'_>],
    proxy: &ProxySeen<'_>,
) -> Result<(), AllocError>
    ensures { OnOk result (text.new.items ≡ text.old.items ++ proxy_line colours at moment earlier.now proxy.now) }
{
    push_left(text, 24, proxy.address.as_bytes())?;
    text.extend_from_slice(b" ")?;
    let then = second_then(at, moment, proxy.answered);
    push_cells(text, colours, then, rate_of(earlier, proxy), &proxy.told)?;
    Ok(())
}

/// Adds the line of each.
fn push_each_proxy(
    text: &mut Vec<u8>,
    colours: bool,
    at: u64,
    moment: u64,
    earlier: &[ProxySeen<'_>],
    proxies: &[ProxySeen<'_>],
) -> Result<(), AllocError>
    ensures { OnOk result (text.new.items ≡ text.old.items ++ proxy_lines colours at moment earlier.now proxies.now) }
{
    for proxy in proxies {
        push_proxy(text, colours, at, moment, earlier, proxy)?;
    }
    Ok(())
}

/// Adds what stands above the lines of proxies.
#[tactic(auto, unfolding(crate::specs::Proxies::proxies_head))]
fn push_head(text: &mut Vec<u8>) -> Result<(), AllocError>
    ensures { OnOk result (text.new.items ≡ text.old.items ++ proxies_head) }
{
    text.extend_from_slice(
        b"proxy                    phase           clock   req/s    hits    lost    held\n",
    )?;
    Ok(())
}

/// Adds the lines of proxies, where the look before saw those, and the watcher's clock said `at` at a moment.
pub(crate) fn push_proxies(
    text: &mut Vec<u8>,
    colours: bool,
    at: u64,
    moment: u64,
    earlier: &[ProxySeen<'_>],
    proxies: &[ProxySeen<'_>],
) -> Result<(), AllocError>
    ensures { OnOk result (text.new.items ≡ text.old.items ++ proxies_text colours at moment earlier.now proxies.now) }
{
    push_head(text)?;
    push_each_proxy(text, colours, at, moment, earlier, proxies)?;
    Ok(())
}
