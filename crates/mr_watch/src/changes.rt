//! What has changed since the look before, a line for each change.
ghost use Rattle.std.specs.Prelude.{◌≡◌, ◌++◌, ◌&&◌, ◌==◌, IfOk, OnOk, codes, decimal};
ghost use Rattle.mr_phases.specs.PhaseText.{phase_text};
ghost use Rattle.std.specs.List.{list_any};
ghost use Rattle.mr_watch.specs.Changes.{state_text, is_same_phase, is_same_state, is_unchanged, second_text, state_line, proxy_change, proxy_changes, is_same_finding, same_change, empty_change, near_change, forward_change, premise_changes, change_text};

use crate::finding::{Finding, Findings};
use crate::look::ProxySeen;
use crate::next::push_decimal;
use crate::premise_lines::{push_empty, push_forward, push_near, push_same};
use crate::shown::push_cut;
use crate::told::{Place, ProxyTold};
use crate::view::View;
use mr_phases::PhaseName;
use std::alloc::{AllocError, Global};

/// Adds where a proxy stands that answered.
fn push_place(text: &mut Vec<u8>, phase: PhaseName, hop: u64) -> Result<(), AllocError>
    ensures { OnOk result (text.new.items ≡ text.old.items ++ (phase_text phase ++ (codes " of hop " ++ decimal hop))) }
{
    text.extend_from_slice(phase.as_str().as_bytes())?;
    text.extend_from_slice(b" of hop ")?;
    push_decimal(text, hop)?;
    Ok(())
}

/// Adds where a proxy stands, in words.
fn push_state(text: &mut Vec<u8>, told: &Option<ProxyTold<'_>>) -> Result<(), AllocError>
    ensures { OnOk result (text.new.items ≡ text.old.items ++ state_text told.now) }
{
    match told {
        Some(told) => push_place(text, told.place.phase, told.place.hop),
        None => {
            text.extend_from_slice(b"unreached")?;
            Ok(())
        }
    }
}

/// Whether both are the same phase.
fn is_same_phase(one: PhaseName, other: PhaseName) -> bool
    ensures { result ≡ is_same_phase one other }
{
    one == other
}

/// Whether both are the same place.
fn is_same_place(one: &Place, other: &Place) -> bool
    ensures { result ≡ (is_same_phase one.now.phase other.now.phase && (one.now.hop == other.now.hop)) }
{
    is_same_phase(one.phase, other.phase) && one.hop == other.hop
}

/// Whether both stand at the same place, or neither was reached.
fn is_same_state(one: &Option<ProxyTold<'_>>, other: &Option<ProxyTold<'_>>) -> bool
    ensures { result ≡ is_same_state one.now other.now }
{
    match one {
        Some(told) => match other {
            Some(before) => is_same_place(&told.place, &before.place),
            None => false,
        },
        None => other.is_none(),
    }
}

/// Whether this is the same address at the same place.
fn is_unchanged(proxy: &ProxySeen<'_>, earlier: &ProxySeen<'_>) -> bool
    ensures { result ≡ is_unchanged proxy.now earlier.now }
{
    earlier.address == proxy.address && is_same_state(&proxy.told, &earlier.told)
}

/// Whether one of these is.
fn any_unchanged(earlier: &[ProxySeen<'_>], proxy: &ProxySeen<'_>) -> bool
    ensures { result ≡ list_any (is_unchanged proxy.now) earlier.now }
{
    earlier.iter().any(|before| is_unchanged(proxy, before))
}

/// Adds the second at the front of a line.
fn push_second(text: &mut Vec<u8>, at: u64) -> Result<(), AllocError>
    ensures { OnOk result (text.new.items ≡ text.old.items ++ second_text at) }
{
    push_decimal(text, at)?;
    text.extend_from_slice(b" ")?;
    Ok(())
}

/// Adds a line that says where a proxy stands.
fn push_state_line(text: &mut Vec<u8>, at: u64, proxy: &ProxySeen<'_>) -> Result<(), AllocError>
    ensures { OnOk result (text.new.items ≡ text.old.items ++ state_line at proxy.now) }
{
    push_second(text, at)?;
    push_cut(text, 24, proxy.address.as_bytes())?;
    text.extend_from_slice(b" ")?;
    push_state(text, &proxy.told)?;
    text.extend_from_slice(b"\n")?;
    Ok(())
}

/// Adds a line where a proxy wasn't at this place at the look before.
fn push_proxy_change(
    text: &mut Vec<u8>,
    at: u64,
    earlier: &[ProxySeen<'_>],
    proxy: &ProxySeen<'_>,
) -> Result<(), AllocError>
    ensures { OnOk result (text.new.items ≡ text.old.items ++ proxy_change at earlier.now proxy.now) }
{
    if any_unchanged(earlier, proxy) {
        Ok(())
    } else {
        push_state_line(text, at, proxy)
    }
}

/// Adds a line for each proxy that wasn't.
fn push_proxy_changes(
    text: &mut Vec<u8>,
    at: u64,
    earlier: &[ProxySeen<'_>],
    proxies: &[ProxySeen<'_>],
) -> Result<(), AllocError>
    ensures { OnOk result (text.new.items ≡ text.old.items ++ proxy_changes at earlier.now proxies.now) }
{
    for proxy in proxies {
        push_proxy_change(text, at, earlier, proxy)?;
    }
    Ok(())
}

/// Whether the same was found.
fn is_same_finding(one: Finding, other: Finding) -> bool
    ensures { result ≡ is_same_finding one other }
{
    one == other
}

/// Adds a line where something else was found before of one configuration.
fn push_same_change(
    alloc: Global,
    text: &mut Vec<u8>,
    before: &Findings,
    view: &View<'_>,
) -> Result<(), AllocError>
    ensures { OnOk result (text.new.items ≡ text.old.items ++ same_change before.now view.now) }
{
    if is_same_finding(before.same, view.findings.same) {
        return Ok(());
    }
    push_second(text, view.at)?;
    push_same(alloc, text, false, view)?;
    Ok(())
}

/// Adds a line where something else was found before of empty new pools.
fn push_empty_change(
    text: &mut Vec<u8>,
    before: &Findings,
    view: &View<'_>,
) -> Result<(), AllocError>
    ensures { OnOk result (text.new.items ≡ text.old.items ++ empty_change before.now view.now) }
{
    if is_same_finding(before.empty, view.findings.empty) {
        return Ok(());
    }
    push_second(text, view.at)?;
    push_empty(text, false, view)?;
    Ok(())
}

/// Adds a line where something else was found before of clocks that are near.
fn push_near_change(
    text: &mut Vec<u8>,
    before: &Findings,
    view: &View<'_>,
) -> Result<(), AllocError>
    ensures { OnOk result (text.new.items ≡ text.old.items ++ near_change before.now view.now) }
{
    if is_same_finding(before.near, view.findings.near) {
        return Ok(());
    }
    push_second(text, view.at)?;
    push_near(text, false, view)?;
    Ok(())
}

/// Adds a line where something else was found before of clocks that go forward.
fn push_forward_change(
    alloc: Global,
    text: &mut Vec<u8>,
    before: &Findings,
    view: &View<'_>,
) -> Result<(), AllocError>
    ensures { OnOk result (text.new.items ≡ text.old.items ++ forward_change before.now view.now) }
{
    if is_same_finding(before.forward, view.findings.forward) {
        return Ok(());
    }
    push_second(text, view.at)?;
    push_forward(alloc, text, false, view)?;
    Ok(())
}

/// Adds a line for each premise of which something else was found before.
#[tactic(auto, unfolding(crate::specs::Changes::premise_changes))]
fn push_premise_changes(
    alloc: Global,
    text: &mut Vec<u8>,
    before: &Findings,
    view: &View<'_>,
) -> Result<(), AllocError>
    ensures { OnOk result (text.new.items ≡ text.old.items ++ premise_changes before.now view.now) }
{
    push_same_change(alloc, text, before, view)?;
    push_empty_change(text, before, view)?;
    push_near_change(text, before, view)?;
    push_forward_change(alloc, text, before, view)?;
    Ok(())
}

/// Adds what has changed.
fn push_changes(
    alloc: Global,
    text: &mut Vec<u8>,
    before: &Findings,
    view: &View<'_>,
) -> Result<(), AllocError>
    ensures { OnOk result (text.new.items ≡ text.old.items ++ change_text before.now view.now) }
{
    push_proxy_changes(text, view.at, view.earlier, view.look.proxies)?;
    push_premise_changes(alloc, text, before, view)?;
    Ok(())
}

/// What has changed since the look before, where these were the findings then: a line for each proxy that is at another place or was
/// reached or not, and for each premise of which something else was found. Nothing where nothing changed.
pub fn change_lines(
    alloc: Global,
    before: &Findings,
    view: &View<'_>,
) -> Result<Vec<u8>, AllocError>
    ensures { IfOk result (λ text. text.items ≡ change_text before.now view.now) }
{
    let mut text = Vec::new(alloc);
    push_changes(alloc, &mut text, before, view)?;
    Ok(text)
}
