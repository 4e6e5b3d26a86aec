//! What a watch says once more at its end.
ghost use Rattle.std.specs.Prelude.{◌≡◌, ◌++◌, IfOk, OnOk};
ghost use Rattle.mr_looks.specs.WatchText.{is_broken, broken_line, broken_lines, unreached_line, unreached_lines, last_lines, any_broken, is_sound};

use crate::manner::Manner;
use mr_watch::{Finding, Findings};
use std::alloc::{AllocError, Global};

/// A service that was never reached.
#[derive(Clone, Copy, Debug)]
pub struct Unreached<'a> {
    /// Where it was to tell its metrics.
    pub address: &'a str,
}

/// Whether a premise was seen broken.
fn is_broken(finding: Finding) -> bool
    ensures { result ≡ is_broken finding }
{
    match finding {
        Finding::Unseen | Finding::Holds => false,
        Finding::Broken => true,
    }
}

/// Adds a word.
fn push_word(text: &mut Vec<u8>, word: &str) -> Result<(), AllocError>
    ensures { OnOk result (text.new.items ≡ text.old.items ++ word.now) }
{
    text.extend_from_slice(word.as_bytes())?;
    Ok(())
}

/// Adds the line of a premise that was seen broken.
fn push_broken(text: &mut Vec<u8>, finding: Finding, name: &str) -> Result<(), AllocError>
    ensures { OnOk result (text.new.items ≡ text.old.items ++ broken_line finding name.now) }
{
    if is_broken(finding) {
        text.extend_from_slice(b"broken: ")?;
        push_word(text, name)?;
        text.extend_from_slice(b"\n")?;
    }
    Ok(())
}

/// Adds a line for each premise that was seen broken.
fn push_all_broken(text: &mut Vec<u8>, findings: &Findings) -> Result<(), AllocError>
    ensures { OnOk result (text.new.items ≡ text.old.items ++ broken_lines findings.now) }
{
    push_broken(text, findings.same, "same configuration")?;
    push_broken(text, findings.empty, "new pool empty")?;
    push_broken(text, findings.near, "clocks near")?;
    push_broken(text, findings.forward, "no clock went back")?;
    Ok(())
}

/// Adds the line of a service that was never reached.
fn push_unreached(text: &mut Vec<u8>, service: &Unreached<'_>) -> Result<(), AllocError>
    ensures { OnOk result (text.new.items ≡ text.old.items ++ unreached_line service.now.address.now) }
{
    text.extend_from_slice(b"never reached: ")?;
    push_word(text, service.address)?;
    text.extend_from_slice(b"\n")?;
    Ok(())
}

/// Adds a line for each service that was never reached.
fn push_all_unreached(text: &mut Vec<u8>, services: &[Unreached<'_>]) -> Result<(), AllocError>
    ensures { OnOk result (text.new.items ≡ text.old.items ++ unreached_lines services.now) }
{
    for service in services {
        push_unreached(text, service)?;
    }
    Ok(())
}

/// The last lines of a watch: one for each premise that was seen broken and for each service that was never reached. Where looks
/// are JSON there are none.
pub fn last_lines(
    alloc: Global,
    manner: Manner,
    findings: &Findings,
    unreached: &[Unreached<'_>],
) -> Result<Vec<u8>, AllocError>
    ensures { IfOk result (λ text. text.items
        ≡ last_lines manner findings.now unreached.now) }
{
    let mut text = Vec::new(alloc);
    if manner == Manner::Objects {
        return Ok(text);
    }
    push_all_broken(&mut text, findings)?;
    push_all_unreached(&mut text, unreached)?;
    Ok(text)
}

/// Whether one of the premises was seen broken.
fn any_broken(findings: &Findings) -> bool
    ensures { result ≡ any_broken findings.now }
{
    is_broken(findings.same)
        || is_broken(findings.empty)
        || is_broken(findings.near)
        || is_broken(findings.forward)
}

/// Whether a watch saw nothing wrong: no premise was seen broken, and each service was reached.
pub fn is_sound(findings: &Findings, unreached: &[Unreached<'_>]) -> bool
    ensures { result ≡ is_sound findings.now unreached.now }
{
    unreached.is_empty() && !any_broken(findings)
}
