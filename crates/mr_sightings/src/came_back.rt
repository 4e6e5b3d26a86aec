//! What is told where something came back that was deleted.
ghost use Rattle.std.specs.Prelude.{◌≡◌, ◌++◌, OnOk, IfOk};
ghost use Rattle.mr_sightings.specs.CameBack.{who_text, moment_text, deed_line, came_back_text};

use crate::shown::{push_digits, push_number, push_place, push_printable};
use mr_phases::PhaseName;
use std::alloc::{AllocError, Global};

/// A request: who was asked, and when.
#[derive(Clone, Copy, Debug)]
pub struct Deed<'a> {
    /// The address of the proxy.
    pub proxy: &'a str,
    /// The second in which it was issued, since the epoch.
    pub second: u64,
    /// How far into that second, in microseconds.
    pub micros: u32,
    /// The migration in force then, counted from 0.
    pub hop: u32,
    /// The phase in force then.
    pub phase: PhaseName,
}

/// What came back: a get found a value that was set and answered, and then deleted, which was acknowledged before the get was issued.
#[derive(Clone, Copy, Debug)]
pub struct CameBack<'a> {
    /// The key.
    pub key: &'a [u8],
    /// Who set the value that came back.
    pub set: Deed<'a>,
    /// Who deleted it.
    pub delete: Deed<'a>,
    /// Who found it.
    pub get: Deed<'a>,
}

/// Adds what was asked, in a word of eight columns, and who was.
#[tactic(auto, unfolding(crate::specs::CameBack::who_text))]
fn push_who(text: &mut Vec<u8>, name: &[u8], proxy: &str) -> Result<(), AllocError>
    ensures { OnOk result (text.new.items ≡ text.old.items ++ who_text name.now proxy.now) }
{
    text.extend_from_slice(b"  ")?;
    text.extend_from_slice(name)?;
    text.extend_from_slice(b"at ")?;
    text.extend_from_slice(proxy.as_bytes())?;
    Ok(())
}

/// Adds when that was.
#[tactic(auto, unfolding(crate::specs::CameBack::moment_text))]
fn push_moment(text: &mut Vec<u8>, second: u64, micros: u32) -> Result<(), AllocError>
    ensures { OnOk result (text.new.items ≡ text.old.items ++ moment_text second micros) }
{
    text.extend_from_slice(b", second ")?;
    push_number(text, second)?;
    text.extend_from_slice(b".")?;
    push_digits(text, 6, u64::from(micros))?;
    Ok(())
}

/// Adds the line of a request.
#[tactic(auto, unfolding(crate::specs::CameBack::deed_line))]
fn push_deed(text: &mut Vec<u8>, name: &[u8], deed: &Deed<'_>) -> Result<(), AllocError>
    ensures { OnOk result (text.new.items ≡ text.old.items ++ deed_line name.now deed.now) }
{
    push_who(text, name, deed.proxy)?;
    push_moment(text, deed.second, deed.micros)?;
    text.extend_from_slice(b", ")?;
    push_place(text, deed.phase, deed.hop)?;
    text.extend_from_slice(b"\n")?;
    Ok(())
}

/// Adds the lines.
#[tactic(auto, unfolding(crate::specs::CameBack::came_back_text))]
fn push_came_back(text: &mut Vec<u8>, found: &CameBack<'_>) -> Result<(), AllocError>
    ensures { OnOk result (text.new.items ≡ text.old.items ++ came_back_text found.now) }
{
    text.extend_from_slice(b"came back: ")?;
    push_printable(text, found.key)?;
    text.extend_from_slice(b"\n")?;
    push_deed(text, b"set     ", &found.set)?;
    push_deed(text, b"delete  ", &found.delete)?;
    push_deed(text, b"get     ", &found.get)?;
    Ok(())
}

/// What came back, in four lines.
pub fn came_back_text(alloc: Global, found: &CameBack<'_>) -> Result<Vec<u8>, AllocError>
    ensures { IfOk result (λ text. text.items ≡ came_back_text found.now) }
{
    let mut text = Vec::new(alloc);
    push_came_back(&mut text, found)?;
    Ok(text)
}
