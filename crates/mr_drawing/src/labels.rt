//! The words of a picture: what a request asks, shortened to its bar, and what legs and replies are called.
ghost use Rattle.std.specs.Prelude.{◌≡◌, ◌≤◌, ◌++◌, length, OnOk, IfOk};
ghost use Rattle.mr_drawing.specs.Labels.{width_of, fitting, shortened, keys_of, keys_asked, verb_of, request_label, kind_text, outcome_text, phase_letter};

use crate::steps::Outcome;
use mr_phases::{PhaseName, RequestKind, Side};
use mr_text::{Key, Request};
use std::alloc::{AllocError, Global};

/// How many characters show a byte.
fn width_of(byte: u8) -> usize
    ensures { result ≡ width_of byte }
{
    if byte == b'\\' {
        2
    } else if 32 <= byte && byte <= 126 {
        1
    } else {
        4
    }
}

/// How many of these bytes, from the first on, are shown in so many characters.
fn fitting(bytes: &[u8], room: usize) -> usize
    ensures count { result ≡ fitting room bytes.now }
    ensures within { result ≤ length bytes.now }
{
    let mut left = room;
    for (count, byte) in bytes.iter().enumerate() {
        let width = width_of(*byte);
        if left < width {
            return count;
        }
        left -= width;
    }
    bytes.len()
}

/// The bytes as far as so many characters show them, with two dots behind them where some are left out.
pub(crate) fn shortened(alloc: Global, bytes: &[u8], room: usize) -> Result<Vec<u8>, AllocError>
    ensures { IfOk result (λ words. words.items ≡ shortened room bytes.now) }
{
    if fitting(bytes, room) == bytes.len() {
        return Vec::from_slice(alloc, bytes);
    }
    let count = fitting(bytes, room.saturating_sub(2));
    let mut words = Vec::from_slice(alloc, &bytes[..count])?;
    words.extend_from_slice(b"..")?;
    Ok(words)
}

/// The verb of a request.
fn verb_of(request: &Request) -> &'static str
    ensures { result.now ≡ verb_of request.now }
{
    match request {
        Request::Get { .. } => "get",
        Request::Set { .. } => "set",
        Request::Delete { .. } => "delete",
        Request::Quit => "quit",
    }
}

/// Adds keys, each behind a space.
fn push_keys(words: &mut Vec<u8>, keys: &[Key]) -> Result<(), AllocError>
    ensures { OnOk result (words.new.items ≡ words.old.items ++ keys_of keys.now) }
{
    for key in keys {
        words.extend_from_slice(b" ")?;
        words.extend_from_slice(key.as_bytes())?;
    }
    Ok(())
}

/// Adds the keys of a request, each behind a space.
fn push_keys_asked(words: &mut Vec<u8>, request: &Request) -> Result<(), AllocError>
    ensures { OnOk result (words.new.items ≡ words.old.items ++ keys_asked request.now) }
{
    match request {
        Request::Get { keys } => push_keys(words, keys.as_slice()),
        Request::Set { key, .. } | Request::Delete { key, .. } => {
            words.extend_from_slice(b" ")?;
            words.extend_from_slice(key.as_bytes())
        }
        Request::Quit => Ok(()),
    }
}

/// What a request asks: its verb and its keys.
pub(crate) fn request_label(alloc: Global, request: &Request) -> Result<Vec<u8>, AllocError>
    ensures { IfOk result (λ words. words.items ≡ request_label request.now) }
{
    let mut words = Vec::from_slice(alloc, verb_of(request).as_bytes())?;
    push_keys_asked(&mut words, request)?;
    Ok(words)
}

/// What a leg to a side is called.
pub(crate) fn kind_text(kind: RequestKind, side: Side) -> &'static str
    ensures { result.now ≡ kind_text kind side }
{
    match (kind, side) {
        (RequestKind::Get, Side::Old) => "get old",
        (RequestKind::Get, Side::New) => "get new",
        (RequestKind::Set, Side::Old) => "set old",
        (RequestKind::Set, Side::New) => "set new",
        (RequestKind::Delete, Side::Old) => "del old",
        (RequestKind::Delete, Side::New) => "del new",
    }
}

/// What a reply is called.
pub(crate) fn outcome_text(outcome: Outcome) -> &'static str
    ensures { result.now ≡ outcome_text outcome }
{
    match outcome {
        Outcome::Hit => "hit",
        Outcome::Miss => "miss",
        Outcome::Stored => "stored",
        Outcome::Deleted => "deleted",
        Outcome::Absent => "absent",
        Outcome::Failed => "failed",
    }
}

/// The letter of a phase.
pub(crate) fn phase_letter(phase: PhaseName) -> &'static str
    ensures { result.now ≡ phase_letter phase }
{
    match phase {
        PhaseName::OldOnly => "O",
        PhaseName::BothReadOld => "A",
        PhaseName::BothReadNew => "B",
        PhaseName::NewOnly => "N",
    }
}
