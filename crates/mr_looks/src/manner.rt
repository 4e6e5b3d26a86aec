//! How looks are shown: as text, drawn in place, as lines of changes, or as JSON.
ghost use Rattle.std.specs.Prelude.{◌≡◌, ◌++◌, IfOk, OnOk};
ghost use Rattle.mr_looks.specs.WatchText.{drawn_byte, drawn, frame_top, frame, json_line, manner_of, shown};

use mr_servers::Screen;
use mr_watch::{Findings, View, change_lines, look_json, look_text};
use mr_words::WatchValues;
use std::alloc::{AllocError, Global};

/// How looks are shown.
#[derive(Clone, Copy, Debug, PartialEq, Eq)]
pub enum Manner {
    /// As text, with colours or without.
    Whole(bool),
    /// As text that is drawn in place on a terminal, with colours or without.
    Drawn(bool),
    /// What has changed since the look before, in lines.
    Changes,
    /// Each as one object of JSON, in a line.
    Objects,
}

/// How looks are shown of a watch whose output goes to this place.
pub fn manner_of(values: &WatchValues<'_>, screen: Screen) -> Manner
    ensures { result ≡ manner_of values.now.json values.now.once screen }
{
    if values.json {
        Manner::Objects
    } else if values.once {
        Manner::Whole(screen.terminal && screen.colours)
    } else if screen.terminal {
        Manner::Drawn(screen.colours)
    } else {
        Manner::Changes
    }
}

/// Adds a byte of a drawn text. Before each line end the rest of the line is cleared.
fn push_drawn_byte(text: &mut Vec<u8>, byte: u8) -> Result<(), AllocError>
    ensures { OnOk result (text.new.items ≡ text.old.items ++ drawn_byte byte) }
{
    if byte == b'\n' {
        text.extend_from_slice(b"\x1b[K\n")?;
        return Ok(());
    }
    text.push(byte)?;
    Ok(())
}

/// Adds a drawn text.
fn push_drawn(text: &mut Vec<u8>, bytes: &[u8]) -> Result<(), AllocError>
    ensures { OnOk result (text.new.items ≡ text.old.items ++ drawn bytes.now) }
{
    for byte in bytes {
        push_drawn_byte(text, *byte)?;
    }
    Ok(())
}

/// Adds how a frame begins: at the top of the screen, which the first one clears.
fn push_top(text: &mut Vec<u8>, first: bool) -> Result<(), AllocError>
    ensures { OnOk result (text.new.items ≡ text.old.items ++ frame_top first) }
{
    text.extend_from_slice(b"\x1b[H")?;
    if first {
        text.extend_from_slice(b"\x1b[2J")?;
    }
    Ok(())
}

/// A text that is drawn in place of what the terminal shows.
fn frame_of(alloc: Global, first: bool, bytes: &[u8]) -> Result<Vec<u8>, AllocError>
    ensures { IfOk result (λ text. text.items ≡ frame first bytes.now) }
{
    let mut text = Vec::new(alloc);
    push_top(&mut text, first)?;
    push_drawn(&mut text, bytes)?;
    text.extend_from_slice(b"\x1b[J")?;
    Ok(text)
}

/// A look as JSON, with a line end.
fn object_of(alloc: Global, view: &View<'_>) -> Result<Vec<u8>, AllocError>
    ensures { IfOk result (λ text. text.items ≡ json_line view.now) }
{
    let json = look_json(alloc, view)?;
    let mut text = Vec::new(alloc);
    text.extend_from_slice(json.as_bytes())?;
    text.extend_from_slice(b"\n")?;
    Ok(text)
}

/// What is shown of a look, where these were the findings before it. Nothing where it has no change to tell.
pub fn text_of(
    alloc: Global,
    manner: Manner,
    first: bool,
    before: &Findings,
    view: &View<'_>,
) -> Result<Vec<u8>, AllocError>
    ensures { IfOk result (λ text. text.items ≡ shown manner first before.now view.now) }
{
    match manner {
        Manner::Whole(colours) => look_text(alloc, view, colours),
        Manner::Drawn(colours) => {
            let text = look_text(alloc, view, colours)?;
            frame_of(alloc, first, text.as_slice())
        }
        Manner::Changes => change_lines(alloc, before, view),
        Manner::Objects => object_of(alloc, view),
    }
}
