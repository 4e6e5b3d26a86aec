//! How what a canary sees is shown: in lines, the last of which a terminal redraws in place, or as JSON.
ghost use Rattle.std.specs.Prelude.{◌≡◌, ◌++◌, IfOk, OnOk};
ghost use Rattle.mr_flights.specs.Showing.{drawn_line, ending, found_text, found_texts, manner_of, second_shown, shown, without_end};

use mr_servers::Screen;
use mr_sightings::{
    CameBack, Second, Table, Verdict, came_back_json, came_back_text, second_json, second_line,
    table_text, verdict_json, verdict_text,
};
use std::alloc::{AllocError, Global};

/// How what a canary sees is shown.
#[derive(Clone, Copy, Debug, PartialEq, Eq)]
pub enum Manner {
    /// In lines, one below the other.
    Lines,
    /// In lines on a terminal, where the line of a second takes the place of the one before.
    Drawn,
    /// Each as one object of JSON, in a line.
    Objects,
}

/// How it is shown, as JSON or not, where the output goes to this place.
pub fn manner_of(json: bool, screen: Screen) -> Manner
    ensures { result ≡ manner_of json screen }
{
    if json {
        Manner::Objects
    } else if screen.terminal {
        Manner::Drawn
    } else {
        Manner::Lines
    }
}

/// A second, and what came back in it.
#[derive(Clone, Copy, Debug)]
pub struct Sight<'a> {
    /// The second.
    pub second: Second,
    /// What came back, first to last.
    pub found: &'a [CameBack<'a>],
}

/// Adds what is told of something that came back.
fn push_found(
    alloc: Global,
    text: &mut Vec<u8>,
    manner: Manner,
    found: &CameBack<'_>,
) -> Result<(), AllocError>
    ensures { OnOk result (text.new.items ≡ text.old.items ++ found_text manner found.now) }
{
    let told = match manner {
        Manner::Objects => came_back_json(alloc, found)?,
        Manner::Lines | Manner::Drawn => came_back_text(alloc, found)?,
    };
    text.extend_from_slice(told.as_slice())?;
    Ok(())
}

/// Adds what is told of each thing that came back.
fn push_all_found(
    alloc: Global,
    text: &mut Vec<u8>,
    manner: Manner,
    found: &[CameBack<'_>],
) -> Result<(), AllocError>
    ensures { OnOk result (text.new.items ≡ text.old.items ++ found_texts manner found.now) }
{
    for one in found {
        push_found(alloc, text, manner, one)?;
    }
    Ok(())
}

/// A line without its end.
fn without_end(line: &[u8]) -> &[u8]
    ensures { result.now ≡ without_end line.now }
{
    &line[..line.len().saturating_sub(1)]
}

/// Adds a line that a terminal cuts where it doesn't fit, and behind which the cursor stays.
fn push_drawn_line(text: &mut Vec<u8>, line: &[u8]) -> Result<(), AllocError>
    ensures { OnOk result (text.new.items ≡ text.old.items ++ drawn_line line.now) }
{
    text.extend_from_slice(b"\x1b[?7l")?;
    text.extend_from_slice(without_end(line))?;
    text.extend_from_slice(b"\x1b[?7h")?;
    Ok(())
}

/// Adds what is told of a second.
fn push_second(
    alloc: Global,
    text: &mut Vec<u8>,
    manner: Manner,
    second: &Second,
) -> Result<(), AllocError>
    ensures { OnOk result (text.new.items ≡ text.old.items ++ second_shown manner second.now) }
{
    match manner {
        Manner::Lines => {
            let line = second_line(alloc, second)?;
            text.extend_from_slice(line.as_slice())?;
            Ok(())
        }
        Manner::Drawn => {
            let line = second_line(alloc, second)?;
            push_drawn_line(text, line.as_slice())
        }
        Manner::Objects => {
            let line = second_json(alloc, second)?;
            text.extend_from_slice(line.as_slice())?;
            Ok(())
        }
    }
}

/// What is written of a second: what came back in it, and then the second.
pub fn sight_text(alloc: Global, manner: Manner, sight: &Sight<'_>) -> Result<Vec<u8>, AllocError>
    ensures { IfOk result (λ text. text.items ≡ shown manner sight.now) }
{
    let mut text = Vec::new(alloc);
    if manner == Manner::Drawn {
        text.extend_from_slice(b"\r\x1b[K")?;
    }
    push_all_found(alloc, &mut text, manner, sight.found)?;
    push_second(alloc, &mut text, manner, &sight.second)?;
    Ok(text)
}

/// What is written at the end: the table and the verdict, or the verdict alone where each is an object of JSON.
pub fn ending_text(
    alloc: Global,
    manner: Manner,
    table: &Table,
    verdict: &Verdict,
) -> Result<Vec<u8>, AllocError>
    ensures { IfOk result (λ text. text.items ≡ ending manner table.now verdict.now) }
{
    if manner == Manner::Objects {
        return verdict_json(alloc, verdict);
    }
    let mut text = Vec::new(alloc);
    if manner == Manner::Drawn {
        text.extend_from_slice(b"\n")?;
    }
    text.extend_from_slice(table_text(alloc, table)?.as_slice())?;
    text.extend_from_slice(verdict_text(alloc, verdict)?.as_slice())?;
    Ok(text)
}
