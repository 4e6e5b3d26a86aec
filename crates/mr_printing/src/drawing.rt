//! The picture of a transcript, with what a check prints of it at the top.
ghost use Rattle.std.specs.Prelude.{◌≡◌, ◌<◌, ◌^◌, length, map, string_bytes, IfOk, IsErrOf};
ghost use Rattle.mr_drawing.specs.Picture.{scene_view};
ghost use Rattle.mr_printing.specs.CheckText.{premises_line, verdict_line, outcome_line};
ghost use Rattle.mr_printing.specs.Drawing.{check_lines, seen_scene, without_end, drawing_text};
ghost use Rattle.mr_words.specs.Printing.{WritesAtOnce};

use crate::check_text::{push_outcome_line, push_premises_line, push_verdict_line};
use mr_drawing::{Scene, draw};
use mr_shown::KeptVerdict;
use mr_text::Sink;
use mr_transcripts::{Outcome, Seen};
use mr_words::{PrintFault, write_at_once};
use mr_world::Premises;
use std::alloc::{AllocError, Global};

/// A line without its end.
fn without_end(line: &[u8]) -> &[u8]
    ensures { result.now ≡ without_end line.now }
{
    &line[..line.len().saturating_sub(1)]
}

/// The line of the premises.
fn premises_line(alloc: Global, premises: Premises) -> Result<Vec<u8>, AllocError>
    ensures { IfOk result (λ line. line.items ≡ premises_line premises) }
{
    let mut line = Vec::new(alloc);
    push_premises_line(&mut line, premises)?;
    Ok(line)
}

/// The line of the verdict.
fn verdict_line(alloc: Global, verdict: &KeptVerdict) -> Result<Vec<u8>, AllocError>
    ensures { IfOk result (λ line. line.items ≡ verdict_line verdict.now) }
{
    let mut line = Vec::new(alloc);
    push_verdict_line(&mut line, verdict)?;
    Ok(line)
}

/// The line of the outcome.
fn outcome_line(alloc: Global, outcome: Outcome) -> Result<Vec<u8>, AllocError>
    ensures { IfOk result (λ line. line.items ≡ outcome_line outcome) }
{
    let mut line = Vec::new(alloc);
    push_outcome_line(&mut line, outcome)?;
    Ok(line)
}

/// The texts of events, as bytes.
fn titles_of(alloc: Global, texts: &[String]) -> Result<Vec<&[u8]>, AllocError>
    ensures { IfOk result (λ titles. map (λ title. title.now) titles.items ≡ map string_bytes texts.now) }
{
    let mut titles = Vec::with_capacity(alloc, texts.len())?;
    for text in texts {
        titles.push(text.as_bytes())?;
    }
    Ok(titles)
}

/// What is drawn of what is seen of a transcript, with these titles and these lines at the top.
fn scene_of<'a>(seen: &'a Seen, titles: &'a [&'a [u8]], said: &'a [&'a [u8]]) -> Scene<'a>
    requires titled { map (λ title. title.now) titles.now ≡ map string_bytes seen.now.texts.items }
    requires checked { map (λ line. line.now) said.now ≡ check_lines seen.now.checked }
    ensures { scene_view result ≡ seen_scene seen.now }
{
    Scene {
        proxies: seen.setup.proxies(),
        events: seen.events.as_slice(),
        titles,
        notes: seen.notes.as_slice(),
        sent: seen.world.sent(),
        replies: seen.world.replies(),
        entries: seen.world.history().entries(),
        verdict: &seen.checked.verdict,
        said,
    }
}

/// The picture of what is seen of a transcript.
#[tactic(auto, unfolding(crate::specs::Drawing::drawing_text))]
fn text_of_drawing(alloc: Global, seen: &Seen) -> Result<Vec<u8>, AllocError>
    requires { length seen.now.setup.proxies < 2 ^ 32 }
    ensures { IfOk result (λ text. text.items ≡ drawing_text seen.now) }
{
    let premises = premises_line(alloc, seen.checked.premises)?;
    let verdict = verdict_line(alloc, &seen.checked.verdict)?;
    let outcome = outcome_line(alloc, seen.checked.outcome)?;
    let titles = titles_of(alloc, seen.texts.as_slice())?;
    let said = [
        without_end(premises.as_slice()),
        without_end(verdict.as_slice()),
        without_end(outcome.as_slice()),
    ];
    let scene = scene_of(seen, titles.as_slice(), &said);
    draw(alloc, &scene)
}

/// Writes the picture of what is seen of a transcript as an SVG, with the lines of a check at the top. The text is whole
/// before the one call that writes it.
pub fn write_drawing<W: Sink>(alloc: Global, seen: &Seen, writer: &mut W) -> Result<(), PrintFault>
    requires { length seen.now.setup.proxies < 2 ^ 32 }
    ensures drawing { WritesAtOnce (drawing_text seen.now) (W.told writer.old) result (W.told writer.new) }

    // The writer is not even touched where memory is refused.
    ensures memory { IsErrOf result PrintFault.Memory → writer.new ≡ writer.old }
{
    let text = text_of_drawing(alloc, seen)?;
    write_at_once(text.as_slice(), writer)
}
