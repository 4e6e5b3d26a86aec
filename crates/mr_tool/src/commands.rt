//! The commands, from their values to what they write.
ghost use Rattle.std.specs.Prelude.{◌≡◌};
ghost use Rattle.mr_text.specs.Source.{SourceView};
ghost use Rattle.mr_text.specs.Sink.{SinkView};
ghost use Rattle.mr_tool.specs.CheckCommand.{CheckGives, end_of};
ghost use Rattle.mr_tool.specs.Devices.{devices};
ghost use Rattle.mr_tool.specs.DrawCommand.{DrawGives};
ghost use Rattle.mr_words.specs.Explain.{told_by};
ghost use Rattle.mr_tool.specs.ExplainCommand.{ExplainGives};
ghost use Rattle.mr_words.specs.Words.{path_in};
ghost use Rattle.mr_tool.specs.PlanCommand.{PlanGives};
ghost use Rattle.mr_tool.specs.RunCommand.{RunGives};
ghost use Rattle.mr_tool.specs.Sources.{SourcesView};
ghost use Rattle.mr_tool.specs.TimelineCommand.{TimelineGives};
ghost use Rattle.mr_tool.specs.UpgradeCommand.{UpgradeGives};
ghost use Rattle.mr_tool.specs.VersionCommand.{VersionGives};

use crate::ended::Ended;
use crate::fault::Fault;
use crate::input::{first_request, given_bytes, load_config};
use crate::planned::config_planned;
use crate::script_text::{text_of_play, text_of_upgrade};
use crate::sources::Sources;
use mr_printing::{write_check, write_drawing, write_explanation, write_plan, write_timeline};
use mr_text::{Sink, Source};
use mr_transcripts::{Outcome, check_transcript, see_transcript};
use mr_words::{Explanation, PlanValues, TimelineValues, version_line, write_at_once};
use std::alloc::Global;

/// Writes the plan of the first request of the input.
pub fn run_plan<S: Sources, I: Source, O: Sink>(
    alloc: Global,
    values: &PlanValues,
    sources: &mut S,
    input: &mut I,
    output: &mut O,
) -> Result<Ended, Fault>
    ensures { (faults : SinkView) → PlanGives values.now
        (devices (S.told sources.old) (I.told input.old) (O.told output.old) faults)
        (devices (S.told sources.new) (I.told input.new) (O.told output.new) faults) result }
{
    let config = config_planned(alloc, &values.planned, sources)?;
    let request = first_request(alloc, input)?;
    write_plan(alloc, &config, values.at, request, output)?;
    Ok(Ended::Done)
}

/// Writes the timeline of a configuration.
pub fn run_timeline<S: Sources, O: Sink>(
    alloc: Global,
    values: &TimelineValues,
    sources: &mut S,
    output: &mut O,
) -> Result<Ended, Fault>
    ensures { (input : SourceView) (faults : SinkView) → TimelineGives values.now
        (devices (S.told sources.old) input (O.told output.old) faults)
        (devices (S.told sources.new) input (O.told output.new) faults) result }
{
    let config = load_config(alloc, values.config, sources)?;
    write_timeline(alloc, &config, values.readings(), output)?;
    Ok(Ended::Done)
}

/// Writes the transcript of the script in a file, or of the one on the input.
pub fn run_script<S: Sources, I: Source, O: Sink>(
    alloc: Global,
    file: Option<&str>,
    sources: &mut S,
    input: &mut I,
    output: &mut O,
) -> Result<Ended, Fault>
    ensures { (faults : SinkView) → RunGives (path_in file.entry)
        (devices (S.told sources.old) (I.told input.old) (O.told output.old) faults)
        (devices (S.told sources.new) (I.told input.new) (O.told output.new) faults) result }
{
    let bytes = given_bytes(alloc, file, sources, input)?;
    let text = text_of_play(alloc, bytes.as_slice())?;
    write_at_once(text.as_slice(), output)?;
    Ok(Ended::Done)
}

/// How a check ends by its outcome.
fn end_of(outcome: Outcome) -> Ended
    ensures { result ≡ end_of outcome }
{
    match outcome {
        Outcome::Accepted => Ended::Done,
        _ => Ended::NotAccepted,
    }
}

/// Writes what is found of the transcript in a file, or of the one on the input.
pub fn run_check<S: Sources, I: Source, O: Sink>(
    alloc: Global,
    file: Option<&str>,
    sources: &mut S,
    input: &mut I,
    output: &mut O,
) -> Result<Ended, Fault>
    ensures { (faults : SinkView) → CheckGives (path_in file.entry)
        (devices (S.told sources.old) (I.told input.old) (O.told output.old) faults)
        (devices (S.told sources.new) (I.told input.new) (O.told output.new) faults) result }
{
    let bytes = given_bytes(alloc, file, sources, input)?;
    let checked = check_transcript(alloc, bytes.as_slice())?;
    write_check(alloc, &checked, output)?;
    Ok(end_of(checked.outcome))
}

/// Writes the picture of the transcript in a file, or of the one on the input.
pub fn run_draw<S: Sources, I: Source, O: Sink>(
    alloc: Global,
    file: Option<&str>,
    sources: &mut S,
    input: &mut I,
    output: &mut O,
) -> Result<Ended, Fault>
    ensures { (faults : SinkView) → DrawGives (path_in file.entry)
        (devices (S.told sources.old) (I.told input.old) (O.told output.old) faults)
        (devices (S.told sources.new) (I.told input.new) (O.told output.new) faults) result }
{
    let bytes = given_bytes(alloc, file, sources, input)?;
    let seen = see_transcript(alloc, bytes.as_slice())?;
    write_drawing(alloc, &seen, output)?;
    Ok(Ended::Done)
}

/// Writes in format 2 the script in a file, or the one on the input.
pub fn run_upgrade<S: Sources, I: Source, O: Sink>(
    alloc: Global,
    file: Option<&str>,
    sources: &mut S,
    input: &mut I,
    output: &mut O,
) -> Result<Ended, Fault>
    ensures { (faults : SinkView) → UpgradeGives (path_in file.entry)
        (devices (S.told sources.old) (I.told input.old) (O.told output.old) faults)
        (devices (S.told sources.new) (I.told input.new) (O.told output.new) faults) result }
{
    let bytes = given_bytes(alloc, file, sources, input)?;
    let upgraded = text_of_upgrade(alloc, bytes.as_slice())?;
    write_at_once(upgraded.as_slice(), output)?;
    Ok(Ended::Done)
}

/// Writes what a fault means.
pub fn run_explain<O: Sink>(
    alloc: Global,
    explanation: &Explanation,
    output: &mut O,
) -> Result<Ended, Fault>
    ensures { (sources : SourcesView) (input : SourceView) (faults : SinkView) → ExplainGives (told_by explanation.now)
        (devices sources input (O.told output.old) faults)
        (devices sources input (O.told output.new) faults) result }
{
    write_explanation(alloc, explanation, output)?;
    Ok(Ended::Done)
}

/// Writes the line that tells the version.
pub fn write_version<O: Sink>(output: &mut O) -> Result<Ended, Fault>
    ensures { (sources : SourcesView) (input : SourceView) (faults : SinkView) → VersionGives
        (devices sources input (O.told output.old) faults)
        (devices sources input (O.told output.new) faults) result }
{
    match output.write_all(version_line().as_bytes()) {
        Ok(()) => Ok(Ended::Done),
        Err(_) => Err(Fault::Output),
    }
}
