//! The text that a run prints of a script, and the one that an upgrade prints.
ghost use Rattle.std.specs.Prelude.{IfOk, IfErr};
ghost use Rattle.mr_tool.specs.GivenText.{IsTextFault};
ghost use Rattle.mr_tool.specs.RunCommand.{IsPlayed, MakesTranscript, RefusesPlay};
ghost use Rattle.mr_tool.specs.UpgradeCommand.{IsUpgraded, MakesUpgrade};
ghost use Rattle.mr_scripts.specs.Upgrade.{RefusesUpgrade};

use crate::fault::Fault;
use mr_scripts::{read_events, upgrade_script};
use mr_transcripts::write_transcript;
use std::alloc::Global;

/// The transcript of the script that the bytes are, with a line end. Refusals are those of the script, then those of its
/// play.
pub fn text_of_play(alloc: Global, bytes: &[u8]) -> Result<Vec<u8>, Fault>
    ensures played { IfOk result (λ text. IsPlayed bytes.now text.items) }
    ensures refused { IfErr result (λ fault. IsTextFault MakesTranscript RefusesPlay bytes.now fault) }
{
    let script = read_events(alloc, bytes)?;
    let mut text = write_transcript(alloc, script)?;
    text.extend_from_slice(b"\n")?;
    Ok(text)
}

/// The script that the bytes are, in format 2 and with a line end. Refusals are those of the script, then TooLarge.
pub fn text_of_upgrade(alloc: Global, bytes: &[u8]) -> Result<Vec<u8>, Fault>
    ensures upgraded { IfOk result (λ text. IsUpgraded bytes.now text.items) }
    ensures refused { IfErr result (λ fault. IsTextFault MakesUpgrade RefusesUpgrade bytes.now fault) }
{
    let mut upgraded = upgrade_script(alloc, bytes)?;
    upgraded.extend_from_slice(b"\n")?;
    Ok(upgraded)
}
