//! What a command reads before it does anything: the bytes that it is given, its configuration, its request.
ghost use Rattle.std.specs.Prelude.{◌≡◌, ◌+◌, ◌<◌, ◌≤◌, ℕ, false, List, ◌++◌, IfOk, IfErr, vec_len};
ghost use Rattle.std.specs.String.{string_bytes};
ghost use Rattle.mr_configs.specs.Digest.{IsDigest};
ghost use Rattle.mr_text.specs.Sink.{SinkView};
ghost use Rattle.mr_text.specs.Stream.{Becomes};
ghost use Rattle.mr_tool.specs.Devices.{devices};
ghost use Rattle.mr_tool.specs.Input.{IsGiven, IsNotGiven, IsNextOf, LoadsConfig, LoadsWhole, ReadsRequest, TakesWhole, FailsWhole, config_of, most_reads, most_taken};
ghost use Rattle.mr_tool.specs.InputSteps.{AddsPiece};
ghost use Rattle.mr_words.specs.Words.{path_in};

use crate::fault::Fault;
use crate::sources::{MOST_LOADED, Sources, load_bytes};
use mr_configs::{Config, PlanError, config_digest};
use mr_text::{MAX_BLOCK, MAX_LINE, Request, RequestReader, Source, TextError};
use std::alloc::Global;
use std::marker::Model;

/// The most bytes that are taken of an input: as many as of a file.
pub const MOST_TAKEN: usize = MOST_LOADED;

/// The largest configuration, in bytes.
pub const MOST_CONFIG_BYTES: usize = 16_777_216;

/// The most reads of one request: 1,056,773. Each but the last gives a byte. A request has a line of at most 8,192 bytes
/// and a block of at most 1,048,576, each with two bytes of line end, and one more read finds the end of the input.
pub const MOST_READS: usize = MAX_LINE + 2 + MAX_BLOCK + 2 + 1;

/// How many bytes there is room for in each read, unless fewer may still be taken.
const PIECE_LENGTH: usize = 4096;

/// Reads once, and adds what came. Whether it was the end of the input.
fn add_piece<I: Source>(bytes: &mut Vec<u8>, input: &mut I) -> Result<bool, Fault>
    requires { vec_len bytes.old < most_taken }
    ensures { AddsPiece bytes.old.items (I.told input.old) result bytes.new.items (I.told input.new) }
{
    let mut buffer = [0; PIECE_LENGTH];
    let room = PIECE_LENGTH.min(MOST_TAKEN - bytes.len());
    let piece = &mut buffer[..room];
    let count = input.read(piece)?;
    if count == 0 {
        return Ok(true);
    }
    bytes.extend_from_slice(&piece[..count])?;
    Ok(false)
}

/// The bytes of an input up to its end, or the first `MOST_TAKEN` of them. Nothing is read after the end or after a
/// fault, nor once so many bytes were taken.
pub fn read_whole_input<I: Source>(alloc: Global, input: &mut I) -> Result<Vec<u8>, Fault>
    ensures whole { IfOk result (λ bytes. TakesWhole bytes.items (I.told input.old) (I.told input.new)) }
    ensures fails { IfErr result (λ fault. FailsWhole fault (I.told input.old) (I.told input.new)) }
{
    let mut bytes = Vec::new(alloc);
    while bytes.len() < MOST_TAKEN {
        if add_piece(&mut bytes, input)? {
            return Ok(bytes);
        }
    }
    Ok(bytes)
}

/// The bytes of a file, where one is named; else those of the whole input.
pub fn given_bytes<S: Sources, I: Source>(
    alloc: Global,
    file: Option<&str>,
    sources: &mut S,
    input: &mut I,
) -> Result<Vec<u8>, Fault>
    // Whatever the output held, and holds later.
    ensures given { (output later faults : SinkView) → IfOk result (λ bytes. IsGiven (path_in file.entry) bytes.items
        (devices (S.told sources.old) (I.told input.old) output faults)
        (devices (S.told sources.new) (I.told input.new) later faults)) }
    ensures lacks { (output later faults : SinkView) → IfErr result (λ fault. IsNotGiven (path_in file.entry) fault
        (devices (S.told sources.old) (I.told input.old) output faults)
        (devices (S.told sources.new) (I.told input.new) later faults)) }
{
    match file {
        Some(path) => load_bytes(alloc, path, sources),
        None => read_whole_input(alloc, input),
    }
}

/// A configuration with the bytes that it was read of.
#[derive(Drop)]
pub struct LoadedConfig {
    config: Config,
    bytes: Vec<u8>,
}

impl Model for LoadedConfig {
    ghost use Rattle.mr_tool.specs.Loaded.{Loaded};

    ghost Value = { Loaded };

    ghost view = { λ l. record { bytes = l.bytes.items; config = l.config } };
}

impl LoadedConfig {
    /// The configuration.
    pub fn config(&self) -> &Config
        ensures { result.now ≡ self.now.config }
    {
        &self.config
    }

    /// The configuration, without its bytes.
    pub fn into_config(self) -> Config
        ensures { result ≡ self.config }
    {
        self.config
    }

    /// The digest of the bytes' value, by which services tell which configuration they have. Only memory may be refused: bytes that
    /// are a configuration are JSON.
    pub fn digest(&self, alloc: Global) -> Result<String, Fault>
        ensures digest { IfOk result (λ digest. IsDigest self.now.bytes (string_bytes digest)) }
        ensures refused { IfErr result (λ fault. fault ≡ Fault.Memory) }
    {
        match config_digest(alloc, self.bytes.as_slice()) {
            Ok(digest) => Ok(digest),
            Err(_) => Err(Fault::Memory),
        }
    }
}

/// The configuration in the file at a path, which is loaded once, with the bytes of the file.
pub fn load_whole_config<S: Sources>(
    alloc: Global,
    path: &str,
    sources: &mut S,
) -> Result<LoadedConfig, Fault>
    ensures config { LoadsConfig path.now (S.told sources.old) (config_of result) (S.told sources.new) }
    ensures bytes { IfOk result (λ loaded. LoadsWhole path.now (S.told sources.old) loaded (S.told sources.new)) }
{
    let bytes = load_bytes(alloc, path, sources)?;
    if bytes.len() > MOST_CONFIG_BYTES {
        return Err(Fault::Plan(PlanError::TooLarge));
    }
    let config = Config::read(alloc, bytes.as_slice())?;
    Ok(LoadedConfig { config, bytes })
}

/// The configuration in the file at a path, which is loaded once.
pub fn load_config<S: Sources>(alloc: Global, path: &str, sources: &mut S) -> Result<Config, Fault>
    ensures { LoadsConfig path.now (S.told sources.old) result (S.told sources.new) }
{
    let loaded = load_whole_config(alloc, path, sources)?;
    Ok(loaded.into_config())
}

/// The request that the input holds with one more piece of it, if it holds one yet.
fn next_with(reader: &mut RequestReader, piece: &[u8]) -> Result<Option<Request>, Fault>
    ensures { (fed : List ℕ) → Becomes reader.old fed false false → IsNextOf reader.new (fed ++ piece.now) result }
{
    reader.feed(piece)?;
    Ok(reader.next()?)
}

/// The first request of an input, read no further than the piece that completes it. The first line that is refused is
/// the fault, an unknown command too; Truncated where the input ends before a request is whole.
pub fn first_request<I: Source>(alloc: Global, input: &mut I) -> Result<Request, Fault>
    ensures request { ReadsRequest (I.told input.old) (I.told input.new) result }
    ensures reads { (I.told input.new).reads ≤ (I.told input.old).reads + most_reads }
{
    let mut reader = RequestReader::new(alloc);
    let mut buffer = [0; PIECE_LENGTH];
    for turn in 0..MOST_READS {
        let count = input.read(&mut buffer)?;
        if count == 0 {
            return Err(Fault::Text(TextError::Truncated));
        }
        if let Some(request) = next_with(&mut reader, &buffer[..count])? {
            return Ok(request);
        }
    }
    unreachable!() // so many bytes hold a request or a refusal
}
