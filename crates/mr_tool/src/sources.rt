//! Files that are loaded whole, those of the machine among them. A source's contract tells what was asked of it and what
//! was given.
ghost use Rattle.std.specs.Prelude.{◌≡◌, ◌≤◌, [], Ok, Err, IfOk, IfErr, MatchResult, vec_len};
ghost use Rattle.mr_tool.specs.Fault.{IsFileFault};
ghost use Rattle.mr_tool.specs.Input.{LacksFile};
ghost use Rattle.mr_tool.specs.Sources.{Known, SourcesView, IsOneLoad, most_loaded};

use crate::fault::Fault;
use mr_text::{GhostBytes, GhostCount};
use std::alloc::{AllocError, Global};
use std::fs::File;
use std::io;
use std::io::Read;
use std::rt::Files;
use thiserror::Error;

/// The most bytes that one load gives: one more than the largest file that is read whole, so that an excess shows.
pub const MOST_LOADED: usize = 16_777_217;

/// Why a file wasn't given.
#[derive(Clone, Copy, Debug, PartialEq, Eq, Error)]
pub enum LoadFault {
    /// The file can't be opened or read.
    #[error("the file can't be read")]
    Unreadable,
    /// Memory was refused.
    #[error("out of memory")]
    Memory,
}

impl From<io::Error> for LoadFault {
    ghost use Rattle.std.specs.IoError.{error_kind};
    ghost use Rattle.mr_tool.specs.Sources.{IsLoadFault};

    ghost from_gives = { λ error fault. IsLoadFault (error_kind error) fault };

    fn from(error: io::Error) -> LoadFault {
        if error.kind() == io::ErrorKind::OutOfMemory {
            LoadFault::Memory
        } else {
            LoadFault::Unreadable
        }
    }
}

/// Where files are loaded from.
pub trait Sources {
    /// What was asked for and given so far.
    ghost told: { Self → SourcesView };

    /// The bytes of the file at a path; of a file larger than `MOST_LOADED` so many from its beginning.
    fn load(&mut self, alloc: Global, path: &str) -> Result<Vec<u8>, LoadFault>
        ensures { MatchResult result
            (λ bytes. IsOneLoad path.now (told self.old) (Ok bytes.items) (told self.new))
            (λ fault. IsOneLoad path.now (told self.old) (Err fault) (told self.new)) };
}

/// The fault of a file that can't be read.
fn file_fault(alloc: Global, path: &str) -> Fault
    ensures { IsFileFault path.now result }
{
    match format!(in alloc; "migctl: file {path}\n") {
        Ok(line) => Fault::File(line),
        Err(_) => Fault::Memory,
    }
}

/// The bytes of the file at a path, which is loaded once.
pub fn load_bytes<S: Sources>(alloc: Global, path: &str, sources: &mut S) -> Result<Vec<u8>, Fault>
    ensures loads { IfOk result (λ bytes. IsOneLoad path.now (S.told sources.old) (Ok bytes.items) (S.told sources.new)) }
    ensures lacks { IfErr result (λ fault. LacksFile path.now fault (S.told sources.old) (S.told sources.new)) }
{
    match sources.load(alloc, path) {
        Ok(bytes) => Ok(bytes),
        Err(LoadFault::Unreadable) => Err(file_fault(alloc, path)),
        Err(LoadFault::Memory) => Err(Fault::Memory),
    }
}

/// The files of the system as `Sources`. Nothing is known of what they hold.
#[derive(Drop)]
pub struct HostFiles<'a, R: Files> {
    files: &'a R,
    asked: GhostBytes,
    given: GhostBytes,
    loads: GhostCount,
    failures: GhostCount,
}

/// The beginning of the file at a path: all of it, or `MOST_LOADED` bytes.
fn read_front<R: Files>(alloc: Global, files: &R, path: &str) -> Result<Vec<u8>, LoadFault>
    ensures { IfOk result (λ bytes. vec_len bytes ≤ most_loaded) }
{
    let file = File::open(files, path)?;
    let mut bytes = Vec::new(alloc);
    file.take(MOST_LOADED as u64).read_to_end(&mut bytes)?;
    bytes.truncate(MOST_LOADED); // it has no more, but `read_to_end` doesn't promise that of a file
    Ok(bytes)
}

impl<'a, R: Files> HostFiles<'a, R> {
    /// The files, of which none was asked for yet.
    pub fn new(files: &'a R) -> HostFiles<'a, R>
        ensures { ⟦<HostFiles<'a, R> as Sources>⟧.told result
            ≡ record { files = λ _. Known.Unknown; asked = []; given = []; loads = 0; failures = 0 } }
    {
        HostFiles {
            files,
            asked: GhostBytes::new(),
            given: GhostBytes::new(),
            loads: GhostCount::new(),
            failures: GhostCount::new(),
        }
    }
}

impl<R: Files> Sources for HostFiles<'_, R> {
    ghost told = { λ f. record { files = λ _. Known.Unknown; asked = f.asked; given = f.given; loads = f.loads; failures = f.failures } };

    fn load(&mut self, alloc: Global, path: &str) -> Result<Vec<u8>, LoadFault> {
        self.loads.add_one();
        self.asked.extend(path.as_bytes());
        match read_front(alloc, self.files, path) {
            Ok(bytes) => {
                self.given.extend(bytes.as_slice());
                Ok(bytes)
            }
            Err(fault) => {
                self.failures.add_one();
                Err(fault)
            }
        }
    }
}
