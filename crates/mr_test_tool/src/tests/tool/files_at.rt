//! Files in memory.
ghost use Rattle.std.specs.Prelude.{◌≡◌, take, IfSome, IfNone};
ghost use Rattle.mr_test_tool.specs.FilesAt.{known_at, IsReadAt};
ghost use Rattle.mr_tool.specs.Sources.{Known, most_loaded};

use mr_text::{GhostBytes, GhostCount};
use mr_tool::{LoadFault, MOST_LOADED, Sources};
use std::alloc::Global;

/// A path, and what the file there holds.
pub type Place<'a> = (&'a str, &'a [u8]);

/// Files in memory, by their paths. It counts how often one was asked for.
#[derive(Drop)]
pub struct FilesAt<'a> {
    places: &'a [Place<'a>],
    calls: u32,
    asked: GhostBytes,
    given: GhostBytes,
    loads: GhostCount,
    failures: GhostCount,
}

impl<'a> FilesAt<'a> {
    /// The files, of which none was asked for yet.
    pub fn new(places: &'a [Place<'a>]) -> FilesAt<'a> {
        FilesAt {
            places,
            calls: 0,
            asked: GhostBytes::new(),
            given: GhostBytes::new(),
            loads: GhostCount::new(),
            failures: GhostCount::new(),
        }
    }

    /// How often a file was asked for.
    pub fn calls(&self) -> u32 {
        self.calls
    }
}

/// What the file at a path holds.
fn find<'a>(places: &[Place<'a>], path: &str) -> Option<&'a [u8]>
    ensures found { IfSome result (λ bytes. known_at places.now path.now ≡ Known.Holds bytes.now) }
    ensures missing { IfNone result (known_at places.now path.now ≡ Known.Absent) }
{
    for (name, bytes) in places {
        if *name == path {
            return Some(*bytes);
        }
    }
    None
}

/// As many of the bytes as one load gives.
fn front(bytes: &[u8]) -> &[u8]
    ensures { result.now ≡ take most_loaded bytes.now }
{
    if bytes.len() < MOST_LOADED {
        bytes
    } else {
        &bytes[..MOST_LOADED]
    }
}

/// What one load of the file at a path gives.
fn read_at(alloc: Global, places: &[Place], path: &str) -> Result<Vec<u8>, LoadFault>
    ensures { IsReadAt places.now path.now result }
{
    let Some(bytes) = find(places, path) else {
        return Err(LoadFault::Unreadable);
    };
    match Vec::from_slice(alloc, front(bytes)) {
        Ok(bytes) => Ok(bytes),
        Err(_) => Err(LoadFault::Memory),
    }
}

impl Sources for FilesAt<'_> {
    ghost told = { λ f. record { files = known_at f.places.now; asked = f.asked; given = f.given; loads = f.loads; failures = f.failures } };

    fn load(&mut self, alloc: Global, path: &str) -> Result<Vec<u8>, LoadFault> {
        self.calls = self.calls.saturating_add(1);
        self.loads.add_one();
        self.asked.extend(path.as_bytes());
        let loaded = read_at(alloc, self.places, path);
        match &loaded {
            Ok(bytes) => self.given.extend(bytes.as_slice()),
            Err(_) => self.failures.add_one(),
        }
        loaded
    }
}
