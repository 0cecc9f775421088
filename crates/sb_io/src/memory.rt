//! A shelf and a sink in memory, which fail at the calls that they are told.
ghost use Rattle.std.specs.Prelude.{◌≡◌, ◌≢◌, ◌≤◌, ℕ, List, [], ◌∷◌, ◌++◌, Some, OnOk, OnErr, MatchOption};
ghost use Rattle.sb_io.specs.Shelf.{Missing, Holds, HasShelfCause};
ghost use Rattle.sb_io.specs.Memory.{file_in, times, refused, is_due};

use crate::{Fetched, Shelf, ShelfError, Sink, SinkError};
use std::alloc::{AllocError, Global};

/// Want of memory.
pub type NoMemory = AllocError;

#[derive(Drop)]
struct MemFile {
    name: Vec<u8>,
    bytes: Vec<u8>,
}

/// Files in memory.
#[derive(Drop)]
pub struct MemShelf {
    alloc: Global,
    files: Vec<MemFile>,
    // The names of the failed fetches.
    failed: Vec<Vec<u8>>,
    calls: u64,
    failing: Vec<u64>,
}

impl MemShelf {
    ghost use Rattle.sb_io.specs.Memory.{shelf_content, shelf_faults, Adds, TellsSame};

    /// A shelf without files, on which no fetch has failed.
    pub fn new(alloc: Global) -> Self
        ensures content { (any : List ℕ) → shelf_content result any ≡ Missing }
        ensures faults { (any : List ℕ) → shelf_faults result any ≡ 0 }
    {
        MemShelf {
            alloc,
            files: Vec::new(alloc),
            failed: Vec::new(alloc),
            calls: 0,
            failing: Vec::new(alloc),
        }
    }

    /// Adds a file. A later one of the same name replaces it.
    pub fn add(&mut self, name: &str, bytes: &[u8]) -> Result<(), NoMemory>
        ensures ok { OnOk result (Adds name.now bytes.now self.old self.new) }
        ensures err { OnErr result (TellsSame self.old self.new) }
    {
        let name = name.as_bytes().to_vec(self.alloc)?;
        let bytes = bytes.to_vec(self.alloc)?;
        self.files.push(MemFile { name, bytes })?;
        Ok(())
    }

    /// Lets the fetch of this number fail, counted from the shelf's first.
    pub fn fail_at(&mut self, call: u64) -> Result<(), NoMemory>
        ensures same { TellsSame self.old self.new }
    {
        self.failing.push(call)?;
        Ok(())
    }
}

// The bytes of the last file of a name.
fn find<'a>(files: &'a [MemFile], name: &[u8]) -> Option<&'a Vec<u8>>
    ensures found { MatchOption result (file_in Missing files.now name.now ≡ Missing)
        (λ bytes. file_in Missing files.now name.now ≡ Holds bytes.now.items) }
{
    let mut found = None;
    for file in files {
        if file.name.as_slice() == name {
            found = Some(&file.bytes);
        }
    }
    found
}

// Notes the name of a failed fetch.
pub(crate) fn note(alloc: Global, failed: &mut Vec<Vec<u8>>, name: &[u8]) -> ShelfError
    ensures cause { HasShelfCause name.now (times failed.old.items) (times failed.new.items)
        (refused result) }
    ensures later { (any : List ℕ) → times failed.old.items any ≤ times failed.new.items any }
    ensures others { (other : List ℕ) → other ≢ name.now
        → times failed.new.items other ≡ times failed.old.items other }
{
    match name.to_vec(alloc) {
        Ok(noted) => push(failed, noted),
        Err(_) => ShelfError::NoMemory,
    }
}

fn push(failed: &mut Vec<Vec<u8>>, noted: Vec<u8>) -> ShelfError
    ensures failed { result ≡ ShelfError.Failed
        → failed.new.items ≡ failed.old.items ++ noted ∷ [] }
    ensures memory { result ≡ ShelfError.NoMemory → failed.new.items ≡ failed.old.items }
{
    match failed.push(noted) {
        Ok(()) => ShelfError::Failed,
        Err(_) => ShelfError::NoMemory,
    }
}

fn is_due_now(failing: &[u64], call: u64) -> bool
    ensures { result ≡ is_due failing.now call }
{
    failing.iter().any(|at| *at == call)
}

impl Shelf for MemShelf {
    ghost use Rattle.sb_io.specs.Memory.{shelf_content, shelf_faults};

    ghost content = { shelf_content };

    ghost faults = { shelf_faults };

    fn fetch(&mut self, alloc: Global, name: &str, limit: u64) -> Result<Fetched, ShelfError> {
        self.calls = self.calls.saturating_add(1);
        if is_due_now(&self.failing, self.calls) {
            return Err(note(alloc, &mut self.failed, name.as_bytes()));
        }
        let Some(bytes) = find(&self.files, name.as_bytes()) else {
            return Err(note(alloc, &mut self.failed, name.as_bytes()));
        };
        if bytes.len() as u64 > limit {
            return Ok(Fetched::Longer);
        }
        match bytes.as_slice().to_vec(alloc) {
            Ok(copy) => Ok(Fetched::All(copy)),
            Err(_) => Err(ShelfError::NoMemory),
        }
    }
}

/// Bytes in memory.
#[derive(Drop)]
pub struct MemSink {
    bytes: Vec<u8>,
    faults: u64,
    calls: u64,
    failing: Vec<u64>,
}

impl MemSink {
    ghost use Rattle.sb_io.specs.Memory.{sink_bytes, sink_faults};

    /// A sink that received nothing, and has not failed.
    pub fn new(alloc: Global) -> Self
        ensures bytes { sink_bytes result ≡ [] }
        ensures faults { sink_faults result ≡ 0 }
    {
        MemSink {
            bytes: Vec::new(alloc),
            faults: 0,
            calls: 0,
            failing: Vec::new(alloc),
        }
    }

    /// Lets the put of this number fail and write nothing, counted from the sink's first.
    pub fn fail_at(&mut self, call: u64) -> Result<(), NoMemory>
        ensures bytes { sink_bytes self.new ≡ sink_bytes self.old }
        ensures faults { sink_faults self.new ≡ sink_faults self.old }
    {
        self.failing.push(call)?;
        Ok(())
    }

    /// The bytes that it received.
    pub fn bytes(&self) -> &[u8]
        ensures { result.now ≡ sink_bytes self.now }
    {
        &self.bytes
    }
}

impl Sink for MemSink {
    ghost use Rattle.sb_io.specs.Memory.{sink_bytes, sink_faults};

    ghost written = { λ sink. Some (sink_bytes sink) };

    ghost faults = { sink_faults };

    fn put(&mut self, bytes: &[u8]) -> Result<(), SinkError> {
        self.calls = self.calls.saturating_add(1);
        if is_due_now(&self.failing, self.calls) {
            self.faults = self.faults.saturating_add(1);
            return Err(SinkError::Failed);
        }
        match self.bytes.extend_from_slice(bytes) {
            Ok(()) => Ok(()),
            Err(_) => Err(SinkError::NoMemory),
        }
    }
}
