//! The files and the output of the operating system. Nothing is known of what they hold.
ghost use Rattle.std.specs.Prelude.{None};
ghost use Rattle.sb_io.specs.Shelf.{Untold};

use crate::memory::note;
use crate::{Fetched, Shelf, ShelfError, Sink, SinkError};
use std::alloc::Global;
use std::fs;
use std::io::{Read, Write};
use std::rt::Files;

const BLOCK: usize = 65_536;

/// The files of the file system, by their paths.
#[derive(Drop)]
pub struct FsShelf<'r, R: Files + AllocGlobal> {
    rt: &'r R,
    // The names of the failed fetches.
    failed: Vec<Vec<u8>>,
}

impl<'r, R: Files + AllocGlobal> FsShelf<'r, R> {
    ghost use Rattle.std.specs.Prelude.{◌≡◌, ℕ, List};
    ghost use Rattle.sb_io.specs.System.{failed_fetches};

    /// The file system of this runtime, before any fetch.
    pub fn new(rt: &'r R) -> Self
        ensures faults { (any : List ℕ) → failed_fetches result any ≡ 0 }
    {
        FsShelf {
            rt,
            failed: Vec::new(rt.alloc()),
        }
    }
}

// How the reading of a file ended.
#[derive(Drop)]
enum ReadEnd {
    All(Vec<u8>),
    Longer,
    Failed,
    NoMemory,
}

// Reads to the end, or to the first byte past the limit.
fn read_up_to<S: Read>(alloc: Global, file: &mut S, limit: u64) -> ReadEnd {
    let mut all = Vec::new(alloc);
    let mut block = [0u8; BLOCK];
    for _ in 0..u64::MAX {
        match file.read(&mut block) {
            Ok(0) => return ReadEnd::All(all),
            Ok(count) => {
                if all.extend_from_slice(&block[..count]).is_err() {
                    return ReadEnd::NoMemory;
                }
                if all.len() as u64 > limit {
                    return ReadEnd::Longer;
                }
            }
            Err(_) => return ReadEnd::Failed,
        }
    }
    ReadEnd::Failed
}

impl<'r, R: Files + AllocGlobal> Shelf for FsShelf<'r, R> {
    ghost use Rattle.sb_io.specs.System.{failed_fetches};

    ghost content = { λ _ _. Untold };

    ghost faults = { failed_fetches };

    fn fetch(&mut self, alloc: Global, name: &str, limit: u64) -> Result<Fetched, ShelfError> {
        let end = match fs::open(self.rt, name) {
            Ok(mut file) => read_up_to(alloc, &mut file, limit),
            Err(_) => ReadEnd::Failed,
        };
        match end {
            ReadEnd::All(bytes) => Ok(Fetched::All(bytes)),
            ReadEnd::Longer => Ok(Fetched::Longer),
            ReadEnd::NoMemory => Err(ShelfError::NoMemory),
            ReadEnd::Failed => Err(note(alloc, &mut self.failed, name.as_bytes())),
        }
    }
}

/// A sink over a writer, such as standard output.
#[derive(Drop)]
pub struct StdSink<W: Write> {
    writer: W,
    faults: u64,
}

impl<W: Write> StdSink<W> {
    ghost use Rattle.std.specs.Prelude.{◌≡◌};

    /// A sink over this writer, which has not failed yet.
    pub fn new(writer: W) -> Self
        ensures faults { result.faults ≡ 0 }
    {
        StdSink { writer, faults: 0 }
    }
}

impl<W: Write> Sink for StdSink<W> {
    ghost written = { λ _. None };

    ghost faults = { λ sink. sink.faults };

    fn put(&mut self, bytes: &[u8]) -> Result<(), SinkError> {
        match self
            .writer
            .write_all(bytes)
            .and_then(|()| self.writer.flush())
        {
            Ok(()) => Ok(()),
            Err(_) => {
                self.faults = self.faults.saturating_add(1);
                Err(SinkError::Failed)
            }
        }
    }
}
