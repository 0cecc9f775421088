//! The program: one command over the file system and standard output.
#![tactic(auto)]

use sb_io::{FsShelf, StdSink};
use sb_run::summingbird;
use std::process::ExitCode;
use std::random::RandomSource;
use std::rt::{Env, Files};
use std::thread::Threads;
use std::{env, io};

// The status of want of memory, where the words themselves find none.
const NO_MEMORY: u8 = 5;

// Runs the words behind the program's name; `None` where they find no memory.
fn run<R: Env + Files + Print + AllocGlobal + Threads + RandomSource + Sync>(rt: &R) -> Option<u8> {
    let mut words = Vec::new(rt.alloc());
    for word in env::args(rt).ok()?.skip(1) {
        words.push(word).ok()?;
    }
    let mut shelf = FsShelf::new(rt);
    let mut sink = StdSink::new(io::writer(rt));
    Some(summingbird(rt, rt.alloc(), &words, &mut shelf, &mut sink))
}

fn main(rt: HostRuntime) -> ExitCode {
    ExitCode::from(run(&rt).unwrap_or(NO_MEMORY))
}
