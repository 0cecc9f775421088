//! Whole runs as data: each row of the named files is run through the top call and compared with what it wants.
#![tactic(auto)]

mod checking;
mod contents;
mod folding;
mod reading;
mod row;

use anyhow::{Context, ensure};
use checking::agrees;
use reading::Reader;
use std::random::RandomSource;
use std::rt::{Env, Files};
use std::thread::{Builder, Threads};
use std::{env, fs, thread};

// The stack of the thread that runs the rows, in bytes. The deepest programs nest 124 expressions; as Rattle's own compiler
// builds the parser, they need more than the 8 MiB of a first thread.
const STACK: usize = 64 << 20;

// Runs the rows of a text, and tells how many differ.
fn run_rows<R: Print + AllocGlobal + Threads + RandomSource + Sync>(
    rt: &R,
    text: &str,
) -> anyhow::Result<u64> {
    let mut differing: u64 = 0;
    let mut reader = Reader::new(rt.alloc());
    let mut number: u64 = 0;
    for line in text.lines() {
        number = number.saturating_add(1);
        let read = reader.read_line(line);
        if let Some(row) = read.context(format_args!("line {number}"))?
            && !agrees(rt, rt.alloc(), &row)?
        {
            differing = differing.saturating_add(1);
        }
    }
    if let Some(row) = reader.finish()?
        && !agrees(rt, rt.alloc(), &row)?
    {
        differing = differing.saturating_add(1);
    }
    Ok(differing)
}

// Runs the rows of the files that the words name.
fn run_files<R: Env + Files + Print + AllocGlobal + Threads + RandomSource + Sync>(
    rt: &R,
) -> anyhow::Result<u64> {
    let mut differing: u64 = 0;
    for name in env::args(rt)?.skip(1) {
        let text = fs::read_to_string(rt, name.as_str());
        let text = text.context(format_args!("reading {name}"))?;
        let rows = run_rows(rt, text.as_str());
        differing = differing.saturating_add(rows.context(format_args!("{name}"))?);
    }
    Ok(differing)
}

fn main(rt: HostRuntime) -> anyhow::Result<()> {
    let differing = thread::scope(thread::scope_env(), &rt, |scope| {
        let stack = Builder::new().stack_size(STACK);
        match stack.spawn_scoped(scope, || run_files(&rt)) {
            Ok(rows) => rows.join(&rt),
            Err(error) => Err(error.into()),
        }
    })?;
    ensure!(differing == 0, "{differing} rows differ");
    Ok(())
}
