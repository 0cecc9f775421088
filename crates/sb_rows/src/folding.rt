//! The sums of a report, once more by the definition's plain program.

use crate::row::File;
use anyhow::{Context, Result, bail};
use sb_check::Checked;
use sb_io::MemShelf;
use sb_kind::text;
use sb_load::{Inputs, load};
use sb_meaning::slow_fold;
use sb_text::{Columns, Lines, Ranges};
use sb_types::read_key;
use sb_words::Command;
use std::alloc::Global;

// The plain program evaluates the whole log for each line of a report, so longer logs are left out.
const MOST_LINES: usize = 1_000;

/// A line of a report whose sum isn't that of the plain program.
#[derive(Drop)]
pub struct Unlike {
    /// The line's number, from 1.
    pub line: u64,
    /// The plain program's sum; empty where it has none.
    pub sum: Vec<u8>,
}

/// The first line of a report whose sum isn't that of the definition's plain program. None where the
/// words are no `batch` command, and where its log among the files is long.
pub fn first_unlike(
    alloc: Global,
    words: &[String],
    files: &[File],
    shelf: &mut MemShelf,
    report: &[u8],
) -> Result<Option<Unlike>> {
    let Ok(command) = sb_words::words(alloc, words) else {
        return Ok(None);
    };
    match &command {
        Command::Batch { log, .. } if lines_of(files, log.as_bytes()) <= MOST_LINES => {}
        _ => return Ok(None),
    }
    let Ok(inputs) = load(alloc, &command, shelf) else {
        bail!("the inputs of a batch are refused");
    };
    unlike_in(alloc, &inputs, report)
}

// How many lines the last file of a name has.
fn lines_of(files: &[File], name: &[u8]) -> usize {
    let mut lines = 0;
    for file in files {
        if file.name.as_bytes() == name {
            lines = file.bytes.iter().filter(|byte| **byte == b'\n').count();
        }
    }
    lines
}

fn unlike_in(alloc: Global, inputs: &Inputs, report: &[u8]) -> Result<Option<Unlike>> {
    let records = u32::try_from(inputs.log.records().len())?;
    let all = Ranges::span(alloc, 0, u64::from(records))?;
    for line in Lines::new(report) {
        let number = line.number;
        let unlike = unlike_sum(alloc, inputs, &all, line.bytes);
        if let Some(sum) = unlike.context(format_args!("line {number} of a report"))? {
            return Ok(Some(Unlike { line: number, sum }));
        }
    }
    Ok(None)
}

// The plain program's sum, where it isn't the one of this line of a report.
fn unlike_sum(
    alloc: Global,
    inputs: &Inputs,
    all: &Ranges,
    line: &[u8],
) -> Result<Option<Vec<u8>>> {
    let mut columns = Columns::new(line);
    let store = columns.next().context("no store")?;
    let key = columns.next().context("no key")?;
    let printed = columns.next().context("no sum")?;
    let store = store_named(inputs.program.checked(), store)?;
    let sum = sum_text(alloc, inputs, all, store, key)?;
    if sum.as_slice() == printed {
        return Ok(None);
    }
    Ok(Some(sum))
}

fn store_named(c: &Checked, name: &[u8]) -> Result<u32> {
    for (number, store) in c.stores().iter().enumerate() {
        if store.name.as_bytes() == name {
            return Ok(u32::try_from(number)?);
        }
    }
    bail!("no such store")
}

// The text of a key's sum over these positions; empty where nothing is added.
fn sum_text(
    alloc: Global,
    inputs: &Inputs,
    take: &Ranges,
    store: u32,
    key: &[u8],
) -> Result<Vec<u8>> {
    let c = inputs.program.checked();
    let declared = c.stores().get(store as usize).context("no such store")?;
    let key = read_key(alloc, &declared.key, key)?.context("no key of the store")?;
    let added = slow_fold(alloc, c, &inputs.log, &inputs.services, store, &key, take)?;
    let mut sum = Vec::new(alloc);
    if let Some(added) = added {
        text(alloc, &declared.kind, &added, &mut sum)?;
    }
    Ok(sum)
}
