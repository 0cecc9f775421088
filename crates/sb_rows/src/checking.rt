//! A row is run through the top call, and what came is compared with what it wants, and each sum of
//! its report with the plain program's.

use crate::folding::{Unlike, first_unlike};
use crate::row::{Case, Row, words_of};
use anyhow::Context;
use sb_io::{MemShelf, MemSink};
use sb_run::summingbird;
use std::alloc::Global;
use std::random::RandomSource;
use std::thread::Threads;

// What a call gave.
#[derive(Drop)]
struct Outcome {
    status: u8,
    output: Vec<u8>,
}

// The words of a case that has its own.
fn own_words(alloc: Global, case: Option<&Case>) -> anyhow::Result<Option<Vec<String>>> {
    match case {
        Some(case) if case.file.name.as_str() == "words" => {
            Ok(Some(words_of(alloc, text_of(&case.file.bytes))?))
        }
        _ => Ok(None),
    }
}

// The files of a call.
fn shelf_of(alloc: Global, row: &Row, case: Option<&Case>) -> anyhow::Result<MemShelf> {
    let mut shelf = MemShelf::new(alloc);
    for file in &row.files {
        shelf.add(file.name.as_str(), &file.bytes)?;
    }
    if let Some(case) = case {
        shelf.add(case.file.name.as_str(), &case.file.bytes)?;
    }
    for call in &row.failing_fetches {
        shelf.fail_at(*call)?;
    }
    Ok(shelf)
}

// The one place that makes the top call.
fn run<R: Threads + RandomSource + Sync>(
    rt: &R,
    alloc: Global,
    row: &Row,
    words: &[String],
    shelf: &mut MemShelf,
) -> anyhow::Result<Outcome> {
    let mut sink = MemSink::new(alloc);
    for call in &row.failing_puts {
        sink.fail_at(*call)?;
    }
    let status = summingbird(rt, alloc, words, shelf, &mut sink);
    let output = sink.bytes().to_vec(alloc)?;
    Ok(Outcome { status, output })
}

/// Runs a row. Prints `ok` and its title where each call gives what the row wants, and the
/// definition's plain program the same sums; and else what differs first.
pub fn agrees<R: Print + Threads + RandomSource + Sync>(
    rt: &R,
    alloc: Global,
    row: &Row,
) -> anyhow::Result<bool> {
    if row.cases.is_empty() && !call_agrees(rt, alloc, row, None, &row.output)? {
        return Ok(false);
    }
    for case in &row.cases {
        let wanted = match &case.output {
            Some(output) => output,
            None => &row.output,
        };
        if !call_agrees(rt, alloc, row, Some(case), wanted)? {
            println!(rt; "  case {:?}", text_of(&case.file.bytes))?;
            return Ok(false);
        }
    }
    rt.println(format_args!("ok {}", row.title))?;
    Ok(true)
}

fn call_agrees<R: Print + Threads + RandomSource + Sync>(
    rt: &R,
    alloc: Global,
    row: &Row,
    case: Option<&Case>,
    wanted: &[u8],
) -> anyhow::Result<bool> {
    let own_words = own_words(alloc, case)?;
    let words = match &own_words {
        Some(words) => words,
        None => &row.words,
    };
    // Each call draws the seed of its tables anew, so that each log is run under two seeds.
    for _ in 0..2 {
        if !gives(rt, alloc, row, case, words, wanted)? {
            return Ok(false);
        }
    }
    if row.status != 0 {
        return Ok(true);
    }
    let mut shelf = shelf_of(alloc, row, case)?;
    let unlike = first_unlike(alloc, words, &row.files, &mut shelf, wanted);
    sums_agree(rt, row, unlike.context(format_args!("{}", row.title))?)
}

// Whether a call gives the status and the output that are wanted. What differs is printed.
fn gives<R: Print + Threads + RandomSource + Sync>(
    rt: &R,
    alloc: Global,
    row: &Row,
    case: Option<&Case>,
    words: &[String],
    wanted: &[u8],
) -> anyhow::Result<bool> {
    let mut shelf = shelf_of(alloc, row, case)?;
    let came = run(rt, alloc, row, words, &mut shelf)?;
    if came.status == row.status && came.output.as_slice() == wanted {
        return Ok(true);
    }
    println!(rt; "differs: {}", row.title)?;
    println!(rt; "  status: wanted {}, came {}", row.status, came.status)?;
    print_difference(rt, wanted, &came.output)?;
    Ok(false)
}

// Whether no line of the report is unlike the plain program's, which is said where one is.
fn sums_agree(rt: &impl Print, row: &Row, unlike: Option<Unlike>) -> anyhow::Result<bool> {
    let Some(unlike) = unlike else {
        return Ok(true);
    };
    println!(rt; "differs: {}", row.title)?;
    let sum = text_of(&unlike.sum);
    println!(rt; "  line {}: by the plain program {sum:?}", unlike.line)?;
    Ok(false)
}

// Prints the first line in which two outputs differ.
fn print_difference(rt: &impl Print, wanted: &[u8], came: &[u8]) -> anyhow::Result<()> {
    let mut wanted = text_of(wanted).split('\n');
    let mut came = text_of(came).split('\n');
    for number in 1..u64::MAX {
        let lines = (wanted.next(), came.next());
        if lines.0.is_none() && lines.1.is_none() {
            return Ok(());
        }
        if lines.0 != lines.1 {
            println!(rt; "  line {number}: wanted {:?}, came {:?}", lines.0, lines.1)?;
            return Ok(());
        }
    }
    Ok(())
}

fn text_of(bytes: &[u8]) -> &str {
    str::from_utf8(bytes).unwrap_or("(no UTF-8)")
}
