//! A log's records, and what may be wrong with one.
ghost use Rattle.std.specs.Prelude.{◌≡◌, ◌+◌, ◌≤◌, true, map};
ghost use Rattle.sb_batcher.specs.Batches.{batch_of};
ghost use Rattle.sb_check.specs.Log.{logged_of, is_batch, are_in_batches, up_to, batch_count, last_batch};

use sb_batcher::Batcher;
use sb_types::LogRecord;
use thiserror::Error;

/// What is wrong with a line of a log, in the order in which it is looked for.
#[derive(Clone, Copy, Debug, PartialEq, Eq)]
pub enum LineKind {
    /// More than 16,384 bytes stand before the line's end.
    TooLong,
    /// No LF ends the line.
    NoEnd,
    /// The first column is no source's name.
    NoSource,
    /// The second column is missing, or no i64's decimal.
    BadTime,
    /// The time is before that of batch 0.
    Early,
    /// The batch is above 65,535.
    FarBatch,
    /// There are more or fewer further columns than the source has fields.
    FieldCount,
    /// The field of this number, from 1, is the first that isn't of its type.
    BadField { field: u32 },
}

/// Why a log isn't read: its first bad line, more than 1,048,576 lines that are good, or want of memory.
#[derive(Clone, Copy, Debug, PartialEq, Eq, Error)]
pub enum LogError {
    /// Lines are numbered from 1.
    #[error("line {line}: {kind:?}")]
    Line { line: u64, kind: LineKind },
    #[error("more than 1048576 lines")]
    TooMany,
    #[error("out of memory")]
    NoMemory,
}

/// The records of a log, and the number of its batches.
#[derive(Drop)]
pub struct Log {
    batcher: Batcher,
    records: Vec<LogRecord>,
    batches: u64,
    ghost counted: { batches ≡ batch_count batcher (map logged_of records.items) },
    ghost within: { are_in_batches batcher (map logged_of records.items) ≡ true },
}

impl Log {
    ghost use Rattle.sb_check.specs.LogView.{view_log};

    /// The log of these records, each of which is in a batch of at most 65,535. Takes no memory.
    pub fn new(batcher: Batcher, records: Vec<LogRecord>) -> Log
        requires { are_in_batches batcher (map logged_of records.items) ≡ true }
        ensures { view_log result ≡ record { batching = batcher; records = records.items } }
    {
        let batches = count_batches(&batcher, records.as_slice());
        Log {
            batcher,
            records,
            batches,
        }
    }

    /// The records, in the order of their lines.
    pub fn records(&self) -> &[LogRecord]
        ensures value { result.now ≡ (view_log self.now).records }
        ensures within { are_in_batches (view_log self.now).batching (map logged_of result.now)
            ≡ true }
    {
        self.records.as_slice()
    }

    /// One more than the greatest batch, and 0 for the empty log. Takes no memory.
    #[tactic(auto, using(crate::proofs::Batches::few_batches))]
    pub fn batches(&self) -> u64
        ensures value { result
            ≡ batch_count (view_log self.now).batching (map logged_of (view_log self.now).records) }
        ensures limit { result ≤ last_batch + 1 }
    {
        self.batches
    }
}

fn count_batches(batcher: &Batcher, records: &[LogRecord]) -> u64
    requires { are_in_batches batcher.now (map logged_of records.now) ≡ true }
    ensures { result ≡ batch_count batcher.now (map logged_of records.now) }
{
    let mut most = 0;
    for logged in records {
        most = most.max(batches_to(batcher, logged));
    }
    most
}

// The number of the record's batch and of those before it.
fn batches_to(batcher: &Batcher, logged: &LogRecord) -> u64
    requires { is_batch (batch_of batcher.now logged.now.time) ≡ true }
    ensures { result ≡ up_to (batch_of batcher.now logged.now.time) }
{
    match batcher.batch_of(logged.time) {
        Some(batch) => batch + 1,
        None => 0,
    }
}
