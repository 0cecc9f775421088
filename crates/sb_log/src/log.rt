//! Logs, whole.
ghost use Rattle.std.specs.Prelude.{◌≡◌, true, IfOk, map};
ghost use Rattle.sb_check.specs.CheckedView.{checked_of};
ghost use Rattle.sb_check.specs.Log.{are_in_batches, log_of, logged_of};
ghost use Rattle.sb_check.specs.LogView.{view_log};
ghost use Rattle.sb_log.specs.Reading.{ReadsLog, records_view};

use crate::reader::Records;
use sb_check::{Checked, Log, LogError};
use sb_types::LogRecord;
use std::alloc::Global;

/// The log of a text: a record for each line, in the batches of the program; or the first bad line, with the first that
/// is wrong with it, or `TooMany` exactly where no line is bad and there are more than 1,048,576. Reads the bytes once,
/// and takes memory for the records alone.
pub fn read_log(alloc: Global, c: &Checked, bytes: &[u8]) -> Result<Log, LogError>
    ensures read { ReadsLog (λ log. map logged_of (view_log log).records)
        (log_of (checked_of c.now) bytes.now) result }
    ensures batching { IfOk result (λ log. (view_log log).batching ≡ (checked_of c.now).batching) }
{
    let records = read_records(alloc, c, bytes)?;
    Ok(Log::new(*c.batcher(), records))
}

fn read_records(alloc: Global, c: &Checked, bytes: &[u8]) -> Result<Vec<LogRecord>, LogError>
    ensures read { ReadsLog records_view (log_of (checked_of c.now) bytes.now) result }
    ensures batches { IfOk result (λ records.
        are_in_batches (checked_of c.now).batching (records_view records) ≡ true) }
{
    let mut reader = Records::new(c, bytes);
    let mut records = Vec::new(alloc);
    while let Some(logged) = reader.next_record(alloc)? {
        records.push(logged).map_err(|_| LogError::NoMemory)?;
    }
    Ok(records)
}
