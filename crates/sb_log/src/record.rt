//! The record that a line says.
ghost use Rattle.std.specs.Prelude.{◌≡◌, true, IfOk, Some, map, option_map};
ghost use Rattle.sb_text.specs.Lines.{line_view};
ghost use Rattle.sb_check.specs.CheckedView.{checked_of};
ghost use Rattle.sb_check.specs.Declarations.{source_of};
ghost use Rattle.sb_check.specs.Log.{after_time, logged_of, record_in, record_of};
ghost use Rattle.sb_check.specs.Names.{found};
ghost use Rattle.sb_log.specs.Reading.{InBatch, ReadsLine, found_view};

use crate::fields::read_fields;
use crate::line_error::LineError;
use sb_batcher::Batcher;
use sb_check::{Checked, LineKind, SourceDecl};
use sb_text::{Columns, Line, read_i64};
use sb_types::LogRecord;
use std::alloc::Global;

const LINE_LIMIT: usize = 16_384;

const LAST_BATCH: u64 = 65_535;

/// The record that a line says.
pub fn read_record(alloc: Global, c: &Checked, line: Line<'_>) -> Result<LogRecord, LineError>
    ensures read { ReadsLine logged_of (record_of (checked_of c.now) (line_view line.entry))
        result }
    ensures batch { IfOk result (InBatch (checked_of c.now).batching) }
{
    if line.bytes.len() > LINE_LIMIT {
        return Err(LineError::Bad(LineKind::TooLong));
    }
    if !line.ended {
        return Err(LineError::Bad(LineKind::NoEnd));
    }
    let mut columns = Columns::new(line.bytes);
    read_columns(alloc, c, line.number.saturating_sub(1), &mut columns)
}

// The record that the columns of a line say.
fn read_columns(
    alloc: Global,
    c: &Checked,
    position: u64,
    columns: &mut Columns<'_>,
) -> Result<LogRecord, LineError>
    ensures read { ReadsLine logged_of (record_in (checked_of c.now) position columns.old) result }
    ensures batch { IfOk result (InBatch (checked_of c.now).batching) }
{
    let Some(name) = columns.next() else {
        return Err(LineError::Bad(LineKind::NoSource));
    };
    let Some(found) = find_source(c.sources(), name) else {
        return Err(LineError::Bad(LineKind::NoSource));
    };
    let Some(time) = columns.next() else {
        return Err(LineError::Bad(LineKind::BadTime));
    };
    let Some(time) = read_i64(time) else {
        return Err(LineError::Bad(LineKind::BadTime));
    };
    read_timed(alloc, c.batcher(), position, found, columns, time)
}

// The source of this name, with its number.
fn find_source<'a>(sources: &'a [SourceDecl], name: &[u8]) -> Option<(u64, &'a SourceDecl)>
    ensures { option_map found_view result
        ≡ found (λ s. s.name) name.now (map source_of sources.now) }
{
    for (at, source) in sources.iter().enumerate() {
        if name == source.name.as_bytes() {
            return Some((at as u64, source));
        }
    }
    None
}

// The record of a time behind the source's name, with the columns that are left.
fn read_timed(
    alloc: Global,
    batcher: &Batcher,
    position: u64,
    found: (u64, &SourceDecl),
    columns: &mut Columns<'_>,
    time: i64,
) -> Result<LogRecord, LineError>
    ensures read { ReadsLine logged_of
        (after_time batcher.now position (found_view found.entry) columns.old (Some time)) result }
    ensures batch { IfOk result (InBatch batcher.now) }
{
    let Some(batch) = batcher.batch_of(time) else {
        return Err(LineError::Bad(LineKind::Early));
    };
    if batch > LAST_BATCH {
        return Err(LineError::Bad(LineKind::FarBatch));
    }
    let (number, declared) = found;
    // No memory holds 2^32 sources.
    let Ok(source) = u32::try_from(number) else {
        return Err(LineError::NoMemory);
    };
    let fields = read_fields(alloc, declared.fields.as_slice(), columns)?;
    Ok(LogRecord {
        position,
        source,
        time,
        fields,
    })
}
