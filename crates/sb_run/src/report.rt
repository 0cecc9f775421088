//! The report, put in blocks of whole lines.
ghost use Rattle.std.specs.Prelude.{◌≡◌, ◌<◌, [], ◌∷◌, OnOk};
ghost use Rattle.std.specs.List.{flat_map};
ghost use Rattle.sb_feed.specs.Jobs.{AreValid};
ghost use Rattle.sb_io.specs.Sink.{Appends, HasSinkCause};
ghost use Rattle.sb_run.specs.Blocks.{Sends};
ghost use Rattle.sb_run.specs.Batching.{batch_row, stores};

use sb_feed::KeyBytes;
use sb_io::{Sink, SinkError};
use sb_kind::Agg;
use sb_plan::Runner;
use sb_report::write_row;
use std::alloc::Global;

// A report of many rows takes few puts.
const BLOCK: usize = 65_536;

/// Puts the rows of a store, in blocks of about 64 KiB.
pub fn put_report<K: Sink>(
    alloc: Global,
    sink: &mut K,
    family: &Runner,
    rows: &[(KeyBytes, Agg)],
) -> Result<(), SinkError>
    requires valid { AreValid (stores family.now) rows.now }
    ensures ok { OnOk result (Appends (flat_map (batch_row family.now) rows.now)
        (K.written sink.old)
        (K.written sink.new)) }
    ensures cause { HasSinkCause (K.faults sink.old) (K.faults sink.new) result }
{
    let mut block = Vec::new(alloc);
    for row in rows {
        put_row(alloc, sink, &mut block, family, row)?;
    }
    put_block(sink, &mut block)
}

// Puts a row behind those that wait, and the block where it is full.
fn put_row<K: Sink>(
    alloc: Global,
    sink: &mut K,
    block: &mut Vec<u8>,
    family: &Runner,
    row: &(KeyBytes, Agg),
) -> Result<(), SinkError>
    requires valid { AreValid (stores family.now) (row.now ∷ []) }
    ensures ok { OnOk result (Sends (batch_row family.now row.now) (K.written sink.old)
        block.old.items (K.written sink.new) block.new.items) }
    ensures cause { HasSinkCause (K.faults sink.old) (K.faults sink.new) result }
{
    write_row(alloc, family, &row.0, &row.1, block).map_err(|_| SinkError::NoMemory)?;
    if block.len() < BLOCK {
        return Ok(());
    }
    put_block(sink, block)
}

// Puts what waits.
fn put_block<K: Sink>(sink: &mut K, block: &mut Vec<u8>) -> Result<(), SinkError>
    ensures empty { OnOk result (block.new.items ≡ []) }
    ensures ok { OnOk result (Appends block.old.items (K.written sink.old) (K.written sink.new)) }
    ensures cause { HasSinkCause (K.faults sink.old) (K.faults sink.new) result }
{
    sink.put(block)?;
    block.clear();
    Ok(())
}
