//! The log of a command, and the number of its chunks.
ghost use Rattle.sb_check.specs.Log.{HavePlaces};
ghost use Rattle.std.specs.Prelude.{◌≡◌, ◌<◌, [], true, is_some, length, nat_le, IfOk, OnOk, IfErr, IfSome};
ghost use Rattle.std.specs.Int.{div_ceil};
ghost use Rattle.sb_check.specs.CheckedView.{checked_of};
ghost use Rattle.sb_check.specs.LogView.{view_log};
ghost use Rattle.sb_feed.specs.Limits.{most_chunks};
ghost use Rattle.sb_io.specs.Shelf.{Fetches};
ghost use Rattle.sb_load.specs.Commands.{chunks, log};
ghost use Rattle.sb_load.specs.Inputs.{FitsChunks, LoadsFile, LoadsLog, ReadsLog, chunks_fit};
ghost use Rattle.sb_load.specs.Limits.{most_log_bytes};
ghost use Rattle.sb_load.specs.Steps.{AreBytes, IsCausedAt, IsRefusedAt, TellsAll, records_of};
ghost use Rattle.sb_load.specs.declared.refusal.Refusal.TheVariants as refused;
ghost use Rattle.sb_load.specs.declared.refusal.Which.TheVariants as which;

use crate::files::fetch;
use crate::refusal::{Refusal, Which};
use sb_check::{Checked, Log};
use sb_io::Shelf;
use sb_log::read_log;
use sb_text::Text;
use std::alloc::Global;

const LIMIT: u64 = 67_108_864;

const MOST_CHUNKS: u64 = 65_536;

/// A log without records.
pub fn empty_log(alloc: Global, program: &Checked) -> Log
    ensures records { records_of result ≡ [] }
    ensures batching { (view_log result).batching ≡ (checked_of program.now).batching }
{
    Log::new(*program.batcher(), Vec::new(alloc))
}

/// The log of a file.
pub fn fetch_log<H: Shelf>(
    alloc: Global,
    shelf: &mut H,
    name: &Text,
    program: &Checked,
) -> Result<Log, Refusal>
    ensures read { TellsAll (LoadsLog (H.content shelf.old) (checked_of program.now) name.now)
        records_of result }
    ensures placed { IfOk result (λ log. HavePlaces 0 (records_of log)) }
    ensures batching { IfOk result (λ log.
        (view_log log).batching ≡ (checked_of program.now).batching) }
    ensures frame { Fetches name.now (H.content shelf.old) (H.content shelf.new)
        (H.faults shelf.old) (H.faults shelf.new) }
    ensures cause { IfErr result (IsCausedAt which.Log name.now (H.faults shelf.old)
        (H.faults shelf.new)) }
{
    match fetch_text(alloc, shelf, name) {
        Ok(bytes) => read_records(alloc, program, &bytes),
        Err(refusal) => Err(refusal),
    }
}

/// The text of a log's file.
pub fn fetch_text<H: Shelf>(alloc: Global, shelf: &mut H, name: &Text) -> Result<Vec<u8>, Refusal>
    ensures read { TellsAll (LoadsFile which.Log most_log_bytes refused.LogLonger AreBytes
        (H.content shelf.old name.now)) (λ bytes. bytes.items) result }
    ensures frame { Fetches name.now (H.content shelf.old) (H.content shelf.new)
        (H.faults shelf.old) (H.faults shelf.new) }
    ensures cause { IfErr result (IsCausedAt which.Log name.now (H.faults shelf.old)
        (H.faults shelf.new)) }
{
    fetch(alloc, shelf, name, Which::Log, LIMIT, Refusal::LogLonger)
}

fn read_records(alloc: Global, program: &Checked, bytes: &[u8]) -> Result<Log, Refusal>
    ensures read { TellsAll (ReadsLog (checked_of program.now) bytes.now) records_of result }
    ensures placed { IfOk result (λ log. HavePlaces 0 (records_of log)) }
    ensures batching { IfOk result (λ log.
        (view_log log).batching ≡ (checked_of program.now).batching) }
    ensures cause { IfErr result (IsRefusedAt log) }
{
    match read_log(alloc, program, bytes) {
        Ok(log) => Ok(log),
        Err(error) => Err(Refusal::of_log(error)),
    }
}

/// Whether the records fall into few enough chunks, where the command divides them.
pub fn fit_chunks(chunk: Option<u64>, log: &Log) -> Result<(), Refusal>
    requires chunk { IfSome chunk (λ n. 0 < n) }
    ensures read { TellsAll (FitsChunks chunk (records_of log.now)) (λ done. done) result }
    ensures fits { OnOk result (chunks_fit chunk (length (records_of log.now)) ≡ true) }
    ensures cause { IfErr result (IsRefusedAt chunks) }
    ensures always { IfErr result (λ _. is_some chunk ≡ true) }
{
    let Some(chunk) = chunk else {
        return Ok(());
    };
    if are_few(log.records().len() as u64, chunk) {
        Ok(())
    } else {
        Err(Refusal::LogChunks)
    }
}

// Whether so many records fall into few enough chunks of this size.
fn are_few(records: u64, chunk: u64) -> bool
    requires { 0 < chunk }
    ensures { result ≡ nat_le (div_ceil records chunk) most_chunks }
{
    records.div_ceil(chunk) <= MOST_CHUNKS
}
