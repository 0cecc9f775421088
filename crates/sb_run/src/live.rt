//! `run`: the answers of a live run.
ghost use Rattle.sb_check.specs.Log.{HavePlaces};
ghost use Rattle.std.specs.Prelude.{◌≡◌, ◌≤◌, true, Some, length, map, OnOk, IfSome};
ghost use Rattle.std.specs.List.{AllByRecursion};
ghost use Rattle.sb_check.specs.LogView.{view_log};
ghost use Rattle.sb_check.specs.OnlineView.{online_of};
ghost use Rattle.sb_feed.specs.Limits.{most_records_of_a_chunk, most_shards};
ghost use Rattle.sb_io.specs.Sink.{Appends, HasSinkCause};
ghost use Rattle.sb_load.specs.Commands.{chunk_of};
ghost use Rattle.sb_load.specs.Inputs.{chunks_fit};
ghost use Rattle.sb_load.specs.Steps.{IsAdmitted, inputs_of, loaded_of, records_of};
ghost use Rattle.sb_report.specs.Script.{AsksOf};
ghost use Rattle.sb_run.specs.Call.{Keeps};
ghost use Rattle.sb_run.specs.Commands.{IsServedRun, shards_of};
ghost use Rattle.sb_kind.specs.declared.agg.Agg.{Agg};
ghost use Rattle.sb_run.specs.Run.{Run, run_of};
ghost use Rattle.sb_run.specs.ScriptOutput.{run_text};
ghost use Rattle.sb_service.specs.Views.{view_service};
ghost use Rattle.sb_words.specs.Limits.{IsWithin};

use crate::answering::answer_all;
use crate::ending::{put_refusal, status_of};
use sb_check::{Log, Online};
use sb_feed::{Cut, Feed};
use sb_io::{Shelf, Sink, SinkError};
use sb_load::{Inputs, Loaded, load};
use sb_plan::OnlineRunner;
use sb_report::Ask;
use sb_service::Service;
use sb_words::Command;
use std::alloc::Global;
use std::random::RandomSource;
use std::thread::Threads;

/// Does what the words of this `run` command say: it answers the asks of the script one by one, each in one line, and
/// then writes the report. The status is that of the top call.
pub fn run_command<R: Threads + RandomSource + Sync, H: Shelf, K: Sink>(
    rt: &R,
    alloc: Global,
    command: &Command,
    shelf: &mut H,
    sink: &mut K,
) -> u8
    requires own { IsServedRun command.now }
    requires within { IsWithin command.now }
    ensures { Keeps (Some command.now) (H.content shelf.old) (H.content shelf.new)
        (H.faults shelf.old) (H.faults shelf.new) (K.written sink.old) (K.written sink.new)
        (K.faults sink.old) (K.faults sink.new) result }
{
    let chunk = chunk_in(command);
    let shards = shards_in(command);
    match load(alloc, command, shelf) {
        Ok(inputs) => {
            let put = put_transcript(rt, alloc, sink, chunk, shards, inputs);
            status_of(sink, put)
        }
        Err(refusal) => put_refusal(sink, &refusal),
    }
}

// The number of a chunk's records.
fn chunk_in(command: &Command) -> u64
    ensures { IfSome (chunk_of command.now) (λ chunk. chunk ≡ result) }
{
    match command {
        Command::Run { settings, .. } => settings.chunk,
        Command::Audit { chunk, .. } => *chunk,
        _ => 1,
    }
}

// The number of shards.
fn shards_in(command: &Command) -> u32
    requires within { IsWithin command.now }
    ensures number { result ≡ shards_of command.now }
    ensures limits { (1 ≤ result) × (result ≤ most_shards) }
{
    match command {
        Command::Run { settings, .. } => settings.shards,
        Command::Audit { shards, .. } => *shards,
        _ => 1,
    }
}

fn put_transcript<R: Threads + RandomSource + Sync, K: Sink>(
    rt: &R,
    alloc: Global,
    sink: &mut K,
    chunk: u64,
    shards: u32,
    inputs: Inputs,
) -> Result<(), SinkError>
    requires chunk { (1 ≤ chunk) × (chunk ≤ most_records_of_a_chunk) }
    requires shards { (1 ≤ shards) × (shards ≤ most_shards) }
    requires admitted { IsAdmitted true inputs.program }
    requires placed { HavePlaces 0 (records_of inputs.log) }
    requires batching { (view_log inputs.log).batching ≡ (loaded_of inputs.program).batching }
    requires fits { chunks_fit (Some chunk) (length (records_of inputs.log)) ≡ true }
    requires stores { AllByRecursion (AsksOf (length (loaded_of inputs.program).declared.stores))
        inputs.script.items }
    ensures ok { OnOk result (Appends (run_text (run_of (inputs_of inputs).program chunk shards
        (inputs_of inputs).records (inputs_of inputs).services) (inputs_of inputs).asks)
        (K.written sink.old) (K.written sink.new)) }
    ensures cause { HasSinkCause (K.faults sink.old) (K.faults sink.new) result }
{
    let Inputs {
        program,
        services,
        log,
        script,
    } = inputs;
    match program {
        Loaded::Online(program) => {
            answer_script(
                rt,
                alloc,
                sink,
                &program,
                &log,
                services.as_slice(),
                chunk,
                shards,
                script,
            )
        }
        Loaded::Checked(_) => unreachable!(),
    }
}

fn answer_script<R: Threads + RandomSource + Sync, K: Sink>(
    rt: &R,
    alloc: Global,
    sink: &mut K,
    program: &Online,
    log: &Log,
    services: &[Service],
    chunk: u64,
    shards: u32,
    asks: Vec<Ask>,
) -> Result<(), SinkError>
    ghost run: { Run Agg }
    requires run { run ≡ run_of (online_of program.now) chunk shards (records_of log.now)
        (map view_service services.now) }
    requires chunk { (1 ≤ chunk) × (chunk ≤ most_records_of_a_chunk) }
    requires shards { (1 ≤ shards) × (shards ≤ most_shards) }
    requires placed { HavePlaces 0 (records_of log.now) }
    requires batching { (view_log log.now).batching ≡ (online_of program.now).batching }
    requires fits { chunks_fit (Some chunk) (length (records_of log.now)) ≡ true }
    requires stores { AllByRecursion (AsksOf (length (online_of program.now).declared.stores))
        asks.items }
    ensures ok { OnOk result (Appends (run_text run asks.items) (K.written sink.old)
        (K.written sink.new)) }
    ensures cause { HasSinkCause (K.faults sink.old) (K.faults sink.new) result }
{
    let feed = match OnlineRunner::new(alloc, program, log, services) {
        Ok(feed) => feed,
        Err(_) => return Err(SinkError::NoMemory),
    };
    let Some(cut) = Cut::new(feed.len(), chunk, shards) else {
        unreachable!()
    };
    answer_all(rt, alloc, sink, program.checked(), &feed, cut, asks)
}
