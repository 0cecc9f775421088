//! `batch`: the sums of a program's stores over a closed log.
ghost use Rattle.std.specs.Prelude.{◌≡◌, ◌≤◌, Some, map};
ghost use Rattle.sb_check.specs.CheckedView.{checked_of};
ghost use Rattle.sb_check.specs.Log.{log_of};
ghost use Rattle.sb_io.specs.Faults.{Rose};
ghost use Rattle.sb_plan.specs.Runners.{AreStores, kind_monoid};
ghost use Rattle.sb_run.specs.BatchAnswer.{answer_of, batch_answer};
ghost use Rattle.sb_run.specs.Call.{Keeps};
ghost use Rattle.sb_run.specs.Commands.{IsBatch};
ghost use Rattle.sb_run.specs.Endings.{PutEnds};
ghost use Rattle.sb_service.specs.Views.{view_service};

use crate::ending::{put_refusal, status_of};
use crate::report::put_report;
use crate::summing::sum_log;
use sb_check::Checked;
use sb_io::{Shelf, Sink};
use sb_load::{BatchInputs, Refusal, load_batch};
use sb_plan::Runner;
use sb_service::Service;
use sb_words::Command;
use std::alloc::Global;
use std::random::RandomSource;
use std::thread::Threads;

/// Does what the words of this `batch` command say: it writes the report, for each store of the program each key with an
/// emission, in rising order of its text's bytes, with its sum over the whole log. The log is folded while it is read, on
/// all processors, and nothing is written before its last line was good. The status is that of the top call.
pub fn batch_command<R: Threads + RandomSource + Sync, H: Shelf, K: Sink>(
    rt: &R,
    alloc: Global,
    command: &Command,
    shelf: &mut H,
    sink: &mut K,
) -> u8
    requires own { IsBatch command.now }
    ensures { Keeps (Some command.now) (H.content shelf.old) (H.content shelf.new)
        (H.faults shelf.old) (H.faults shelf.new) (K.written sink.old) (K.written sink.new)
        (K.faults sink.old) (K.faults sink.new) result }
{
    match load_batch(alloc, command, shelf) {
        Ok(inputs) => put_answer(rt, alloc, sink, &inputs),
        Err(refusal) => put_refusal(sink, &refusal),
    }
}

// Puts the report, or the line of a log that isn't read.
fn put_answer<R: Threads + RandomSource + Sync, K: Sink>(
    rt: &R,
    alloc: Global,
    sink: &mut K,
    inputs: &BatchInputs,
) -> u8
    ensures ends { PutEnds (answer_of inputs.now) (K.written sink.old) (K.written sink.new) result }
    ensures later { K.faults sink.old ≤ K.faults sink.new }
    ensures sink { result ≡ 4 → Rose (K.faults sink.old) (K.faults sink.new) }
{
    let c = inputs.program.checked();
    match Runner::new(alloc, c) {
        Ok(runner) => put_sums(rt, alloc, sink, c, &runner, &inputs.services, &inputs.log),
        Err(_) => put_refusal(sink, &Refusal::NoMemory),
    }
}

fn put_sums<R: Threads + RandomSource + Sync, K: Sink>(
    rt: &R,
    alloc: Global,
    sink: &mut K,
    c: &Checked,
    runner: &Runner,
    services: &[Service],
    log: &[u8],
) -> u8
    requires stores { AreStores (checked_of c.now) kind_monoid runner.now }
    ensures ends { PutEnds (batch_answer (checked_of c.now) (map view_service services.now)
        (log_of (checked_of c.now) log.now)) (K.written sink.old) (K.written sink.new) result }
    ensures later { K.faults sink.old ≤ K.faults sink.new }
    ensures sink { result ≡ 4 → Rose (K.faults sink.old) (K.faults sink.new) }
{
    match sum_log(rt, alloc, c, runner, services, log) {
        Ok(rows) => {
            let put = put_report(alloc, sink, runner, rows.as_slice());
            status_of(sink, put)
        }
        Err(error) => put_refusal(sink, &Refusal::of_log(error)),
    }
}
