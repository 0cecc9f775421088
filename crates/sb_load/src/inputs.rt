//! The inputs of a command.
ghost use Rattle.sb_check.specs.Log.{HavePlaces};
ghost use Rattle.std.specs.Prelude.{◌≡◌, ◌<◌, true, [], Some, map, length, IfOk, IfErr, IfSome};
ghost use Rattle.std.specs.List.{AllByRecursion};
ghost use Rattle.sb_check.specs.CheckedView.{checked_of};
ghost use Rattle.sb_check.specs.LogView.{view_log};
ghost use Rattle.sb_report.specs.Script.{AsksOf};
ghost use Rattle.sb_service.specs.Views.{view_service};
ghost use Rattle.sb_words.specs.Limits.{IsWithin};
ghost use Rattle.sb_words.specs.declared.command.Command.{Command as Said};
ghost use Rattle.sb_load.specs.Causes.{IsCausedBy, Leaves};
ghost use Rattle.sb_load.specs.Commands.{files_of, has_services, is_online, log_name, program_name, script_name};
ghost use Rattle.sb_load.specs.Inputs.{Loads, LoadsChecked, LoadsLog, LoadsOthers, LoadsRecords, LoadsScript, LoadsServices, WhenNamed, chunks_fit};
ghost use Rattle.sb_load.specs.Refusals.{cause_of};
ghost use Rattle.sb_load.specs.Steps.{AreInputs, AreNames, IsAdmitted, TellsAll, inputs_of, loaded_of, records_of};

use crate::logs::{empty_log, fetch_log, fit_chunks};
use crate::names::{Names, names_of};
use crate::programs::{Loaded, admit_program, fetch_program};
use crate::refusal::Refusal;
use crate::scripts::fetch_script;
use crate::services::fetch_services;
use sb_check::{Checked, Log};
use sb_io::Shelf;
use sb_report::Ask;
use sb_service::Service;
use sb_words::Command;
use std::alloc::Global;

/// What a command does its work on. A part that it doesn't read is empty.
#[derive(Drop)]
pub struct Inputs {
    pub program: Loaded,
    /// The services in the program's order.
    pub services: Vec<Service>,
    pub log: Log,
    pub script: Vec<Ask>,
}

/// The inputs of a command, or its first refusal, in the order program, its admission, services, log, chunks, script.
/// A command without a program has no inputs, and is answered as want of memory.
pub fn load<H: Shelf>(alloc: Global, command: &Command, shelf: &mut H) -> Result<Inputs, Refusal>
    requires within { IsWithin command.now }
    ensures read { TellsAll (Loads (H.content shelf.old) command.now (program_name command.now))
        inputs_of result }
    ensures inputs { IfOk result (AreInputs command.now) }
    ensures cause { IfErr result (λ refusal. IsCausedBy command.now (H.faults shelf.old)
        (H.faults shelf.new) (cause_of refusal)) }
    ensures frame { Leaves command.now (H.content shelf.old) (H.content shelf.new)
        (H.faults shelf.old) (H.faults shelf.new) }
{
    match names_of(command) {
        Some(names) => load_named(alloc, shelf, &names),
        None => Err(Refusal::NoMemory),
    }
}

fn load_named<H: Shelf>(alloc: Global, shelf: &mut H, names: &Names<'_>) -> Result<Inputs, Refusal>
    requires chunk { IfSome names.now.chunk (λ n. 0 < n) }
    ensures read { (command : Said) → AreNames command names.now
        → TellsAll (Loads (H.content shelf.old) command (Some names.now.program.now))
        inputs_of result }
    ensures inputs { (command : Said) → AreNames command names.now
        → IfOk result (AreInputs command) }
    ensures cause { (command : Said) → AreNames command names.now → IfErr result
        (λ refusal. IsCausedBy command (H.faults shelf.old) (H.faults shelf.new)
        (cause_of refusal)) }
    ensures frame { (command : Said) → AreNames command names.now → Leaves command
        (H.content shelf.old) (H.content shelf.new) (H.faults shelf.old) (H.faults shelf.new) }
{
    match load_program(alloc, shelf, names) {
        Ok(program) => load_others(alloc, shelf, names, program),
        Err(refusal) => Err(refusal),
    }
}

/// The program, admitted where the log is divided.
pub fn load_program<H: Shelf>(
    alloc: Global,
    shelf: &mut H,
    names: &Names<'_>,
) -> Result<Loaded, Refusal>
    ensures read { (command : Said) → AreNames command names.now
        → TellsAll (LoadsChecked (H.content shelf.old) command names.now.program.now)
        loaded_of result }
    ensures admitted { (command : Said) → AreNames command names.now
        → IfOk result (IsAdmitted (is_online command)) }
    ensures cause { (command : Said) → AreNames command names.now → IfErr result
        (λ refusal. IsCausedBy command (H.faults shelf.old) (H.faults shelf.new)
        (cause_of refusal)) }
    ensures frame { (command : Said) → AreNames command names.now → Leaves command
        (H.content shelf.old) (H.content shelf.new) (H.faults shelf.old) (H.faults shelf.new) }
{
    match fetch_program(alloc, shelf, names.program) {
        Ok(program) => admit_program(names.chunk.is_some(), program),
        Err(refusal) => Err(refusal),
    }
}

// Services, log and script behind a program.
fn load_others<H: Shelf>(
    alloc: Global,
    shelf: &mut H,
    names: &Names<'_>,
    program: Loaded,
) -> Result<Inputs, Refusal>
    requires chunk { IfSome names.now.chunk (λ n. 0 < n) }
    ensures read { (command : Said) → AreNames command names.now
        → TellsAll (LoadsOthers (H.content shelf.old) command (loaded_of program))
        inputs_of result }
    ensures program { IfOk result (λ i. i.program ≡ program) }
    ensures inputs { (command : Said) → AreNames command names.now
        → IsAdmitted (is_online command) program → IfOk result (AreInputs command) }
    ensures cause { (command : Said) → AreNames command names.now → IfErr result
        (λ refusal. IsCausedBy command (H.faults shelf.old) (H.faults shelf.new)
        (cause_of refusal)) }
    ensures frame { (command : Said) → AreNames command names.now → Leaves command
        (H.content shelf.old) (H.content shelf.new) (H.faults shelf.old) (H.faults shelf.new) }
{
    let services = match load_services(alloc, shelf, names, program.checked()) {
        Ok(services) => services,
        Err(refusal) => {
            drop(program);
            return Err(refusal);
        }
    };
    let log = match load_log(alloc, shelf, names, program.checked()) {
        Ok(log) => log,
        Err(refusal) => {
            drop(program);
            drop(services);
            return Err(refusal);
        }
    };
    match load_script(alloc, shelf, names, program.checked()) {
        Ok(script) => Ok(Inputs {
            program,
            services,
            log,
            script,
        }),
        Err(refusal) => {
            drop(program);
            drop(services);
            drop(log);
            Err(refusal)
        }
    }
}

/// The services, where there is a log.
pub fn load_services<H: Shelf>(
    alloc: Global,
    shelf: &mut H,
    names: &Names<'_>,
    program: &Checked,
) -> Result<Vec<Service>, Refusal>
    ensures read { (command : Said) → AreNames command names.now
        → TellsAll (LoadsServices (H.content shelf.old) (has_services command) (files_of command)
        (checked_of program.now).declared) (λ all. map view_service all.items) result }
    ensures cause { (command : Said) → AreNames command names.now → IfErr result
        (λ refusal. IsCausedBy command (H.faults shelf.old) (H.faults shelf.new)
        (cause_of refusal)) }
    ensures frame { (command : Said) → AreNames command names.now → Leaves command
        (H.content shelf.old) (H.content shelf.new) (H.faults shelf.old) (H.faults shelf.new) }
{
    match names.log {
        Some(_) => fetch_services(alloc, shelf, names.services, program),
        None => Ok(Vec::new(alloc)),
    }
}

// The log, where it fits.
fn load_log<H: Shelf>(
    alloc: Global,
    shelf: &mut H,
    names: &Names<'_>,
    program: &Checked,
) -> Result<Log, Refusal>
    requires chunk { IfSome names.now.chunk (λ n. 0 < n) }
    ensures read { (command : Said) → AreNames command names.now
        → TellsAll (LoadsRecords (H.content shelf.old) command (checked_of program.now))
        records_of result }
    ensures placed { IfOk result (λ log. HavePlaces 0 (records_of log)) }
    ensures batching { IfOk result (λ log.
        (view_log log).batching ≡ (checked_of program.now).batching) }
    ensures fits { IfOk result (λ log.
        chunks_fit names.now.chunk (length (records_of log)) ≡ true) }
    ensures cause { (command : Said) → AreNames command names.now → IfErr result
        (λ refusal. IsCausedBy command (H.faults shelf.old) (H.faults shelf.new)
        (cause_of refusal)) }
    ensures frame { (command : Said) → AreNames command names.now → Leaves command
        (H.content shelf.old) (H.content shelf.new) (H.faults shelf.old) (H.faults shelf.new) }
{
    let log = match load_records(alloc, shelf, names, program) {
        Ok(log) => log,
        Err(refusal) => return Err(refusal),
    };
    match fit_chunks(names.chunk, &log) {
        Ok(()) => Ok(log),
        Err(refusal) => Err(refusal),
    }
}

fn load_records<H: Shelf>(
    alloc: Global,
    shelf: &mut H,
    names: &Names<'_>,
    program: &Checked,
) -> Result<Log, Refusal>
    ensures read { (command : Said) → AreNames command names.now
        → TellsAll (WhenNamed (log_name command) [] (LoadsLog (H.content shelf.old)
        (checked_of program.now))) records_of result }
    ensures placed { IfOk result (λ log. HavePlaces 0 (records_of log)) }
    ensures batching { IfOk result (λ log.
        (view_log log).batching ≡ (checked_of program.now).batching) }
    ensures cause { (command : Said) → AreNames command names.now → IfErr result
        (λ refusal. IsCausedBy command (H.faults shelf.old) (H.faults shelf.new)
        (cause_of refusal)) }
    ensures frame { (command : Said) → AreNames command names.now → Leaves command
        (H.content shelf.old) (H.content shelf.new) (H.faults shelf.old) (H.faults shelf.new) }
{
    match names.log {
        Some(name) => fetch_log(alloc, shelf, name, program),
        None => Ok(empty_log(alloc, program)),
    }
}

// The script, where the command has one.
fn load_script<H: Shelf>(
    alloc: Global,
    shelf: &mut H,
    names: &Names<'_>,
    program: &Checked,
) -> Result<Vec<Ask>, Refusal>
    ensures read { (command : Said) → AreNames command names.now
        → TellsAll (WhenNamed (script_name command) [] (LoadsScript (H.content shelf.old)
        (checked_of program.now).declared)) (λ asks. asks.items) result }
    ensures stores { IfOk result (λ asks. AllByRecursion
        (AsksOf (length (checked_of program.now).declared.stores)) asks.items) }
    ensures cause { (command : Said) → AreNames command names.now → IfErr result
        (λ refusal. IsCausedBy command (H.faults shelf.old) (H.faults shelf.new)
        (cause_of refusal)) }
    ensures frame { (command : Said) → AreNames command names.now → Leaves command
        (H.content shelf.old) (H.content shelf.new) (H.faults shelf.old) (H.faults shelf.new) }
{
    match names.script {
        Some(name) => fetch_script(alloc, shelf, name, program),
        None => Ok(Vec::new(alloc)),
    }
}
