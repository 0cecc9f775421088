//! The inputs of a batch, whose log is read by who folds it.
ghost use Rattle.std.specs.Prelude.{◌≡◌, IfErr, None, Some};
ghost use Rattle.sb_load.specs.Batches.{TellsBatch};
ghost use Rattle.sb_load.specs.Causes.{IsCausedBy, Leaves};
ghost use Rattle.sb_load.specs.Commands.{program_name};
ghost use Rattle.sb_load.specs.Inputs.{Loads, LoadsOthers};
ghost use Rattle.sb_load.specs.Refusals.{cause_of};
ghost use Rattle.sb_load.specs.Steps.{AreNames, loaded_of};
ghost use Rattle.sb_words.specs.declared.command.Command.{Command as Said};

use crate::inputs::{load_program, load_services};
use crate::logs::fetch_text;
use crate::names::Names;
use crate::programs::Loaded;
use crate::refusal::Refusal;
use sb_io::Shelf;
use sb_service::Service;
use sb_text::Text;
use sb_words::Command;
use std::alloc::Global;

/// What a batch does its work on. Its log is a text that isn't read yet.
#[derive(Drop)]
pub struct BatchInputs {
    pub program: Loaded,
    /// The services in the program's order.
    pub services: Vec<Service>,
    pub log: Vec<u8>,
}

/// The inputs of a `batch` command, or its first refusal before the lines of the log are read, in the order program,
/// services, the log's length. Another command is answered as want of memory.
pub fn load_batch<H: Shelf>(
    alloc: Global,
    command: &Command,
    shelf: &mut H,
) -> Result<BatchInputs, Refusal>
    ensures read { TellsBatch (Loads (H.content shelf.old) command.now (program_name command.now))
        result }
    ensures cause { IfErr result (λ refusal. IsCausedBy command.now (H.faults shelf.old)
        (H.faults shelf.new) (cause_of refusal)) }
    ensures frame { Leaves command.now (H.content shelf.old) (H.content shelf.new)
        (H.faults shelf.old) (H.faults shelf.new) }
{
    match command {
        Command::Batch {
            program,
            log,
            services,
        } => {
            let names = Names {
                program,
                services: services.as_slice(),
                log: Some(log),
                script: None,
                chunk: None,
            };
            load_named(alloc, shelf, &names, log)
        }
        _ => Err(Refusal::NoMemory),
    }
}

fn load_named<H: Shelf>(
    alloc: Global,
    shelf: &mut H,
    names: &Names<'_>,
    log: &Text,
) -> Result<BatchInputs, Refusal>
    requires chunk { names.now.chunk ≡ None }
    requires script { names.now.script ≡ None }
    requires log { names.now.log ≡ Some log }
    ensures read { (command : Said) → AreNames command names.now
        → TellsBatch (Loads (H.content shelf.old) command (Some names.now.program.now)) result }
    ensures cause { (command : Said) → AreNames command names.now → IfErr result
        (λ refusal. IsCausedBy command (H.faults shelf.old) (H.faults shelf.new)
        (cause_of refusal)) }
    ensures frame { (command : Said) → AreNames command names.now → Leaves command
        (H.content shelf.old) (H.content shelf.new) (H.faults shelf.old) (H.faults shelf.new) }
{
    match load_program(alloc, shelf, names) {
        Ok(program) => load_others(alloc, shelf, names, log, program),
        Err(refusal) => Err(refusal),
    }
}

// The services and the text of the log behind a program.
fn load_others<H: Shelf>(
    alloc: Global,
    shelf: &mut H,
    names: &Names<'_>,
    log: &Text,
    program: Loaded,
) -> Result<BatchInputs, Refusal>
    requires chunk { names.now.chunk ≡ None }
    requires script { names.now.script ≡ None }
    requires log { names.now.log ≡ Some log }
    ensures read { (command : Said) → AreNames command names.now
        → TellsBatch (LoadsOthers (H.content shelf.old) command (loaded_of program)) result }
    ensures cause { (command : Said) → AreNames command names.now → IfErr result
        (λ refusal. IsCausedBy command (H.faults shelf.old) (H.faults shelf.new)
        (cause_of refusal)) }
    ensures frame { (command : Said) → AreNames command names.now → Leaves command
        (H.content shelf.old) (H.content shelf.new) (H.faults shelf.old) (H.faults shelf.new) }
{
    let services = match load_services(alloc, shelf, names, program.checked()) {
        Ok(services) => services,
        Err(refusal) => {
            drop(program);
            return Err(refusal);
        }
    };
    match fetch_text(alloc, shelf, log) {
        Ok(log) => Ok(BatchInputs {
            program,
            services,
            log,
        }),
        Err(refusal) => {
            drop(program);
            drop(services);
            Err(refusal)
        }
    }
}
