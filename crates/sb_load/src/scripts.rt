//! The script of a command.
ghost use Rattle.std.specs.Prelude.{length, IfOk, IfErr};
ghost use Rattle.std.specs.List.{AllByRecursion};
ghost use Rattle.sb_check.specs.CheckedView.{checked_of};
ghost use Rattle.sb_io.specs.Shelf.{Fetches};
ghost use Rattle.sb_report.specs.Script.{AsksOf};
ghost use Rattle.sb_load.specs.Commands.{script};
ghost use Rattle.sb_load.specs.Inputs.{LoadsScript, ReadsScript};
ghost use Rattle.sb_load.specs.Steps.{IsCausedAt, IsRefusedAt, TellsAll};
ghost use Rattle.sb_load.specs.declared.refusal.Which.TheVariants as which;

use crate::files::fetch;
use crate::refusal::{Refusal, Which};
use sb_check::Checked;
use sb_io::Shelf;
use sb_report::{Ask, ScriptError, read_script};
use sb_text::Text;
use std::alloc::Global;

const LIMIT: u64 = 4_194_304;

/// The asks of the script of a file.
pub fn fetch_script<H: Shelf>(
    alloc: Global,
    shelf: &mut H,
    name: &Text,
    program: &Checked,
) -> Result<Vec<Ask>, Refusal>
    ensures read { TellsAll (LoadsScript (H.content shelf.old) (checked_of program.now).declared
        name.now) (λ asks. asks.items) result }
    ensures stores { IfOk result (λ asks. AllByRecursion
        (AsksOf (length (checked_of program.now).declared.stores)) asks.items) }
    ensures frame { Fetches name.now (H.content shelf.old) (H.content shelf.new)
        (H.faults shelf.old) (H.faults shelf.new) }
    ensures cause { IfErr result (IsCausedAt which.Script name.now (H.faults shelf.old)
        (H.faults shelf.new)) }
{
    match fetch(
        alloc,
        shelf,
        name,
        Which::Script,
        LIMIT,
        Refusal::ScriptLonger,
    ) {
        Ok(bytes) => read_asks(alloc, program, &bytes),
        Err(refusal) => Err(refusal),
    }
}

fn read_asks(alloc: Global, program: &Checked, bytes: &[u8]) -> Result<Vec<Ask>, Refusal>
    ensures read { TellsAll (ReadsScript (checked_of program.now).declared bytes.now)
        (λ asks. asks.items) result }
    ensures stores { IfOk result (λ asks. AllByRecursion
        (AsksOf (length (checked_of program.now).declared.stores)) asks.items) }
    ensures cause { IfErr result (IsRefusedAt script) }
{
    match read_script(alloc, program, bytes) {
        Ok(asks) => Ok(asks),
        Err(ScriptError::BadLine { line }) => Err(Refusal::ScriptLine { line }),
        Err(ScriptError::NoMemory) => Err(Refusal::NoMemory),
    }
}
