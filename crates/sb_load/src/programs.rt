//! The program of a command.
ghost use Rattle.std.specs.Prelude.{◌≡◌, true, IfOk, IfErr};
ghost use Rattle.sb_check.specs.CheckedView.{checked_of};
ghost use Rattle.sb_check.specs.Programs.{check_of};
ghost use Rattle.sb_io.specs.Shelf.{Fetches};
ghost use Rattle.sb_load.specs.Commands.{program, order};
ghost use Rattle.sb_load.specs.Inputs.{Admits, LoadsProgram, ReadsProgram, check_refusal, refused_by};
ghost use Rattle.sb_load.specs.Steps.{IsAdmitted, IsCausedAt, IsOrderRefusal, IsRefusedAt, Tells, TellsAll, loaded_of};
ghost use Rattle.sb_load.specs.declared.refusal.Which.TheVariants as which;

use crate::files::fetch;
use crate::name::Name;
use crate::refusal::{Refusal, Which};
use sb_check::{AdmitError, Checked, Online, admit, check};
use sb_io::Shelf;
use sb_syntax::{Program, parse};
use sb_text::Text;
use std::alloc::Global;

const LIMIT: u64 = 65_536;

/// A program that is accepted: checked, and for a command that sums in any order admitted too.
#[derive(Drop)]
pub enum Loaded {
    Checked(Checked),
    Online(Online),
}

impl Loaded {
    /// The checked program.
    pub fn checked(&self) -> &Checked
        ensures { checked_of result.now ≡ loaded_of self.now }
    {
        match self {
            Loaded::Checked(c) => c,
            Loaded::Online(o) => o.checked(),
        }
    }
}

/// The program of a file.
pub fn fetch_program<H: Shelf>(
    alloc: Global,
    shelf: &mut H,
    name: &Text,
) -> Result<Checked, Refusal>
    ensures read { TellsAll (LoadsProgram (H.content shelf.old name.now)) checked_of result }
    ensures frame { Fetches name.now (H.content shelf.old) (H.content shelf.new)
        (H.faults shelf.old) (H.faults shelf.new) }
    ensures cause { IfErr result (IsCausedAt which.Program name.now (H.faults shelf.old)
        (H.faults shelf.new)) }
{
    match fetch(
        alloc,
        shelf,
        name,
        Which::Program,
        LIMIT,
        Refusal::ProgramLonger,
    ) {
        Ok(text) => read_program(alloc, &text),
        Err(refusal) => Err(refusal),
    }
}

// The program of a text.
fn read_program(alloc: Global, text: &[u8]) -> Result<Checked, Refusal>
    ensures read { TellsAll (ReadsProgram text.now) checked_of result }
    ensures cause { IfErr result (IsRefusedAt program) }
{
    match parse(alloc, text) {
        Ok(tree) => accept(alloc, tree),
        Err(error) => Err(Refusal::of_syntax(error)),
    }
}

fn accept(alloc: Global, tree: Program) -> Result<Checked, Refusal>
    ensures read { Tells checked_of (refused_by check_refusal (check_of tree)) result }
    ensures cause { IfErr result (IsRefusedAt program) }
{
    match check(alloc, tree) {
        Ok(program) => Ok(program),
        Err(error) => Err(Refusal::of_check(error)),
    }
}

/// The program, admitted where the command asks for it.
pub fn admit_program(online: bool, program: Checked) -> Result<Loaded, Refusal>
    ensures read { TellsAll (Admits online (checked_of program)) loaded_of result }
    ensures admitted { IfOk result (IsAdmitted online) }
    ensures cause { IfErr result (IsRefusedAt order) }
    ensures always { IfErr result (λ _. online ≡ true) }
{
    if !online {
        return Ok(Loaded::Checked(program));
    }
    match admit(program) {
        Ok(program) => Ok(Loaded::Online(program)),
        Err(error) => Err(order_refusal(error)),
    }
}

fn order_refusal(error: AdmitError) -> Refusal
    ensures read { IsOrderRefusal error result }
    ensures cause { IsRefusedAt order result }
{
    match error {
        AdmitError::NotCommuting { name, .. } => match Name::new(&name) {
            Ok(store) => Refusal::Order { store },
            Err(_) => Refusal::NoMemory,
        },
        AdmitError::NoMemory => Refusal::NoMemory,
    }
}
