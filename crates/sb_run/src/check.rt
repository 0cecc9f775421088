//! `check`: the program as it is understood.
ghost use Rattle.std.specs.Prelude.{◌≡◌, ◌++◌, List, Some, OnOk, IfOk};
ghost use Rattle.sb_check.specs.CheckedView.{checked_of};
ghost use Rattle.sb_check.specs.Comments.{comments};
ghost use Rattle.sb_grammar.specs.Printed.{printed};
ghost use Rattle.sb_grammar.specs.Program.{IsProgram};
ghost use Rattle.sb_io.specs.Sink.{Appends, HasSinkCause};
ghost use Rattle.sb_run.specs.Call.{Keeps};
ghost use Rattle.sb_run.specs.Commands.{IsCheck};
ghost use Rattle.sb_tokens.specs.Token.{Token};
ghost use Rattle.sb_words.specs.Limits.{IsWithin};

use crate::ending::{put_refusal, status_of};
use sb_check::{Checked, write_comments};
use sb_grammar::print;
use sb_io::{Shelf, Sink, SinkError};
use sb_load::load;
use sb_text::NoMemory;
use sb_words::Command;
use std::alloc::Global;

/// Does what the words of this `check` command say: it writes the program, a line for each statement with one space
/// between its tokens, and then a comment line for each store. The status is that of the top call.
pub fn check_command<H: Shelf, K: Sink>(
    alloc: Global,
    command: &Command,
    shelf: &mut H,
    sink: &mut K,
) -> u8
    requires own { IsCheck command.now }
    requires within { IsWithin command.now }
    ensures { Keeps (Some command.now) (H.content shelf.old) (H.content shelf.new)
        (H.faults shelf.old) (H.faults shelf.new) (K.written sink.old) (K.written sink.new)
        (K.faults sink.old) (K.faults sink.new) result }
{
    match load(alloc, command, shelf) {
        Ok(inputs) => {
            let put = put_program(alloc, sink, inputs.program.checked());
            status_of(sink, put)
        }
        Err(refusal) => put_refusal(sink, &refusal),
    }
}

// Puts the program and its comment lines at once.
fn put_program<K: Sink>(alloc: Global, sink: &mut K, c: &Checked) -> Result<(), SinkError>
    ensures ok { (statements : List (List Token)) → IsProgram (checked_of c.now).program statements
        → OnOk result (Appends (printed statements ++ comments (checked_of c.now).declared.stores)
        (K.written sink.old) (K.written sink.new)) }
    ensures cause { HasSinkCause (K.faults sink.old) (K.faults sink.new) result }
{
    let text = program_text(alloc, c).map_err(|_| SinkError::NoMemory)?;
    sink.put(&text)
}

fn program_text(alloc: Global, c: &Checked) -> Result<Vec<u8>, NoMemory>
    ensures { (statements : List (List Token)) → IsProgram (checked_of c.now).program statements
        → IfOk result (λ text. text.items
        ≡ printed statements ++ comments (checked_of c.now).declared.stores) }
{
    let mut text = Vec::new(alloc);
    print(alloc, c.program(), &mut text)?;
    write_comments(alloc, c, &mut text)?;
    Ok(text)
}
