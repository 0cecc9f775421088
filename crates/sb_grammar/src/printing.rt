//! Programs as texts.
ghost use Rattle.std.specs.Prelude.{◌≡◌, ◌++◌, List, IfOk, OnOk, OnErr};
ghost use Rattle.sb_tokens.specs.Token.{Token};
ghost use Rattle.sb_grammar.specs.Program.{IsProgram};
ghost use Rattle.sb_grammar.specs.Printed.{printed};
ghost use Rattle.sb_grammar.specs.Text as spec;

use crate::programs::{Program, Statement};
use crate::statement_text::{push_batch, push_statement};
use sb_text::NoMemory;
use std::alloc::Global;

/// Writes the program at the end of `out`: the tokens of each statement with one space between and LF at its end, such
/// as `let a = b | map it . 1`.
pub fn print(alloc: Global, p: &Program, out: &mut Vec<u8>) -> Result<(), NoMemory>
    ensures ok { OnOk result ((statements : List (List Token)) → IsProgram p.now statements
        → out.new.items ≡ out.old.items ++ printed statements) }
    ensures err { OnErr result (out.new.items ≡ out.old.items) }
{
    let lines = lines_of(alloc, p)?;
    out.extend_from_slice(lines.as_slice())?;
    Ok(())
}

fn lines_of(alloc: Global, p: &Program) -> Result<Vec<u8>, NoMemory>
    ensures { IfOk result (λ lines. lines.items
        ≡ spec.lines_text (spec.ended (spec.batch_text p.now.length p.now.minus p.now.from))
        p.now.statements) }
{
    let mut lines = Vec::new(alloc);
    push_batch(alloc, p.length, p.minus, p.from, &mut lines)?;
    end_line(&mut lines)?;
    push_statements(alloc, p.statements.as_slice(), &mut lines)?;
    Ok(lines)
}

fn push_statements(
    alloc: Global,
    statements: &[Statement],
    lines: &mut Vec<u8>,
) -> Result<(), NoMemory>
    ensures { OnOk result (lines.new.items ≡ spec.lines_text lines.old.items statements.now) }
{
    for statement in statements {
        push_statement(alloc, statement, lines)?;
        end_line(lines)?;
    }
    Ok(())
}

// Puts LF in place of the last byte.
fn end_line(lines: &mut Vec<u8>) -> Result<(), NoMemory>
    ensures { OnOk result (lines.new.items ≡ spec.ended lines.old.items) }
{
    match lines.pop() {
        None => Ok(()),
        Some(_) => {
            lines.push(b'\n')?;
            Ok(())
        }
    }
}
