//! The program of a text, or its first wrong token.
ghost use Rattle.std.specs.Prelude.{◌≡◌, ◌⊎◌, ℕ, Err, IfOk, IfErr};
ghost use Rattle.sb_grammar.specs.Program.{IsTextOf, FirstFault};
ghost use Rattle.sb_grammar.specs.declared.code.Code.{Code};
ghost use Rattle.sb_grammar.specs.declared.programs.Program.{Program};
ghost use Rattle.sb_syntax.specs.Programs as spec;
ghost use Rattle.sb_syntax.specs.Programs.{Gives};
ghost use Rattle.sb_syntax.specs.Answer.{Explains};
ghost use Rattle.sb_syntax.specs.declared.parsing.SyntaxError.TheVariants.{At, NoMemory};

use crate::cursor::Cursor;
use crate::statements::{batch, statement};
use sb_grammar::{Code, Program, Statement};
use sqlite_items::Items;
use std::alloc::Global;
use thiserror::Error;

/// Statements behind the batch head, which is statement 1.
const MAX_FURTHER: usize = 255;

/// Why a text gives no program.
#[derive(Clone, Copy, Debug, PartialEq, Eq, Error)]
pub enum SyntaxError {
    /// The first wrong token, or the text's end.
    #[error("{code:?} at byte {offset}")]
    At { offset: u64, code: Code },
    #[error("out of memory")]
    NoMemory,
}

/// The program of a text. A recursive descent over the tokens, each of which is passed once; at most 256 rules are open
/// in one another, since each takes a token of its statement.
pub fn parse(alloc: Global, bytes: &[u8]) -> Result<Program, SyntaxError>
    ensures ok { IfOk result (λ p. IsTextOf p bytes.now) }
    ensures at { IfErr result (Explains bytes.now) }

    // A program's text is answered by the program, unless memory fails.
    ensures every { (p : Program) → IsTextOf p bytes.now
        → IfOk result (λ q. q ≡ p) × IfErr result (λ e. e ≡ NoMemory) }

    // The first wrong token of a text is answered, unless memory fails.
    ensures fault { (offset : ℕ) (why : Code) → FirstFault bytes.now offset why
        → (result ≡ Err (At offset why)) ⊎ (result ≡ Err NoMemory) }
{
    let mut tokens = Cursor::new(bytes);
    match program(alloc, &mut tokens) {
        Ok(program) => Ok(program),
        Err(None) => Err(SyntaxError::NoMemory),
        Err(Some(code)) => {
            let offset = tokens.offset(bytes.len() as u64);
            Err(SyntaxError::At { offset, code })
        }
    }
}

#[tactic(auto, unfolding(crate::specs::Programs::program))]
fn program(alloc: Global, tokens: &mut Cursor<'_>) -> Result<Program, Option<Code>>
    ensures { Gives (spec.program tokens.old) result tokens.new }
{
    let (length, (minus, from)) = match batch(tokens) {
        Ok(head) => head,
        Err(fault) => return Err(tokens.code(fault)),
    };
    let statements = statements(alloc, tokens, MAX_FURTHER, Items::new(alloc))?;
    Ok(Program {
        length,
        minus,
        from,
        statements,
    })
}

#[tactic(auto, unfolding(crate::specs::Programs::statements))]
fn statements(
    alloc: Global,
    tokens: &mut Cursor<'_>,
    turns: usize,
    mut found: Items<Statement>,
) -> Result<Items<Statement>, Option<Code>>
    ensures { Gives (spec.statements turns found tokens.old) result tokens.new }
{
    if tokens.is_done() {
        return Ok(found);
    }
    if !tokens.begins_statement() {
        return Err(tokens.code(tokens.refuse()));
    }
    if turns == 0 {
        return Err(Some(Code::Many));
    }
    tokens.begin_statement();
    let next = match statement(alloc, tokens) {
        Ok(next) => next,
        Err(fault) => return Err(tokens.code(fault)),
    };
    if found.push(next).is_err() {
        return Err(None);
    }
    statements(alloc, tokens, turns - 1, found)
}
