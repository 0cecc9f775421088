//! The rules that hold expressions take the parser of those as a parameter, so that each is proved by itself.

ghost use Rattle.sb_syntax.specs.Reading.{Reads};
ghost use Rattle.sb_syntax.specs.Expressions as spec;
ghost use Rattle.sb_syntax.specs.Nests.{Nests};

use crate::cursor::Cursor;
use crate::fault::Fault;
use sb_grammar::Expr;
use std::alloc::Global;

/// The rules, with the parser of the expressions inside them.
#[derive(Clone, Copy)]
pub struct Rules<F> {
    pub alloc: Global,
    /// How deep expressions may still be open in one another.
    pub depth: usize,
    pub expr: F,
}

impl<F: Fn(Global, &mut Cursor<'_>, usize) -> Result<Expr, Fault>> Rules<F> {
    /// An expression, one level deeper.
    pub fn expr(&self, tokens: &mut Cursor<'_>) -> Result<Expr, Fault>
        requires { Nests self.now.depth (F.pre self.now.expr) (F.post self.now.expr) }
        ensures { Reads (spec.expr self.now.depth tokens.old) result tokens.new }
    {
        (self.expr)(self.alloc, tokens, self.depth)
    }
}

/// An expression in which others are open in one another to this depth.
pub fn expr(alloc: Global, tokens: &mut Cursor<'_>, depth: usize) -> Result<Expr, Fault>
    ensures { Reads (spec.expr depth tokens.old) result tokens.new }
{
    if depth == 0 {
        return Err(Fault::Deep);
    }
    Rules {
        alloc,
        depth: depth - 1,
        expr,
    }
    .level(tokens)
}
