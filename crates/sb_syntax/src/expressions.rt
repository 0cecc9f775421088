//! Expressions, from the loosest operator to the tightest.

ghost use Rattle.std.specs.Prelude.{◌≡◌};
ghost use Rattle.sb_syntax.specs.Reading.{Reads};
ghost use Rattle.sb_syntax.specs.Expressions as spec;
ghost use Rattle.sb_syntax.specs.Nests.{Nests};

use crate::cursor::Cursor;
use crate::fault::Fault;
use crate::operators::{Factor, Sign, comparison_in, factor_in, sign_in};
use crate::rules::Rules;
use crate::steps::post_steps;
use sb_grammar::{Add, AddRest, Cmp, Conj, Disj, Expr, Neg, Post, Prod, ProdRest, Unary};
use sb_tokens::{Keyword, Symbol};
use sqlite_items::{Boxed, Items};
use std::alloc::Global;

fn signed(sign: Sign, prod: Prod) -> AddRest
    ensures { result ≡ spec.signed sign prod }
{
    match sign {
        Sign::Plus => AddRest::Plus(prod),
        Sign::Minus => AddRest::Minus(prod),
    }
}

// Where a later part stops, what a rule has read is dropped by a call. Behind a `?` that drop would
// be laid out in the rule itself, down to the atoms, and proved there.
impl<F: Fn(Global, &mut Cursor<'_>, usize) -> Result<Expr, Fault>> Rules<F> {
    /// An expression, in which others may be open to this depth.
    #[tactic(auto, unfolding(crate::specs::Expressions::level))]
    pub fn level(&self, tokens: &mut Cursor<'_>) -> Result<Expr, Fault>
        requires { Nests self.now.depth (F.pre self.now.expr) (F.post self.now.expr) }
        ensures { Reads (spec.level (spec.expr self.now.depth) self.now.depth tokens.old) result
            tokens.new }
    {
        if tokens.sees_word(Keyword::If) {
            tokens.take()?;
            return self.choice(tokens);
        }
        Ok(Expr::Plain(self.disj(tokens)?))
    }

    // Behind "if".
    #[tactic(auto, unfolding(crate::specs::Expressions::choice))]
    fn choice(&self, tokens: &mut Cursor<'_>) -> Result<Expr, Fault>
        requires { Nests self.now.depth (F.pre self.now.expr) (F.post self.now.expr) }
        ensures { Reads (spec.choice (spec.expr self.now.depth) self.now.depth tokens.old) result
            tokens.new }
    {
        let test = Boxed::new(self.alloc, self.expr(tokens)?)?;
        tokens.expect_word(Keyword::Then)?;
        let yes = Boxed::new(self.alloc, self.expr(tokens)?)?;
        tokens.expect_word(Keyword::Else)?;
        let no = Boxed::new(self.alloc, self.expr(tokens)?)?;
        Ok(Expr::If(test, yes, no))
    }

    #[tactic(auto, unfolding(crate::specs::Expressions::disj))]
    fn disj(&self, tokens: &mut Cursor<'_>) -> Result<Disj, Fault>
        requires { Nests self.now.depth (F.pre self.now.expr) (F.post self.now.expr) }
        ensures { Reads (spec.disj (spec.expr self.now.depth) self.now.depth tokens.old) result
            tokens.new }
    {
        let first = self.conj(tokens)?;
        match self.disj_rests(tokens, self.depth, Items::new(self.alloc)) {
            Ok(rest) => Ok(Disj { first, rest }),
            Err(fault) => {
                drop(first);
                Err(fault)
            }
        }
    }

    #[tactic(auto, unfolding(crate::specs::Expressions::disj_rests))]
    fn disj_rests(
        &self,
        tokens: &mut Cursor<'_>,
        turns: usize,
        mut found: Items<Conj>,
    ) -> Result<Items<Conj>, Fault>
        requires { Nests self.now.depth (F.pre self.now.expr) (F.post self.now.expr) }
        ensures { Reads (spec.disj_rests (spec.expr self.now.depth) self.now.depth turns found
            tokens.old) result tokens.new }
    {
        if turns == 0 {
            return Err(Fault::Deep);
        }
        if !tokens.sees_word(Keyword::Or) {
            return Ok(found);
        }
        tokens.take()?;
        found.push(self.conj(tokens)?)?;
        self.disj_rests(tokens, turns - 1, found)
    }

    #[tactic(auto, unfolding(crate::specs::Expressions::conj))]
    fn conj(&self, tokens: &mut Cursor<'_>) -> Result<Conj, Fault>
        requires { Nests self.now.depth (F.pre self.now.expr) (F.post self.now.expr) }
        ensures { Reads (spec.conj (spec.expr self.now.depth) self.now.depth tokens.old) result
            tokens.new }
    {
        let first = self.neg(tokens, self.depth)?;
        match self.conj_rests(tokens, self.depth, Items::new(self.alloc)) {
            Ok(rest) => Ok(Conj { first, rest }),
            Err(fault) => {
                drop(first);
                Err(fault)
            }
        }
    }

    #[tactic(auto, unfolding(crate::specs::Expressions::conj_rests))]
    fn conj_rests(
        &self,
        tokens: &mut Cursor<'_>,
        turns: usize,
        mut found: Items<Neg>,
    ) -> Result<Items<Neg>, Fault>
        requires { Nests self.now.depth (F.pre self.now.expr) (F.post self.now.expr) }
        ensures { Reads (spec.conj_rests (spec.expr self.now.depth) self.now.depth turns found
            tokens.old) result tokens.new }
    {
        if turns == 0 {
            return Err(Fault::Deep);
        }
        if !tokens.sees_word(Keyword::And) {
            return Ok(found);
        }
        tokens.take()?;
        found.push(self.neg(tokens, self.depth)?)?;
        self.conj_rests(tokens, turns - 1, found)
    }

    #[tactic(auto, unfolding(crate::specs::Expressions::neg))]
    fn neg(&self, tokens: &mut Cursor<'_>, turns: usize) -> Result<Neg, Fault>
        requires { Nests self.now.depth (F.pre self.now.expr) (F.post self.now.expr) }
        ensures { Reads (spec.neg (spec.expr self.now.depth) self.now.depth turns tokens.old) result
            tokens.new }
    {
        if turns == 0 {
            return Err(Fault::Deep);
        }
        if tokens.sees_word(Keyword::Not) {
            tokens.take()?;
            let inner = self.neg(tokens, turns - 1)?;
            return Ok(Neg::Not(Boxed::new(self.alloc, inner)?));
        }
        Ok(Neg::Plain(self.cmp(tokens)?))
    }

    #[tactic(auto, unfolding(crate::specs::Expressions::cmp))]
    fn cmp(&self, tokens: &mut Cursor<'_>) -> Result<Cmp, Fault>
        requires { Nests self.now.depth (F.pre self.now.expr) (F.post self.now.expr) }
        ensures { Reads (spec.cmp (spec.expr self.now.depth) self.now.depth tokens.old) result
            tokens.new }
    {
        let left = self.add(tokens)?;
        let Some(operator) = comparison_in(tokens.peek()) else {
            return Ok(Cmp::Plain(left));
        };
        if let Err(fault) = tokens.take() {
            drop(left);
            return Err(fault);
        }
        match self.add(tokens) {
            Ok(right) => Ok(Cmp::Both(operator, left, right)),
            Err(fault) => {
                drop(left);
                Err(fault)
            }
        }
    }

    #[tactic(auto, unfolding(crate::specs::Expressions::add))]
    fn add(&self, tokens: &mut Cursor<'_>) -> Result<Add, Fault>
        requires { Nests self.now.depth (F.pre self.now.expr) (F.post self.now.expr) }
        ensures { Reads (spec.add (spec.expr self.now.depth) self.now.depth tokens.old) result
            tokens.new }
    {
        let first = self.prod(tokens)?;
        match self.add_rests(tokens, self.depth, Items::new(self.alloc)) {
            Ok(rest) => Ok(Add { first, rest }),
            Err(fault) => {
                drop(first);
                Err(fault)
            }
        }
    }

    #[tactic(auto, unfolding(crate::specs::Expressions::add_rests))]
    fn add_rests(
        &self,
        tokens: &mut Cursor<'_>,
        turns: usize,
        mut found: Items<AddRest>,
    ) -> Result<Items<AddRest>, Fault>
        requires { Nests self.now.depth (F.pre self.now.expr) (F.post self.now.expr) }
        ensures { Reads (spec.add_rests (spec.expr self.now.depth) self.now.depth turns found
            tokens.old) result tokens.new }
    {
        if turns == 0 {
            return Err(Fault::Deep);
        }
        let Some(sign) = sign_in(tokens.peek()) else {
            return Ok(found);
        };
        tokens.take()?;
        found.push(signed(sign, self.prod(tokens)?))?;
        self.add_rests(tokens, turns - 1, found)
    }

    #[tactic(auto, unfolding(crate::specs::Expressions::prod))]
    fn prod(&self, tokens: &mut Cursor<'_>) -> Result<Prod, Fault>
        requires { Nests self.now.depth (F.pre self.now.expr) (F.post self.now.expr) }
        ensures { Reads (spec.prod (spec.expr self.now.depth) self.now.depth tokens.old) result
            tokens.new }
    {
        let first = self.unary(tokens, self.depth)?;
        match self.prod_rests(tokens, self.depth, Items::new(self.alloc)) {
            Ok(rest) => Ok(Prod { first, rest }),
            Err(fault) => {
                drop(first);
                Err(fault)
            }
        }
    }

    #[tactic(auto, unfolding(crate::specs::Expressions::prod_rests))]
    fn prod_rests(
        &self,
        tokens: &mut Cursor<'_>,
        turns: usize,
        mut found: Items<ProdRest>,
    ) -> Result<Items<ProdRest>, Fault>
        requires { Nests self.now.depth (F.pre self.now.expr) (F.post self.now.expr) }
        ensures { Reads (spec.prod_rests (spec.expr self.now.depth) self.now.depth turns found
            tokens.old) result tokens.new }
    {
        if turns == 0 {
            return Err(Fault::Deep);
        }
        let Some(by) = factor_in(tokens.peek()) else {
            return Ok(found);
        };
        tokens.take()?;
        found.push(self.factor(tokens, by)?)?;
        self.prod_rests(tokens, turns - 1, found)
    }

    // Behind the operator.
    fn factor(&self, tokens: &mut Cursor<'_>, by: Factor) -> Result<ProdRest, Fault>
        requires { Nests self.now.depth (F.pre self.now.expr) (F.post self.now.expr) }
        ensures { Reads (spec.factor (spec.expr self.now.depth) self.now.depth by tokens.old) result
            tokens.new }
    {
        match by {
            Factor::Times => Ok(ProdRest::Times(self.unary(tokens, self.depth)?)),
            Factor::Over => Ok(ProdRest::Over(tokens.positive()?)),
            Factor::Modulo => Ok(ProdRest::Modulo(tokens.positive()?)),
        }
    }

    #[tactic(auto, unfolding(crate::specs::Expressions::unary))]
    fn unary(&self, tokens: &mut Cursor<'_>, turns: usize) -> Result<Unary, Fault>
        requires { Nests self.now.depth (F.pre self.now.expr) (F.post self.now.expr) }
        ensures { Reads (spec.unary (spec.expr self.now.depth) self.now.depth turns tokens.old)
            result tokens.new }
    {
        if turns == 0 {
            return Err(Fault::Deep);
        }
        if tokens.sees(Symbol::Minus) {
            tokens.take()?;
            let inner = self.unary(tokens, turns - 1)?;
            return Ok(Unary::Minus(Boxed::new(self.alloc, inner)?));
        }
        Ok(Unary::Plain(self.post(tokens)?))
    }

    #[tactic(auto, unfolding(crate::specs::Expressions::post))]
    fn post(&self, tokens: &mut Cursor<'_>) -> Result<Post, Fault>
        requires { Nests self.now.depth (F.pre self.now.expr) (F.post self.now.expr) }
        ensures { Reads (spec.post (spec.expr self.now.depth) self.now.depth tokens.old) result
            tokens.new }
    {
        let atom = self.atom(tokens)?;
        match post_steps(self.alloc, tokens, self.depth, Items::new(self.alloc)) {
            Ok(steps) => Ok(Post { atom, steps }),
            Err(fault) => {
                drop(atom);
                Err(fault)
            }
        }
    }
}
