//! Atoms of expressions.

ghost use Rattle.std.specs.Prelude.{◌≡◌};
ghost use Rattle.sb_syntax.specs.Reading.{Reads};
ghost use Rattle.sb_syntax.specs.Expressions as spec;
ghost use Rattle.sb_syntax.specs.Nests.{Nests};

use crate::cursor::Cursor;
use crate::fault::Fault;
use crate::rules::Rules;
use crate::types::type_tree;
use sb_grammar::{Atom, Expr, TypeTree};
use sb_tokens::{Keyword, Symbol, Token};
use sqlite_items::{Boxed, Items};
use std::alloc::Global;

impl<F: Fn(Global, &mut Cursor<'_>, usize) -> Result<Expr, Fault>> Rules<F> {
    /// An atom.
    #[tactic(auto, unfolding(crate::specs::Expressions::atom))]
    pub fn atom(&self, tokens: &mut Cursor<'_>) -> Result<Atom, Fault>
        requires { Nests self.now.depth (F.pre self.now.expr) (F.post self.now.expr) }
        ensures { Reads (spec.atom (spec.expr self.now.depth) self.now.depth tokens.old) result
            tokens.new }
    {
        match tokens.peek() {
            Some(Token::Int(number)) => {
                tokens.take()?;
                Ok(Atom::Int(number))
            }
            Some(Token::Text(quoted)) => {
                let value = quoted.to_text(self.alloc)?;
                tokens.take()?;
                Ok(Atom::Text(value))
            }
            Some(Token::Keyword(word)) => self.call(tokens, word),
            Some(Token::Symbol(Symbol::OpenParen)) => {
                tokens.take()?;
                self.group(tokens)
            }
            Some(Token::Symbol(Symbol::OpenBracket)) => {
                tokens.take()?;
                self.list(tokens)
            }
            _ => Err(tokens.refuse()),
        }
    }

    // At the word.
    #[tactic(auto, unfolding(crate::specs::Expressions::call))]
    fn call(&self, tokens: &mut Cursor<'_>, word: Keyword) -> Result<Atom, Fault>
        requires { Nests self.now.depth (F.pre self.now.expr) (F.post self.now.expr) }
        ensures { Reads (spec.call (spec.expr self.now.depth) self.now.depth word tokens.old) result
            tokens.new }
    {
        if !is_call(word) {
            return Err(tokens.refuse());
        }
        tokens.take()?;
        self.behind_word(tokens, word)
    }

    fn behind_word(&self, tokens: &mut Cursor<'_>, word: Keyword) -> Result<Atom, Fault>
        requires { Nests self.now.depth (F.pre self.now.expr) (F.post self.now.expr) }
        ensures { Reads (spec.call_by (spec.expr self.now.depth) self.now.depth word tokens.old)
            result tokens.new }
    {
        match word {
            Keyword::True => Ok(Atom::True),
            Keyword::False => Ok(Atom::False),
            Keyword::It => Ok(Atom::It),
            Keyword::Empty => Ok(Atom::Empty(self.type_argument(tokens)?)),
            Keyword::NoneOf => Ok(Atom::NoneOf(self.type_argument(tokens)?)),
            Keyword::SomeOf => Ok(Atom::SomeOf(self.argument(tokens)?)),
            Keyword::Has => Ok(Atom::Has(self.argument(tokens)?)),
            Keyword::Lower => Ok(Atom::Lower(self.argument(tokens)?)),
            Keyword::Len => Ok(Atom::Len(self.argument(tokens)?)),
            Keyword::Orelse => {
                let (option, other) = self.two_arguments(tokens)?;
                Ok(Atom::Orelse(option, other))
            }
            Keyword::Starts => {
                let (text, start) = self.two_arguments(tokens)?;
                Ok(Atom::Starts(text, start))
            }
            Keyword::Words => self.words(tokens),
            _ => Err(tokens.refuse()),
        }
    }

    // "(" expr ")"
    #[tactic(auto, unfolding(crate::specs::Expressions::argument))]
    fn argument(&self, tokens: &mut Cursor<'_>) -> Result<Boxed<Expr>, Fault>
        requires { Nests self.now.depth (F.pre self.now.expr) (F.post self.now.expr) }
        ensures { Reads (spec.argument (spec.expr self.now.depth) self.now.depth tokens.old) result
            tokens.new }
    {
        tokens.expect(Symbol::OpenParen)?;
        let inner = Boxed::new(self.alloc, self.expr(tokens)?)?;
        tokens.expect(Symbol::CloseParen)?;
        Ok(inner)
    }

    // "(" expr "," expr ")"
    #[tactic(auto, unfolding(crate::specs::Expressions::two_arguments))]
    fn two_arguments(&self, tokens: &mut Cursor<'_>) -> Result<(Boxed<Expr>, Boxed<Expr>), Fault>
        requires { Nests self.now.depth (F.pre self.now.expr) (F.post self.now.expr) }
        ensures { Reads (spec.two_arguments (spec.expr self.now.depth) self.now.depth tokens.old)
            result tokens.new }
    {
        tokens.expect(Symbol::OpenParen)?;
        let first = Boxed::new(self.alloc, self.expr(tokens)?)?;
        tokens.expect(Symbol::Comma)?;
        let second = Boxed::new(self.alloc, self.expr(tokens)?)?;
        tokens.expect(Symbol::CloseParen)?;
        Ok((first, second))
    }

    // "(" type ")"
    #[tactic(auto, unfolding(crate::specs::Expressions::type_argument))]
    fn type_argument(&self, tokens: &mut Cursor<'_>) -> Result<TypeTree, Fault>
        ensures { Reads (spec.type_argument (spec.expr self.now.depth) self.now.depth tokens.old)
            result tokens.new }
    {
        tokens.expect(Symbol::OpenParen)?;
        let inner = type_tree(self.alloc, tokens, self.depth)?;
        tokens.expect(Symbol::CloseParen)?;
        Ok(inner)
    }

    #[tactic(auto, unfolding(crate::specs::Expressions::words))]
    fn words(&self, tokens: &mut Cursor<'_>) -> Result<Atom, Fault>
        requires { Nests self.now.depth (F.pre self.now.expr) (F.post self.now.expr) }
        ensures { Reads (spec.words (spec.expr self.now.depth) self.now.depth tokens.old) result
            tokens.new }
    {
        tokens.expect(Symbol::OpenParen)?;
        let text = Boxed::new(self.alloc, self.expr(tokens)?)?;
        tokens.expect(Symbol::Comma)?;
        let most = tokens.positive()?;
        tokens.expect(Symbol::CloseParen)?;
        Ok(Atom::Words(text, most))
    }

    // Behind "(".
    #[tactic(auto, unfolding(crate::specs::Expressions::group))]
    fn group(&self, tokens: &mut Cursor<'_>) -> Result<Atom, Fault>
        requires { Nests self.now.depth (F.pre self.now.expr) (F.post self.now.expr) }
        ensures { Reads (spec.group (spec.expr self.now.depth) self.now.depth tokens.old) result
            tokens.new }
    {
        let first = Boxed::new(self.alloc, self.expr(tokens)?)?;
        if tokens.sees(Symbol::Comma) {
            tokens.take()?;
            let second = Boxed::new(self.alloc, self.expr(tokens)?)?;
            tokens.expect(Symbol::CloseParen)?;
            return Ok(Atom::Pair(first, second));
        }
        tokens.expect(Symbol::CloseParen)?;
        Ok(Atom::Group(first))
    }

    // Behind "[".
    #[tactic(auto, unfolding(crate::specs::Expressions::list))]
    fn list(&self, tokens: &mut Cursor<'_>) -> Result<Atom, Fault>
        requires { Nests self.now.depth (F.pre self.now.expr) (F.post self.now.expr) }
        ensures { Reads (spec.list (spec.expr self.now.depth) self.now.depth tokens.old) result
            tokens.new }
    {
        let mut found = Items::new(self.alloc);
        found.push(self.expr(tokens)?)?;
        Ok(Atom::List(self.list_end(tokens, self.depth, found)?))
    }

    #[tactic(auto, unfolding(crate::specs::Expressions::list_end))]
    fn list_end(
        &self,
        tokens: &mut Cursor<'_>,
        turns: usize,
        mut found: Items<Expr>,
    ) -> Result<Items<Expr>, Fault>
        requires { Nests self.now.depth (F.pre self.now.expr) (F.post self.now.expr) }
        ensures { Reads (spec.list_end (spec.expr self.now.depth) self.now.depth turns found
            tokens.old) result tokens.new }
    {
        if turns == 0 {
            return Err(Fault::Deep);
        }
        if tokens.sees(Symbol::Comma) {
            tokens.take()?;
            found.push(self.expr(tokens)?)?;
            return self.list_end(tokens, turns - 1, found);
        }
        tokens.expect(Symbol::CloseBracket)?;
        Ok(found)
    }
}

fn is_call(word: Keyword) -> bool
    ensures { result ≡ spec.is_call word }
{
    matches!(
        word,
        Keyword::True
            | Keyword::False
            | Keyword::It
            | Keyword::Empty
            | Keyword::NoneOf
            | Keyword::SomeOf
            | Keyword::Has
            | Keyword::Lower
            | Keyword::Len
            | Keyword::Orelse
            | Keyword::Starts
            | Keyword::Words
    )
}
