//! Types and monoids.

ghost use Rattle.std.specs.Prelude.{◌≡◌, option_map};
ghost use Rattle.sb_tokens.specs.View.{token_view};
ghost use Rattle.sb_syntax.specs.Reading.{Reads};
ghost use Rattle.sb_syntax.specs.Types as spec;

use crate::cursor::Cursor;
use crate::fault::Fault;
use sb_grammar::{MonoTree, Scalar, TypeTree};
use sb_tokens::{Keyword, Symbol, Token};
use sqlite_items::Boxed;
use std::alloc::Global;

/// A type in which others are open in one another to this depth.
#[tactic(auto, unfolding(crate::specs::Types::a_type))]
pub fn type_tree(alloc: Global, tokens: &mut Cursor<'_>, depth: usize) -> Result<TypeTree, Fault>
    ensures { Reads (spec.a_type depth tokens.old) result tokens.new }
{
    if depth == 0 {
        return Err(Fault::Deep);
    }
    if tokens.sees_word(Keyword::Pair) {
        tokens.take()?;
        tokens.expect(Symbol::OpenParen)?;
        let first = Boxed::new(alloc, type_tree(alloc, tokens, depth - 1)?)?;
        tokens.expect(Symbol::Comma)?;
        let second = Boxed::new(alloc, type_tree(alloc, tokens, depth - 1)?)?;
        tokens.expect(Symbol::CloseParen)?;
        return Ok(TypeTree::Pair(first, second));
    }
    if tokens.sees_word(Keyword::Opt) {
        tokens.take()?;
        tokens.expect(Symbol::OpenParen)?;
        let part = Boxed::new(alloc, type_tree(alloc, tokens, depth - 1)?)?;
        tokens.expect(Symbol::CloseParen)?;
        return Ok(TypeTree::Opt(part));
    }
    if tokens.sees_word(Keyword::List) {
        tokens.take()?;
        tokens.expect(Symbol::OpenParen)?;
        let part = Boxed::new(alloc, type_tree(alloc, tokens, depth - 1)?)?;
        tokens.expect(Symbol::Comma)?;
        let most = tokens.number()?;
        tokens.expect(Symbol::CloseParen)?;
        return Ok(TypeTree::List(part, most));
    }
    Ok(TypeTree::Scalar(scalar(tokens)?))
}

/// A type of single values.
#[tactic(auto, unfolding(crate::specs::Types::scalar))]
pub fn scalar(tokens: &mut Cursor<'_>) -> Result<Scalar, Fault>
    ensures { Reads (spec.scalar tokens.old) result tokens.new }
{
    let Some(scalar) = scalar_in(tokens.peek()) else {
        return Err(tokens.refuse());
    };
    tokens.take()?;
    Ok(scalar)
}

fn scalar_in(token: Option<Token<'_>>) -> Option<Scalar>
    ensures { result ≡ spec.scalar_in (option_map token_view token.entry) }
{
    match token {
        Some(Token::Keyword(Keyword::Int)) => Some(Scalar::Int),
        Some(Token::Keyword(Keyword::Text)) => Some(Scalar::Text),
        Some(Token::Keyword(Keyword::Bool)) => Some(Scalar::Bool),
        _ => None,
    }
}

/// A monoid in which others are open in one another to this depth.
#[tactic(auto, unfolding(crate::specs::Types::mono))]
pub fn mono_tree(alloc: Global, tokens: &mut Cursor<'_>, depth: usize) -> Result<MonoTree, Fault>
    ensures { Reads (spec.mono depth tokens.old) result tokens.new }
{
    if depth == 0 {
        return Err(Fault::Deep);
    }
    if tokens.sees_word(Keyword::Top) {
        tokens.take()?;
        return Ok(MonoTree::Top(one_number(tokens)?));
    }
    if tokens.sees_word(Keyword::Cms) {
        tokens.take()?;
        let (rows, cells) = two_numbers(tokens)?;
        return Ok(MonoTree::Cms(rows, cells));
    }
    if tokens.sees_word(Keyword::Hll) {
        tokens.take()?;
        return Ok(MonoTree::Hll(one_number(tokens)?));
    }
    if tokens.sees_word(Keyword::Pair) {
        tokens.take()?;
        tokens.expect(Symbol::OpenParen)?;
        let first = Boxed::new(alloc, mono_tree(alloc, tokens, depth - 1)?)?;
        tokens.expect(Symbol::Comma)?;
        let second = Boxed::new(alloc, mono_tree(alloc, tokens, depth - 1)?)?;
        tokens.expect(Symbol::CloseParen)?;
        return Ok(MonoTree::Pair(first, second));
    }
    if tokens.sees_word(Keyword::Map) {
        tokens.take()?;
        tokens.expect(Symbol::OpenParen)?;
        let part = Boxed::new(alloc, mono_tree(alloc, tokens, depth - 1)?)?;
        tokens.expect(Symbol::CloseParen)?;
        return Ok(MonoTree::Map(part));
    }
    plain_mono(tokens)
}

// A monoid that is a word alone.
#[tactic(auto, unfolding(crate::specs::Types::plain_mono))]
fn plain_mono(tokens: &mut Cursor<'_>) -> Result<MonoTree, Fault>
    ensures { Reads (spec.plain_mono tokens.old) result tokens.new }
{
    let Some(mono) = plain_mono_in(tokens.peek()) else {
        return Err(tokens.refuse());
    };
    tokens.take()?;
    Ok(mono)
}

fn plain_mono_in(token: Option<Token<'_>>) -> Option<MonoTree>
    ensures { result ≡ spec.plain_mono_in (option_map token_view token.entry) }
{
    match token {
        Some(Token::Keyword(Keyword::Sum)) => Some(MonoTree::Sum),
        Some(Token::Keyword(Keyword::Min)) => Some(MonoTree::Min),
        Some(Token::Keyword(Keyword::Max)) => Some(MonoTree::Max),
        Some(Token::Keyword(Keyword::First)) => Some(MonoTree::First),
        Some(Token::Keyword(Keyword::Last)) => Some(MonoTree::Last),
        Some(Token::Keyword(Keyword::Concat)) => Some(MonoTree::Concat),
        Some(Token::Keyword(Keyword::Set)) => Some(MonoTree::Set),
        _ => None,
    }
}

// "(" INT ")"
#[tactic(auto, unfolding(crate::specs::Types::one_number))]
fn one_number(tokens: &mut Cursor<'_>) -> Result<u64, Fault>
    ensures { Reads (spec.one_number tokens.old) result tokens.new }
{
    tokens.expect(Symbol::OpenParen)?;
    let number = tokens.number()?;
    tokens.expect(Symbol::CloseParen)?;
    Ok(number)
}

// "(" INT "," INT ")"
#[tactic(auto, unfolding(crate::specs::Types::two_numbers))]
fn two_numbers(tokens: &mut Cursor<'_>) -> Result<(u64, u64), Fault>
    ensures { Reads (spec.two_numbers tokens.old) result tokens.new }
{
    tokens.expect(Symbol::OpenParen)?;
    let first = tokens.number()?;
    tokens.expect(Symbol::Comma)?;
    let second = tokens.number()?;
    tokens.expect(Symbol::CloseParen)?;
    Ok((first, second))
}
