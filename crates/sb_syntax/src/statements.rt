//! The batch head and the statements.

ghost use Rattle.sb_syntax.specs.Reading.{Reads};
ghost use Rattle.sb_syntax.specs.Statements as spec;

use crate::cursor::Cursor;
use crate::fault::Fault;
use crate::streams::{head, store_stages, stream};
use crate::types::scalar;
use sb_grammar::{FieldTree, Statement, Stream};
use sb_tokens::{Keyword, Symbol};
use sqlite_items::Items;
use std::alloc::Global;

/// As many tokens as a statement may have.
pub const MAX_TOKENS: usize = 256;

/// A statement.
#[tactic(auto, unfolding(crate::specs::Statements::statement))]
pub fn statement(alloc: Global, tokens: &mut Cursor<'_>) -> Result<Statement, Fault>
    ensures { Reads (spec.statement tokens.old) result tokens.new }
{
    if tokens.sees_word(Keyword::Source) {
        tokens.take()?;
        return source(alloc, tokens);
    }
    if tokens.sees_word(Keyword::Service) {
        tokens.take()?;
        return service(alloc, tokens);
    }
    if tokens.sees_word(Keyword::Let) {
        tokens.take()?;
        return let_stream(alloc, tokens);
    }
    if tokens.sees_word(Keyword::Store) {
        tokens.take()?;
        return store(alloc, tokens);
    }
    Err(tokens.refuse())
}

#[tactic(auto, unfolding(crate::specs::Statements::source))]
fn source(alloc: Global, tokens: &mut Cursor<'_>) -> Result<Statement, Fault>
    ensures { Reads (spec.source tokens.old) result tokens.new }
{
    let name = tokens.name(alloc)?;
    tokens.expect(Symbol::OpenParen)?;
    let fields = fields(alloc, tokens)?;
    Ok(Statement::Source { name, fields })
}

// Behind "(".
#[tactic(auto, unfolding(crate::specs::Statements::fields))]
fn fields(alloc: Global, tokens: &mut Cursor<'_>) -> Result<Items<FieldTree>, Fault>
    ensures { Reads (spec.fields tokens.old) result tokens.new }
{
    let mut found = Items::new(alloc);
    if tokens.sees(Symbol::CloseParen) {
        tokens.take()?;
        return Ok(found);
    }
    found.push(field(alloc, tokens)?)?;
    more_fields(alloc, tokens, MAX_TOKENS, found)
}

#[tactic(auto, unfolding(crate::specs::Statements::more_fields))]
fn more_fields(
    alloc: Global,
    tokens: &mut Cursor<'_>,
    turns: usize,
    mut found: Items<FieldTree>,
) -> Result<Items<FieldTree>, Fault>
    ensures { Reads (spec.more_fields turns found tokens.old) result tokens.new }
{
    if turns == 0 {
        return Err(Fault::Deep);
    }
    if tokens.sees(Symbol::Comma) {
        tokens.take()?;
        found.push(field(alloc, tokens)?)?;
        return more_fields(alloc, tokens, turns - 1, found);
    }
    tokens.expect(Symbol::CloseParen)?;
    Ok(found)
}

#[tactic(auto, unfolding(crate::specs::Statements::field))]
fn field(alloc: Global, tokens: &mut Cursor<'_>) -> Result<FieldTree, Fault>
    ensures { Reads (spec.field tokens.old) result tokens.new }
{
    let name = tokens.word(alloc)?;
    tokens.expect(Symbol::Colon)?;
    let scalar = scalar(tokens)?;
    Ok(FieldTree { name, scalar })
}

#[tactic(auto, unfolding(crate::specs::Statements::service))]
fn service(alloc: Global, tokens: &mut Cursor<'_>) -> Result<Statement, Fault>
    ensures { Reads (spec.service tokens.old) result tokens.new }
{
    let name = tokens.name(alloc)?;
    tokens.expect(Symbol::OpenParen)?;
    let key = scalar(tokens)?;
    tokens.expect(Symbol::Arrow)?;
    let value = scalar(tokens)?;
    tokens.expect(Symbol::CloseParen)?;
    Ok(Statement::Service { name, key, value })
}

#[tactic(auto, unfolding(crate::specs::Statements::let_stream))]
fn let_stream(alloc: Global, tokens: &mut Cursor<'_>) -> Result<Statement, Fault>
    ensures { Reads (spec.let_stream tokens.old) result tokens.new }
{
    let name = tokens.name(alloc)?;
    tokens.expect(Symbol::Assign)?;
    let stream = stream(alloc, tokens)?;
    Ok(Statement::Let { name, stream })
}

#[tactic(auto, unfolding(crate::specs::Statements::store))]
fn store(alloc: Global, tokens: &mut Cursor<'_>) -> Result<Statement, Fault>
    ensures { Reads (spec.store tokens.old) result tokens.new }
{
    let name = tokens.name(alloc)?;
    tokens.expect(Symbol::Assign)?;
    let head = head(alloc, tokens, MAX_TOKENS)?;
    let (stages, mono) = store_stages(alloc, tokens, MAX_TOKENS, Items::new(alloc))?;
    let stream = Stream { head, stages };
    Ok(Statement::Store { name, stream, mono })
}

/// The batch's length, and whether a minus stands before its start, and the start.
#[tactic(auto, unfolding(crate::specs::Statements::batch))]
pub fn batch(tokens: &mut Cursor<'_>) -> Result<(u64, (bool, u64)), Fault>
    ensures { Reads (spec.batch tokens.old) result tokens.new }
{
    tokens.expect_word(Keyword::Batch)?;
    let length = tokens.positive()?;
    tokens.expect_word(Keyword::From)?;
    let start = start(tokens)?;
    Ok((length, start))
}

#[tactic(auto, unfolding(crate::specs::Statements::start))]
fn start(tokens: &mut Cursor<'_>) -> Result<(bool, u64), Fault>
    ensures { Reads (spec.start tokens.old) result tokens.new }
{
    if tokens.sees(Symbol::Minus) {
        tokens.take()?;
        return Ok((true, tokens.number()?));
    }
    Ok((false, tokens.number()?))
}
