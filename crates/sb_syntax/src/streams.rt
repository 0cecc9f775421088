//! Streams and their stages.

ghost use Rattle.sb_syntax.specs.Reading.{Reads};
ghost use Rattle.sb_syntax.specs.Statements as spec;

use crate::cursor::Cursor;
use crate::fault::Fault;
use crate::rules::expr;
use crate::statements::MAX_TOKENS;
use crate::types::mono_tree;
use sb_grammar::{Head, MonoTree, Stage, Stream};
use sb_tokens::{Keyword, Symbol};
use sqlite_items::{Boxed, Items};
use std::alloc::Global;

/// A stream.
#[tactic(auto, unfolding(crate::specs::Statements::stream))]
pub fn stream(alloc: Global, tokens: &mut Cursor<'_>) -> Result<Stream, Fault>
    ensures { Reads (spec.stream tokens.old) result tokens.new }
{
    let head = head(alloc, tokens, MAX_TOKENS)?;
    stream_behind(alloc, tokens, head)
}

#[tactic(auto, unfolding(crate::specs::Statements::stream_behind))]
fn stream_behind(alloc: Global, tokens: &mut Cursor<'_>, head: Head) -> Result<Stream, Fault>
    ensures { Reads (spec.stream_behind head tokens.old) result tokens.new }
{
    let stages = stages(alloc, tokens, MAX_TOKENS, Items::new(alloc))?;
    Ok(Stream { head, stages })
}

/// The head of a stream in which others are open in one another to this depth.
#[tactic(auto, unfolding(crate::specs::Statements::head))]
pub fn head(alloc: Global, tokens: &mut Cursor<'_>, depth: usize) -> Result<Head, Fault>
    ensures { Reads (spec.head depth tokens.old) result tokens.new }
{
    if depth == 0 {
        return Err(Fault::Deep);
    }
    if !tokens.sees_word(Keyword::Merge) {
        return Ok(Head::Name(tokens.name(alloc)?));
    }
    tokens.take()?;
    tokens.expect(Symbol::OpenParen)?;
    let left = head(alloc, tokens, depth - 1)?;
    let left = Boxed::new(alloc, stream_behind(alloc, tokens, left)?)?;
    tokens.expect(Symbol::Comma)?;
    let right = head(alloc, tokens, depth - 1)?;
    let right = Boxed::new(alloc, stream_behind(alloc, tokens, right)?)?;
    tokens.expect(Symbol::CloseParen)?;
    Ok(Head::Merge(left, right))
}

#[tactic(auto, unfolding(crate::specs::Statements::stages))]
fn stages(
    alloc: Global,
    tokens: &mut Cursor<'_>,
    turns: usize,
    mut found: Items<Stage>,
) -> Result<Items<Stage>, Fault>
    ensures { Reads (spec.stages turns found tokens.old) result tokens.new }
{
    if turns == 0 {
        return Err(Fault::Deep);
    }
    if !tokens.sees(Symbol::Bar) {
        return Ok(found);
    }
    tokens.take()?;
    found.push(stage(alloc, tokens)?)?;
    stages(alloc, tokens, turns - 1, found)
}

#[tactic(auto, unfolding(crate::specs::Statements::stage))]
fn stage(alloc: Global, tokens: &mut Cursor<'_>) -> Result<Stage, Fault>
    ensures { Reads (spec.stage tokens.old) result tokens.new }
{
    if tokens.sees_word(Keyword::Map) {
        tokens.take()?;
        return Ok(Stage::Map(expr(alloc, tokens, MAX_TOKENS)?));
    }
    if tokens.sees_word(Keyword::Filter) {
        tokens.take()?;
        return Ok(Stage::Filter(expr(alloc, tokens, MAX_TOKENS)?));
    }
    if tokens.sees_word(Keyword::FlatMap) {
        tokens.take()?;
        return Ok(Stage::FlatMap(expr(alloc, tokens, MAX_TOKENS)?));
    }
    if tokens.sees_word(Keyword::LeftJoin) {
        tokens.take()?;
        return Ok(Stage::LeftJoin(tokens.name(alloc)?));
    }
    Err(tokens.refuse())
}

/// Stages, and the monoid by which the last sums.
#[tactic(auto, unfolding(crate::specs::Statements::store_stages))]
pub fn store_stages(
    alloc: Global,
    tokens: &mut Cursor<'_>,
    turns: usize,
    mut found: Items<Stage>,
) -> Result<(Items<Stage>, MonoTree), Fault>
    ensures { Reads (spec.store_stages turns found tokens.old) result tokens.new }
{
    if turns == 0 {
        return Err(Fault::Deep);
    }
    tokens.expect(Symbol::Bar)?;
    if tokens.sees_word(Keyword::SumByKey) {
        tokens.take()?;
        let mono = mono_tree(alloc, tokens, MAX_TOKENS)?;
        return Ok((found, mono));
    }
    found.push(stage(alloc, tokens)?)?;
    store_stages(alloc, tokens, turns - 1, found)
}
