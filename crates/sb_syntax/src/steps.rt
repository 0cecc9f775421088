//! The steps behind an atom.

ghost use Rattle.std.specs.Prelude.{◌≡◌, option_map, IfOk};
ghost use Rattle.sb_tokens.specs.View.{token_view};
ghost use Rattle.sb_syntax.specs.Reading.{Reads};
ghost use Rattle.sb_syntax.specs.Expressions as spec;

use crate::cursor::{Cursor, keyword_as_text};
use crate::fault::Fault;
use sb_grammar::PostStep;
use sb_text::NoMemory;
use sb_tokens::{Symbol, Token};
use sqlite_items::Items;
use std::alloc::Global;

/// Further steps, each behind a dot.
#[tactic(auto, unfolding(crate::specs::Expressions::post_steps))]
pub fn post_steps(
    alloc: Global,
    tokens: &mut Cursor<'_>,
    turns: usize,
    mut found: Items<PostStep>,
) -> Result<Items<PostStep>, Fault>
    ensures { Reads (spec.post_steps turns found tokens.old) result tokens.new }
{
    if turns == 0 {
        return Err(Fault::Deep);
    }
    if !tokens.sees(Symbol::Dot) {
        return Ok(found);
    }
    tokens.take()?;
    found.push(post_step(alloc, tokens)?)?;
    post_steps(alloc, tokens, turns - 1, found)
}

// Behind the dot.
#[tactic(auto, unfolding(crate::specs::Expressions::post_step))]
fn post_step(alloc: Global, tokens: &mut Cursor<'_>) -> Result<PostStep, Fault>
    ensures { Reads (spec.post_step tokens.old) result tokens.new }
{
    let Some(step) = step_in(alloc, tokens.peek())? else {
        return Err(tokens.refuse());
    };
    tokens.take()?;
    Ok(step)
}

fn step_in(alloc: Global, token: Option<Token<'_>>) -> Result<Option<PostStep>, NoMemory>
    ensures { IfOk result (λ step. step ≡ spec.step_in (option_map token_view token.entry)) }
{
    match token {
        Some(Token::Name(name)) => Ok(Some(PostStep::Field(name.to_text(alloc)?))),
        Some(Token::Keyword(word)) => Ok(Some(PostStep::Field(keyword_as_text(alloc, word)?))),
        Some(Token::Int(1)) => Ok(Some(PostStep::First)),
        Some(Token::Int(2)) => Ok(Some(PostStep::Second)),
        _ => Ok(None),
    }
}
