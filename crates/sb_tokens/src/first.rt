//! The token at the front of a text.
ghost use Rattle.std.specs.Prelude.{◌≡◌, ◌<◌, ◌≤◌, length, option_map, IfSome};
ghost use Rattle.sb_tokens.specs.Front.{first_symbol, first_token};
ghost use Rattle.sb_tokens.specs.Token.{spelling, symbol};
ghost use Rattle.sb_tokens.specs.View.{token_view};

use crate::Token;
use crate::quoting::first_text;
use crate::symbol::first_symbol;
use crate::words::{first_number, first_word, is_letter};

/// The token at the front and its number of bytes.
pub(crate) fn first_token(bytes: &[u8]) -> Option<(Token<'_>, usize)>
    ensures value { option_map (λ p. token_view p.0) result ≡ first_token bytes.now }
    ensures count { IfSome result (λ p. p.1 ≡ length (spelling (token_view p.0))) }
    ensures bounds { IfSome result (λ p. (0 < p.1) × (p.1 ≤ length bytes.now)) }
{
    let (first, behind) = bytes.split_first()?;
    if is_letter(*first) {
        first_word(bytes)
    } else if first.is_ascii_digit() {
        first_number(bytes)
    } else if *first == b'"' {
        first_text(behind)
    } else {
        symbol_token(bytes)
    }
}

fn symbol_token(bytes: &[u8]) -> Option<(Token<'_>, usize)>
    ensures value { option_map (λ p. token_view p.0) result
        ≡ option_map symbol (first_symbol bytes.now) }
    ensures count { IfSome result (λ p. p.1 ≡ length (spelling (token_view p.0))) }
    ensures bounds { IfSome result (λ p. (0 < p.1) × (p.1 ≤ length bytes.now)) }
{
    let symbol = first_symbol(bytes)?;
    Some((Token::Symbol(symbol), symbol.text().len()))
}
