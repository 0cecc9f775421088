//! The operators between operands.
ghost use Rattle.std.specs.Prelude.{◌≡◌, option_map};
ghost use Rattle.sb_tokens.specs.View.{token_view};
ghost use Rattle.sb_syntax.specs.Expressions as spec;

use sb_grammar::CmpOp;
use sb_tokens::{Symbol, Token};

/// What stands between the summands of a sum.
#[derive(Clone, Copy)]
pub enum Sign {
    Plus,
    Minus,
}

/// What stands between the factors of a product.
#[derive(Clone, Copy)]
pub enum Factor {
    Times,
    Over,
    Modulo,
}

/// The sign that the token is, between products.
pub fn sign_in(token: Option<Token<'_>>) -> Option<Sign>
    ensures { result ≡ spec.sign_in (option_map token_view token.entry) }
{
    match token {
        Some(Token::Symbol(Symbol::Plus)) => Some(Sign::Plus),
        Some(Token::Symbol(Symbol::Minus)) => Some(Sign::Minus),
        _ => None,
    }
}

/// What the token does to a product.
pub fn factor_in(token: Option<Token<'_>>) -> Option<Factor>
    ensures { result ≡ spec.factor_in (option_map token_view token.entry) }
{
    match token {
        Some(Token::Symbol(Symbol::Star)) => Some(Factor::Times),
        Some(Token::Symbol(Symbol::Slash)) => Some(Factor::Over),
        Some(Token::Symbol(Symbol::Percent)) => Some(Factor::Modulo),
        _ => None,
    }
}

/// The comparison that the token is.
pub fn comparison_in(token: Option<Token<'_>>) -> Option<CmpOp>
    ensures { result ≡ spec.comparison_in (option_map token_view token.entry) }
{
    match token {
        Some(Token::Symbol(Symbol::Equal)) => Some(CmpOp::Equal),
        Some(Token::Symbol(Symbol::Unequal)) => Some(CmpOp::Unequal),
        Some(Token::Symbol(Symbol::Less)) => Some(CmpOp::Less),
        Some(Token::Symbol(Symbol::AtMost)) => Some(CmpOp::AtMost),
        Some(Token::Symbol(Symbol::Greater)) => Some(CmpOp::Greater),
        Some(Token::Symbol(Symbol::AtLeast)) => Some(CmpOp::AtLeast),
        _ => None,
    }
}
