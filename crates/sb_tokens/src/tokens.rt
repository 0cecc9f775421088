//! The tokens of a text, one after the other.
ghost use Rattle.std.specs.Prelude.{◌≡◌, ◌≤◌, None, IfOk, IfErr, IfSome, All, drop, length, map};

use crate::Token;
use crate::first::first_token;
use crate::gaps::gap_length;
use std::marker::Model;

/// No token begins at this offset, or a word, a number or a quoted text that begins there breaks its form.
#[derive(Clone, Copy, PartialEq, Eq)]
pub struct BadToken {
    pub offset: u64,
}

/// The tokens of a text, from the first on. Nothing is copied from the text, and it is passed over once.
#[derive(Drop)]
pub struct Tokens<'a> {
    offset: u64,
    rest: &'a [u8],
}

impl<'a> Model for Tokens<'a> {
    ghost use Rattle.std.specs.Prelude.{◌+◌, ◌<◌, ◌^◌, length};
    ghost use Rattle.sb_tokens.specs.Lexed.{Lexed, lexed_from};

    ghost Value = { Lexed };

    ghost view = { λ s. lexed_from s.offset s.rest.now };

    ghost invariant = { λ s. s.offset + length s.rest.now < 2 ^ 64 };
}

impl<'a> Tokens<'a> {
    ghost use Rattle.sb_tokens.specs.Lexed.{lexed, onto_tokens, stopped, bad, IsEnd};
    ghost use Rattle.sb_tokens.specs.Written.{written, StandsIn, Pieces, IsWritten, AreTokens};
    ghost use Rattle.sb_tokens.specs.View.{token_view};

    /// The tokens of these bytes.
    pub fn new(bytes: &'a [u8]) -> Self
        ensures value { result ≡ lexed bytes.now }
        ensures spelled { All (StandsIn bytes.now) result.tokens }
        ensures written { (pieces : Pieces) → All IsWritten pieces → bytes.now ≡ written pieces
            → AreTokens result (map (λ p. p.0) pieces) (length bytes.now) }
    {
        Tokens {
            offset: 0,
            rest: bytes,
        }
    }

    /// The next token and its offset, or `None` at the end of the text. At the end, and behind a bad token, each further
    /// call answers the same.
    pub fn next_token(&mut self) -> Result<Option<(u64, Token<'a>)>, BadToken>
        ensures token { IfOk result (λ next. IfSome next
            (λ p. self.old ≡ onto_tokens (p.0, token_view p.1) self.new)) }
        ensures end { IfOk result (λ next. next ≡ None → IsEnd self.old × (self.new ≡ self.old)) }
        ensures bad { IfErr result (λ e. (self.old ≡ stopped (bad e.offset))
            × (self.new ≡ self.old)) }
    {
        let gap = gap_length(self.rest);
        let offset = self.offset + gap as u64;
        let rest = behind(self.rest, gap);
        if rest.is_empty() {
            return Ok(None);
        }
        let Some((token, count)) = first_token(rest) else {
            return Err(BadToken { offset });
        };
        self.offset = offset + count as u64;
        self.rest = behind(rest, count);
        Ok(Some((offset, token)))
    }
}

// What follows this many bytes.
fn behind(bytes: &[u8], count: usize) -> &[u8]
    requires { count ≤ length bytes.now }
    ensures { result.now ≡ drop count bytes.now }
{
    &bytes[count..]
}
