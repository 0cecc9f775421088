//! Quoted texts.
ghost use Rattle.std.specs.Prelude.{◌≡◌, ◌+◌, ◌<◌, ◌≤◌, true, Some, is_some, length, option_map, IfOk, IfSome};
ghost use Rattle.std.specs.List.{flat_map};
ghost use Rattle.std.specs.Str.{is_utf8};
ghost use Rattle.sb_tokens.specs.Quote.{quoted_byte, after_backslash, bytes_quoted, text_quoted};
ghost use Rattle.sb_tokens.specs.Token.{spelling, text};
ghost use Rattle.sb_tokens.specs.View.{token_view};

use crate::{Quoted, Token};
use sb_text::NoMemory;
use std::alloc::Global;
use std::str::from_utf8;

/// The text whose opening quote these bytes follow, and its number of bytes with both quotes.
pub(crate) fn first_text(behind: &[u8]) -> Option<(Token<'_>, usize)>
    ensures value { option_map (λ p. token_view p.0) result
        ≡ option_map text (text_quoted behind.now) }
    ensures count { IfSome result (λ p. p.1 ≡ length (spelling (token_view p.0))) }
    ensures bounds { IfSome result (λ p. (0 < p.1) × (p.1 ≤ 1 + length behind.now)) }
{
    let count = quoted_length(behind)?;
    if !is_utf8(&behind[..count]) {
        return None;
    }
    let raw = &behind[..count + 1];
    Some((Token::Text(Quoted::new(raw)), count + 2))
}

fn is_utf8(bytes: &[u8]) -> bool
    ensures { result ≡ is_utf8 bytes.now }
{
    from_utf8(bytes).is_ok()
}

// The number of bytes before the closing quote.
fn quoted_length(behind: &[u8]) -> Option<usize>
    ensures value { result ≡ option_map (λ value. length (flat_map quoted_byte value))
        (bytes_quoted behind.now) }
    ensures bound { IfSome result (λ count. count < length behind.now) }
{
    let mut escaping = false;
    for (at, byte) in behind.iter().enumerate() {
        if escaping {
            meant_after_backslash(*byte)?;
            escaping = false;
        } else {
            match *byte {
                b'"' => return Some(at),
                b'\\' => escaping = true,
                0..32 => return None,
                _ => {}
            }
        }
    }
    None
}

/// The bytes that are quoted where these follow the opening quote.
pub(crate) fn unquote(alloc: Global, behind: &[u8]) -> Result<Vec<u8>, NoMemory>
    requires { is_some (bytes_quoted behind.now) ≡ true }
    ensures { IfOk result (λ value. Some value.items ≡ bytes_quoted behind.now) }
{
    let mut value = Vec::with_capacity(alloc, behind.len())?;
    let mut escaping = false;
    for byte in behind {
        if escaping {
            let Some(meant) = meant_after_backslash(*byte) else {
                unreachable!()
            };
            value.push(meant)?;
            escaping = false;
        } else {
            match *byte {
                b'"' => return Ok(value),
                b'\\' => escaping = true,
                plain => value.push(plain)?,
            }
        }
    }
    unreachable!()
}

fn meant_after_backslash(byte: u8) -> Option<u8>
    ensures { result ≡ after_backslash byte }
{
    match byte {
        b'"' => Some(b'"'),
        b'\\' => Some(b'\\'),
        b'n' => Some(b'\n'),
        b't' => Some(b'\t'),
        b'r' => Some(b'\r'),
        _ => None,
    }
}
