//! Words and numbers: what letters and digits spell.
ghost use Rattle.std.specs.Prelude.{◌≡◌, ◌<◌, ◌≤◌, true, length, option_map, get_or, IfSome};
ghost use Rattle.std.specs.Char.{is_ascii_digit};
ghost use Rattle.std.specs.List.{prefix_len, take_while};
ghost use Rattle.sb_tokens.specs.Word.{is_letter, is_letter_or_digit, are_word_bytes};
ghost use Rattle.sb_tokens.specs.Front.{word_token, number_token};
ghost use Rattle.sb_tokens.specs.Token.{spelling};
ghost use Rattle.sb_tokens.specs.View.{token_view};

use crate::{Keyword, Name, Token};
use sb_text::read_i64;

const WORD_LIMIT: usize = 64;

pub(crate) fn is_letter(byte: u8) -> bool
    ensures { result ≡ is_letter byte }
{
    byte.is_ascii_alphabetic() || byte == b'_'
}

fn is_letter_or_digit(byte: u8) -> bool
    ensures { result ≡ is_letter_or_digit byte }
{
    is_letter(byte) || byte.is_ascii_digit()
}

/// The keyword or name at the front, where a letter stands there, and its number of bytes.
pub(crate) fn first_word(bytes: &[u8]) -> Option<(Token<'_>, usize)>
    requires { is_letter (get_or bytes.now 0 0) ≡ true }
    ensures value { option_map (λ p. token_view p.0) result
        ≡ word_token (take_while is_letter_or_digit bytes.now) }
    ensures count { IfSome result (λ p. p.1 ≡ length (spelling (token_view p.0))) }
    ensures bounds { IfSome result (λ p. (0 < p.1) × (p.1 ≤ length bytes.now)) }
{
    let word = leading_letters_and_digits(bytes);
    Some((word_token(word)?, word.len()))
}

/// The number at the front, where a digit stands there, and its number of bytes.
pub(crate) fn first_number(bytes: &[u8]) -> Option<(Token<'_>, usize)>
    requires { is_ascii_digit (get_or bytes.now 0 0) ≡ true }
    ensures value { option_map (λ p. token_view p.0) result
        ≡ number_token (take_while is_letter_or_digit bytes.now) }
    ensures count { IfSome result (λ p. p.1 ≡ length (spelling (token_view p.0))) }
    ensures bounds { IfSome result (λ p. (0 < p.1) × (p.1 ≤ length bytes.now)) }
{
    let digits = leading_letters_and_digits(bytes);
    Some((number_token(digits)?, digits.len()))
}

fn leading_letters_and_digits(bytes: &[u8]) -> &[u8]
    ensures value { result.now ≡ take_while is_letter_or_digit bytes.now }
    ensures bound { length result.now ≤ length bytes.now }
{
    &bytes[..count_letters_and_digits(bytes)]
}

fn count_letters_and_digits(bytes: &[u8]) -> usize
    ensures count { result ≡ prefix_len is_letter_or_digit bytes.now }
    ensures bound { result ≤ length bytes.now }
{
    bytes
        .iter()
        .take_while(|byte| is_letter_or_digit(**byte))
        .count()
}

// The keyword or name that letters and digits are, where they are few enough.
fn word_token(word: &[u8]) -> Option<Token<'_>>
    requires { are_word_bytes word.now ≡ true }
    ensures value { option_map token_view result ≡ word_token word.now }
    ensures spelled { IfSome result (λ token. spelling (token_view token) ≡ word.now) }
{
    if word.len() > WORD_LIMIT {
        return None;
    }
    match Keyword::from_bytes(word) {
        Some(keyword) => Some(Token::Keyword(keyword)),
        None => Some(Token::Name(Name::new(word))),
    }
}

// The number that letters and digits are.
fn number_token(digits: &[u8]) -> Option<Token<'_>>
    requires { is_ascii_digit (get_or digits.now 0 0) ≡ true }
    ensures value { option_map token_view result ≡ number_token digits.now }
    ensures spelled { IfSome result (λ token. spelling (token_view token) ≡ digits.now) }
{
    let number = read_i64(digits)?;
    Some(Token::Int(number as u64))
}
