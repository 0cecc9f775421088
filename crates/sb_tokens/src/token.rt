//! One token, and where it stands.
ghost use Rattle.std.specs.Prelude.{◌≡◌, true, Some, is_some};
ghost use Rattle.std.specs.Str.{is_utf8};
ghost use Rattle.sb_tokens.specs.Word.{is_name};
ghost use Rattle.sb_tokens.specs.Quote.{is_text, text_quoted};

use crate::quoting::unquote;
use crate::{Keyword, Symbol};
use sb_text::{NoMemory, Text};
use std::alloc::Global;

/// A name, lent from the text that it stands in.
#[derive(Clone, Copy)]
pub struct Name<'a> {
    bytes: &'a [u8],
    ghost is_name: { is_name bytes.now ≡ true },
}

/// A quoted text, lent from the text that it stands in.
#[derive(Clone, Copy)]
pub struct Quoted<'a> {
    // What follows the opening quote, with the closing one.
    raw: &'a [u8],
    ghost is_quoted: { is_some (text_quoted raw.now) ≡ true },
}

/// A token, lent from the text that it stands in.
#[derive(Clone, Copy)]
pub enum Token<'a> {
    Keyword(Keyword),
    Name(Name<'a>),
    Int(u64),
    Text(Quoted<'a>),
    Symbol(Symbol),
}

impl<'a> Name<'a> {
    ghost use Rattle.std.specs.Prelude.{IfOk};
    ghost use Rattle.sb_tokens.specs.View.{name_bytes};

    pub(crate) fn new(bytes: &'a [u8]) -> Self
        requires { is_name bytes.now ≡ true }
        ensures { name_bytes result ≡ bytes.now }
    {
        Name { bytes }
    }

    /// The name's bytes.
    pub fn as_bytes(self) -> &'a [u8]
        ensures value { result.now ≡ name_bytes self.entry }
        ensures name { is_name result.now ≡ true }
    {
        self.bytes
    }

    /// The name as a text of its own.
    pub fn to_text(self, alloc: Global) -> Result<Text, NoMemory>
        ensures value { IfOk result (λ text. text ≡ name_bytes self.entry) }
        ensures name { IfOk result (λ text. is_name text ≡ true) }
    {
        let bytes = Vec::from_slice(alloc, self.bytes)?;
        Ok(text_of(bytes))
    }
}

impl<'a> Quoted<'a> {
    ghost use Rattle.std.specs.Prelude.{IfOk};
    ghost use Rattle.sb_tokens.specs.View.{quoted_value};

    pub(crate) fn new(raw: &'a [u8]) -> Self
        requires { is_some (text_quoted raw.now) ≡ true }
        ensures { Some (quoted_value result) ≡ text_quoted raw.now }
    {
        Quoted { raw }
    }

    /// The text that is quoted, with its escapes resolved.
    pub fn to_text(self, alloc: Global) -> Result<Text, NoMemory>
        ensures value { IfOk result (λ text. text ≡ quoted_value self.entry) }
        ensures text { IfOk result (λ text. is_text text ≡ true) }
    {
        let bytes = unquote(alloc, self.raw)?;
        Ok(text_of(bytes))
    }
}

// The text that the bytes are known to be.
fn text_of(bytes: Vec<u8>) -> Text
    requires { is_utf8 bytes.items ≡ true }
    ensures { result ≡ bytes.items }
{
    match Text::from_bytes(bytes) {
        Some(text) => text,
        None => unreachable!(),
    }
}
