//! Words of texts, and texts in lower case.
ghost use Rattle.std.specs.Prelude.{◌≡◌, ◌<◌, [], ◌∷◌, IsUtf8, IfOk, IfSome, MatchOption, map, length};
ghost use Rattle.sb_meaning.specs.Words.{lowered, words_of, is_blank, is_filled, pieces, pieces_left};
ghost use Rattle.sb_types.specs.Value.{text, list, values_of};
ghost use Rattle.sb_types.specs.ValView.{value_of};

use crate::evaluation::listed;
use sb_text::{NoMemory, Text};
use sb_types::Val;
use std::alloc::Global;
use std::marker::Model;

/// A text with A to Z as a to z; all other bytes stay.
pub fn lower(alloc: Global, bytes: &[u8]) -> Result<Val, NoMemory>
    requires { IsUtf8 bytes.now }
    ensures { IfOk result (λ v. value_of v ≡ text (lowered bytes.now)) }
{
    let mut text = String::from_utf8_lossy(alloc, bytes)?;
    text.make_ascii_lowercase();
    Ok(Val::Text(Text::from_string(text)))
}

/// The first words of a text, at most this many: what isn't empty between tabs, LFs, CRs and spaces.
pub fn first_words(alloc: Global, most: u64, bytes: &[u8]) -> Result<Val, NoMemory>
    requires { IsUtf8 bytes.now }
    ensures { IfOk result (λ v. value_of v
        ≡ list (values_of (map text (words_of most bytes.now)))) }
{
    Ok(listed(found_words(alloc, most, bytes)?))
}

fn found_words(alloc: Global, most: u64, bytes: &[u8]) -> Result<Vec<Val>, NoMemory>
    requires { IsUtf8 bytes.now }
    ensures { IfOk result (λ found. map value_of found.items ≡ map text (words_of most bytes.now)) }
{
    let mut found = Vec::new(alloc);
    let mut left = Words::new(most, bytes);
    while let Some(bytes) = left.next_word() {
        found.push(word(alloc, bytes)?)?;
    }
    Ok(found)
}

/// The words of a text that are still to come, lent from it.
#[derive(Drop)]
pub struct Words<'a> {
    most: u64,
    rest: Option<&'a [u8]>,
}

impl<'a> Model for Words<'a> {
    ghost use Rattle.std.specs.Prelude.{List, ℕ, IfSome, IsUtf8, filter, take};
    ghost use Rattle.sb_meaning.specs.Words.{is_filled, pieces_left};

    ghost Value = { List (List ℕ) };

    ghost view = { λ s. take s.most (filter is_filled (pieces_left s.rest)) };

    ghost invariant = { λ s. IfSome s.rest (λ rest. IsUtf8 rest.now) };
}

impl<'a> Words<'a> {
    /// The first words of a text, at most this many.
    pub fn new(most: u64, bytes: &'a [u8]) -> Self
        requires { IsUtf8 bytes.now }
        ensures { result ≡ words_of most bytes.now }
    {
        Words {
            most,
            rest: Some(bytes),
        }
    }

    /// The next word.
    pub fn next_word(&mut self) -> Option<&'a [u8]>
        ensures word { MatchOption result (self.old ≡ []) (λ word. self.old ≡ word.now ∷ self.new) }
        ensures utf8 { IfSome result (λ word. IsUtf8 word.now) }
    {
        if self.most == 0 {
            return None;
        }
        while let Some(rest) = self.rest {
            let (piece, behind) = first_piece(rest);
            self.rest = behind;
            if is_filled(piece) {
                self.most -= 1;
                return Some(piece);
            }
        }
        None
    }
}

fn is_filled(piece: &[u8]) -> bool
    ensures { result ≡ is_filled piece.now }
{
    !piece.is_empty()
}

/// A word as a text.
pub fn word(alloc: Global, bytes: &[u8]) -> Result<Val, NoMemory>
    requires { IsUtf8 bytes.now }
    ensures { IfOk result (λ v. value_of v ≡ text bytes.now) }
{
    let text = String::from_utf8_lossy(alloc, bytes)?;
    Ok(Val::Text(Text::from_string(text)))
}

// What stands before the first blank, and what follows it, if there is one.
fn first_piece(bytes: &[u8]) -> (&[u8], Option<&[u8]>)
    requires { IsUtf8 bytes.now }
    ensures value { pieces bytes.now ≡ result.0.now ∷ pieces_left result.1 }
    ensures piece { IsUtf8 result.0.now }
    ensures rest { IfSome result.1 (λ rest. IsUtf8 rest.now) }
    ensures shorter { IfSome result.1 (λ rest. length rest.now < length bytes.now) }
{
    for (at, byte) in bytes.iter().enumerate() {
        if is_blank(*byte) {
            return (&bytes[..at], Some(&bytes[at + 1..]));
        }
    }
    (bytes, None)
}

fn is_blank(byte: u8) -> bool
    ensures { result ≡ is_blank byte }
{
    byte == b'\t' || byte == b'\n' || byte == b'\r' || byte == b' '
}
