//! Values without parts at the front of the bytes.
ghost use Rattle.std.specs.Prelude.{◌≡◌, Some, None, IfOk, MatchOption, option_map};
ghost use Rattle.sb_types.specs.Read.{ends_part, leaf, after_leaf, expect, truth_of, front_of, value_front};
ghost use Rattle.sb_types.specs.ValueType.{ints, texts, truths};

use crate::values::Val;
use sb_text::{NoMemory, read_i64, unescape};
use std::alloc::Global;

/// An int at the front of the bytes, with what follows it.
pub fn read_int(bytes: &[u8]) -> Option<(Val, &[u8])>
    ensures { option_map front_of result ≡ value_front ints bytes.now }
{
    let (leaf, rest) = split_leaf(bytes);
    let number = read_i64(leaf)?;
    Some((Val::Int(number), rest))
}

/// A text.
pub fn read_text(alloc: Global, bytes: &[u8]) -> Result<Option<(Val, &[u8])>, NoMemory>
    ensures { IfOk result (λ read. option_map front_of read ≡ value_front texts bytes.now) }
{
    let (leaf, rest) = split_leaf(bytes);
    match unescape(alloc, leaf)? {
        Some(text) => Ok(Some((Val::Text(text), rest))),
        None => Ok(None),
    }
}

/// A truth.
pub fn read_bool(bytes: &[u8]) -> Option<(Val, &[u8])>
    ensures { option_map front_of result ≡ value_front truths bytes.now }
{
    let (leaf, rest) = split_leaf(bytes);
    let truth = truth_in(leaf)?;
    Some((Val::Bool(truth), rest))
}

fn truth_in(bytes: &[u8]) -> Option<bool>
    ensures { result ≡ truth_of bytes.now }
{
    if bytes == b"true".as_slice() {
        return Some(true);
    }
    if bytes == b"false".as_slice() {
        return Some(false);
    }
    None
}

/// The text of a part without parts, up to the end or one of `,`, `)`, `]`, `}` and `=`, and what follows it.
pub fn split_leaf(bytes: &[u8]) -> (&[u8], &[u8])
    ensures leaf { result.0.now ≡ leaf bytes.now }
    ensures rest { result.1.now ≡ after_leaf bytes.now }
{
    for (at, byte) in bytes.iter().enumerate() {
        if ends_part(*byte) {
            return (&bytes[..at], &bytes[at..]);
        }
    }
    (bytes, &[])
}

fn ends_part(byte: u8) -> bool
    ensures { result ≡ ends_part byte }
{
    matches!(byte, b',' | b')' | b']' | b'}' | b'=')
}

/// What follows this byte.
pub fn expect(byte: u8, bytes: &[u8]) -> Option<&[u8]>
    ensures { MatchOption result (expect byte bytes.now ≡ None)
        (λ rest. expect byte bytes.now ≡ Some rest.now) }
{
    match bytes {
        [first, rest @ ..] if *first == byte => Some(rest),
        _ => None,
    }
}
