//! The escaped form of texts in reports, scripts and transcripts.
ghost use Rattle.std.specs.Prelude.{◌≡◌, true, ℕ, ◌<◌, List, ◌++◌, Some, None, IsUtf8, OnOk, OnErr, IfOk, IfSome, IfNone, MatchOption, length, take, option_map};
ghost use Rattle.std.specs.List.{list_all};
ghost use Rattle.sb_text.specs.Escape.{is_plain, hex_digit, escaped_byte, escaped, hex_value, byte_of_digits, after_percent, bytes_unescaped, unescaped, text_unescaped};
ghost use Rattle.sb_text.specs.Field.{onto_text};

use crate::{NoMemory, Text};
use std::alloc::Global;

/// Writes the escaped form of a text at the end of `out`: a form of printable bytes without blanks, brackets and
/// commas, as reports, scripts and transcripts print it.
pub fn escape(_alloc: Global, out: &mut Vec<u8>, bytes: &[u8]) -> Result<(), NoMemory>
    ensures ok { OnOk result (out.new.items ≡ out.old.items ++ escaped bytes.now) }
    ensures err { OnErr result (out.new.items ≡ out.old.items) }
{
    // Most texts are copied at once.
    if is_plain_text(bytes) {
        return out.extend_from_slice(bytes);
    }
    let before = out.len();
    match push_escaped(out, bytes) {
        Ok(()) => Ok(()),
        Err(e) => {
            out.truncate(before);
            Err(e)
        }
    }
}

/// The text that an escaped form spells; `None` exactly where the bytes are no text's escaped form.
pub fn unescape(alloc: Global, bytes: &[u8]) -> Result<Option<Text>, NoMemory>
    ensures value { IfOk result (λ text. text ≡ text_unescaped bytes.now) }
    ensures spelled { IfOk result (λ text. IfSome text (λ t. IsUtf8 t × (bytes.now ≡ escaped t))) }
    ensures every { IfOk result (λ text. (t : List ℕ) → IsUtf8 t → bytes.now ≡ escaped t
        → text ≡ Some t) }
{
    match unescape_bytes(alloc, bytes)? {
        Some(text) => Ok(Text::from_bytes(text)),
        None => Ok(None),
    }
}

fn unescape_bytes(alloc: Global, bytes: &[u8]) -> Result<Option<Vec<u8>>, NoMemory>
    ensures { IfOk result (λ text. option_map (λ t. t.items) text ≡ unescaped bytes.now) }
{
    match bytes {
        [] => Ok(None),
        [b'%'] => Ok(Some(Vec::new(alloc))),
        _ => unescape_several(alloc, bytes),
    }
}

fn unescape_several(alloc: Global, bytes: &[u8]) -> Result<Option<Vec<u8>>, NoMemory>
    ensures { IfOk result (λ text. option_map (λ t. t.items) text ≡ bytes_unescaped bytes.now) }
{
    let mut text = Vec::with_capacity(alloc, bytes.len())?;
    let mut left = bytes;
    while !left.is_empty() {
        let Some((byte, rest)) = unescape_first(left) else {
            return Ok(None);
        };
        text.push(byte)?;
        left = rest;
    }
    Ok(Some(text))
}

// The byte that the front of an escaped form spells, and what follows it.
fn unescape_first(bytes: &[u8]) -> Option<(u8, &[u8])>
    requires { 0 < length bytes.now }
    ensures value { MatchOption result (bytes_unescaped bytes.now ≡ None)
        (λ first. bytes_unescaped bytes.now ≡ onto_text (Some first.0)
        (bytes_unescaped first.1.now)) }
    ensures shorter { IfSome result (λ first. length first.1.now < length bytes.now) }
{
    match bytes {
        [b'%', high, low, rest @ ..] => Some((meant_after_percent(*high, *low)?, rest)),
        [byte, rest @ ..] if is_plain_byte(*byte) => Some((*byte, rest)),
        _ => None,
    }
}

fn meant_after_percent(high: u8, low: u8) -> Option<u8>
    ensures { result ≡ after_percent high low }
{
    let byte = 16 * value_of_hex(high)? + value_of_hex(low)?;
    if is_plain_byte(byte) {
        None
    } else {
        Some(byte)
    }
}

fn value_of_hex(digit: u8) -> Option<u8>
    ensures value { result ≡ hex_value digit }
    ensures bound { IfSome result (λ n. n < 16) }
{
    match digit {
        b'0'..=b'9' => Some(digit - b'0'),
        b'A'..=b'F' => Some(digit - b'A' + 10),
        _ => None,
    }
}

/// Whether a text is its own escaped form.
pub(crate) fn is_plain_text(bytes: &[u8]) -> bool
    ensures { result ≡ true → escaped bytes.now ≡ bytes.now }
{
    !bytes.is_empty() && are_plain(bytes)
}

fn are_plain(bytes: &[u8]) -> bool
    ensures { result ≡ list_all is_plain bytes.now }
{
    for byte in bytes {
        if !is_plain_byte(*byte) {
            return false;
        }
    }
    true
}

// Stops in the middle where it finds no memory; what stood before is there still.
fn push_escaped(out: &mut Vec<u8>, bytes: &[u8]) -> Result<(), NoMemory>
    ensures ok { OnOk result (out.new.items ≡ out.old.items ++ escaped bytes.now) }
    ensures front { take (length out.old.items) out.new.items ≡ out.old.items }
{
    if bytes.is_empty() {
        out.push(b'%')?;
        return Ok(());
    }
    for byte in bytes {
        push_byte(out, *byte)?;
    }
    Ok(())
}

fn push_byte(out: &mut Vec<u8>, byte: u8) -> Result<(), NoMemory>
    ensures ok { OnOk result (out.new.items ≡ out.old.items ++ escaped_byte byte) }
    ensures err { OnErr result (out.new.items ≡ out.old.items) }
{
    if is_plain_byte(byte) {
        out.push(byte)?;
        return Ok(());
    }
    out.extend_from_slice(&[b'%', hex(byte / 16), hex(byte % 16)])
}

fn is_plain_byte(byte: u8) -> bool
    ensures { result ≡ is_plain byte }
{
    match byte {
        b'%' | b'(' | b')' | b',' | b'[' | b']' | b'{' | b'}' | b'=' => false,
        33..=126 | 128..=255 => true,
        _ => false,
    }
}

fn hex(digit: u8) -> u8
    requires { digit < 16 }
    ensures { result ≡ hex_digit digit }
{
    if digit < 10 {
        b'0' + digit
    } else {
        b'A' - 10 + digit
    }
}
