//! The form of texts in the fields of logs and services.
ghost use Rattle.std.specs.Prelude.{◌≡◌, true, ℕ, List, ◌++◌, IsUtf8, OnOk, OnErr, IfOk, IfSome, Some, length, take, option_map};
ghost use Rattle.sb_text.specs.Field.{field_escaped_byte, field_escaped, field_unescaped, field_text, after_backslash};

use crate::{NoMemory, Text};
use std::alloc::Global;

/// Writes the form that a text has in a field of a log or a service at the end of `out`: without tabs and line ends.
pub fn field_escape(_alloc: Global, out: &mut Vec<u8>, bytes: &[u8]) -> Result<(), NoMemory>
    ensures ok { OnOk result (out.new.items ≡ out.old.items ++ field_escaped bytes.now) }
    ensures err { OnErr result (out.new.items ≡ out.old.items) }
{
    let before = out.len();
    match push_field_escaped(out, bytes) {
        Ok(()) => Ok(()),
        Err(e) => {
            out.truncate(before);
            Err(e)
        }
    }
}

// Stops in the middle where it finds no memory; what stood before is there still.
fn push_field_escaped(out: &mut Vec<u8>, bytes: &[u8]) -> Result<(), NoMemory>
    ensures ok { OnOk result (out.new.items ≡ out.old.items ++ field_escaped bytes.now) }
    ensures front { take (length out.old.items) out.new.items ≡ out.old.items }
{
    for byte in bytes {
        push_field_byte(out, *byte)?;
    }
    Ok(())
}

fn push_field_byte(out: &mut Vec<u8>, byte: u8) -> Result<(), NoMemory>
    ensures ok { OnOk result (out.new.items ≡ out.old.items ++ field_escaped_byte byte) }
    ensures err { OnErr result (out.new.items ≡ out.old.items) }
{
    match byte {
        b'\\' => out.extend_from_slice(b"\\\\"),
        b'\t' => out.extend_from_slice(b"\\t"),
        b'\n' => out.extend_from_slice(b"\\n"),
        b'\r' => out.extend_from_slice(b"\\r"),
        plain => out.extend_from_slice(&[plain]),
    }
}

/// The text that a field of a log or a service spells; `None` exactly where it spells none: at a raw tab, LF or CR, a
/// backslash that begins no escape, or bytes that aren't UTF-8.
pub fn field_unescape(alloc: Global, bytes: &[u8]) -> Result<Option<Text>, NoMemory>
    ensures value { IfOk result (λ text. text ≡ field_text bytes.now) }
    ensures spelled { IfOk result (λ text. IfSome text
        (λ t. IsUtf8 t × (bytes.now ≡ field_escaped t))) }
    ensures every { IfOk result (λ text. (t : List ℕ) → IsUtf8 t → bytes.now ≡ field_escaped t
        → text ≡ Some t) }
{
    match unescape_bytes(alloc, bytes)? {
        Some(text) => Ok(Text::from_bytes(text)),
        None => Ok(None),
    }
}

fn unescape_bytes(alloc: Global, bytes: &[u8]) -> Result<Option<Vec<u8>>, NoMemory>
    ensures { IfOk result (λ text. option_map (λ t. t.items) text ≡ field_unescaped bytes.now) }
{
    // Most fields are copied at once.
    if are_plain(bytes) {
        let mut text = Vec::new(alloc);
        text.extend_from_slice(bytes)?;
        return Ok(Some(text));
    }
    unescape_each(alloc, bytes)
}

// Whether each byte stands for itself.
fn are_plain(bytes: &[u8]) -> bool
    ensures { result ≡ true → field_unescaped bytes.now ≡ Some bytes.now }
{
    for byte in bytes {
        match *byte {
            b'\\' | b'\t' | b'\n' | b'\r' => return false,
            _ => {}
        }
    }
    true
}

fn unescape_each(alloc: Global, bytes: &[u8]) -> Result<Option<Vec<u8>>, NoMemory>
    ensures { IfOk result (λ text. option_map (λ t. t.items) text ≡ field_unescaped bytes.now) }
{
    let mut text = Vec::with_capacity(alloc, bytes.len())?;
    let mut escaping = false;
    for byte in bytes {
        if escaping {
            let Some(meant) = meant_after_backslash(*byte) else {
                return Ok(None);
            };
            text.push(meant)?;
            escaping = false;
        } else {
            match *byte {
                b'\\' => escaping = true,
                b'\t' | b'\n' | b'\r' => return Ok(None),
                plain => text.push(plain)?,
            }
        }
    }
    if escaping { Ok(None) } else { Ok(Some(text)) }
}

fn meant_after_backslash(byte: u8) -> Option<u8>
    ensures { result ≡ after_backslash byte }
{
    match byte {
        b'\\' => Some(b'\\'),
        b't' => Some(b'\t'),
        b'n' => Some(b'\n'),
        b'r' => Some(b'\r'),
        _ => None,
    }
}
