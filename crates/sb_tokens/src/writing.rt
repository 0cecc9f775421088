//! Tokens as they are written. The tokens that are written with a blank behind each are the tokens of that text.
ghost use Rattle.std.specs.Prelude.{◌≡◌, ◌++◌, OnOk, OnErr, take, length};
ghost use Rattle.sb_tokens.specs.Quote.{quoted_byte};
ghost use Rattle.sb_tokens.specs.Token.{keyword, name, int, text, symbol, spelling};

use crate::{Keyword, Symbol};
use sb_text::{NoMemory, write_u64};
use std::alloc::Global;

/// Writes a keyword at the end of `out`.
pub fn write_keyword(_alloc: Global, out: &mut Vec<u8>, word: Keyword) -> Result<(), NoMemory>
    ensures ok { OnOk result (out.new.items ≡ out.old.items ++ spelling (keyword word)) }
    ensures err { OnErr result (out.new.items ≡ out.old.items) }
{
    out.extend_from_slice(word.text().as_bytes())
}

/// Writes a name at the end of `out`.
pub fn write_name(_alloc: Global, out: &mut Vec<u8>, bytes: &[u8]) -> Result<(), NoMemory>
    ensures ok { OnOk result (out.new.items ≡ out.old.items ++ spelling (name bytes.now)) }
    ensures err { OnErr result (out.new.items ≡ out.old.items) }
{
    out.extend_from_slice(bytes)
}

/// Writes a number at the end of `out`.
pub fn write_int(alloc: Global, out: &mut Vec<u8>, number: u64) -> Result<(), NoMemory>
    ensures ok { OnOk result (out.new.items ≡ out.old.items ++ spelling (int number)) }
    ensures err { OnErr result (out.new.items ≡ out.old.items) }
{
    write_u64(alloc, out, number)
}

/// Writes a symbol at the end of `out`.
pub fn write_symbol(_alloc: Global, out: &mut Vec<u8>, sign: Symbol) -> Result<(), NoMemory>
    ensures ok { OnOk result (out.new.items ≡ out.old.items ++ spelling (symbol sign)) }
    ensures err { OnErr result (out.new.items ≡ out.old.items) }
{
    out.extend_from_slice(sign.text().as_bytes())
}

/// Writes a text in quotes at the end of `out`. A control byte other than LF, tab and CR, which no quoted text can have,
/// stands there as it is.
pub fn write_text(_alloc: Global, out: &mut Vec<u8>, value: &[u8]) -> Result<(), NoMemory>
    ensures ok { OnOk result (out.new.items ≡ out.old.items ++ spelling (text value.now)) }
    ensures err { OnErr result (out.new.items ≡ out.old.items) }
{
    let before = out.len();
    match push_quoted(out, value) {
        Ok(()) => Ok(()),
        Err(e) => {
            out.truncate(before);
            Err(e)
        }
    }
}

// Stops in the middle where it finds no memory; what stood before is there still.
fn push_quoted(out: &mut Vec<u8>, value: &[u8]) -> Result<(), NoMemory>
    ensures ok { OnOk result (out.new.items ≡ out.old.items ++ spelling (text value.now)) }
    ensures front { take (length out.old.items) out.new.items ≡ out.old.items }
{
    out.push(b'"')?;
    for byte in value {
        push_byte(out, *byte)?;
    }
    out.push(b'"')?;
    Ok(())
}

fn push_byte(out: &mut Vec<u8>, byte: u8) -> Result<(), NoMemory>
    ensures ok { OnOk result (out.new.items ≡ out.old.items ++ quoted_byte byte) }
    ensures err { OnErr result (out.new.items ≡ out.old.items) }
{
    match byte {
        b'"' => out.extend_from_slice(b"\\\""),
        b'\\' => out.extend_from_slice(b"\\\\"),
        b'\n' => out.extend_from_slice(b"\\n"),
        b'\t' => out.extend_from_slice(b"\\t"),
        b'\r' => out.extend_from_slice(b"\\r"),
        plain => out.extend_from_slice(&[plain]),
    }
}
