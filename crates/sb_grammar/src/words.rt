//! Single tokens as text, each with a space behind it.

ghost use Rattle.std.specs.Prelude.{◌≡◌, ◌==◌, [], ◌++◌, if◌then◌else◌, codes, OnOk};
ghost use Rattle.sb_grammar.specs.Text as spec;

use sb_text::NoMemory;
use sb_tokens::{write_int, write_text};
use std::alloc::Global;

/// Writes a number.
pub fn push_number(alloc: Global, number: u64, out: &mut Vec<u8>) -> Result<(), NoMemory>
    ensures { OnOk result (out.new.items ≡ out.old.items ++ spec.number_text number) }
{
    write_int(alloc, out, number)?;
    out.extend_from_slice(b" ")
}

/// Writes a name or a keyword.
pub fn push_word(_alloc: Global, word: &[u8], out: &mut Vec<u8>) -> Result<(), NoMemory>
    ensures { OnOk result (out.new.items ≡ out.old.items ++ spec.word_text word.now) }
{
    out.extend_from_slice(word)?;
    out.extend_from_slice(b" ")
}

/// Writes a text between quotes.
pub fn push_quoted(alloc: Global, value: &[u8], out: &mut Vec<u8>) -> Result<(), NoMemory>
    ensures { OnOk result (out.new.items ≡ out.old.items ++ spec.quoted_text value.now) }
{
    write_text(alloc, out, value)?;
    out.extend_from_slice(b" ")
}

/// A comma before each part but the first.
pub fn comma_before(at: usize) -> &'static [u8]
    ensures { result.now ≡ (if at == 0 then [] else codes ", ") }
{
    if at == 0 {
        b"".as_slice()
    } else {
        b", ".as_slice()
    }
}
