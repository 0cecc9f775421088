//! Values as texts.
ghost use Rattle.std.specs.Prelude.{◌≡◌, ◌==◌, [], ◌++◌, if◌then◌else◌, OnOk, OnErr, codes, length, take};
ghost use Rattle.sb_types.specs.Text.{value_text, parts_text};
ghost use Rattle.sb_types.specs.ValView.{value_of, view_values};

use crate::values::Val;
use sb_text::{NoMemory, escape, write_i64};
use std::alloc::Global;

/// Writes the text of a value at the end of `out`, such as `(a%2Cb,+3)`.
pub fn text(alloc: Global, value: &Val, out: &mut Vec<u8>) -> Result<(), NoMemory>
    ensures ok { OnOk result (out.new.items ≡ out.old.items ++ value_text (value_of value.now)) }
    ensures err { OnErr result (out.new.items ≡ out.old.items) }
{
    let before = out.len();
    match push_value(alloc, value, out) {
        Ok(()) => Ok(()),
        Err(e) => {
            out.truncate(before);
            Err(e)
        }
    }
}

// Stops in the middle where it finds no memory; what stood before is there still.
#[cycle(text)]
fn push_value(alloc: Global, value: &Val, out: &mut Vec<u8>) -> Result<(), NoMemory>
    ensures ok { OnOk result (out.new.items ≡ out.old.items ++ value_text (value_of value.now)) }
    ensures front { take (length out.old.items) out.new.items ≡ out.old.items }
{
    match value {
        Val::Int(number) => write_i64(alloc, out, *number),
        Val::Text(text) => escape(alloc, out, text.as_bytes()),
        Val::Bool(true) => out.extend_from_slice(b"true"),
        Val::Bool(false) => out.extend_from_slice(b"false"),
        Val::Pair(left, right) => {
            out.push(b'(')?;
            push_value(alloc, left.get(), out)?;
            out.push(b',')?;
            push_value(alloc, right.get(), out)?;
            out.push(b')')?;
            Ok(())
        }
        Val::Opt(None) => {
            out.push(b'~')?;
            Ok(())
        }
        Val::Opt(Some(inside)) => {
            out.push(b'+')?;
            push_value(alloc, inside.get(), out)?;
            Ok(())
        }
        Val::List(parts) => {
            out.push(b'[')?;
            push_parts(alloc, parts.as_slice(), out)?;
            out.push(b']')?;
            Ok(())
        }
        Val::Rec(parts) => {
            out.push(b'{')?;
            push_parts(alloc, parts.as_slice(), out)?;
            out.push(b'}')?;
            Ok(())
        }
    }
}

#[cycle(text)]
fn push_parts(alloc: Global, parts: &[Val], out: &mut Vec<u8>) -> Result<(), NoMemory>
    ensures ok { OnOk result (out.new.items ≡ out.old.items ++ parts_text (view_values parts.now)) }
    ensures front { take (length out.old.items) out.new.items ≡ out.old.items }
{
    for (at, part) in parts.iter().enumerate() {
        out.extend_from_slice(comma_before(at))?;
        push_value(alloc, part, out)?;
    }
    Ok(())
}

// A comma before each part but the first.
fn comma_before(at: usize) -> &'static [u8]
    ensures { result.now ≡ (if at == 0 then [] else codes ",") }
{
    if at == 0 {
        b"".as_slice()
    } else {
        b",".as_slice()
    }
}
