//! Elements as texts.
ghost use Rattle.std.specs.Prelude.{◌≡◌, ◌==◌, [], ◌++◌, if◌then◌else◌, OnOk, OnErr, codes, length, take, map};
ghost use Rattle.std.specs.Fmt.{decimal};
ghost use Rattle.hex.specs.Hex.{encode_lower};
ghost use Rattle.sb_kind.specs.ElementText.{joined, val_text, item_text, element_text};

use crate::agg::Agg;
use crate::kind::Kind;
use sb_laws::NoMemory;
use sb_sketch::{Cells, Registers};
use sb_text::{Text, escape, write_i64, write_u64};
use sb_types::Val;
use std::alloc::Global;

/// Writes the text of a valid element at the end of `out`, such as `{a=1,b=2}`.
pub fn text(alloc: Global, _kind: &Kind, a: &Agg, out: &mut Vec<u8>) -> Result<(), NoMemory>
    ensures ok { OnOk result (out.new.items ≡ out.old.items ++ element_text a.now) }
    ensures err { OnErr result (out.new.items ≡ out.old.items) }
{
    let before = out.len();
    match push_element(alloc, a, out) {
        Ok(()) => Ok(()),
        Err(e) => {
            out.truncate(before);
            Err(e)
        }
    }
}

// Each of these stops in the middle where it finds no memory; what stood before is there still.
fn push_element(alloc: Global, a: &Agg, out: &mut Vec<u8>) -> Result<(), NoMemory>
    ensures ok { OnOk result (out.new.items ≡ out.old.items ++ element_text a.now) }
    ensures front { take (length out.old.items) out.new.items ≡ out.old.items }
{
    match a {
        Agg::Sum(number) | Agg::Min(number) | Agg::Max(number) => write_i64(alloc, out, *number),
        Agg::First(value) | Agg::Last(value) => sb_types::text(alloc, value, out),
        Agg::Concat(values) => push_list(alloc, values.as_slice(), out),
        Agg::Set(values) => push_set(alloc, values.as_slice(), out),
        Agg::Top(items) => push_items(alloc, items.as_slice(), out),
        Agg::Cms(cells) => push_cells(alloc, cells, out),
        Agg::Hll(registers) => push_registers(alloc, registers, out),
        Agg::Pair(left, right) => {
            out.push(b'(')?;
            push_element(alloc, left.get(), out)?;
            out.push(b',')?;
            push_element(alloc, right.get(), out)?;
            out.push(b')')?;
            Ok(())
        }
        Agg::Map(entries) => {
            out.push(b'{')?;
            for (at, entry) in entries.as_slice().iter().enumerate() {
                push_key(alloc, at, &entry.0, out)?;
                push_element(alloc, &entry.1, out)?;
            }
            out.push(b'}')?;
            Ok(())
        }
    }
}

// A comma before each but the first.
fn comma_before(at: usize) -> &'static [u8]
    ensures { result.now ≡ (if at == 0 then [] else codes ",") }
{
    if at == 0 {
        b"".as_slice()
    } else {
        b",".as_slice()
    }
}

fn push_key(alloc: Global, at: usize, key: &Val, out: &mut Vec<u8>) -> Result<(), NoMemory>
    ensures ok { OnOk result (out.new.items
        ≡ out.old.items ++ (if at == 0 then [] else codes ",") ++ val_text key.now ++ codes "=") }
    ensures front { take (length out.old.items) out.new.items ≡ out.old.items }
{
    out.extend_from_slice(comma_before(at))?;
    sb_types::text(alloc, key, out)?;
    out.push(b'=')?;
    Ok(())
}

fn push_values(alloc: Global, values: &[Val], out: &mut Vec<u8>) -> Result<(), NoMemory>
    ensures ok { OnOk result (out.new.items ≡ out.old.items ++ joined (map val_text values.now)) }
    ensures front { take (length out.old.items) out.new.items ≡ out.old.items }
{
    for (at, value) in values.iter().enumerate() {
        out.extend_from_slice(comma_before(at))?;
        sb_types::text(alloc, value, out)?;
    }
    Ok(())
}

fn push_list(alloc: Global, values: &[Val], out: &mut Vec<u8>) -> Result<(), NoMemory>
    ensures ok { OnOk result (out.new.items
        ≡ out.old.items ++ (codes "[" ++ joined (map val_text values.now) ++ codes "]")) }
    ensures front { take (length out.old.items) out.new.items ≡ out.old.items }
{
    out.push(b'[')?;
    push_values(alloc, values, out)?;
    out.push(b']')?;
    Ok(())
}

fn push_set(alloc: Global, values: &[Val], out: &mut Vec<u8>) -> Result<(), NoMemory>
    ensures ok { OnOk result (out.new.items
        ≡ out.old.items ++ (codes "{" ++ joined (map val_text values.now) ++ codes "}")) }
    ensures front { take (length out.old.items) out.new.items ≡ out.old.items }
{
    out.push(b'{')?;
    push_values(alloc, values, out)?;
    out.push(b'}')?;
    Ok(())
}

fn push_item(alloc: Global, item: &(i64, Text), out: &mut Vec<u8>) -> Result<(), NoMemory>
    ensures ok { OnOk result (out.new.items ≡ out.old.items ++ item_text item.now) }
    ensures front { take (length out.old.items) out.new.items ≡ out.old.items }
{
    out.push(b'(')?;
    write_i64(alloc, out, item.0)?;
    out.push(b',')?;
    escape(alloc, out, item.1.as_bytes())?;
    out.push(b')')?;
    Ok(())
}

fn push_items(alloc: Global, items: &[(i64, Text)], out: &mut Vec<u8>) -> Result<(), NoMemory>
    ensures ok { OnOk result (out.new.items
        ≡ out.old.items ++ (codes "[" ++ joined (map item_text items.now) ++ codes "]")) }
    ensures front { take (length out.old.items) out.new.items ≡ out.old.items }
{
    out.push(b'[')?;
    for (at, item) in items.iter().enumerate() {
        out.extend_from_slice(comma_before(at))?;
        push_item(alloc, item, out)?;
    }
    out.push(b']')?;
    Ok(())
}

fn push_cells(alloc: Global, cells: &Cells, out: &mut Vec<u8>) -> Result<(), NoMemory>
    ensures ok { OnOk result (out.new.items
        ≡ out.old.items ++ (codes "[" ++ joined (map decimal cells.now) ++ codes "]")) }
    ensures front { take (length out.old.items) out.new.items ≡ out.old.items }
{
    out.push(b'[')?;
    for at in 0..cells.len() {
        out.extend_from_slice(comma_before(at))?;
        write_u64(alloc, out, cells.get(at))?;
    }
    out.push(b']')?;
    Ok(())
}

// Only for the short form is a full list made.
fn push_registers(alloc: Global, registers: &Registers, out: &mut Vec<u8>) -> Result<(), NoMemory>
    ensures ok { OnOk result (out.new.items ≡ out.old.items ++ encode_lower registers.now) }
    ensures front { take (length out.old.items) out.new.items ≡ out.old.items }
{
    if let Some(all) = registers.as_slice() {
        return push_digits(alloc, all, out);
    }
    let all = registers.to_vec(alloc)?;
    push_digits(alloc, all.as_slice(), out)
}

fn push_digits(alloc: Global, bytes: &[u8], out: &mut Vec<u8>) -> Result<(), NoMemory>
    ensures ok { OnOk result (out.new.items ≡ out.old.items ++ encode_lower bytes.now) }
    ensures front { take (length out.old.items) out.new.items ≡ out.old.items }
{
    let text = hex::encode(alloc, bytes)?;
    out.extend_from_slice(text.as_bytes())
}
