//! Rows of a report.
ghost use Rattle.std.specs.Prelude.{◌≡◌, ◌<◌, [], ◌∷◌, ◌++◌, length, slice_get, take, OnOk, OnErr};
ghost use Rattle.std.specs.List.{flat_map};
ghost use Rattle.sb_feed.specs.Jobs.{AreValid, meant, valid_by};
ghost use Rattle.sb_report.specs.Report.{printed_row};

use sb_feed::{KeyBytes, Printed, Rows};
use sb_laws::{NoMemory, Semigroup};
use sb_text::Text;
use std::alloc::Global;

/// Writes the rows at the end of `out`: for each key the line STORE, tab, KEY, tab, VALUE, with the names and texts of
/// the family.
pub fn report<F: Printed>(
    alloc: Global,
    family: &F,
    rows: &Rows<<F::M as Semigroup>::El>,
    out: &mut Vec<u8>,
) -> Result<(), NoMemory>
    requires { AreValid (meant F.M.valid F.M.add (F.monoids family.now)) rows.now.rows }
    ensures ok { OnOk result (out.new.items
        ≡ out.old.items ++ flat_map (printed_row (F.name family.now) (F.printed family.now))
        rows.now.rows) }
    ensures err { OnErr result (out.new.items ≡ out.old.items) }
{
    let before = out.len();
    match push_rows(alloc, family, rows.rows.as_slice(), out) {
        Ok(()) => Ok(()),
        Err(e) => {
            out.truncate(before);
            Err(e)
        }
    }
}

/// Writes the row of a key at the end of `out`.
pub fn write_row<F: Printed>(
    alloc: Global,
    family: &F,
    key: &KeyBytes,
    value: &<F::M as Semigroup>::El,
    out: &mut Vec<u8>,
) -> Result<(), NoMemory>
    requires store { key.now.store < length (F.monoids family.now) }
    requires value { valid_by F.M.valid (slice_get (F.monoids family.now) key.now.store) value.now }
    ensures ok { OnOk result (out.new.items
        ≡ out.old.items ++ printed_row (F.name family.now) (F.printed family.now)
        (key.now, value.now)) }
    ensures err { OnErr result (out.new.items ≡ out.old.items) }
{
    let before = out.len();
    match push_row(alloc, family, key, value, out) {
        Ok(()) => Ok(()),
        Err(e) => {
            out.truncate(before);
            Err(e)
        }
    }
}

// Each `push_` stops in the middle where it finds no memory; what stood before is there still.
fn push_rows<F: Printed>(
    alloc: Global,
    family: &F,
    rows: &[(KeyBytes, <F::M as Semigroup>::El)],
    out: &mut Vec<u8>,
) -> Result<(), NoMemory>
    requires { AreValid (meant F.M.valid F.M.add (F.monoids family.now)) rows.now }
    ensures ok { OnOk result (out.new.items
        ≡ out.old.items ++ flat_map (printed_row (F.name family.now) (F.printed family.now))
        rows.now) }
    ensures front { take (length out.old.items) out.new.items ≡ out.old.items }
{
    for row in rows {
        push_row(alloc, family, &row.0, &row.1, out)?;
    }
    Ok(())
}

fn push_row<F: Printed>(
    alloc: Global,
    family: &F,
    key: &KeyBytes,
    value: &<F::M as Semigroup>::El,
    out: &mut Vec<u8>,
) -> Result<(), NoMemory>
    requires store { key.now.store < length (F.monoids family.now) }
    requires value { valid_by F.M.valid (slice_get (F.monoids family.now) key.now.store) value.now }
    ensures ok { OnOk result (out.new.items
        ≡ out.old.items ++ printed_row (F.name family.now) (F.printed family.now)
        (key.now, value.now)) }
    ensures front { take (length out.old.items) out.new.items ≡ out.old.items }
{
    push_row_front(family.name(key.store), &key.text, out)?;
    family.print(alloc, key.store, value, out)?;
    out.extend_from_slice(b"\n")
}

// What stands before the value of a row.
pub(crate) fn push_row_front(store: &Text, key: &Text, out: &mut Vec<u8>) -> Result<(), NoMemory>
    ensures ok { OnOk result (out.new.items
        ≡ out.old.items ++ (store.now ++ (9 ∷ key.now ++ 9 ∷ []))) }
    ensures front { take (length out.old.items) out.new.items ≡ out.old.items }
{
    out.extend_from_slice(store.as_bytes())?;
    out.push(b'\t')?;
    out.extend_from_slice(key.as_bytes())?;
    out.push(b'\t')?;
    Ok(())
}
