//! A report of one store of sums, and the keys of its shard.
ghost use Rattle.std.specs.Prelude.{◌≡◌, [], ◌∷◌, IfOk};

use crate::expecting::equal;
use sb_feed::{Family, KeyBytes, Printed, RowList, Rows};
use sb_report::report;
use sb_scalars::SumM;
use sb_shard::Shard;
use sb_text::{NoMemory, Text, write_i64};
use std::alloc::Global;
use std::test::Fail;

// A store of sums with this name.
#[derive(Drop)]
struct SumStore {
    name: Text,
    sum: SumM,
}

impl Family for SumStore {
    type M = SumM;

    ghost use Rattle.std.specs.Prelude.{[], ◌∷◌};

    ghost monoids = { λ store. store.sum ∷ [] };

    fn stores(&self) -> u32 {
        1
    }

    fn monoid(&self, _store: u32) -> &SumM {
        &self.sum
    }
}

impl Printed for SumStore {
    ghost use Rattle.std.specs.Fmt.{signed_decimal};

    ghost name = { λ store _. store.name };

    ghost printed = { λ _ _ value. signed_decimal value };

    fn name(&self, _store: u32) -> &Text {
        &self.name
    }

    fn print(
        &self,
        alloc: Global,
        _store: u32,
        value: &i64,
        out: &mut Vec<u8>,
    ) -> Result<(), NoMemory> {
        write_i64(alloc, out, *value)
    }
}

fn text(alloc: Global, text: &str) -> Result<Text, NoMemory>
    ensures { IfOk result (λ copied. copied ≡ text.now) }
{
    Ok(Text::from_string(String::from_str(alloc, text)?))
}

fn total(alloc: Global) -> Result<SumStore, NoMemory> {
    Ok(SumStore {
        name: text(alloc, "total")?,
        sum: SumM::new(),
    })
}

// The rows of batch 0 with one key.
fn rows_of(alloc: Global, key: &str, value: i64) -> Result<Rows<i64>, NoMemory>
    ensures numbers { IfOk result (λ rows. rows.from ≡ 0) }
    ensures next { IfOk result (λ rows. rows.to ≡ 1) }
    ensures rows { IfOk result (λ rows. rows.rows
        ≡ (record { store = 0; text = key.now }, value) ∷ []) }
{
    let key = KeyBytes {
        store: 0,
        text: text(alloc, key)?,
    };
    let mut rows = Vec::new(alloc);
    rows.push((key, value))?;
    Ok(Rows {
        from: 0,
        to: 1,
        rows: RowList::from_vec(rows),
    })
}

#[test]
fn a_report_has_a_row_for_each_key(rt: HostRuntime) -> Result<(), Fail> {
    let alloc = rt.alloc();
    let rows = rows_of(alloc, "a", -3)?;
    let mut out = Vec::new(alloc);
    report(alloc, &total(alloc)?, &rows, &mut out)?;
    equal(&rt, out.as_slice(), b"total\ta\t-3\n".as_slice());
    Ok(())
}

#[test]
fn a_shard_has_the_keys_of_its_rows(rt: HostRuntime) -> Result<(), Fail> {
    let alloc = rt.alloc();
    let mut shard = Shard::new(alloc);
    equal(&rt, shard.keys(alloc)?.len(), 0);
    shard.install(rows_of(alloc, "a", 7)?)?;
    equal(&rt, shard.keys(alloc)?.len(), 1);
    Ok(())
}
