//! Sketches of one item: added in place, taken back, and through the bounds of dictionaries.
ghost use Rattle.std.specs.Prelude.{IfOk};
ghost use Rattle.sb_sketch.specs.Cms.{AreCounts};
ghost use Rattle.sb_sketch.specs.Hll.{AreRegisters};

use crate::bounds::{regrouped, taken_back};
use crate::expecting::{equal, holds};
use sb_laws::{Monoid, NoMemory, Undo};
use sb_sketch::{Cells, CmsM, HllM, Registers};
use std::alloc::Global;
use std::test::Fail;

const NOTHING: &[u8] = b"";

// The cells in turn.
fn listed(alloc: Global, cells: &Cells) -> Result<Vec<u64>, NoMemory> {
    let mut list = Vec::with_capacity(alloc, cells.len())?;
    for at in 0..cells.len() {
        list.push(cells.get(at))?;
    }
    Ok(list)
}

// An item's sketch in the full list.
fn in_full(alloc: Global, m: &CmsM, item: &[u8]) -> Result<Cells, NoMemory>
    ensures { IfOk result (AreCounts m.now) }
{
    let mut cells = m.zero(alloc)?;
    m.add_item(alloc, &mut cells, item)?;
    Ok(cells)
}

// What was counted in a full list is taken back from an equal sketch in the short form.
#[test]
fn an_equal_short_form_loses_what_was_counted(rt: HostRuntime) -> Result<(), Fail> {
    let alloc = rt.alloc();
    let (Some(cms), Some(hll)) = (CmsM::new(2, 3), HllM::new(4)) else {
        return Ok(holds(&rt, false));
    };
    let mut cells = cms.zero(alloc)?;
    let undone = cms.plus_recorded(alloc, &mut cells, cms.one(alloc, b"abc")?)?;
    let mut short = cms.one(alloc, b"abc")?;
    cms.undo(&mut short, undone);
    equal(&rt, listed(alloc, &short)?.as_slice(), [0; 6].as_slice());
    let mut registers = hll.zero(alloc)?;
    let undone = hll.plus_recorded(alloc, &mut registers, hll.one(b"abc"))?;
    let mut short = hll.one(b"abc");
    hll.undo(&mut short, undone);
    equal(&rt, short.to_vec(alloc)?.as_slice(), [0; 16].as_slice());
    Ok(())
}

// An item's registers in the full list.
fn all_registers(alloc: Global, m: &HllM, item: &[u8]) -> Result<Registers, NoMemory>
    ensures { IfOk result (AreRegisters m.now) }
{
    let mut registers = m.zero(alloc)?;
    m.add_item(alloc, &mut registers, item)?;
    Ok(registers)
}

// Whether the zero is a zero, and the element isn't.
fn tells_zero<M: Monoid>(alloc: Global, m: &M, a: &M::El) -> Result<bool, NoMemory>
    requires { M.valid m.now a.now }
{
    let zero = m.zero(alloc)?;
    Ok(m.is_zero(&zero) && !m.is_zero(a))
}

#[test]
fn both_through_their_bounds(rt: HostRuntime) -> Result<(), Fail> {
    let alloc = rt.alloc();
    let (Some(cms), Some(hll)) = (CmsM::new(2, 3), HllM::new(4)) else {
        return Ok(holds(&rt, false));
    };
    let full = in_full(alloc, &cms, b"abc")?;
    holds(&rt, tells_zero(alloc, &cms, &full)?);
    let cells = cms.one(alloc, b"abc")?;
    let same = taken_back(alloc, &cms, &cells, cms.one(alloc, NOTHING)?)?;
    equal(
        &rt,
        listed(alloc, &same)?.as_slice(),
        listed(alloc, &full)?.as_slice(),
    );
    holds(&rt, regrouped(alloc, &cms, full, same)?.is_some());
    let full = all_registers(alloc, &hll, b"abc")?;
    holds(&rt, tells_zero(alloc, &hll, &full)?);
    let same = taken_back(alloc, &hll, &hll.one(b"abc"), hll.one(NOTHING))?;
    equal(
        &rt,
        same.to_vec(alloc)?.as_slice(),
        full.to_vec(alloc)?.as_slice(),
    );
    holds(&rt, regrouped(alloc, &hll, full, same)?.is_some());
    Ok(())
}
