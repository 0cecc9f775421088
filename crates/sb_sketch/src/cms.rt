//! Count-min sketches (Cormode and Muthukrishnan, Journal of Algorithms 55(1), 2005).
ghost use Rattle.std.specs.Prelude.{◌≡◌, ◌<◌, ◌≤◌, ◌↔◌, ◌+◌, ◌*◌, IsSome, IfSome, IfOk, OnOk, OnErr};
ghost use Rattle.sb_sketch.specs.Cells.{counts_added, zeros};
ghost use Rattle.sb_sketch.specs.Cms.{Shape, AreCounts, cell_of, counts_of};
ghost use Rattle.sb_sketch.specs.Limits.{most_rows, most_cells};
ghost use Rattle.sb_sketch.specs.Places.{counted_at};

use crate::cells::cell_at;
use crate::counts::Cells;
use crate::hash::word_in_row;
use crate::undone::CellsUndone;
use sb_laws::{Commuting, Monoid, NoMemory, Semigroup, Undo};
use std::alloc::Global;
use std::marker::Model;

/// The most cells of a sketch, and the most rows.
pub const MOST_CELLS: u32 = 4096;

/// The most rows of a sketch.
pub const MOST_ROWS: u32 = 16;

/// Count-min sketches added cell by cell, wrapping at 2^64; the zero has all cells 0. Contracts see the shape.
#[derive(Clone, Copy)]
pub struct CmsM {
    rows: u8,
    width: u16,
}

impl Model for CmsM {
    ghost Value = { Shape };

    ghost view = { λ m. record { rows = m.rows; width = m.width } };

    ghost invariant = { λ m. (0 < m.width) × (m.rows * m.width ≤ most_cells) };

    ghost inverse = { λ shape. record { rows = shape.rows; width = shape.width } };
}

impl CmsM {
    /// The dictionary of `d` rows of `w` cells, and none exactly where `d` isn't 1 to 16, `w` is 0, or there would be more than 4,096 cells.
    pub fn new(d: u32, w: u32) -> Option<CmsM>
        ensures rows { IfSome result (λ m. m.rows ≡ d) }
        ensures width { IfSome result (λ m. m.width ≡ w) }
        ensures within { IsSome result ↔ ((0 < d) × (d ≤ most_rows) × (0 < w) × (d * w ≤ most_cells)) }
    {
        if d == 0 || d > MOST_ROWS || w == 0 || w > MOST_CELLS / d {
            return None;
        }
        Some(CmsM {
            rows: d as u8,
            width: w as u16,
        })
    }

    /// The number of cells, of all rows.
    pub fn cells(&self) -> usize
        ensures count { result ≡ self.now.rows * self.now.width }
        ensures within { result ≤ most_cells }
    {
        usize::from(self.rows) * usize::from(self.width)
    }
}

impl CmsM {
    // The place of the item's cell of a row.
    fn place_of(&self, row: u8, item: &[u8]) -> usize
        requires { row < self.now.rows }
        ensures place { result ≡ row * self.now.width + cell_of self.now.width row item.now }
        ensures within { result < most_cells }
    {
        let cell = word_in_row(row, item) % u64::from(self.width);
        usize::from(row) * usize::from(self.width) + cell as usize
    }

    // Counts an item in each row.
    fn count_item(&self, counts: &mut Vec<u64>, item: &[u8])
        requires { AreCounts self.now counts.old.items }
        ensures counted { counts.new.items ≡ counts_added counts.old.items
            (counts_of self.now item.now) }
        ensures valid { AreCounts self.now counts.new.items }
    {
        for row in 0..self.rows {
            let at = self.place_of(row, item);
            let count = cell_at(counts.as_slice(), at);
            counts[at] = count.wrapping_add(1);
        }
    }

    /// Counts one item: `plus` of what `one` gives, without making it. Memory is taken only for a short form, which becomes a
    /// full list. A refusal leaves the cells as they were.
    pub fn add_item(&self, alloc: Global, cells: &mut Cells, item: &[u8]) -> Result<(), NoMemory>
        requires { AreCounts self.now cells.old }
        ensures counted { OnOk result (cells.new
            ≡ counts_added cells.old (counts_of self.now item.now)) }
        ensures valid { AreCounts self.now cells.new }
        ensures err { OnErr result (cells.new ≡ cells.old) }
    {
        let mut counts = cells.take_full(alloc)?;
        self.count_item(&mut counts, item);
        *cells = Cells::from_vec(counts);
        Ok(())
    }

    /// The sketch of one item, in the short form: a place for each row, and no full list.
    pub fn one(&self, alloc: Global, item: &[u8]) -> Result<Cells, NoMemory>
        ensures sketch { IfOk result (λ cells. cells ≡ counts_of self.now item.now) }
        ensures valid { IfOk result (AreCounts self.now) }
    {
        let places = self.places_of(alloc, item)?;
        Ok(Cells::at_places(self.cells() as u16, places))
    }

    // The places of the item's cells, row after row.
    fn places_of(&self, alloc: Global, item: &[u8]) -> Result<Vec<u16>, NoMemory>
        ensures { IfOk result (λ places. counted_at (zeros (self.now.rows * self.now.width))
            places.items ≡ counts_of self.now item.now) }
    {
        let mut places = Vec::with_capacity(alloc, usize::from(self.rows))?;
        for row in 0..self.rows {
            places.push(self.place_of(row, item) as u16)?;
        }
        Ok(places)
    }
}

impl Semigroup for CmsM {
    ghost use Rattle.sb_sketch.specs.Cells.{wrapping_sum};
    ghost use Rattle.sb_sketch.specs.Cms.{IsCount};
    ghost use Rattle.sb_sketch.specs.CellLaws.{sum_fits, sums_associate, cells_kept, cells_associate};

    type El = Cells;

    ghost valid = { λ shape a. AreCounts shape a };

    ghost add = { λ _ a b. counts_added a b };

    ghost keeps_valid = { λ shape a b p q. cells_kept wrapping_sum IsCount (λ x y _ _. sum_fits x y) (shape.rows * shape.width) a b p q };

    ghost associates = { λ _ a b c p q r. cells_associate wrapping_sum sums_associate a b c };

    // Only where both are short is memory taken.
    fn plus(&self, alloc: Global, a: &mut Cells, b: Cells) -> Result<(), NoMemory>
        requires left { AreCounts self.now a.old }
        requires right { AreCounts self.now b }
        ensures sum { OnOk result (a.new ≡ counts_added a.old b) }
        ensures err { OnErr result (a.new ≡ a.old) }
    {
        let _ = a.add(alloc, b)?;
        Ok(())
    }

    fn copy(&self, alloc: Global, a: &Cells) -> Result<Cells, NoMemory> {
        a.copy(alloc)
    }
}

impl Monoid for CmsM {
    ghost use Rattle.std.proofs.Common.{◌∙◌, arith};
    ghost use Rattle.sb_sketch.specs.Cells.{wrapping_sum};
    ghost use Rattle.sb_sketch.specs.Cms.{IsCount};
    ghost use Rattle.sb_sketch.specs.CellLaws.{sums_commute, cells_commute, zero_is_count, zero_and_sum, zeros_are_cells, onto_zeros};

    ghost neutral = { λ shape. zeros (shape.rows * shape.width) };

    ghost neutral_valid = { λ shape. zeros_are_cells IsCount zero_is_count (shape.rows * shape.width) };

    ghost neutral_left = { λ shape a p. onto_zeros wrapping_sum IsCount zero_and_sum (shape.rows * shape.width) a p };

    ghost neutral_right = { λ shape a p. cells_commute wrapping_sum sums_commute a (zeros (shape.rows * shape.width)) ∙ onto_zeros wrapping_sum IsCount zero_and_sum (shape.rows * shape.width) a p };

    fn zero(&self, alloc: Global) -> Result<Cells, NoMemory> {
        let count = usize::from(self.rows) * usize::from(self.width);
        Ok(Cells::from_vec(Vec::from_elem(alloc, 0, count)?))
    }

    fn is_zero(&self, a: &Cells) -> bool {
        a.are_zeros()
    }
}

impl Commuting for CmsM {
    ghost use Rattle.sb_sketch.specs.Cells.{wrapping_sum};
    ghost use Rattle.sb_sketch.specs.CellLaws.{sums_commute, cells_commute};

    ghost commutes = { λ _ a b p q. cells_commute wrapping_sum sums_commute a b };
}

impl Undo for CmsM {
    ghost use Rattle.sb_sketch.specs.Undone.{CellsBack};

    type Undone = CellsUndone;

    ghost takes_back = { λ _ undone later earlier. CellsBack undone later earlier };

    fn plus_recorded(&self, alloc: Global, a: &mut Cells, b: Cells) -> Result<CellsUndone, NoMemory>
        requires left { AreCounts self.now a.old }
        requires right { AreCounts self.now b }
        ensures sum { OnOk result (a.new ≡ counts_added a.old b) }
        ensures undo { IfOk result (λ undone. CellsBack undone a.new a.old) }
        ensures err { OnErr result (a.new ≡ a.old) }
    {
        a.add(alloc, b)
    }

    fn undo(&self, a: &mut Cells, undone: CellsUndone) {
        a.take_back(undone)
    }
}
