//! The cells of a count-min sketch.
ghost use Rattle.std.specs.Prelude.{◌≡◌, ◌<◌, ◌↔◌, ℕ, List, false, length, slice_get, Some, IsTrue, IfOk, OnOk, OnErr};
ghost use Rattle.sb_sketch.specs.Cells.{counts_added, zeros, AreCells};
ghost use Rattle.sb_sketch.specs.Cms.{IsCount};
ghost use Rattle.sb_sketch.specs.Places.{counted_at, HasRoom};

use crate::cells::cell_at;
use crate::places::{all_cells, cell_in, count_all, count_back, count_in_room, take_all_out};
use crate::undone::CellsUndone;
use sb_laws::{Items, NoMemory};
use std::alloc::Global;
use std::marker::Model;

/// The cells of a count-min sketch, row after row. Contracts see the full list, whatever the form.
#[derive(Drop)]
pub struct Cells {
    form: Form,
}

#[derive(Drop)]
enum Form {
    Full(Vec<u64>),
    // This many cells, all 0 but for those at these places: how often each place is named.
    Few { count: u16, places: Vec<u16> },
}

impl Model for Cells {
    ghost use Rattle.std.specs.Prelude.{ℕ, List};

    ghost Value = { List ℕ };

    ghost use Rattle.sb_sketch.specs.Forms.{cells_of};

    ghost view = { λ cells. cells_of cells.form };
}

impl Cells {
    /// The cells of a full list, in its room.
    pub fn from_vec(cells: Vec<u64>) -> Cells
        ensures { result ≡ cells.items }
    {
        Cells {
            form: Form::Full(cells),
        }
    }

    /// The number of cells.
    pub fn len(&self) -> usize
        ensures { result ≡ length self.now }
    {
        match &self.form {
            Form::Full(cells) => cells.len(),
            Form::Few { count, .. } => usize::from(*count),
        }
    }

    /// The cell at a place. In the short form it takes as many steps as there are rows.
    pub fn get(&self, at: usize) -> u64
        requires { at < length self.now }
        ensures { slice_get self.now at ≡ Some result }
    {
        match &self.form {
            Form::Full(cells) => cell_at(cells.as_slice(), at),
            Form::Few { places, .. } => cell_in(places.as_slice(), at),
        }
    }
}

impl Cells {
    /// The short form: this many cells, all 0 but for those at these places, where each counts how often it is named.
    pub(crate) fn at_places(count: u16, places: Vec<u16>) -> Cells
        ensures { result ≡ counted_at (zeros count) places.items }
    {
        Cells {
            form: Form::Few { count, places },
        }
    }

    /// Whether all cells are 0.
    pub(crate) fn are_zeros(&self) -> bool
        ensures { IsTrue result ↔ (self.now ≡ zeros (length self.now)) }
    {
        match &self.form {
            Form::Full(cells) => cells.iter().all(|&cell| cell == 0),
            Form::Few { count, places } => are_all_zeros(*count, places.as_slice()),
        }
    }

    /// Equal cells, in the same form.
    pub fn copy(&self, alloc: Global) -> Result<Cells, NoMemory>
        ensures { IfOk result (λ cells. cells ≡ self.now) }
    {
        match &self.form {
            Form::Full(cells) => Ok(Cells::from_vec(Vec::from_slice(alloc, cells.as_slice())?)),
            Form::Few { count, places } => {
                let places = Vec::from_slice(alloc, places.as_slice())?;
                Ok(Cells::at_places(*count, places))
            }
        }
    }

    /// Takes the full list out, which takes memory for a short form alone.
    pub(crate) fn take_full(&mut self, alloc: Global) -> Result<Vec<u64>, NoMemory>
        ensures ok { IfOk result (λ cells. cells.items ≡ self.old) }
        ensures err { OnErr result (self.new ≡ self.old) }
    {
        match &mut self.form {
            Form::Full(cells) => Ok(std::mem::replace(cells, Vec::new(alloc))),
            Form::Few { count, places } => all_cells(alloc, *count, places.as_slice()),
        }
    }

    // Adds each cell to that of a full list.
    fn add_to(&self, sums: &mut Vec<u64>)
        requires { AreCells (length self.now) IsCount sums.old.items }
        ensures { sums.new.items ≡ counts_added self.now sums.old.items }
    {
        match &self.form {
            Form::Full(cells) => add_left(cells.as_slice(), sums),
            Form::Few { places, .. } => count_all(sums, places.as_slice()),
        }
    }

    // Counts places up in a full list, where no cell wraps. Else nothing changes.
    fn count_in_place(&mut self, places: &[u16]) -> bool
        ensures counted { IsTrue result → (self.new ≡ counted_at self.old places.now)
            × HasRoom self.old places.now }
        ensures none { result ≡ false → self.new ≡ self.old }
    {
        match &mut self.form {
            Form::Full(cells) => count_in_room(cells, places),
            Form::Few { .. } => false,
        }
    }

    // Takes counted places back. A short form that names them loses them.
    fn count_back(&mut self, places: Vec<u16>)
        ensures { (earlier : List ℕ) → self.old ≡ counted_at earlier places.items
            → HasRoom earlier places.items → self.new ≡ earlier }
    {
        match &mut self.form {
            Form::Full(cells) => count_back(cells, places),
            Form::Few { places: own, .. } => take_all_out(own, places),
        }
    }
}

impl Cells {
    ghost use Rattle.sb_sketch.specs.Undone.{CellsBack};

    /// Adds as many cells, and keeps what takes that back. A refusal leaves the cells as they were.
    ///
    /// Memory is taken only where both are short, for the full list. A full list changes in place by a short form on its
    /// right, in as many steps as that names places; else the sum is made in the room of the full one on the right, and
    /// the left one is kept.
    pub(crate) fn add(&mut self, alloc: Global, more: Cells) -> Result<CellsUndone, NoMemory>
        requires left { AreCells (length more) IsCount self.old }
        requires right { AreCells (length more) IsCount more }
        ensures ok { OnOk result (self.new ≡ counts_added self.old more) }
        ensures undo { IfOk result (λ undone. CellsBack undone self.new self.old) }
        ensures err { OnErr result (self.new ≡ self.old) }
    {
        match more.form {
            Form::Full(sums) => Ok(self.add_into(sums)),
            Form::Few { count, places } => self.add_places(alloc, count, places),
        }
    }

    // Makes the sum in the room of a full list, and keeps the left cells.
    fn add_into(&mut self, sums: Vec<u64>) -> CellsUndone
        requires { AreCells (length self.old) IsCount sums.items }
        ensures sum { self.new ≡ counts_added self.old sums.items }
        ensures undo { CellsBack result self.new self.old }
    {
        let mut sums = sums;
        self.add_to(&mut sums);
        CellsUndone::Cells(std::mem::replace(self, Cells::from_vec(sums)))
    }

    // Counts the places up in place, or makes a full list of them.
    fn add_places(
        &mut self,
        alloc: Global,
        count: u16,
        places: Vec<u16>,
    ) -> Result<CellsUndone, NoMemory>
        requires { AreCells count IsCount self.old }
        ensures ok { OnOk result (self.new
            ≡ counts_added self.old (counted_at (zeros count) places.items)) }
        ensures undo { IfOk result (λ undone. CellsBack undone self.new self.old) }
        ensures err { OnErr result (self.new ≡ self.old) }
    {
        if self.count_in_place(places.as_slice()) {
            return Ok(CellsUndone::Counted(Items::from_vec(places)));
        }
        let sums = all_cells(alloc, count, places.as_slice())?;
        Ok(self.add_into(sums))
    }

    /// Takes an addition back. No memory is taken.
    pub(crate) fn take_back(&mut self, undone: CellsUndone)
        ensures { (earlier : List ℕ) → CellsBack undone self.old earlier → self.new ≡ earlier }
    {
        match undone {
            CellsUndone::Cells(cells) => *self = cells,
            CellsUndone::Counted(places) => self.count_back(places.into_vec()),
        }
    }
}

// Whether all cells are 0, where these places alone are counted.
fn are_all_zeros(count: u16, places: &[u16]) -> bool
    ensures { IsTrue result ↔ (counted_at (zeros count) places.now ≡ zeros count) }
{
    for at in 0..usize::from(count) {
        if cell_in(places, at) != 0 {
            return false;
        }
    }
    true
}

// Adds each count of the left to that of the right, in the room of the right.
fn add_left(left: &[u64], right: &mut Vec<u64>)
    requires { length right.old.items ≡ length left.now }
    ensures { right.new.items ≡ counts_added left.now right.old.items }
{
    for (at, count) in left.iter().enumerate() {
        let sum = count.wrapping_add(cell_at(right.as_slice(), at));
        right[at] = sum;
    }
}
