//! Cells counted up and down, place by place.
ghost use Rattle.std.specs.Prelude.{false, ◌≢◌, MatchOption, ◌≡◌, ◌<◌, ◌+◌, ◌^◌, ℕ, List, length, slice_get, slice_index_or, Some, IsTrue, IfOk, if◌then◌else◌};
ghost use Rattle.std.specs.List.{AllByRecursion};
ghost use Rattle.sb_sketch.specs.Cells.{wrapping_sum, zeros};
ghost use Rattle.sb_sketch.specs.Places.{counted_up, counted_at, HasRoom};

use sb_laws::NoMemory;
use std::alloc::Global;

// A cell below this has room for a list of fewer places than this.
const MANY: u64 = 1 << 62;

fn count_up(cells: &mut Vec<u64>, at: usize)
    ensures { cells.new.items ≡ counted_up cells.old.items at }
{
    if at < cells.len() {
        cells[at] = cells[at].wrapping_add(1);
    }
}

fn count_down(cells: &mut Vec<u64>, at: usize)
    ensures { (earlier : List ℕ) → at < length earlier
        → slice_index_or earlier at 0 + 1 < 2 ^ 64
        → cells.old.items ≡ counted_up earlier at → cells.new.items ≡ earlier }
{
    if at < cells.len() {
        cells[at] = cells[at].wrapping_sub(1);
    }
}

/// Counts up the cell at each of these places.
pub fn count_all(cells: &mut Vec<u64>, places: &[u16])
    ensures { cells.new.items ≡ counted_at cells.old.items places.now }
{
    for place in places {
        count_up(cells, usize::from(*place));
    }
}

/// Takes `count_all` of these places back, from the last to the first.
pub fn count_back(cells: &mut Vec<u64>, places: Vec<u16>)
    ensures { (earlier : List ℕ) → cells.old.items ≡ counted_at earlier places.items
        → HasRoom earlier places.items → cells.new.items ≡ earlier }
{
    let mut places = places;
    while let Some(place) = places.pop() {
        count_down(cells, usize::from(place));
    }
}

fn is_low(cells: &[u64], at: usize) -> bool
    ensures { IsTrue result → (at < length cells.now)
        × (slice_index_or cells.now at 0 < 2 ^ 62) }
{
    at < cells.len() && cells[at] < MANY
}

fn are_low(cells: &[u64], places: &[u16]) -> bool
    ensures { IsTrue result → AllByRecursion (λ at. (at < length cells.now)
        × (slice_index_or cells.now at 0 < 2 ^ 62)) places.now }
{
    for place in places {
        if !is_low(cells, usize::from(*place)) {
            return false;
        }
    }
    true
}

// Whether the cells are there and are far from wrapping. No cell of a true count is near that.
fn have_room(cells: &[u64], places: &[u16]) -> bool
    ensures { IsTrue result → HasRoom cells.now places.now }
{
    (places.len() as u64) < MANY && are_low(cells, places)
}

/// Counts up the cell at each of these places, where no cell wraps. Else nothing changes.
pub fn count_in_room(cells: &mut Vec<u64>, places: &[u16]) -> bool
    ensures counted { IsTrue result → (cells.new.items ≡ counted_at cells.old.items places.now)
        × HasRoom cells.old.items places.now }
    ensures none { result ≡ false → cells.new.items ≡ cells.old.items }
{
    if !have_room(cells.as_slice(), places) {
        return false;
    }
    count_all(cells, places);
    true
}

// The count, and one more where it is the place's.
fn with_place(count: u64, same: bool) -> u64
    ensures { result ≡ (if same then wrapping_sum count 1 else count) }
{
    if same { count.wrapping_add(1) } else { count }
}

/// The cell at a place, where these places alone are counted.
pub fn cell_in(places: &[u16], at: usize) -> u64
    ensures { (count : ℕ) → at < count
        → slice_get (counted_at (zeros count) places.now) at ≡ Some result }
{
    let mut cell = 0;
    for place in places {
        cell = with_place(cell, usize::from(*place) == at);
    }
    cell
}

/// All cells, where these places alone are counted.
pub fn all_cells(alloc: Global, count: u16, places: &[u16]) -> Result<Vec<u64>, NoMemory>
    ensures { IfOk result (λ cells. cells.items ≡ counted_at (zeros count) places.now) }
{
    let mut cells = Vec::from_elem(alloc, 0, usize::from(count))?;
    count_all(&mut cells, places);
    Ok(cells)
}

// Where a place is named first.
fn find(places: &[u16], place: u16) -> Option<usize>
    ensures { MatchOption result (AllByRecursion (λ named. named ≢ place) places.now)
        (λ at. (at < length places.now) × (slice_index_or places.now at 0 ≡ place)) }
{
    for (at, named) in places.iter().enumerate() {
        if *named == place {
            return Some(at);
        }
    }
    None
}

// Takes a place out of a list that names it.
fn take_out(places: &mut Vec<u16>, place: u16)
    ensures { (count : ℕ) (earlier : List ℕ) → place < length earlier
        → slice_index_or earlier place 0 + 1 < 2 ^ 64
        → counted_at (zeros count) places.old.items ≡ counted_up earlier place
        → counted_at (zeros count) places.new.items ≡ earlier }
{
    if let Some(at) = find(places.as_slice(), place) {
        places.remove(at);
    }
}

/// Takes the places of `more` out of a list of places that has them all.
pub fn take_all_out(places: &mut Vec<u16>, more: Vec<u16>)
    ensures { (count : ℕ) (earlier : List ℕ)
        → counted_at (zeros count) places.old.items ≡ counted_at earlier more.items
        → HasRoom earlier more.items → counted_at (zeros count) places.new.items ≡ earlier }
{
    let mut more = more;
    while let Some(place) = more.pop() {
        take_out(places, place);
    }
}
