//! Lists of cells that contracts see as lists of numbers.
ghost use Rattle.std.specs.Prelude.{◌≡◌, ◌<◌, length, slice_get, Some};

/// The cell at a place.
pub fn cell_at<T: Copy>(cells: &[T], at: usize) -> T
    requires { at < length cells.now }
    ensures { slice_get cells.now at ≡ Some result }
{
    cells[at]
}
