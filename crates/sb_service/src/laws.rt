//! Laws of the definitions, each on a function that does nothing.
ghost use Rattle.std.specs.Prelude.{◌≡◌, ℕ, List, Ok};
ghost use Rattle.sb_text.specs.Lines.{lines_of};
ghost use Rattle.sb_types.specs.Value.{Value};
ghost use Rattle.sb_types.specs.ValueType.{ValueType};
ghost use Rattle.sb_service.specs.Adding.{service_of};
ghost use Rattle.sb_service.specs.Rows.{Rows, row_of, rows_said};

/// A look-up in a service finds what the first line with the key says, and nothing where no line says it.
#[tactic(auto, using(crate::proofs::Said::found_as_said))]
pub fn look_ups_find_lines()
    ensures { (key value : ValueType) (bytes : List ℕ) (rows : Rows)
        → service_of key value bytes ≡ Ok rows
        → (k : Value) → row_of k rows ≡ row_of k (rows_said key value (lines_of bytes)) }
{}
