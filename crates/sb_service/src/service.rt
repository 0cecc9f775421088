//! A service: its rows, and the look-up in them.
ghost use Rattle.std.specs.Prelude.{◌≡◌, option_map};
ghost use Rattle.sb_types.specs.TyView.{type_of};
ghost use Rattle.sb_types.specs.ValView.{value_of};
ghost use Rattle.sb_service.specs.Adding.{service_of};
ghost use Rattle.sb_service.specs.Answers.{Answers};
ghost use Rattle.sb_service.specs.Rows.{row_of};
ghost use Rattle.sb_service.specs.Views.{view_service};

use crate::ServiceError;
use crate::rows::{Placed, add_row, read_row};
use sb_text::Lines;
use sb_types::{Ty, Val};
use std::alloc::Global;
use std::collections::BTreeMap;

/// A service that is read. Contracts see its rows, the key and the value of each, in rising order of their keys.
#[derive(Drop)]
pub struct Service {
    rows: BTreeMap<Val, Placed>,
}

impl Service {
    /// The value of the row that has this key; `None` exactly where no row has it. A search, which takes no memory.
    #[tactic(auto, using(crate::proofs::Views::row_found))]
    pub fn get(&self, key: &Val) -> Option<&Val>
        ensures { option_map (λ value. value_of value.now) result
            ≡ row_of (value_of key.now) (view_service self.now) }
    {
        match self.rows.get(key) {
            Some(row) => Some(&row.value),
            None => None,
        }
    }
}

/// The service that a text says: on each line a key, a tab and a value, as fields of these types, which are int, text or
/// bool; a field of another type is of no line. The first line that is no row, or has the key of an earlier one, decides.
pub fn read_service(
    alloc: Global,
    key: &Ty,
    value: &Ty,
    bytes: &[u8],
) -> Result<Service, ServiceError>
    ensures { Answers (service_of (type_of key.now) (type_of value.now) bytes.now) result }
{
    let mut rows = BTreeMap::new(alloc);
    for line in Lines::new(bytes) {
        let Some(row) = read_row(alloc, key, value, line)? else {
            return Err(ServiceError::BadRow { line: line.number });
        };
        add_row(&mut rows, row, line.number)?;
    }
    Ok(Service { rows })
}
