//! The bytes of a file.
ghost use Rattle.std.specs.Prelude.{◌≡◌, ℕ, IfErr};
ghost use Rattle.sb_io.specs.Shelf.{Fetches};
ghost use Rattle.sb_load.specs.Inputs.{LoadsFile};
ghost use Rattle.sb_load.specs.Refusals.{cause_of, input};
ghost use Rattle.sb_load.specs.Steps.{AreBytes, IsCausedAt, TellsAll, step_of};

use crate::refusal::{Refusal, Which};
use sb_io::{Fetched, Shelf, ShelfError};
use sb_text::Text;
use std::alloc::Global;
use std::str::from_utf8;

/// The bytes of a file that may have so many; `longer` is the refusal of one that has more.
pub fn fetch<H: Shelf>(
    alloc: Global,
    shelf: &mut H,
    name: &Text,
    file: Which,
    limit: u64,
    longer: Refusal,
) -> Result<Vec<u8>, Refusal>
    requires step { cause_of longer ≡ input (step_of file) }
    ensures read { TellsAll (LoadsFile file limit longer AreBytes (H.content shelf.old name.now))
        (λ bytes. bytes.items) result }
    ensures frame { Fetches name.now (H.content shelf.old) (H.content shelf.new)
        (H.faults shelf.old) (H.faults shelf.new) }
    ensures cause { IfErr result (IsCausedAt file name.now (H.faults shelf.old)
        (H.faults shelf.new)) }
{
    let Ok(name) = from_utf8(name.as_bytes()) else {
        return Err(Refusal::NoMemory);
    };
    match shelf.fetch(alloc, name, limit) {
        Ok(Fetched::All(bytes)) => Ok(bytes),
        Ok(Fetched::Longer) => Err(longer),
        Err(ShelfError::Failed) => Err(Refusal::Shelf(file)),
        Err(ShelfError::NoMemory) => Err(Refusal::NoMemory),
    }
}
