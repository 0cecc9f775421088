//! Texts as keys.
use crate::Text;
use sb_laws::{Key, NoMemory};
use std::alloc::Global;

impl Key for Text {
    ghost use Rattle.std.specs.FinMap.{nat_cmp-IsAntisymmetric, slice_cmp-IsAntisymmetric};

    ghost same = { slice_cmp-IsAntisymmetric nat_cmp-IsAntisymmetric };

    fn copy(&self, alloc: Global) -> Result<Text, NoMemory> {
        Text::copy(self, alloc)
    }
}
