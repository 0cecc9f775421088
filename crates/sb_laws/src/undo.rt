//! Dictionaries whose plus can be taken back.
ghost use Rattle.std.specs.Prelude.{◌≡◌, IfOk, OnOk, OnErr};

use crate::{NoMemory, Semigroup};
use std::alloc::Global;

/// A dictionary whose plus can be taken back without memory.
///
/// What adds two elements together, and may be refused after the first of them was changed, leaves all as it was by this,
/// and copies nothing beforehand: what is kept is as large as what `plus` touched.
pub trait Undo: Semigroup {
    /// What takes one plus back.
    type Undone: Drop;

    /// What was kept takes the later element back to the earlier one.
    ghost takes_back: { Self → Self.Undone → Self.El → Self.El → Type 0 };

    /// Does what `plus` does, and says how to take it back.
    fn plus_recorded(
        &self,
        alloc: Global,
        a: &mut Self::El,
        b: Self::El,
    ) -> Result<Self::Undone, NoMemory>
        requires left { Self.valid self.now a.old }
        requires right { Self.valid self.now b }
        ensures ok { OnOk result (a.new ≡ Self.add self.now a.old b) }
        ensures undo { IfOk result (λ undone. takes_back self.now undone a.new a.old) }
        ensures err { OnErr result (a.new ≡ a.old) };

    /// Takes a plus back. No memory is taken.
    fn undo(&self, a: &mut Self::El, undone: Self::Undone)
        ensures { (earlier : Self.El) → takes_back self.now undone a.old earlier
            → a.new ≡ earlier };
}
