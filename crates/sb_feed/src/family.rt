//! The dictionaries of stores, and the texts of their elements.
ghost use Rattle.std.specs.Prelude.{◌≡◌, ◌<◌, ◌++◌, List, ℕ, length, slice_get, Some, OnOk, OnErr};
ghost use Rattle.sb_feed.specs.Jobs.{valid_by};

use sb_laws::{NoMemory, Semigroup};
use sb_text::Text;
use std::alloc::Global;

/// The dictionaries of stores, which are numbered from 0.
pub trait Family {
    type M: Semigroup;

    /// The dictionary of each store, as a plain value.
    ghost monoids: { Self → List Self.M };

    /// The number of stores.
    fn stores(&self) -> u32
        ensures { result ≡ length (monoids self.now) };

    /// The dictionary of a store.
    fn monoid(&self, store: u32) -> &Self::M
        requires { store < length (monoids self.now) }
        ensures { slice_get (monoids self.now) store ≡ Some result.now };
}

/// A family whose stores have names and whose elements have texts.
pub trait Printed: Family {
    /// The name of each store.
    ghost name: { Self → ℕ → List ℕ };

    /// The text of each store's elements.
    ghost printed: { Self → ℕ → Self.M.El → List ℕ };

    /// The name of a store.
    fn name(&self, store: u32) -> &Text
        requires { store < length (Self.monoids self.now) }
        ensures { result.now ≡ name self.now store };

    /// Writes the text of an element at the end of `out`. A refusal leaves `out` as it was.
    fn print(
        &self,
        alloc: Global,
        store: u32,
        value: &<Self::M as Semigroup>::El,
        out: &mut Vec<u8>,
    ) -> Result<(), NoMemory>
        requires store { store < length (Self.monoids self.now) }
        requires value { valid_by Self.M.valid (slice_get (Self.monoids self.now) store) value.now }
        ensures ok { OnOk result (out.new.items
            ≡ out.old.items ++ printed self.now store value.now) }
        ensures err { OnErr result (out.new.items ≡ out.old.items) };
}
