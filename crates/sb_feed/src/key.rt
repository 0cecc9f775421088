//! Keys of stores.
ghost use Rattle.std.specs.Prelude.{◌≡◌, IfOk};

use sb_laws::{Key, NoMemory};
use sb_text::Text;
use std::alloc::Global;
use std::cmp::Ordering;
use std::hash::{Hash, Hasher};

/// A key of a store: the store's number and the text of the key. Ordered by store, and then by the text's bytes.
#[derive(Drop)]
pub struct KeyBytes {
    pub store: u32,
    pub text: Text,
}

impl PartialEq for KeyBytes {
    ghost use Rattle.std.proofs.Common.{rules};
    ghost use Rattle.std.specs.Cmp.Rules.{comparing};
    ghost use Rattle.std.specs.Prelude.{◌==◌};
    ghost use Rattle.std.specs.Cmp.Lexicographic.{pointwise};
    ghost use Rattle.std.specs.Ordering.{on, eq_of_both};

    ghost eq = { eq_of_both (on (λ k. k.store) ◌==◌) (on (λ k. k.text) (pointwise ◌==◌)) };

    ghost laws = { Prim.search (comparing, rules) };

    fn eq(&self, other: &KeyBytes) -> bool {
        self.store == other.store && self.text == other.text
    }
}

impl Eq for KeyBytes {
    ghost use Rattle.std.proofs.Common.{rules};
    ghost use Rattle.std.specs.Cmp.Rules.{comparing};

    ghost laws = { Prim.search (comparing, rules) };
}

impl Ord for KeyBytes {
    ghost use Rattle.std.proofs.Common.{rules};
    ghost use Rattle.std.specs.Cmp.Rules.{comparing};
    ghost use Rattle.std.specs.Cmp.Lexicographic.{slice_cmp};
    ghost use Rattle.std.specs.Ordering.{nat_cmp, on, then_cmp};

    ghost cmp = { then_cmp (on (λ k. k.store) nat_cmp) (on (λ k. k.text) (slice_cmp nat_cmp)) };

    ghost total = { Prim.search (comparing, rules) };

    ghost matches_partial_cmp = { Prim.search (comparing, rules) };

    ghost matches_eq = { Prim.search (comparing, rules) };

    fn cmp(&self, other: &KeyBytes) -> Ordering {
        self.store
            .cmp(&other.store)
            .then(self.text.cmp(&other.text))
    }
}

impl PartialOrd for KeyBytes {
    ghost use Rattle.std.proofs.Common.{rules};
    ghost use Rattle.std.specs.Cmp.{partial_order_from_own_ties};
    ghost use Rattle.std.specs.Cmp.Rules.{comparing};
    ghost use Rattle.std.specs.Cmp.Lexicographic.{slice_cmp};
    ghost use Rattle.std.specs.Ordering.{nat_cmp, on, then_cmp, as_partial_cmp};

    ghost partial_cmp = { as_partial_cmp (then_cmp (on (λ k. k.store) nat_cmp) (on (λ k. k.text) (slice_cmp nat_cmp))) };

    ghost laws = { partial_order_from_own_ties (Prim.search (comparing, rules)) (Prim.search (comparing, rules)) };

    fn partial_cmp(&self, other: &KeyBytes) -> Option<Ordering> {
        Some(self.cmp(other))
    }
}

impl Key for KeyBytes {
    ghost use Rattle.sb_feed.specs.Keys.{key_order-IsAntisymmetric};

    ghost same = { key_order-IsAntisymmetric };

    fn copy(&self, alloc: Global) -> Result<KeyBytes, NoMemory> {
        let text = self.text.copy(alloc)?;
        Ok(KeyBytes {
            store: self.store,
            text,
        })
    }
}

impl Hash for KeyBytes {
    ghost use Rattle.std.proofs.Common.{rules};
    ghost use Rattle.std.specs.Cmp.Rules.{comparing, hashing};
    ghost use Rattle.std.specs.Hash as fed;
    ghost use Rattle.std.specs.Prelude.{[], ◌∷◌, ◌++◌};

    // The store's number, and then the bytes of the text in one write.
    ghost hash_input = { λ k. fed.u32 k.store ++ k.text ∷ [] };

    ghost respects_eq = { Prim.search (hashing, rules) };

    fn hash<H: Hasher>(&self, state: &mut H) {
        self.store.hash(state);
        self.text.hash(state);
    }
}
