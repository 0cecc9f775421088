//! Laws of the definitions, each on a function that does nothing.
ghost use Rattle.std.specs.Prelude.{◌≡◌, ◌↔◌, ◌⊎◌, ℕ, ℤ, List, ◌++◌, take, Contains, IsPermutation};
ghost use Rattle.std.specs.FinMap.{find};
ghost use Rattle.sb_laws.specs.Sums.{both_sums};
ghost use Rattle.sb_gather.specs.Entries.{IsRising};
ghost use Rattle.sb_gather.specs.Maps.{by_key, maps_added, union};
ghost use Rattle.sb_gather.specs.Tops.{by_rank, first_of_both, IsRanked};

use sb_laws::{Key, Semigroup};

/// What the sum of two maps has at a key is the sum of what each has there, where nothing adds nothing.
pub fn maps_are_added_key_by_key<K: Key, M: Semigroup>(part: &M)
    ensures { (a b : List (K × M.El)) → IsRising (by_key K.cmp) a → IsRising (by_key K.cmp) b
        → (key : K) → find K.cmp key (maps_added K.cmp (M.add part.now) a b)
        ≡ both_sums (M.add part.now) (find K.cmp key a) (find K.cmp key b) }
{}

/// A union has the members of both sets, and no other.
pub fn unions_have_the_members_of_both<K: Key>()
    ensures { (a b : List K) (key : K) → Contains (union K.cmp a b) key
        ↔ (Contains a key ⊎ Contains b key) }
{}

/// The first k of two lists are the first k of the ranked permutation of both: there is one, and no two.
pub fn tops_are_ranked_permutations<K: Key>()
    ensures ranking { (xs : List (ℤ × K)) → (all : List (ℤ × K)) × IsRanked (by_rank K.cmp) all
        × IsPermutation xs all }
    ensures first { (k : ℕ) (a b all : List (ℤ × K)) → IsRanked (by_rank K.cmp) a
        → IsRanked (by_rank K.cmp) all → IsPermutation (a ++ b) all
        → first_of_both (by_rank K.cmp) k a b ≡ take k all }
{}
