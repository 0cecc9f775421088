//! Records with their parts, and what is added to these.
ghost use Rattle.std.specs.Prelude.{◌≡◌, IsTrue, OnOk};
ghost use Rattle.std.specs.FinMap.{find, is_sorted};
ghost use Rattle.sb_laws.specs.Sums.{IsValid};
ghost use Rattle.sb_laws.specs.Tables.{add_to};
ghost use Rattle.sb_feed.specs.Keys.{key_order};

use sb_feed::KeyBytes;
use sb_gather::{Ordered, place_of};
use sb_laws::{NoMemory, Semigroup};
use std::alloc::Global;
use std::cmp::Ordering;
use std::marker::PhantomData;

/// A record's batch, and its parts in rising order of their keys, each key once.
#[derive(Drop)]
pub struct Entry<E> {
    pub batch: u64,
    pub parts: Vec<(KeyBytes, E)>,
}

// Parts in the order of their keys.
#[derive(Drop)]
struct ByKey<E> {
    value: PhantomData<E>,
}

impl<E: Drop> Ordered for ByKey<E> {
    ghost use Rattle.std.proofs.lemmas.Cmp.{on_total};
    ghost use Rattle.sb_gather.specs.Maps.{by_key};
    ghost use Rattle.sb_feed.specs.Keys.{key_order};
    ghost use Rattle.sb_feed.proofs.KeyTies.{key_order_total};

    type Entry = (KeyBytes, E);

    ghost order = { λ _. by_key key_order };

    ghost total = { λ _. on_total (λ part. part.0) key_order_total };

    fn compare(&self, a: &(KeyBytes, E), b: &(KeyBytes, E)) -> Ordering {
        a.0.cmp(&b.0)
    }
}

/// Adds a value at a key, on the right of what the key has: a binary search, and a plus or one move of the parts behind.
pub fn add_part<M: Semigroup>(
    alloc: Global,
    m: &M,
    parts: &mut Vec<(KeyBytes, M::El)>,
    part: (KeyBytes, M::El),
) -> Result<(), NoMemory>
    requires rising { IsTrue (is_sorted key_order parts.old.items) }
    requires there { IsValid (M.valid m.now) (find key_order part.0 parts.old.items) }
    requires value { M.valid m.now part.1 }
    ensures { OnOk result (parts.new.items
        ≡ add_to key_order (M.add m.now) part.0 part.1 parts.old.items) }
{
    match place_of(&ByKey { value: PhantomData }, parts.as_slice(), &part) {
        Ok(at) => {
            let (_, value) = part;
            m.plus(alloc, &mut parts[at].1, value)
        }
        Err(at) => {
            parts.insert(at, part)?;
            Ok(())
        }
    }
}
