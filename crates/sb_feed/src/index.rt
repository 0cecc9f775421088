//! The positions of a log's records by their batches.
ghost use Rattle.std.specs.Prelude.{◌≡◌, ◌<◌, ◌≤◌, [], ◌∷◌, ◌++◌, ℕ, length, map, slice_index, OnOk, OnErr};
ghost use Rattle.sb_feed.specs.Index.{list_at, positions_of};
ghost use Rattle.sb_feed.specs.Limits.{last_batch};

use crate::NoMemory;
use crate::lists::push_at;
use std::alloc::Global;
use std::marker::Model;

/// The batch of each record of a log, and the positions of each batch's records. Contracts see the batches in log order.
/// Takes two numbers a record, and a list for each batch up to the greatest.
#[derive(Drop)]
pub struct BatchIndex {
    batches: Vec<u64>,
    positions: Vec<Vec<u64>>,
}

impl Model for BatchIndex {
    ghost use Rattle.std.specs.Prelude.{List, ℕ, map};
    ghost use Rattle.sb_feed.specs.Index.{IsIndex};

    ghost Value = { List ℕ };

    ghost view = { λ index. index.batches.items };

    ghost invariant = { λ index. IsIndex index.batches.items (map (λ list. list.items) index.positions.items) };
}

impl BatchIndex {
    /// The index of no records. Takes no memory.
    pub fn new(alloc: Global) -> BatchIndex
        ensures { result ≡ [] }
    {
        BatchIndex {
            batches: Vec::new(alloc),
            positions: Vec::new(alloc),
        }
    }

    /// Puts the next record, of this batch, behind those that are there: in constant time, amortised, where the greatest
    /// batch stays. A refusal leaves the index as it was.
    pub fn push(&mut self, batch: u64) -> Result<(), NoMemory>
        requires { batch ≤ last_batch }
        ensures ok { OnOk result (self.new ≡ self.old ++ batch ∷ []) }
        ensures err { OnErr result (self.new ≡ self.old) }
    {
        let alloc = *self.batches.allocator();
        let position = self.batches.len() as u64;
        self.batches.reserve(1)?;
        make_room(alloc, &mut self.positions, batch)?;
        push_at(&mut self.positions, batch, position)?;
        self.batches.push(batch)?;
        Ok(())
    }

    /// The number of records.
    pub fn len(&self) -> u64
        ensures { result ≡ length self.now }
    {
        self.batches.len() as u64
    }

    /// The batch of a record.
    pub fn batch(&self, i: u64) -> u64
        requires { i < length self.now }
        ensures { result ≡ slice_index self.now i }
    {
        self.batches[i as usize]
    }

    /// The positions of a batch's records, in rising order; a batch without records has none.
    pub fn positions(&self, batch: u64) -> &[u64]
        ensures { result.now ≡ positions_of self.now batch }
    {
        match self.positions.get(batch as usize) {
            Some(list) => list.as_slice(),
            None => &[],
        }
    }
}

// Adds empty lists up to the batch's place. After a refusal some may be added.
fn make_room(alloc: Global, lists: &mut Vec<Vec<u64>>, batch: u64) -> Result<(), NoMemory>
    requires { batch ≤ last_batch }
    ensures same { (b : ℕ) → list_at (map (λ list. list.items) lists.new.items) b
        ≡ list_at (map (λ list. list.items) lists.old.items) b }
    ensures room { OnOk result (batch < length lists.new.items) }
{
    for _ in lists.len() as u64..batch + 1 {
        lists.push(Vec::new(alloc))?;
    }
    Ok(())
}
