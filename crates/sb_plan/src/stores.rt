//! The stores of a program: their names, and their dictionaries.
ghost use Rattle.std.specs.Prelude.{◌≡◌, ◌<◌, IfOk, Some, map, length, slice_get};
ghost use Rattle.sb_plan.specs.Runners.{name_at};

use sb_text::{NoMemory, Text};
use std::alloc::AllocError;
use std::marker::Model;

/// The names and the dictionaries of stores, which are numbered from 0.
#[derive(Drop)]
pub struct Stores<M> {
    stores: Vec<(Text, M)>,
}

impl<M> Model for Stores<M> {
    ghost use Rattle.std.specs.Prelude.{◌<◌, ◌^◌, length, map};
    ghost use Rattle.sb_plan.specs.Runners.{StoresValue};

    ghost Value = { StoresValue M };

    ghost view = { λ s. record { names = map (λ store. store.0) s.stores.items; monoids = map (λ store. store.1) s.stores.items } };

    ghost invariant = { λ s. length (map (λ store. store.1) s.stores.items) < 2 ^ 32 };
}

impl<M: Drop> Stores<M> {
    /// The stores of these names and dictionaries. No memory holds 2^32 of them, which are refused as want of it.
    pub fn new(stores: Vec<(Text, M)>) -> Result<Stores<M>, NoMemory>
        ensures names { IfOk result (λ s. s.names ≡ map (λ store. store.0) stores.items) }
        ensures monoids { IfOk result (λ s. s.monoids ≡ map (λ store. store.1) stores.items) }
    {
        if u32::try_from(stores.len()).is_err() {
            return Err(AllocError);
        }
        Ok(Stores { stores })
    }
}

impl<M> Stores<M> {
    /// The number of stores.
    pub fn len(&self) -> u32
        ensures { result ≡ length self.now.monoids }
    {
        self.stores.len() as u32
    }

    /// The dictionary of a store.
    pub fn monoid(&self, store: u32) -> &M
        requires { store < length self.now.monoids }
        ensures { slice_get self.now.monoids store ≡ Some result.now }
    {
        &self.stores[store as usize].1
    }

    /// The name of a store.
    pub fn name(&self, store: u32) -> &Text
        requires { store < length self.now.monoids }
        ensures { result.now ≡ name_at self.now.names store }
    {
        &self.stores[store as usize].0
    }
}
