//! The stores of a program, for sums in log order.
ghost use Rattle.std.specs.Prelude.{◌≡◌, IfOk, map};
ghost use Rattle.sb_check.specs.CheckedView.{checked_of};
ghost use Rattle.sb_check.specs.Declarations.{store_of};
ghost use Rattle.sb_plan.specs.Runners.{AreStores, kind_monoid};

use crate::stores::Stores;
use sb_check::{Checked, StoreDecl};
use sb_feed::{Family, Printed};
use sb_kind::{Agg, KindM, text};
use sb_meaning::copy_kind;
use sb_text::{NoMemory, Text};
use std::alloc::Global;
use std::marker::Model;

/// The stores of any checked program, each with its name and its dictionary. Sums are made in log order, so the
/// dictionaries need not commute.
#[derive(Drop)]
pub struct Runner {
    stores: Stores<KindM>,
}

impl Model for Runner {
    ghost use Rattle.sb_plan.specs.Runners.{StoresValue};
    ghost use Rattle.std.specs.Coded.{codes};
    ghost use Rattle.sb_kind.specs.contracts.kind.Kind as kind;
    ghost use Rattle.sb_kind.specs.declared.dictionary.KindM.{KindM as Dictionary};

    ghost Value = { StoresValue Dictionary };

    ghost coded = { Prim.hlevel (codes, kind.the_row.coded) };

    ghost view = { λ r. r.stores };
}

impl Runner {
    /// The stores of a program. No memory holds 2^32 of them.
    pub fn new(alloc: Global, c: &Checked) -> Result<Runner, NoMemory>
        ensures { IfOk result (AreStores (checked_of c.now) kind_monoid) }
    {
        let stores = dictionaries(alloc, c.stores())?;
        Ok(Runner {
            stores: Stores::new(stores)?,
        })
    }
}

fn dictionaries(alloc: Global, stores: &[StoreDecl]) -> Result<Vec<(Text, KindM)>, NoMemory>
    ensures names { IfOk result (λ out. map (λ store. store.0) out.items
        ≡ map (λ s. s.name) (map store_of stores.now)) }
    ensures monoids { IfOk result (λ out. map kind_monoid (map (λ store. store.1) out.items)
        ≡ map (λ s. s.monoid) (map store_of stores.now)) }
{
    let mut out = Vec::with_capacity(alloc, stores.len())?;
    for store in stores {
        let name = store.name.copy(alloc)?;
        let kind = copy_kind(alloc, &store.kind)?;
        out.push((name, KindM::new(kind)))?;
    }
    Ok(out)
}

impl Family for Runner {
    type M = KindM;

    ghost monoids = { λ r. r.monoids };

    fn stores(&self) -> u32 {
        self.stores.len()
    }

    fn monoid(&self, store: u32) -> &KindM {
        self.stores.monoid(store)
    }
}

impl Printed for Runner {
    ghost use Rattle.sb_kind.specs.ElementText.{element_text};
    ghost use Rattle.sb_plan.specs.Runners.{name_at};

    ghost name = { λ r. name_at r.names };

    ghost printed = { λ _ _ value. element_text value };

    fn name(&self, store: u32) -> &Text {
        self.stores.name(store)
    }

    fn print(
        &self,
        alloc: Global,
        store: u32,
        value: &Agg,
        out: &mut Vec<u8>,
    ) -> Result<(), NoMemory> {
        text(alloc, &self.stores.monoid(store).kind, value, out)
    }
}
