//! What is made of each value that comes out of a path.
ghost use Rattle.std.specs.Prelude.{◌≡◌, ◌+◌, IfOk, OnOk};
ghost use Rattle.sb_kind.specs.Elements.{IsOf};
ghost use Rattle.sb_kind.specs.KindView.{monoid_of};
ghost use Rattle.sb_kind.specs.Prepared.{prepared};
ghost use Rattle.sb_meaning.specs.Expression.{ev};
ghost use Rattle.sb_meaning.specs.Its.{it_value};
ghost use Rattle.sb_meaning.specs.Operations.{part_value};
ghost use Rattle.sb_plan.specs.Given.{fed};
ghost use Rattle.sb_types.specs.Text.{value_text};
ghost use Rattle.sb_types.specs.ValView.{val_of};

use crate::texts::key_text;
use sb_kind::{Agg, Kind, prepare};
use sb_laws::{NoMemory, Steps};
use sb_meaning::{It, copy_part, first_of, lent, second_of, value};
use sb_terms::Term;
use sb_text::Text;
use sb_types::Val;
use std::alloc::Global;
use std::sync::ledger::Ledger;

/// What makes something of values.
pub trait Maker {
    ghost use Rattle.std.specs.Prelude.{ℕ};
    ghost use Rattle.sb_types.specs.Value.{Value};

    type Made: Drop;

    /// What is made of a value.
    ghost made: { Self → Value → Self.Made };

    /// What is known of all that is made.
    ghost good: { Self → Self.Made → Type 0 };

    /// How many steps making takes for a value.
    ghost takes: { Self → ℕ };

    fn make<L: Ledger>(
        &self,
        alloc: Global,
        it: It<'_>,
        steps: &mut Steps<L>,
    ) -> Result<Self::Made, NoMemory>
        ensures made { IfOk result (λ m. m ≡ made self.now (it_value it.entry)) }
        ensures good { IfOk result (good self.now) }
        ensures steps { OnOk result (steps.new ≡ steps.old + takes self.now) };
}

/// Copies values.
#[derive(Drop)]
pub struct Copier;

impl Maker for Copier {
    ghost use Rattle.sb_types.specs.ValView.{val_of};

    type Made = Val;

    ghost made = { λ _ v. val_of v };

    ghost good = { λ _ _. Unit {0} };

    ghost takes = { λ _. 0 };

    fn make<L: Ledger>(
        &self,
        alloc: Global,
        it: It<'_>,
        _steps: &mut Steps<L>,
    ) -> Result<Val, NoMemory> {
        it.copied(alloc)
    }
}

/// The last stage of a store's stream: it gives a pair, or it makes a pair of two expressions, which is not built.
#[derive(Clone, Copy)]
pub enum Ending<'a> {
    Pair,
    Split(&'a Term, &'a Term),
}

/// Makes the text of a key and the element of a store out of a value.
#[derive(Drop)]
pub struct Feeder<'a> {
    pub ending: Ending<'a>,
    pub kind: &'a Kind,
}

impl<'a> Maker for Feeder<'a> {
    ghost use Rattle.sb_kind.specs.Elements.{IsOf};
    ghost use Rattle.sb_kind.specs.KindView.{monoid_of};
    ghost use Rattle.sb_plan.specs.Feeding.{made_by};
    ghost use Rattle.sb_plan.specs.PathSteps.{ending_steps};

    type Made = (Text, Agg);

    ghost made = { λ feeder. made_by feeder.ending (monoid_of feeder.kind.now) };

    ghost good = { λ feeder made. IsOf (monoid_of feeder.kind.now) made.1 };

    ghost takes = { λ feeder. ending_steps feeder.ending };

    // The two parts of a pair that isn't built are one expression of its stage, and one step.
    fn make<L: Ledger>(
        &self,
        alloc: Global,
        it: It<'_>,
        steps: &mut Steps<L>,
    ) -> Result<(Text, Agg), NoMemory> {
        match self.ending {
            Ending::Pair => make_of_pair(alloc, self.kind, it),
            Ending::Split(key, value) => {
                steps.tick();
                make_of_both(alloc, self.kind, key, value, it)
            }
        }
    }
}

// What a pair gives; of another value than a pair the parts are 0.
fn make_of_pair(alloc: Global, kind: &Kind, it: It<'_>) -> Result<(Text, Agg), NoMemory>
    ensures made { IfOk result (λ m. m ≡ fed (monoid_of kind.now) (it_value it.entry)) }
    ensures good { IfOk result (λ m. IsOf (monoid_of kind.now) m.1) }
{
    match it {
        It::Value(pair) => make_of_parts(alloc, kind, first_of(pair), second_of(pair)),
        It::Fields(_) => make_of_parts(alloc, kind, None, None),
    }
}

fn make_of_parts(
    alloc: Global,
    kind: &Kind,
    key: Option<&Val>,
    value: Option<&Val>,
) -> Result<(Text, Agg), NoMemory>
    ensures made { IfOk result (λ m. m ≡ (
      value_text (part_value key.entry),
      prepared (monoid_of kind.now) (val_of (part_value value.entry)),
    )) }
    ensures good { IfOk result (λ m. IsOf (monoid_of kind.now) m.1) }
{
    let text = text_of_part(alloc, key)?;
    let value = copy_part(alloc, value)?;
    Ok((text, prepare(alloc, kind, value)?))
}

// The text of a part; of one that isn't there, that of 0.
fn text_of_part(alloc: Global, part: Option<&Val>) -> Result<Text, NoMemory>
    ensures { IfOk result (λ text. text ≡ value_text (part_value part.entry)) }
{
    match part {
        Some(part) => key_text(alloc, part),
        None => key_text(alloc, &Val::Int(0)),
    }
}

// The key and the value of a pair that isn't built.
fn make_of_both(
    alloc: Global,
    kind: &Kind,
    key: &Term,
    term: &Term,
    it: It<'_>,
) -> Result<(Text, Agg), NoMemory>
    ensures made { IfOk result (λ m. m ≡ (
      value_text (ev key.now (it_value it.entry)),
      prepared (monoid_of kind.now) (val_of (ev term.now (it_value it.entry))),
    )) }
    ensures good { IfOk result (λ m. IsOf (monoid_of kind.now) m.1) }
{
    let text = text_by(alloc, key, it)?;
    let value = value(alloc, term, it)?;
    Ok((text, prepare(alloc, kind, value)?))
}

// The text of the key that an expression gives.
fn text_by(alloc: Global, key: &Term, it: It<'_>) -> Result<Text, NoMemory>
    ensures { IfOk result (λ text. text ≡ value_text (ev key.now (it_value it.entry))) }
{
    if let Some(key) = lent(key, it) {
        return key_text(alloc, key);
    }
    let key = value(alloc, key, it)?;
    key_text(alloc, &key)
}
