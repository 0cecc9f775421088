//! The order of values.
ghost use Rattle.std.specs.Prelude.{◌≡◌};
ghost use Rattle.sb_types.specs.Order.{value_cmp, values_cmp, variant_of};
ghost use Rattle.sb_types.specs.ValView.{value_of, view_values};

use crate::values::Val;
use std::cmp::Ordering;

// The place of a value's variant among the variants.
fn variant(value: &Val) -> u8
    ensures { result ≡ variant_of (value_of value.now) }
{
    match value {
        Val::Int(_) => 0,
        Val::Text(_) => 1,
        Val::Bool(_) => 2,
        Val::Pair(..) => 3,
        Val::Opt(_) => 4,
        Val::List(_) => 5,
        Val::Rec(_) => 6,
    }
}

/// The order of values: variants in the order of their declaration, and within one variant numbers by size, texts by
/// bytes, false before true, none before some, and pairs, lists and records part by part, a proper prefix first.
#[cycle(compare)]
pub fn compare(left: &Val, right: &Val) -> Ordering
    ensures { result ≡ value_cmp (value_of left.now) (value_of right.now) }
{
    match (left, right) {
        (Val::Int(a), Val::Int(b)) => a.cmp(b),
        (Val::Text(a), Val::Text(b)) => a.cmp(b),
        (Val::Bool(a), Val::Bool(b)) => a.cmp(b),
        (Val::Pair(a, b), Val::Pair(c, d)) => match compare(a.get(), c.get()) {
            Ordering::Equal => compare(b.get(), d.get()),
            unequal => unequal,
        },
        (Val::Opt(None), Val::Opt(None)) => Ordering::Equal,
        (Val::Opt(None), Val::Opt(Some(_))) => Ordering::Less,
        (Val::Opt(Some(_)), Val::Opt(None)) => Ordering::Greater,
        (Val::Opt(Some(a)), Val::Opt(Some(b))) => compare(a.get(), b.get()),
        (Val::List(a), Val::List(b)) | (Val::Rec(a), Val::Rec(b)) => compare_lists(
            a.as_slice(),
            b.as_slice(),
        ),
        _ => variant(left).cmp(&variant(right)),
    }
}

#[cycle(compare)]
fn compare_lists(left: &[Val], right: &[Val]) -> Ordering
    ensures { result ≡ values_cmp (view_values left.now) (view_values right.now) }
{
    for (at, a) in left.iter().enumerate() {
        let Some(b) = right.get(at) else {
            return Ordering::Greater;
        };
        let order = compare(a, b);
        if order != Ordering::Equal {
            return order;
        }
    }
    if left.len() < right.len() {
        Ordering::Less
    } else {
        Ordering::Equal
    }
}

impl PartialEq for Val {
    ghost use Rattle.std.specs.Ordering.{eq_by_cmp, on};
    ghost use Rattle.std.proofs.Common.{rules};
    ghost use Rattle.std.specs.Cmp.Rules.{comparing};
    ghost use Rattle.sb_types.specs.Order.{value_cmp};
    ghost use Rattle.sb_types.specs.OrderLaws.{value_total};
    ghost use Rattle.sb_types.specs.ValView.{value_of};

    ghost eq = { eq_by_cmp (on value_of value_cmp) };

    ghost laws = { Prim.search (comparing, rules, value_total) };

    fn eq(&self, other: &Val) -> bool {
        compare(self, other) == Ordering::Equal
    }
}

impl Eq for Val {
    ghost use Rattle.std.proofs.Common.{rules};
    ghost use Rattle.std.specs.Cmp.Rules.{comparing};
    ghost use Rattle.sb_types.specs.OrderLaws.{value_total};

    ghost laws = { Prim.search (comparing, rules, value_total) };
}

impl Ord for Val {
    ghost use Rattle.std.specs.Ordering.{on};
    ghost use Rattle.std.proofs.Common.{rules};
    ghost use Rattle.std.specs.Cmp.Rules.{comparing};
    ghost use Rattle.sb_types.specs.Order.{value_cmp};
    ghost use Rattle.sb_types.specs.OrderLaws.{value_total};
    ghost use Rattle.sb_types.specs.ValView.{value_of};

    ghost cmp = { on value_of value_cmp };

    ghost total = { Prim.search (comparing, rules, value_total) };

    ghost matches_partial_cmp = { Prim.search (comparing, rules) };

    ghost matches_eq = { Prim.search (comparing, rules) };

    fn cmp(&self, other: &Val) -> Ordering {
        compare(self, other)
    }
}

impl PartialOrd for Val {
    ghost use Rattle.std.specs.Ordering.{on, as_partial_cmp};
    ghost use Rattle.std.proofs.Common.{rules};
    ghost use Rattle.std.specs.Cmp.{partial_order_from_own_ties};
    ghost use Rattle.std.specs.Cmp.Rules.{comparing};
    ghost use Rattle.sb_types.specs.Order.{value_cmp};
    ghost use Rattle.sb_types.specs.OrderLaws.{value_total};
    ghost use Rattle.sb_types.specs.ValView.{value_of};

    ghost partial_cmp = { as_partial_cmp (on value_of value_cmp) };

    ghost laws = { partial_order_from_own_ties (Prim.search (comparing, rules, value_total)) (Prim.search (comparing, rules)) };

    fn partial_cmp(&self, other: &Val) -> Option<Ordering> {
        Some(compare(self, other))
    }
}
