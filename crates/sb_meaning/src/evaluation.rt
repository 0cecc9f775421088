//! The value of an expression.
ghost use Rattle.std.specs.Prelude.{◌≡◌, map, IfOk, IfSome};
ghost use Rattle.sb_meaning.specs.Expression.{ev};
ghost use Rattle.sb_meaning.specs.Its.{it_value};
ghost use Rattle.sb_meaning.specs.Operations as spec;
ghost use Rattle.sb_types.specs.Value.{list, values_of};
ghost use Rattle.sb_types.specs.ValView.{value_of};

use crate::it::It;
use crate::operations::{one, one_of, two, two_of};
use crate::parts::{field_at, part_of, truth_in};
use sb_terms::{Double, Single, Term};
use sb_text::NoMemory;
use sb_types::{Val, copy};
use sqlite_items::Items;
use std::alloc::Global;

/// The value of an expression where `it` is this value. The expressions are those of this program's own grammar.
#[cycle(value)]
pub fn value(alloc: Global, term: &Term, it: It<'_>) -> Result<Val, NoMemory>
    ensures { IfOk result (λ v. value_of v ≡ ev term.now (it_value it.entry)) }
{
    match term {
        Term::It => it.copied(alloc),
        Term::Constant(constant) => copy(alloc, constant),
        Term::One(op, part) => {
            if let Some(lent) = lent_part(*op, part.get(), it) {
                return copy(alloc, lent);
            }
            if let Some(lent) = lent(part.get(), it) {
                return one_of(alloc, *op, lent);
            }
            let part = value(alloc, part.get(), it)?;
            one(alloc, *op, part)
        }
        Term::Two(op, left, right) => {
            if let (Some(left), Some(right)) = (lent(left.get(), it), lent(right.get(), it)) {
                return two_of(alloc, *op, left, right);
            }
            let left = value(alloc, left.get(), it)?;
            let right = value(alloc, right.get(), it)?;
            two(alloc, *op, left, right)
        }
        Term::If(test, yes, no) => {
            let test = value(alloc, test.get(), it)?;
            if truth_in(&test) {
                value(alloc, yes.get(), it)
            } else {
                value(alloc, no.get(), it)
            }
        }
        Term::List(parts) => {
            let values = values(alloc, parts.as_slice(), it)?;
            Ok(listed(values))
        }
    }
}

#[cycle(value)]
fn values(alloc: Global, terms: &[Term], it: It<'_>) -> Result<Vec<Val>, NoMemory>
    ensures { IfOk result (λ vs. map value_of vs.items
        ≡ map (λ f. f (it_value it.entry)) (map ev terms.now)) }
{
    let mut values = Vec::with_capacity(alloc, terms.len())?;
    for term in terms {
        values.push(value(alloc, term, it)?)?;
    }
    Ok(values)
}

/// The value where it stands as a part of `it`, or as a constant; none where it has to be made.
#[cycle(lent)]
pub fn lent<'a>(term: &'a Term, it: It<'a>) -> Option<&'a Val>
    ensures { IfSome result (λ v. value_of v.now ≡ ev term.now (it_value it.entry)) }
{
    match term {
        Term::It => it.lent(),
        Term::Constant(constant) => Some(constant),
        Term::One(op, part) => lent_part(*op, part.get(), it),
        _ => None,
    }
}

// What the operation gives of a part, where that stands.
#[cycle(lent)]
fn lent_part<'a>(op: Single, part: &'a Term, it: It<'a>) -> Option<&'a Val>
    ensures { IfSome result (λ v. value_of v.now ≡ spec.one op (ev part.now (it_value it.entry))) }
{
    match (part, it) {
        (Term::It, It::Fields(fields)) => field_at(op, fields),
        (part, it) => part_of(op, lent(part, it)?),
    }
}

/// A list of these values.
#[tactic(auto, using(crate::proofs::Views::list_view))]
pub fn listed(values: Vec<Val>) -> Val
    ensures { value_of result ≡ list (values_of (map value_of values.items)) }
{
    Val::List(Items::from_vec(values))
}
