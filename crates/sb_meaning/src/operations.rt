//! What is done with values.
ghost use Rattle.std.specs.Prelude.{◌≡◌, IfOk};
ghost use Rattle.sb_meaning.specs.Operations as spec;
ghost use Rattle.sb_types.specs.Value.{pair, some};
ghost use Rattle.sb_types.specs.ValView.{value_of};

use crate::parts::{
    bytes_in, copy_part, field_of, first_in, first_of, in_or, is_something, length_in, number_in,
    second_in, second_of, truth_in,
};
use crate::words::{first_words, lower};
use sb_terms::{Comparison, Double, Single};
use sb_text::NoMemory;
use sb_types::{Val, compare, copy};
use sqlite_items::Boxed;
use std::alloc::Global;
use std::cmp::Ordering;

/// An option that has the value.
#[tactic(auto, using(crate::proofs::Views::some_view))]
pub fn wrapped(alloc: Global, value: Val) -> Result<Val, NoMemory>
    ensures { IfOk result (λ v. value_of v ≡ some (value_of value)) }
{
    Ok(Val::Opt(Some(Boxed::new(alloc, value)?)))
}

/// The pair of two values.
pub fn paired(alloc: Global, left: Val, right: Val) -> Result<Val, NoMemory>
    ensures { IfOk result (λ v. value_of v ≡ pair (value_of left) (value_of right)) }
{
    let left = Boxed::new(alloc, left)?;
    let right = Boxed::new(alloc, right)?;
    Ok(Val::Pair(left, right))
}

fn quotient(number: i64, divisor: i64) -> i64
    ensures { result ≡ spec.quotient number divisor }
{
    if 0 < divisor {
        number.div_euclid(divisor)
    } else {
        0
    }
}

fn remainder(number: i64, divisor: i64) -> i64
    ensures { result ≡ spec.remainder number divisor }
{
    if 0 < divisor {
        number.rem_euclid(divisor)
    } else {
        0
    }
}

/// What is done with one value that is lent.
pub fn one_of(alloc: Global, op: Single, value: &Val) -> Result<Val, NoMemory>
    ensures { IfOk result (λ v. value_of v ≡ spec.one op (value_of value.now)) }
{
    match op {
        Single::First => copy_part(alloc, first_of(value)),
        Single::Second => copy_part(alloc, second_of(value)),
        Single::Field(place) => copy_part(alloc, field_of(place, value)),
        Single::Wrap => wrapped(alloc, copy(alloc, value)?),
        Single::Has => Ok(Val::Bool(is_something(value))),
        Single::Lower => lower(alloc, bytes_in(value)),
        Single::Words(most) => first_words(alloc, most, bytes_in(value)),
        Single::Len => Ok(Val::Int(length_in(value))),
        Single::Not => Ok(Val::Bool(!truth_in(value))),
        Single::Minus => Ok(Val::Int(number_in(value).wrapping_neg())),
        Single::Over(divisor) => Ok(Val::Int(quotient(number_in(value), divisor))),
        Single::Modulo(divisor) => Ok(Val::Int(remainder(number_in(value), divisor))),
    }
}

/// What is done with one value.
pub fn one(alloc: Global, op: Single, value: Val) -> Result<Val, NoMemory>
    ensures { IfOk result (λ v. value_of v ≡ spec.one op (value_of value)) }
{
    match op {
        Single::First => Ok(first_in(value)),
        Single::Second => Ok(second_in(value)),
        Single::Wrap => wrapped(alloc, value),
        op => one_of(alloc, op, &value),
    }
}

fn is_so(op: Comparison, order: Ordering) -> bool
    ensures { result ≡ spec.is_so op order }
{
    match op {
        Comparison::Equal => order.is_eq(),
        Comparison::Unequal => !order.is_eq(),
        Comparison::Less => order.is_lt(),
        Comparison::AtMost => !order.is_gt(),
        Comparison::Greater => order.is_gt(),
        Comparison::AtLeast => !order.is_lt(),
    }
}

// What of two values needs no memory.
fn plain(op: Double, left: &Val, right: &Val) -> Val
    ensures { value_of result ≡ spec.plain op (value_of left.now) (value_of right.now) }
{
    match op {
        Double::Pair | Double::Orelse => Val::Int(0),
        Double::Starts => Val::Bool(bytes_in(left).starts_with(bytes_in(right))),
        Double::Or => Val::Bool(truth_in(left) || truth_in(right)),
        Double::And => Val::Bool(truth_in(left) && truth_in(right)),
        Double::Compare(op) => Val::Bool(is_so(op, compare(left, right))),
        Double::Plus => Val::Int(number_in(left).wrapping_add(number_in(right))),
        Double::Minus => Val::Int(number_in(left).wrapping_sub(number_in(right))),
        Double::Times => Val::Int(number_in(left).wrapping_mul(number_in(right))),
    }
}

/// What is done with two values that are lent.
pub fn two_of(alloc: Global, op: Double, left: &Val, right: &Val) -> Result<Val, NoMemory>
    ensures { IfOk result (λ v. value_of v ≡ spec.two op (value_of left.now) (value_of right.now)) }
{
    match op {
        Double::Pair => paired(alloc, copy(alloc, left)?, copy(alloc, right)?),
        Double::Orelse => Ok(in_or(copy(alloc, left)?, copy(alloc, right)?)),
        op => Ok(plain(op, left, right)),
    }
}

/// What is done with two values.
pub fn two(alloc: Global, op: Double, left: Val, right: Val) -> Result<Val, NoMemory>
    ensures { IfOk result (λ v. value_of v ≡ spec.two op (value_of left) (value_of right)) }
{
    match op {
        Double::Pair => paired(alloc, left, right),
        Double::Orelse => Ok(in_or(left, right)),
        op => Ok(plain(op, &left, &right)),
    }
}
