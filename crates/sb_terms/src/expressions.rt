//! The walk of an expression: parts from the left before the whole.
ghost use Rattle.std.specs.Prelude.{◌≡◌, map};
ghost use Rattle.sb_terms.specs.Expressions as spec;
ghost use Rattle.sb_terms.specs.Nodes.{typed_of};
ghost use Rattle.sb_terms.specs.Outcome.{Tells};
ghost use Rattle.sb_types.specs.TyView.{type_of};

use crate::copying::copy;
use crate::fault::Fault;
use crate::nodes::{
    constant_node, field_node, if_node, int_node, list_node, one_node, sized, two_node,
};
use crate::tables::{list_of, option_of};
use crate::term::{Comparison, Double, Single, Term};
use crate::typed::Typed;
use crate::written::written_type;
use sb_grammar::{
    Add, AddRest, Atom, Cmp, CmpOp, Conj, Disj, Expr, Neg, Post, PostStep, Prod, ProdRest, Unary,
};
use sb_types::{Ty, Val};
use sqlite_items::Items;
use std::alloc::Global;

/// The expression as a term with its type, where `it` has this type, or the first fault: parts go from the left, before
/// the whole. A statement has at most 256 tokens, which bounds the depth.
#[cycle(walk)]
pub fn expr(alloc: Global, tree: &Expr, it: &Ty) -> Result<Typed, Fault>
    ensures { Tells typed_of (spec.expr_walk tree.now (type_of it.now)) result }
{
    match tree {
        Expr::If(test, yes, no) => {
            let test = expr(alloc, test.get(), it)?;
            let yes = match expr(alloc, yes.get(), it) {
                Ok(yes) => yes,
                Err(fault) => {
                    drop(test);
                    return Err(fault);
                }
            };
            match expr(alloc, no.get(), it) {
                Ok(no) => if_node(alloc, test, yes, no),
                Err(fault) => {
                    drop(test);
                    drop(yes);
                    Err(fault)
                }
            }
        }
        Expr::Plain(inner) => disj(alloc, inner, it),
    }
}

#[cycle(walk)]
fn disj(alloc: Global, tree: &Disj, it: &Ty) -> Result<Typed, Fault>
    ensures { Tells typed_of (spec.disj_walk tree.now (type_of it.now)) result }
{
    let mut whole = conj(alloc, &tree.first, it)?;
    for part in tree.rest.as_slice() {
        let right = conj(alloc, part, it)?;
        whole = two_node(alloc, Double::Or, whole, right)?;
    }
    Ok(whole)
}

#[cycle(walk)]
fn conj(alloc: Global, tree: &Conj, it: &Ty) -> Result<Typed, Fault>
    ensures { Tells typed_of (spec.conj_walk tree.now (type_of it.now)) result }
{
    let mut whole = neg(alloc, &tree.first, it)?;
    for part in tree.rest.as_slice() {
        let right = neg(alloc, part, it)?;
        whole = two_node(alloc, Double::And, whole, right)?;
    }
    Ok(whole)
}

#[cycle(walk)]
fn neg(alloc: Global, tree: &Neg, it: &Ty) -> Result<Typed, Fault>
    ensures { Tells typed_of (spec.neg_walk tree.now (type_of it.now)) result }
{
    match tree {
        Neg::Not(inner) => {
            let part = neg(alloc, inner.get(), it)?;
            one_node(alloc, Single::Not, part)
        }
        Neg::Plain(inner) => cmp(alloc, inner, it),
    }
}

#[cycle(walk)]
fn cmp(alloc: Global, tree: &Cmp, it: &Ty) -> Result<Typed, Fault>
    ensures { Tells typed_of (spec.cmp_walk tree.now (type_of it.now)) result }
{
    match tree {
        Cmp::Plain(inner) => add(alloc, inner, it),
        Cmp::Both(operator, left, right) => {
            let left = add(alloc, left, it)?;
            let comparison = Double::Compare(comparison(*operator));
            match add(alloc, right, it) {
                Ok(right) => two_node(alloc, comparison, left, right),
                Err(fault) => {
                    drop(left);
                    Err(fault)
                }
            }
        }
    }
}

fn comparison(operator: CmpOp) -> Comparison
    ensures { result ≡ spec.comparison operator }
{
    match operator {
        CmpOp::Equal => Comparison::Equal,
        CmpOp::Unequal => Comparison::Unequal,
        CmpOp::Less => Comparison::Less,
        CmpOp::AtMost => Comparison::AtMost,
        CmpOp::Greater => Comparison::Greater,
        CmpOp::AtLeast => Comparison::AtLeast,
    }
}

#[cycle(walk)]
fn add(alloc: Global, tree: &Add, it: &Ty) -> Result<Typed, Fault>
    ensures { Tells typed_of (spec.add_walk tree.now (type_of it.now)) result }
{
    let mut whole = prod(alloc, &tree.first, it)?;
    for rest in tree.rest.as_slice() {
        whole = add_rest(alloc, rest, it, whole)?;
    }
    Ok(whole)
}

#[cycle(walk)]
fn add_rest(alloc: Global, tree: &AddRest, it: &Ty, left: Typed) -> Result<Typed, Fault>
    ensures { Tells typed_of (spec.add_rest_walk tree.now (type_of it.now) (typed_of left)) result }
{
    match tree {
        AddRest::Plus(inner) => match prod(alloc, inner, it) {
            Ok(right) => two_node(alloc, Double::Plus, left, right),
            Err(fault) => {
                drop(left);
                Err(fault)
            }
        },
        AddRest::Minus(inner) => match prod(alloc, inner, it) {
            Ok(right) => two_node(alloc, Double::Minus, left, right),
            Err(fault) => {
                drop(left);
                Err(fault)
            }
        },
    }
}

#[cycle(walk)]
fn prod(alloc: Global, tree: &Prod, it: &Ty) -> Result<Typed, Fault>
    ensures { Tells typed_of (spec.prod_walk tree.now (type_of it.now)) result }
{
    let mut whole = unary(alloc, &tree.first, it)?;
    for rest in tree.rest.as_slice() {
        whole = prod_rest(alloc, rest, it, whole)?;
    }
    Ok(whole)
}

#[cycle(walk)]
fn prod_rest(alloc: Global, tree: &ProdRest, it: &Ty, left: Typed) -> Result<Typed, Fault>
    ensures { Tells typed_of
        (spec.prod_rest_walk tree.now (type_of it.now) (typed_of left)) result }
{
    match tree {
        ProdRest::Times(inner) => match unary(alloc, inner, it) {
            Ok(right) => two_node(alloc, Double::Times, left, right),
            Err(fault) => {
                drop(left);
                Err(fault)
            }
        },
        ProdRest::Over(number) => match divisor(*number) {
            Ok(divisor) => one_node(alloc, Single::Over(divisor), left),
            Err(fault) => {
                drop(left);
                Err(fault)
            }
        },
        ProdRest::Modulo(number) => match divisor(*number) {
            Ok(divisor) => one_node(alloc, Single::Modulo(divisor), left),
            Err(fault) => {
                drop(left);
                Err(fault)
            }
        },
    }
}

// What divides is above 0 and below 2^63.
fn divisor(number: u64) -> Result<i64, Fault>
    ensures { Tells (λ n. n) (spec.divisor number) result }
{
    match i64::try_from(number) {
        Ok(number) if 0 < number => Ok(number),
        _ => Err(Fault::Mistyped),
    }
}

#[cycle(walk)]
fn unary(alloc: Global, tree: &Unary, it: &Ty) -> Result<Typed, Fault>
    ensures { Tells typed_of (spec.unary_walk tree.now (type_of it.now)) result }
{
    match tree {
        Unary::Minus(inner) => {
            let part = unary(alloc, inner.get(), it)?;
            one_node(alloc, Single::Minus, part)
        }
        Unary::Plain(inner) => post(alloc, inner, it),
    }
}

#[cycle(walk)]
fn post(alloc: Global, tree: &Post, it: &Ty) -> Result<Typed, Fault>
    ensures { Tells typed_of (spec.post_walk tree.now (type_of it.now)) result }
{
    let mut whole = atom(alloc, &tree.atom, it)?;
    for step in tree.steps.as_slice() {
        whole = post_step(alloc, step, whole)?;
    }
    Ok(whole)
}

fn post_step(alloc: Global, step: &PostStep, whole: Typed) -> Result<Typed, Fault>
    ensures { Tells typed_of (spec.step_node step.now (typed_of whole)) result }
{
    match step {
        PostStep::Field(name) => field_node(alloc, name.as_bytes(), whole),
        PostStep::First => one_node(alloc, Single::First, whole),
        PostStep::Second => one_node(alloc, Single::Second, whole),
    }
}

#[cycle(walk)]
fn atom(alloc: Global, tree: &Atom, it: &Ty) -> Result<Typed, Fault>
    ensures { Tells typed_of (spec.atom_walk tree.now (type_of it.now)) result }
{
    match tree {
        Atom::Int(number) => int_node(*number),
        Atom::Text(value) => constant_node(Val::Text(value.copy(alloc)?), Ty::Text),
        Atom::True => constant_node(Val::Bool(true), Ty::Bool),
        Atom::False => constant_node(Val::Bool(false), Ty::Bool),
        Atom::It => sized(Term::It, copy(alloc, it)?),
        Atom::Group(inner) => expr(alloc, inner.get(), it),
        Atom::Pair(first, second) => {
            let left = expr(alloc, first.get(), it)?;
            behind(alloc, Double::Pair, second.get(), it, left)
        }
        Atom::List(trees) => list(alloc, trees.as_slice(), it),
        Atom::Empty(of) => {
            let of = list_of(alloc, written_type(alloc, of)?, 0)?;
            constant_node(Val::List(Items::new(alloc)), of)
        }
        Atom::NoneOf(of) => {
            let of = option_of(alloc, written_type(alloc, of)?)?;
            constant_node(Val::Opt(None), of)
        }
        Atom::SomeOf(inner) => one(alloc, Single::Wrap, inner.get(), it),
        Atom::Orelse(option, other) => {
            let left = expr(alloc, option.get(), it)?;
            behind(alloc, Double::Orelse, other.get(), it, left)
        }
        Atom::Has(inner) => one(alloc, Single::Has, inner.get(), it),
        Atom::Lower(inner) => one(alloc, Single::Lower, inner.get(), it),
        Atom::Words(text, most) => one(alloc, Single::Words(*most), text.get(), it),
        Atom::Len(inner) => one(alloc, Single::Len, inner.get(), it),
        Atom::Starts(text, start) => {
            let left = expr(alloc, text.get(), it)?;
            behind(alloc, Double::Starts, start.get(), it, left)
        }
    }
}

#[cycle(walk)]
fn one(alloc: Global, op: Single, tree: &Expr, it: &Ty) -> Result<Typed, Fault>
    ensures { Tells typed_of (spec.one_walk op (spec.expr_walk tree.now) (type_of it.now)) result }
{
    let part = expr(alloc, tree, it)?;
    one_node(alloc, op, part)
}

// The second of two, behind the first.
#[cycle(walk)]
fn behind(alloc: Global, op: Double, tree: &Expr, it: &Ty, left: Typed) -> Result<Typed, Fault>
    ensures { Tells typed_of
        (spec.behind op (spec.expr_walk tree.now) (type_of it.now) (typed_of left)) result }
{
    match expr(alloc, tree, it) {
        Ok(right) => two_node(alloc, op, left, right),
        Err(fault) => {
            drop(left);
            Err(fault)
        }
    }
}

#[cycle(walk)]
fn list(alloc: Global, trees: &[Expr], it: &Ty) -> Result<Typed, Fault>
    ensures { Tells typed_of
        (spec.list_walk (map spec.expr_walk trees.now) (type_of it.now)) result }
{
    let mut terms = Vec::with_capacity(alloc, trees.len())?;
    let mut types = Vec::with_capacity(alloc, trees.len())?;
    for tree in trees {
        let Typed { term, ty } = expr(alloc, tree, it)?;
        terms.push(term)?;
        types.push(ty)?;
    }
    list_node(alloc, terms, &types)
}
