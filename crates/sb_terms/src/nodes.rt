//! Nodes of expressions, each with its type, or with what is wrong with it.
ghost use Rattle.std.specs.Prelude.{◌≡◌, map, option_map, IfOk};
ghost use Rattle.sb_terms.specs.declared.term.Term.TheVariants.{If, Two};
ghost use Rattle.sb_terms.specs.Nodes as spec;
ghost use Rattle.sb_terms.specs.Nodes.{typed_of};
ghost use Rattle.sb_terms.specs.Outcome.{Tells};
ghost use Rattle.sb_terms.specs.Tables as table;
ghost use Rattle.sb_types.specs.TyView.{type_of};

use crate::fault::Fault;
use crate::sizes::{count_leaves, count_nodes};
use crate::tables::{if_type, list_type, one_type, place_in, two_type};
use crate::term::{Double, Single, Term};
use crate::typed::Typed;
use sb_text::NoMemory;
use sb_types::{Ty, Val};
use sqlite_items::{Boxed, Items};
use std::alloc::Global;

/// The most nodes of a type.
pub const MOST_NODES: u64 = 64;

/// The most leaves of a type, and of a stream at one node.
pub const MOST_LEAVES: u64 = 1024;

/// The term with its type, where that isn't too large or too wide.
#[tactic(auto, unfolding(crate::specs::Nodes::sized))]
pub fn sized(term: Term, ty: Ty) -> Result<Typed, Fault>
    ensures { Tells typed_of (spec.sized term (type_of ty)) result }
{
    if count_nodes(&ty) > MOST_NODES {
        return Err(Fault::TooLarge);
    }
    if count_leaves(&ty) > MOST_LEAVES {
        return Err(Fault::TooWide);
    }
    Ok(Typed { term, ty })
}

fn node(term: Term, ty: Option<Ty>) -> Result<Typed, Fault>
    ensures { Tells typed_of (spec.node term (option_map type_of ty)) result }
{
    match ty {
        Some(ty) => sized(term, ty),
        None => Err(Fault::Mistyped),
    }
}

/// What is done with one part.
pub fn one_node(alloc: Global, op: Single, part: Typed) -> Result<Typed, Fault>
    ensures { Tells typed_of (spec.one_node op (typed_of part)) result }
{
    let Typed { term, ty } = part;
    let of = one_type(alloc, op, &ty)?;
    node(Term::One(op, Boxed::new(alloc, term)?), of)
}

/// What is done with two parts.
pub fn two_node(alloc: Global, op: Double, left: Typed, right: Typed) -> Result<Typed, Fault>
    ensures { Tells typed_of (spec.two_node op (typed_of left) (typed_of right)) result }
{
    let Typed { term: a, ty: left } = left;
    let Typed { term: b, ty: right } = right;
    two_over(alloc, op, a, b, &left, &right)
}

fn two_over(
    alloc: Global,
    op: Double,
    a: Term,
    b: Term,
    left: &Ty,
    right: &Ty,
) -> Result<Typed, Fault>
    ensures { Tells typed_of
        (spec.node (Two op a b) (table.two_type op (type_of left.now) (type_of right.now))) result }
{
    let whole = two_term(alloc, op, a, b)?;
    let of = two_type(alloc, op, left, right)?;
    node(whole, of)
}

fn two_term(alloc: Global, op: Double, a: Term, b: Term) -> Result<Term, NoMemory>
    ensures { IfOk result (λ term. term ≡ Two op a b) }
{
    let a = match Boxed::new(alloc, a) {
        Ok(a) => a,
        Err(refused) => {
            drop(b);
            return Err(refused);
        }
    };
    match Boxed::new(alloc, b) {
        Ok(b) => Ok(Term::Two(op, a, b)),
        Err(refused) => {
            drop(a);
            Err(refused)
        }
    }
}

/// A choice by a test.
pub fn if_node(alloc: Global, test: Typed, yes: Typed, no: Typed) -> Result<Typed, Fault>
    ensures { Tells typed_of (spec.if_node (typed_of test) (typed_of yes) (typed_of no)) result }
{
    let Typed { term: c, ty: test } = test;
    let Typed { term: a, ty: yes } = yes;
    let Typed { term: b, ty: no } = no;
    if_over(alloc, c, a, b, &test, &yes, &no)
}

fn if_over(
    alloc: Global,
    c: Term,
    a: Term,
    b: Term,
    test: &Ty,
    yes: &Ty,
    no: &Ty,
) -> Result<Typed, Fault>
    ensures { Tells typed_of (spec.node (If c a b)
        (table.if_type (type_of test.now) (type_of yes.now) (type_of no.now))) result }
{
    let whole = if_term(alloc, c, a, b)?;
    let of = if_type(alloc, test, yes, no)?;
    node(whole, of)
}

fn if_term(alloc: Global, c: Term, a: Term, b: Term) -> Result<Term, NoMemory>
    ensures { IfOk result (λ term. term ≡ If c a b) }
{
    let c = match Boxed::new(alloc, c) {
        Ok(c) => c,
        Err(refused) => {
            drop(a);
            drop(b);
            return Err(refused);
        }
    };
    let a = match Boxed::new(alloc, a) {
        Ok(a) => a,
        Err(refused) => {
            drop(c);
            drop(b);
            return Err(refused);
        }
    };
    match Boxed::new(alloc, b) {
        Ok(b) => Ok(Term::If(c, a, b)),
        Err(refused) => {
            drop(c);
            drop(a);
            Err(refused)
        }
    }
}

/// A list of parts, whose types stand beside them.
pub fn list_node(alloc: Global, terms: Vec<Term>, types: &[Ty]) -> Result<Typed, Fault>
    ensures { Tells typed_of (spec.list_of terms.items (map type_of types.now)) result }
{
    let of = list_type(alloc, types)?;
    node(Term::List(Items::from_vec(terms)), of)
}

/// A constant of this type.
pub fn constant_node(value: Val, ty: Ty) -> Result<Typed, Fault>
    ensures { Tells typed_of (spec.constant_node value (type_of ty)) result }
{
    sized(Term::Constant(value), ty)
}

/// A number.
pub fn int_node(number: u64) -> Result<Typed, Fault>
    ensures { Tells typed_of (spec.int_node number) result }
{
    match i64::try_from(number) {
        Ok(number) => constant_node(Val::Int(number), Ty::Int),
        Err(_) => Err(Fault::Mistyped),
    }
}

/// The field of this name.
pub fn field_node(alloc: Global, name: &[u8], whole: Typed) -> Result<Typed, Fault>
    ensures { Tells typed_of (spec.field_node name.now (typed_of whole)) result }
{
    match place_in(name, &whole.ty) {
        Some(place) => one_node(alloc, Single::Field(place), whole),
        None => Err(Fault::Mistyped),
    }
}
