//! Expressions as text: their tokens, each with a space behind it.

ghost use Rattle.std.specs.Prelude.{◌≡◌, ◌++◌, codes, map, OnOk};
ghost use Rattle.sb_grammar.specs.Text as spec;

use crate::expressions::{
    Add, AddRest, Atom, Cmp, CmpOp, Conj, Disj, Expr, Neg, Post, PostStep, Prod, ProdRest,
    TypeTree, Unary,
};
use crate::type_text::push_type;
use crate::words::{comma_before, push_number, push_quoted, push_word};
use sb_text::NoMemory;
use std::alloc::Global;

/// Writes an expression.
#[cycle(expression_text)]
pub fn push_expr(alloc: Global, expr: &Expr, out: &mut Vec<u8>) -> Result<(), NoMemory>
    ensures { OnOk result (out.new.items ≡ out.old.items ++ spec.expr_text expr.now) }
{
    match expr {
        Expr::If(test, yes, no) => {
            out.extend_from_slice(b"if ")?;
            push_expr(alloc, test.get(), out)?;
            out.extend_from_slice(b"then ")?;
            push_expr(alloc, yes.get(), out)?;
            out.extend_from_slice(b"else ")?;
            push_expr(alloc, no.get(), out)
        }
        Expr::Plain(disj) => push_disj(alloc, disj, out),
    }
}

#[cycle(expression_text)]
fn push_disj(alloc: Global, disj: &Disj, out: &mut Vec<u8>) -> Result<(), NoMemory>
    ensures { OnOk result (out.new.items ≡ out.old.items ++ spec.disj_text disj.now) }
{
    push_conj(alloc, &disj.first, out)?;
    for conj in disj.rest.as_slice() {
        out.extend_from_slice(b"or ")?;
        push_conj(alloc, conj, out)?;
    }
    Ok(())
}

#[cycle(expression_text)]
fn push_conj(alloc: Global, conj: &Conj, out: &mut Vec<u8>) -> Result<(), NoMemory>
    ensures { OnOk result (out.new.items ≡ out.old.items ++ spec.conj_text conj.now) }
{
    push_neg(alloc, &conj.first, out)?;
    for neg in conj.rest.as_slice() {
        out.extend_from_slice(b"and ")?;
        push_neg(alloc, neg, out)?;
    }
    Ok(())
}

#[cycle(expression_text)]
fn push_neg(alloc: Global, neg: &Neg, out: &mut Vec<u8>) -> Result<(), NoMemory>
    ensures { OnOk result (out.new.items ≡ out.old.items ++ spec.neg_text neg.now) }
{
    match neg {
        Neg::Not(inner) => {
            out.extend_from_slice(b"not ")?;
            push_neg(alloc, inner.get(), out)
        }
        Neg::Plain(cmp) => push_cmp(alloc, cmp, out),
    }
}

#[cycle(expression_text)]
fn push_cmp(alloc: Global, cmp: &Cmp, out: &mut Vec<u8>) -> Result<(), NoMemory>
    ensures { OnOk result (out.new.items ≡ out.old.items ++ spec.cmp_text cmp.now) }
{
    match cmp {
        Cmp::Plain(add) => push_add(alloc, add, out),
        Cmp::Both(operator, left, right) => {
            push_add(alloc, left, out)?;
            out.extend_from_slice(operator_text(*operator))?;
            push_add(alloc, right, out)
        }
    }
}

fn operator_text(operator: CmpOp) -> &'static [u8]
    ensures { result.now ≡ spec.operator_text operator }
{
    match operator {
        CmpOp::Equal => b"== ".as_slice(),
        CmpOp::Unequal => b"!= ".as_slice(),
        CmpOp::Less => b"< ".as_slice(),
        CmpOp::AtMost => b"<= ".as_slice(),
        CmpOp::Greater => b"> ".as_slice(),
        CmpOp::AtLeast => b">= ".as_slice(),
    }
}

#[cycle(expression_text)]
fn push_add(alloc: Global, add: &Add, out: &mut Vec<u8>) -> Result<(), NoMemory>
    ensures { OnOk result (out.new.items ≡ out.old.items ++ spec.add_text add.now) }
{
    push_prod(alloc, &add.first, out)?;
    for rest in add.rest.as_slice() {
        push_add_rest(alloc, rest, out)?;
    }
    Ok(())
}

#[cycle(expression_text)]
fn push_add_rest(alloc: Global, rest: &AddRest, out: &mut Vec<u8>) -> Result<(), NoMemory>
    ensures { OnOk result (out.new.items ≡ out.old.items ++ spec.add_rest_text rest.now) }
{
    match rest {
        AddRest::Plus(prod) => {
            out.extend_from_slice(b"+ ")?;
            push_prod(alloc, prod, out)
        }
        AddRest::Minus(prod) => {
            out.extend_from_slice(b"- ")?;
            push_prod(alloc, prod, out)
        }
    }
}

#[cycle(expression_text)]
fn push_prod(alloc: Global, prod: &Prod, out: &mut Vec<u8>) -> Result<(), NoMemory>
    ensures { OnOk result (out.new.items ≡ out.old.items ++ spec.prod_text prod.now) }
{
    push_unary(alloc, &prod.first, out)?;
    for rest in prod.rest.as_slice() {
        push_prod_rest(alloc, rest, out)?;
    }
    Ok(())
}

#[cycle(expression_text)]
fn push_prod_rest(alloc: Global, rest: &ProdRest, out: &mut Vec<u8>) -> Result<(), NoMemory>
    ensures { OnOk result (out.new.items ≡ out.old.items ++ spec.prod_rest_text rest.now) }
{
    match rest {
        ProdRest::Times(unary) => {
            out.extend_from_slice(b"* ")?;
            push_unary(alloc, unary, out)
        }
        ProdRest::Over(divisor) => {
            out.extend_from_slice(b"/ ")?;
            push_number(alloc, *divisor, out)
        }
        ProdRest::Modulo(divisor) => {
            out.extend_from_slice(b"% ")?;
            push_number(alloc, *divisor, out)
        }
    }
}

#[cycle(expression_text)]
fn push_unary(alloc: Global, unary: &Unary, out: &mut Vec<u8>) -> Result<(), NoMemory>
    ensures { OnOk result (out.new.items ≡ out.old.items ++ spec.unary_text unary.now) }
{
    match unary {
        Unary::Minus(inner) => {
            out.extend_from_slice(b"- ")?;
            push_unary(alloc, inner.get(), out)
        }
        Unary::Plain(post) => push_post(alloc, post, out),
    }
}

#[cycle(expression_text)]
fn push_post(alloc: Global, post: &Post, out: &mut Vec<u8>) -> Result<(), NoMemory>
    ensures { OnOk result (out.new.items ≡ out.old.items ++ spec.post_text post.now) }
{
    push_atom(alloc, &post.atom, out)?;
    push_steps(alloc, post.steps.as_slice(), out)
}

fn push_steps(alloc: Global, steps: &[PostStep], out: &mut Vec<u8>) -> Result<(), NoMemory>
    ensures { OnOk result (out.new.items ≡ out.old.items
        ++ spec.each_behind (codes ". ") (map spec.step_text steps.now)) }
{
    for step in steps {
        out.extend_from_slice(b". ")?;
        push_step(alloc, step, out)?;
    }
    Ok(())
}

fn push_step(alloc: Global, step: &PostStep, out: &mut Vec<u8>) -> Result<(), NoMemory>
    ensures { OnOk result (out.new.items ≡ out.old.items ++ spec.step_text step.now) }
{
    match step {
        PostStep::Field(name) => push_word(alloc, name.as_bytes(), out),
        PostStep::First => out.extend_from_slice(b"1 "),
        PostStep::Second => out.extend_from_slice(b"2 "),
    }
}

#[cycle(expression_text)]
fn push_atom(alloc: Global, atom: &Atom, out: &mut Vec<u8>) -> Result<(), NoMemory>
    ensures { OnOk result (out.new.items ≡ out.old.items ++ spec.atom_text atom.now) }
{
    match atom {
        Atom::Int(number) => push_number(alloc, *number, out),
        Atom::Text(value) => push_quoted(alloc, value.as_bytes(), out),
        Atom::True => out.extend_from_slice(b"true "),
        Atom::False => out.extend_from_slice(b"false "),
        Atom::It => out.extend_from_slice(b"it "),
        Atom::Group(inner) => push_one(alloc, b"( ".as_slice(), inner.get(), out),
        Atom::Pair(first, second) => {
            push_first(alloc, b"( ".as_slice(), first.get(), out)?;
            push_second(alloc, second.get(), out)
        }
        Atom::List(parts) => {
            out.extend_from_slice(b"[ ")?;
            push_list(alloc, parts.as_slice(), out)?;
            out.extend_from_slice(b"] ")
        }
        Atom::Empty(of) => push_typed(alloc, b"empty ( ".as_slice(), of, out),
        Atom::NoneOf(of) => push_typed(alloc, b"none ( ".as_slice(), of, out),
        Atom::SomeOf(inner) => push_one(alloc, b"some ( ".as_slice(), inner.get(), out),
        Atom::Orelse(option, other) => {
            push_first(alloc, b"orelse ( ".as_slice(), option.get(), out)?;
            push_second(alloc, other.get(), out)
        }
        Atom::Has(inner) => push_one(alloc, b"has ( ".as_slice(), inner.get(), out),
        Atom::Lower(inner) => push_one(alloc, b"lower ( ".as_slice(), inner.get(), out),
        Atom::Words(text, most) => {
            out.extend_from_slice(b"words ( ")?;
            push_expr(alloc, text.get(), out)?;
            out.extend_from_slice(b", ")?;
            push_number(alloc, *most, out)?;
            out.extend_from_slice(b") ")
        }
        Atom::Len(inner) => push_one(alloc, b"len ( ".as_slice(), inner.get(), out),
        Atom::Starts(text, start) => {
            push_first(alloc, b"starts ( ".as_slice(), text.get(), out)?;
            push_second(alloc, start.get(), out)
        }
    }
}

#[cycle(expression_text)]
fn push_one(alloc: Global, word: &[u8], inner: &Expr, out: &mut Vec<u8>) -> Result<(), NoMemory>
    ensures { OnOk result (out.new.items ≡ out.old.items
        ++ (word.now ++ (spec.expr_text inner.now ++ codes ") "))) }
{
    out.extend_from_slice(word)?;
    push_expr(alloc, inner, out)?;
    out.extend_from_slice(b") ")
}

// The first of two, behind a word and a parenthesis.
#[cycle(expression_text)]
fn push_first(alloc: Global, word: &[u8], first: &Expr, out: &mut Vec<u8>) -> Result<(), NoMemory>
    ensures { OnOk result (out.new.items ≡ out.old.items
        ++ (word.now ++ spec.expr_text first.now)) }
{
    out.extend_from_slice(word)?;
    push_expr(alloc, first, out)
}

// The second, and the parenthesis that closes.
#[cycle(expression_text)]
fn push_second(alloc: Global, second: &Expr, out: &mut Vec<u8>) -> Result<(), NoMemory>
    ensures { OnOk result (out.new.items ≡ out.old.items
        ++ (codes ", " ++ (spec.expr_text second.now ++ codes ") "))) }
{
    out.extend_from_slice(b", ")?;
    push_expr(alloc, second, out)?;
    out.extend_from_slice(b") ")
}

#[cycle(expression_text)]
fn push_list(alloc: Global, parts: &[Expr], out: &mut Vec<u8>) -> Result<(), NoMemory>
    ensures { OnOk result (out.new.items ≡ out.old.items
        ++ spec.listed (map spec.expr_text parts.now)) }
{
    for (at, part) in parts.iter().enumerate() {
        out.extend_from_slice(comma_before(at))?;
        push_expr(alloc, part, out)?;
    }
    Ok(())
}

fn push_typed(alloc: Global, word: &[u8], of: &TypeTree, out: &mut Vec<u8>) -> Result<(), NoMemory>
    ensures { OnOk result (out.new.items ≡ out.old.items
        ++ (word.now ++ (spec.type_text of.now ++ codes ") "))) }
{
    out.extend_from_slice(word)?;
    push_type(alloc, of, out)?;
    out.extend_from_slice(b") ")
}
