//! Monoids as programs write them, over the values that they take.
ghost use Rattle.std.specs.Prelude.{◌≡◌, ◌++◌, Ok, codes, decimal, IfOk, OnOk};
ghost use Rattle.sb_check.specs.MonoidText.{monoid_text};
ghost use Rattle.sb_check.specs.Stores as spec;
ghost use Rattle.sb_kind.specs.Monoids.{IsWithin, monoid_in, sets, tops, sketches, registers, pairs};
ghost use Rattle.sb_terms.specs.Outcome.{Tells};
ghost use Rattle.sb_types.specs.TyView.{type_of};

use sb_grammar::MonoTree;
use sb_terms::Fault;
use sb_text::{NoMemory, write_u64};
use sb_types::{Mono, Ty};
use sqlite_items::Boxed;
use std::alloc::Global;

const MOST_PLACES: u64 = 1024;

const MOST_ROWS: u64 = 16;

const MOST_CELLS: u64 = 4096;

const LEAST_BITS: u64 = 4;

const MOST_BITS: u64 = 12;

/// Whether this is a type of keys.
pub fn is_key_type(ty: &Ty) -> bool
    ensures { result ≡ spec.is_key_type (type_of ty.now) }
{
    match ty {
        Ty::Int | Ty::Text | Ty::Bool => true,
        Ty::Pair(left, right) => is_key_type(left.get()) && is_key_type(right.get()),
        Ty::Opt(part) => is_key_type(part.get()),
        Ty::List { .. } | Ty::Rec(_) => false,
    }
}

/// The monoid over values of this type, or the first fault: the whole before its parts, these from the left.
pub fn mono(alloc: Global, tree: &MonoTree, value: &Ty) -> Result<Mono, Fault>
    ensures tells { Tells monoid_in (spec.mono_walk tree.now (type_of value.now)) result }
    ensures within { IfOk result (λ mono. IsWithin (monoid_in mono)) }
{
    match tree {
        MonoTree::Sum => of_ints(Mono::Sum, value),
        MonoTree::Min => of_ints(Mono::Min, value),
        MonoTree::Max => of_ints(Mono::Max, value),
        MonoTree::First => Ok(Mono::First),
        MonoTree::Last => Ok(Mono::Last),
        MonoTree::Concat => Ok(Mono::Concat),
        MonoTree::Set => of_keys(value),
        MonoTree::Top(places) => of_scored(*places, value),
        MonoTree::Cms(rows, width) => of_items(*rows, *width, value),
        MonoTree::Hll(bits) => of_registers(*bits, value),
        MonoTree::Pair(left, right) => match value {
            Ty::Pair(first, second) => {
                let left = mono(alloc, left.get(), first.get())?;
                match mono(alloc, right.get(), second.get()) {
                    Ok(right) => Ok(pair(alloc, left, right)?),
                    Err(fault) => {
                        drop(left);
                        Err(fault)
                    }
                }
            }
            _ => Err(Fault::Mistyped),
        },
        MonoTree::Map(part) => match value {
            Ty::Pair(key, entry) => {
                if !is_key_type(key.get()) {
                    return Err(Fault::NotAKey);
                }
                let part = mono(alloc, part.get(), entry.get())?;
                Ok(Mono::Map(Boxed::new(alloc, part)?))
            }
            _ => Err(Fault::Mistyped),
        },
    }
}

fn of_ints(mono: Mono, value: &Ty) -> Result<Mono, Fault>
    requires { IsWithin (monoid_in mono) }
    ensures tells { Tells monoid_in (spec.of_ints (monoid_in mono) (type_of value.now)) result }
    ensures within { IfOk result (λ mono. IsWithin (monoid_in mono)) }
{
    match value {
        Ty::Int => Ok(mono),
        _ => Err(Fault::Mistyped),
    }
}

fn of_keys(value: &Ty) -> Result<Mono, Fault>
    ensures tells { Tells monoid_in (spec.when_key (type_of value.now) (Ok sets)) result }
    ensures within { IfOk result (λ mono. IsWithin (monoid_in mono)) }
{
    if is_key_type(value) {
        Ok(Mono::Set)
    } else {
        Err(Fault::NotAKey)
    }
}

fn of_scored(places: u64, value: &Ty) -> Result<Mono, Fault>
    ensures tells { Tells monoid_in
        (spec.of_scored (spec.is_top places) (tops places) (type_of value.now))
        result }
    ensures within { IfOk result (λ mono. IsWithin (monoid_in mono)) }
{
    if !is_scored(value) || places == 0 || places > MOST_PLACES {
        return Err(Fault::Mistyped);
    }
    Ok(Mono::Top(places as u32))
}

fn is_scored(value: &Ty) -> bool
    ensures { result ≡ spec.is_scored (type_of value.now) }
{
    match value {
        Ty::Pair(score, item) => is_int(score.get()) && is_text(item.get()),
        _ => false,
    }
}

fn of_items(rows: u64, width: u64, value: &Ty) -> Result<Mono, Fault>
    ensures tells { Tells monoid_in
        (spec.of_texts (spec.is_sketch rows width) (sketches rows width) (type_of value.now))
        result }
    ensures within { IfOk result (λ mono. IsWithin (monoid_in mono)) }
{
    if !is_text(value) || !is_sketch(rows, width) {
        return Err(Fault::Mistyped);
    }
    Ok(Mono::Cms(rows as u32, width as u32))
}

fn is_sketch(rows: u64, width: u64) -> bool
    ensures { result ≡ spec.is_sketch rows width }
{
    0 < rows && rows <= MOST_ROWS && 0 < width && width <= MOST_CELLS / rows
}

fn of_registers(bits: u64, value: &Ty) -> Result<Mono, Fault>
    ensures tells { Tells monoid_in
        (spec.of_texts (spec.is_registers bits) (registers bits) (type_of value.now)) result }
    ensures within { IfOk result (λ mono. IsWithin (monoid_in mono)) }
{
    if !is_text(value) || bits < LEAST_BITS || bits > MOST_BITS {
        return Err(Fault::Mistyped);
    }
    Ok(Mono::Hll(bits as u32))
}

fn is_int(ty: &Ty) -> bool
    ensures { result ≡ spec.is_int (type_of ty.now) }
{
    match ty {
        Ty::Int => true,
        _ => false,
    }
}

fn is_text(ty: &Ty) -> bool
    ensures { result ≡ spec.is_text (type_of ty.now) }
{
    match ty {
        Ty::Text => true,
        _ => false,
    }
}

fn pair(alloc: Global, left: Mono, right: Mono) -> Result<Mono, NoMemory>
    ensures { IfOk result (λ mono. monoid_in mono ≡ pairs (monoid_in left) (monoid_in right)) }
{
    let left = match Boxed::new(alloc, left) {
        Ok(left) => left,
        Err(refused) => {
            drop(right);
            return Err(refused);
        }
    };
    match Boxed::new(alloc, right) {
        Ok(right) => Ok(Mono::Pair(left, right)),
        Err(refused) => {
            drop(left);
            Err(refused)
        }
    }
}

/// Writes the monoid's tokens at the end of `out`, each with a space behind it. After a refusal a part may be written.
pub fn push_mono(alloc: Global, mono: &Mono, out: &mut Vec<u8>) -> Result<(), NoMemory>
    ensures { OnOk result (out.new.items ≡ out.old.items ++ monoid_text (monoid_in mono.now)) }
{
    match mono {
        Mono::Sum => out.extend_from_slice(b"sum "),
        Mono::Min => out.extend_from_slice(b"min "),
        Mono::Max => out.extend_from_slice(b"max "),
        Mono::First => out.extend_from_slice(b"first "),
        Mono::Last => out.extend_from_slice(b"last "),
        Mono::Concat => out.extend_from_slice(b"concat "),
        Mono::Set => out.extend_from_slice(b"set "),
        Mono::Top(places) => push_numbered(alloc, b"top ( ".as_slice(), *places, out),
        Mono::Hll(bits) => push_numbered(alloc, b"hll ( ".as_slice(), *bits, out),
        Mono::Cms(rows, width) => {
            out.extend_from_slice(b"cms ( ")?;
            write_u64(alloc, out, u64::from(*rows))?;
            push_numbered(alloc, b" , ".as_slice(), *width, out)
        }
        Mono::Pair(left, right) => {
            out.extend_from_slice(b"pair ( ")?;
            push_mono(alloc, left.get(), out)?;
            out.extend_from_slice(b", ")?;
            push_mono(alloc, right.get(), out)?;
            out.extend_from_slice(b") ")
        }
        Mono::Map(part) => {
            out.extend_from_slice(b"map ( ")?;
            push_mono(alloc, part.get(), out)?;
            out.extend_from_slice(b") ")
        }
    }
}

fn push_numbered(
    alloc: Global,
    before: &[u8],
    number: u32,
    out: &mut Vec<u8>,
) -> Result<(), NoMemory>
    ensures { OnOk result (out.new.items
        ≡ out.old.items ++ (before.now ++ (decimal number ++ codes " ) "))) }
{
    out.extend_from_slice(before)?;
    write_u64(alloc, out, u64::from(number))?;
    out.extend_from_slice(b" ) ")
}
