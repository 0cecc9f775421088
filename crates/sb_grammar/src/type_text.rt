//! Types and monoids as text: their tokens, each with a space behind it.

ghost use Rattle.std.specs.Prelude.{◌≡◌, ◌++◌, codes, OnOk};
ghost use Rattle.sb_grammar.specs.Text as spec;

use crate::expressions::{Scalar, TypeTree};
use crate::programs::MonoTree;
use crate::words::push_number;
use sb_text::NoMemory;
use std::alloc::Global;

/// A type of single values, as text.
pub fn scalar_text(scalar: Scalar) -> &'static [u8]
    ensures { result.now ≡ spec.scalar_text scalar }
{
    match scalar {
        Scalar::Int => b"int ".as_slice(),
        Scalar::Text => b"text ".as_slice(),
        Scalar::Bool => b"bool ".as_slice(),
    }
}

/// Writes a type.
pub fn push_type(alloc: Global, of: &TypeTree, out: &mut Vec<u8>) -> Result<(), NoMemory>
    ensures { OnOk result (out.new.items ≡ out.old.items ++ spec.type_text of.now) }
{
    match of {
        TypeTree::Scalar(scalar) => out.extend_from_slice(scalar_text(*scalar)),
        TypeTree::Pair(first, second) => {
            out.extend_from_slice(b"pair ( ")?;
            push_type(alloc, first.get(), out)?;
            out.extend_from_slice(b", ")?;
            push_type(alloc, second.get(), out)?;
            out.extend_from_slice(b") ")
        }
        TypeTree::Opt(part) => {
            out.extend_from_slice(b"opt ( ")?;
            push_type(alloc, part.get(), out)?;
            out.extend_from_slice(b") ")
        }
        TypeTree::List(part, most) => {
            out.extend_from_slice(b"list ( ")?;
            push_type(alloc, part.get(), out)?;
            out.extend_from_slice(b", ")?;
            push_number(alloc, *most, out)?;
            out.extend_from_slice(b") ")
        }
    }
}

/// Writes a monoid.
pub fn push_mono(alloc: Global, mono: &MonoTree, out: &mut Vec<u8>) -> Result<(), NoMemory>
    ensures { OnOk result (out.new.items ≡ out.old.items ++ spec.mono_text mono.now) }
{
    match mono {
        MonoTree::Sum => out.extend_from_slice(b"sum "),
        MonoTree::Min => out.extend_from_slice(b"min "),
        MonoTree::Max => out.extend_from_slice(b"max "),
        MonoTree::First => out.extend_from_slice(b"first "),
        MonoTree::Last => out.extend_from_slice(b"last "),
        MonoTree::Concat => out.extend_from_slice(b"concat "),
        MonoTree::Set => out.extend_from_slice(b"set "),
        MonoTree::Top(most) => push_numbered(alloc, b"top ( ".as_slice(), *most, out),
        MonoTree::Hll(bits) => push_numbered(alloc, b"hll ( ".as_slice(), *bits, out),
        MonoTree::Cms(rows, cells) => {
            out.extend_from_slice(b"cms ( ")?;
            push_number(alloc, *rows, out)?;
            out.extend_from_slice(b", ")?;
            push_number(alloc, *cells, out)?;
            out.extend_from_slice(b") ")
        }
        MonoTree::Pair(first, second) => {
            out.extend_from_slice(b"pair ( ")?;
            push_mono(alloc, first.get(), out)?;
            out.extend_from_slice(b", ")?;
            push_mono(alloc, second.get(), out)?;
            out.extend_from_slice(b") ")
        }
        MonoTree::Map(part) => {
            out.extend_from_slice(b"map ( ")?;
            push_mono(alloc, part.get(), out)?;
            out.extend_from_slice(b") ")
        }
    }
}

fn push_numbered(alloc: Global, word: &[u8], number: u64, out: &mut Vec<u8>) -> Result<(), NoMemory>
    ensures { OnOk result (out.new.items ≡ out.old.items
        ++ (word.now ++ (spec.number_text number ++ codes ") "))) }
{
    out.extend_from_slice(word)?;
    push_number(alloc, number, out)?;
    out.extend_from_slice(b") ")
}
