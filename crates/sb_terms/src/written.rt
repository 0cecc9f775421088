//! Types as programs write them.
ghost use Rattle.std.specs.Prelude.{◌≡◌, IfOk};
ghost use Rattle.sb_terms.specs.Written as spec;
ghost use Rattle.sb_types.specs.TyView.{type_of};

use crate::tables::{list_of, option_of, pair_of};
use sb_grammar::{Scalar, TypeTree};
use sb_text::NoMemory;
use sb_types::Ty;
use std::alloc::Global;

/// The type that is written.
pub fn written_type(alloc: Global, tree: &TypeTree) -> Result<Ty, NoMemory>
    ensures { IfOk result (λ t. type_of t ≡ spec.written_type tree.now) }
{
    match tree {
        TypeTree::Scalar(scalar) => Ok(scalar_type(*scalar)),
        TypeTree::Pair(first, second) => {
            let first = written_type(alloc, first.get())?;
            let second = written_type(alloc, second.get())?;
            pair_of(alloc, first, second)
        }
        TypeTree::Opt(part) => {
            let part = written_type(alloc, part.get())?;
            option_of(alloc, part)
        }
        TypeTree::List(part, most) => {
            let part = written_type(alloc, part.get())?;
            list_of(alloc, part, *most)
        }
    }
}

/// The type of single values.
pub fn scalar_type(scalar: Scalar) -> Ty
    ensures { type_of result ≡ spec.scalar_type scalar }
{
    match scalar {
        Scalar::Int => Ty::Int,
        Scalar::Text => Ty::Text,
        Scalar::Bool => Ty::Bool,
    }
}
