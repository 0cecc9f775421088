//! The comment lines behind a checked program.
ghost use Rattle.std.specs.Prelude.{◌≡◌, ◌++◌, codes, decimal, map, IfOk, OnOk, OnErr};
ghost use Rattle.sb_check.specs.CheckedView.{checked_of};
ghost use Rattle.sb_check.specs.Comments as spec;
ghost use Rattle.sb_check.specs.Declarations.{store_of};
ghost use Rattle.sb_check.specs.MonoidText.{monoid_text};
ghost use Rattle.sb_kind.specs.KindView.{monoid_of};
ghost use Rattle.sb_types.specs.TyView.{type_of};

use crate::checked::Checked;
use crate::declarations::StoreDecl;
use sb_kind::{Kind, commutes};
use sb_text::{NoMemory, write_u64};
use sb_types::Ty;
use std::alloc::Global;

/// Writes a line for each store at the end of `out`: `# store NAME key TYPE value MONOID online`, or `ordered` in place
/// of `online` where the store doesn't commute. A type and a monoid are their tokens with one space between.
pub fn write_comments(alloc: Global, c: &Checked, out: &mut Vec<u8>) -> Result<(), NoMemory>
    ensures ok { OnOk result (out.new.items
        ≡ out.old.items ++ spec.comments (checked_of c.now).declared.stores) }
    ensures err { OnErr result (out.new.items ≡ out.old.items) }
{
    let lines = comments_of(alloc, c.stores())?;
    out.extend_from_slice(lines.as_slice())?;
    Ok(())
}

fn comments_of(alloc: Global, stores: &[StoreDecl]) -> Result<Vec<u8>, NoMemory>
    ensures { IfOk result (λ lines. lines.items ≡ spec.comments (map store_of stores.now)) }
{
    let mut lines = Vec::new(alloc);
    for store in stores {
        push_comment(alloc, store, &mut lines)?;
    }
    Ok(lines)
}

fn push_comment(alloc: Global, store: &StoreDecl, out: &mut Vec<u8>) -> Result<(), NoMemory>
    ensures { OnOk result (out.new.items ≡ out.old.items ++ spec.comment (store_of store.now)) }
{
    out.extend_from_slice(b"# store ")?;
    out.extend_from_slice(store.name.as_bytes())?;
    out.extend_from_slice(b" key ")?;
    push_type(alloc, &store.key, out)?;
    out.extend_from_slice(b"value ")?;
    out.extend_from_slice(store.text.as_slice())?;
    out.extend_from_slice(order_text(commutes(&store.kind)))
}

fn order_text(any_order: bool) -> &'static [u8]
    ensures { result.now ≡ spec.order_text any_order }
{
    if any_order {
        b"online\n".as_slice()
    } else {
        b"ordered\n".as_slice()
    }
}

// Writes the type's tokens, each with a space behind it.
fn push_type(alloc: Global, ty: &Ty, out: &mut Vec<u8>) -> Result<(), NoMemory>
    ensures { OnOk result (out.new.items ≡ out.old.items ++ spec.type_text (type_of ty.now)) }
{
    match ty {
        Ty::Int => out.extend_from_slice(b"int "),
        Ty::Text => out.extend_from_slice(b"text "),
        Ty::Bool => out.extend_from_slice(b"bool "),
        Ty::Pair(first, second) => {
            out.extend_from_slice(b"pair ( ")?;
            push_type(alloc, first.get(), out)?;
            out.extend_from_slice(b", ")?;
            push_type(alloc, second.get(), out)?;
            out.extend_from_slice(b") ")
        }
        Ty::Opt(part) => {
            out.extend_from_slice(b"opt ( ")?;
            push_type(alloc, part.get(), out)?;
            out.extend_from_slice(b") ")
        }
        Ty::List { of, most } => {
            out.extend_from_slice(b"list ( ")?;
            push_type(alloc, of.get(), out)?;
            out.extend_from_slice(b", ")?;
            write_u64(alloc, out, *most)?;
            out.extend_from_slice(b" ) ")
        }
        Ty::Rec(_) => Ok(()),
    }
}
