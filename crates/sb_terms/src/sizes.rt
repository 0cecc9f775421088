//! How large types are, and how much their values may hold.
ghost use Rattle.std.specs.Prelude.{◌≡◌, min};
ghost use Rattle.sb_terms.specs.Sizes as spec;
ghost use Rattle.sb_types.specs.TyView.{type_of, view_fields};

use sb_types::{Field, Ty};

/// One more than the greatest number that nodes and leaves are compared with: what is above it is counted as this.
const FULL: u64 = 1025;

/// The nodes of a type, counted up to 1,025.
#[cycle(nodes)]
pub fn count_nodes(ty: &Ty) -> u64
    ensures { result ≡ min (spec.nodes (type_of ty.now)) 1025 }
{
    match ty {
        Ty::Int | Ty::Text | Ty::Bool => 1,
        Ty::Pair(left, right) => capped(count_nodes(left.get()) + count_nodes(right.get()) + 1),
        Ty::Opt(part) => capped(count_nodes(part.get()) + 1),
        Ty::List { of, .. } => capped(count_nodes(of.get()) + 1),
        Ty::Rec(fields) => capped(count_field_nodes(fields.as_slice()) + 1),
    }
}

/// The nodes of all fields, counted up to 1,025.
#[cycle(nodes)]
pub fn count_field_nodes(fields: &[Field]) -> u64
    ensures { result ≡ min (spec.field_nodes (view_fields fields.now)) 1025 }
{
    let mut sum = 0;
    for field in fields {
        sum = capped(sum + count_nodes(&field.ty));
    }
    sum
}

/// The leaves of a type, counted up to 1,025.
#[cycle(leaves)]
pub fn count_leaves(ty: &Ty) -> u64
    ensures { result ≡ min (spec.leaves (type_of ty.now)) 1025 }
{
    match ty {
        Ty::Int | Ty::Text | Ty::Bool => 1,
        Ty::Pair(left, right) => capped(count_leaves(left.get()) + count_leaves(right.get())),
        Ty::Opt(part) => count_leaves(part.get()),
        Ty::List { of, most } => capped(capped(*most) * count_leaves(of.get()) + 1),
        Ty::Rec(fields) => count_field_leaves(fields.as_slice()).max(1),
    }
}

/// The leaves of all fields, counted up to 1,025.
#[cycle(leaves)]
pub fn count_field_leaves(fields: &[Field]) -> u64
    ensures { result ≡ min (spec.field_leaves (view_fields fields.now)) 1025 }
{
    let mut sum = 0;
    for field in fields {
        sum = capped(sum + count_leaves(&field.ty));
    }
    sum
}

/// The number, where it is below 1,025, else 1,025.
pub fn capped(n: u64) -> u64
    ensures { result ≡ min n 1025 }
{
    n.min(FULL)
}
