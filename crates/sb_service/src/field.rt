//! The fields of logs and services.
ghost use Rattle.std.specs.Prelude.{◌≡◌, IfOk, option_map};
ghost use Rattle.sb_service.specs.Fields.{truth_in, value_in};
ghost use Rattle.sb_types.specs.TyView.{type_of};
ghost use Rattle.sb_types.specs.ValView.{value_of};

use sb_text::{NoMemory, field_unescape, read_i64};
use sb_types::{Ty, Val};
use std::alloc::Global;

/// The value that a field of a log or a service spells by its type: a decimal i64, `true` or `false`, or an escaped
/// text; `None` where it spells none, as a field of any other type does. Takes memory for a text alone.
pub fn read_field(alloc: Global, ty: &Ty, bytes: &[u8]) -> Result<Option<Val>, NoMemory>
    ensures { IfOk result (λ value. option_map value_of value
        ≡ value_in (type_of ty.now) bytes.now) }
{
    match ty {
        Ty::Int => Ok(read_i64(bytes).map(Val::Int)),
        Ty::Text => Ok(field_unescape(alloc, bytes)?.map(Val::Text)),
        Ty::Bool => Ok(read_truth(bytes).map(Val::Bool)),
        Ty::Pair(..) | Ty::Opt(_) | Ty::List { .. } | Ty::Rec(_) => Ok(None),
    }
}

fn read_truth(bytes: &[u8]) -> Option<bool>
    ensures { result ≡ truth_in bytes.now }
{
    if bytes == b"true".as_slice() {
        return Some(true);
    }
    if bytes == b"false".as_slice() {
        return Some(false);
    }
    None
}
