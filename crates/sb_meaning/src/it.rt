//! What an expression is over.
ghost use Rattle.std.specs.Prelude.{◌≡◌, IfOk, IfSome};
ghost use Rattle.sb_meaning.specs.Its.{it_value};
ghost use Rattle.sb_types.specs.ValView.{value_of};

use crate::parts::copy_fields;
use sb_text::NoMemory;
use sb_types::{Val, Vals, copy};
use std::alloc::Global;

/// The value that `it` is in an expression: one that is lent, or a record of fields that are lent, so that the fields of a
/// log's record are read where they stand.
#[derive(Clone, Copy)]
pub enum It<'a> {
    Value(&'a Val),
    Fields(&'a Vals),
}

impl<'a> It<'a> {
    /// A copy of the value.
    pub fn copied(self, alloc: Global) -> Result<Val, NoMemory>
        ensures { IfOk result (λ v. value_of v ≡ it_value self.entry) }
    {
        match self {
            It::Value(value) => copy(alloc, value),
            It::Fields(fields) => copy_fields(alloc, fields),
        }
    }

    /// The value where it stands; none where its fields stand alone.
    pub fn lent(self) -> Option<&'a Val>
        ensures { IfSome result (λ v. value_of v.now ≡ it_value self.entry) }
    {
        match self {
            It::Value(value) => Some(value),
            It::Fields(_) => None,
        }
    }
}
