//! The types of programs.
use sb_text::Text;
use sqlite_items::{Boxed, Items};

/// A type of values. One that a program may have has at most 64 nodes, which bounds every recursion over it.
#[cycle(ty)]
#[derive(Drop)]
pub enum Ty {
    Int,
    Text,
    Bool,
    Pair(Boxed<Ty>, Boxed<Ty>),
    Opt(Boxed<Ty>),
    /// A list of at most `most` values.
    List { of: Boxed<Ty>, most: u64 },
    Rec(Fields),
}

/// The fields of a record type, in the order of their declaration.
pub type Fields = Items<Field>;

/// A field of a record type.
#[cycle(ty)]
#[derive(Drop)]
pub struct Field {
    pub name: Text,
    pub ty: Ty,
}

/// The monoid of a store, as a program writes it.
#[derive(Drop)]
pub enum Mono {
    Sum,
    Min,
    Max,
    First,
    Last,
    Concat,
    Set,
    /// The greatest scores, this many.
    Top(u32),
    /// A count-min sketch of this many rows of this many cells.
    Cms(u32, u32),
    /// A HyperLogLog of 2 to this power registers.
    Hll(u32),
    Pair(Boxed<Mono>, Boxed<Mono>),
    Map(Boxed<Mono>),
}
