//! Checked expressions.
use sb_types::Val;
use sqlite_items::{Boxed, Items};

/// What is done with one value.
#[derive(Clone, Copy)]
pub enum Single {
    /// The first part of a pair.
    First,
    /// The second part of a pair.
    Second,
    /// The field at this place of a record, from 0.
    Field(u64),
    /// The value as an option that holds it.
    Wrap,
    /// Whether an option holds a value.
    Has,
    /// A text with A to Z as a to z.
    Lower,
    /// The first words of a text, at most this many.
    Words(u64),
    /// The bytes of a text, or the elements of a list, counted.
    Len,
    Not,
    Minus,
    /// The floor of the quotient by this divisor, which is above 0.
    Over(i64),
    /// What the floor of the quotient by this divisor leaves; it is above 0.
    Modulo(i64),
}

/// An order of two values that is asked for.
#[derive(Clone, Copy, PartialEq, Eq)]
pub enum Comparison {
    Equal,
    Unequal,
    Less,
    AtMost,
    Greater,
    AtLeast,
}

/// What is done with two values.
#[derive(Clone, Copy)]
pub enum Double {
    Pair,
    /// What the option holds, else the second value.
    Orelse,
    /// Whether the first text begins with the second.
    Starts,
    Or,
    And,
    Compare(Comparison),
    Plus,
    Minus,
    Times,
}

/// An expression that has a type. Each field goes by its place. A statement has at most 256 tokens, which bounds every
/// recursion over one.
#[derive(Drop)]
pub enum Term {
    /// The value of the stream.
    It,
    Constant(Val),
    One(Single, Boxed<Term>),
    Two(Double, Boxed<Term>, Boxed<Term>),
    /// The second where the first is true, else the third.
    If(Boxed<Term>, Boxed<Term>, Boxed<Term>),
    List(Items<Term>),
}
