//! Expressions as trees, from the loosest operator to the tightest.
use crate::programs::Many;
use sb_text::Text;
use sqlite_items::Boxed;

/// A type of single values.
#[derive(Clone, Copy)]
pub enum Scalar {
    Int,
    Text,
    Bool,
}

/// A type as it is written.
#[derive(Drop)]
pub enum TypeTree {
    Scalar(Scalar),
    Pair(Boxed<TypeTree>, Boxed<TypeTree>),
    Opt(Boxed<TypeTree>),
    /// A list of at most this many.
    List(Boxed<TypeTree>, u64),
}

/// An expression; `Plain` is one without `if`.
#[cycle(expr)]
#[derive(Drop)]
pub enum Expr {
    If(Boxed<Expr>, Boxed<Expr>, Boxed<Expr>),
    Plain(Disj),
}

/// Conjunctions with `or` between.
#[cycle(expr)]
#[derive(Drop)]
pub struct Disj {
    pub first: Conj,
    pub rest: Many<Conj>,
}

/// Negations with `and` between.
#[cycle(expr)]
#[derive(Drop)]
pub struct Conj {
    pub first: Neg,
    pub rest: Many<Neg>,
}

/// A comparison, or one behind `not`.
#[cycle(expr)]
#[derive(Drop)]
pub enum Neg {
    Not(Boxed<Neg>),
    Plain(Cmp),
}

/// A sum, or a comparison of two.
#[cycle(expr)]
#[derive(Drop)]
pub enum Cmp {
    Plain(Add),
    Both(CmpOp, Add, Add),
}

/// The operator of a comparison.
#[derive(Clone, Copy)]
pub enum CmpOp {
    Equal,
    Unequal,
    Less,
    AtMost,
    Greater,
    AtLeast,
}

/// Products with `+` or `-` between.
#[cycle(expr)]
#[derive(Drop)]
pub struct Add {
    pub first: Prod,
    pub rest: Many<AddRest>,
}

/// A further product, with its sign.
#[cycle(expr)]
#[derive(Drop)]
pub enum AddRest {
    Plus(Prod),
    Minus(Prod),
}

/// Factors, from the left.
#[cycle(expr)]
#[derive(Drop)]
pub struct Prod {
    pub first: Unary,
    pub rest: Many<ProdRest>,
}

/// What a product is multiplied with or divided by.
#[cycle(expr)]
#[derive(Drop)]
pub enum ProdRest {
    Times(Unary),
    /// The divisor isn't 0.
    Over(u64),
    /// The divisor isn't 0.
    Modulo(u64),
}

/// An atom with its steps, or one behind a minus.
#[cycle(expr)]
#[derive(Drop)]
pub enum Unary {
    Minus(Boxed<Unary>),
    Plain(Post),
}

/// An atom, and the steps behind it.
#[cycle(expr)]
#[derive(Drop)]
pub struct Post {
    pub atom: Atom,
    pub steps: Many<PostStep>,
}

/// `.name`, `.1` or `.2`.
#[derive(Drop)]
pub enum PostStep {
    Field(Text),
    First,
    Second,
}

/// The least parts of expressions; groups in parentheses are kept.
#[cycle(expr)]
#[derive(Drop)]
pub enum Atom {
    Int(u64),
    Text(Text),
    True,
    False,
    It,
    Group(Boxed<Expr>),
    Pair(Boxed<Expr>, Boxed<Expr>),
    List(Many<Expr>),
    Empty(TypeTree),
    NoneOf(TypeTree),
    SomeOf(Boxed<Expr>),
    Orelse(Boxed<Expr>, Boxed<Expr>),
    Has(Boxed<Expr>),
    Lower(Boxed<Expr>),
    Words(Boxed<Expr>, u64),
    Len(Boxed<Expr>),
    Starts(Boxed<Expr>, Boxed<Expr>),
}
