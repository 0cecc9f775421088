//! Programs as trees, and the grammar that relates them to lists of tokens.
#![tactic(auto)]

mod code;
mod expression_text;
mod expressions;
mod laws;
mod printing;
mod programs;
mod statement_text;
mod type_text;
mod words;

pub use code::Code;
pub use expressions::{
    Add, AddRest, Atom, Cmp, CmpOp, Conj, Disj, Expr, Neg, Post, PostStep, Prod, ProdRest, Scalar,
    TypeTree, Unary,
};
pub use laws::{faults_are_unique, programs_are_unique};
pub use printing::print;
pub use programs::{FieldTree, Head, Many, MonoTree, Program, Stage, Statement, Stream};
