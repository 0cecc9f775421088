//! Reading and writing of program texts.
#![tactic(auto)]

mod atoms;
mod cursor;
mod expressions;
mod fault;
mod laws;
mod operators;
mod parsing;
mod rules;
mod statements;
mod steps;
mod streams;
mod types;

pub use laws::{printed_programs_are_read, texts_are_judged};
pub use parsing::{SyntaxError, parse};
pub use sb_grammar::{
    Add, AddRest, Atom, Cmp, CmpOp, Code, Conj, Disj, Expr, FieldTree, Head, Many, MonoTree, Neg,
    Post, PostStep, Prod, ProdRest, Program, Scalar, Stage, Statement, Stream, TypeTree, Unary,
    print,
};
