//! Programs, statements, streams and types as trees.
use crate::expressions::{Expr, Scalar};
use sb_text::Text;
use sqlite_items::{Boxed, Items};

/// A list.
pub type Many<T> = Items<T>;

/// A program text's tree.
#[derive(Drop)]
pub struct Program {
    /// How long a batch is, in milliseconds; not 0.
    pub length: u64,
    /// Whether a minus stands before `from`.
    pub minus: bool,
    /// Where batch 0 begins, in milliseconds without its sign.
    pub from: u64,
    pub statements: Many<Statement>,
}

/// A statement behind the batch head.
#[derive(Drop)]
pub enum Statement {
    Source {
        name: Text,
        fields: Many<FieldTree>,
    },
    Service {
        name: Text,
        key: Scalar,
        value: Scalar,
    },
    Let {
        name: Text,
        stream: Stream,
    },
    Store {
        name: Text,
        stream: Stream,
        mono: MonoTree,
    },
}

/// A field of a source.
#[derive(Drop)]
pub struct FieldTree {
    pub name: Text,
    pub scalar: Scalar,
}

/// A stream: its head, and the stages behind it.
#[cycle(stream)]
#[derive(Drop)]
pub struct Stream {
    pub head: Head,
    pub stages: Many<Stage>,
}

/// A stream's name, or two streams in one.
#[cycle(stream)]
#[derive(Drop)]
pub enum Head {
    Name(Text),
    Merge(Boxed<Stream>, Boxed<Stream>),
}

/// What is done with each value of a stream.
#[derive(Drop)]
pub enum Stage {
    Map(Expr),
    Filter(Expr),
    FlatMap(Expr),
    LeftJoin(Text),
}

/// A monoid as it is written.
#[derive(Drop)]
pub enum MonoTree {
    Sum,
    Min,
    Max,
    First,
    Last,
    Concat,
    Set,
    Top(u64),
    Cms(u64, u64),
    Hll(u64),
    Pair(Boxed<MonoTree>, Boxed<MonoTree>),
    Map(Boxed<MonoTree>),
}
