//! The values of programs and the records of logs.
use sb_text::Text;
use sqlite_items::{Boxed, Items};

/// A value. Its depth is that of its type, so at most 64 where a program has the type, which bounds every recursion
/// over it.
#[derive(Drop)]
pub enum Val {
    Int(i64),
    Text(Text),
    Bool(bool),
    Pair(Boxed<Val>, Boxed<Val>),
    Opt(Option<Boxed<Val>>),
    List(Vals),
    /// The values of a record's fields, in the order of its type.
    Rec(Vals),
}

/// A list of values.
pub type Vals = Items<Val>;

/// A record of a log.
#[derive(Drop)]
pub struct LogRecord {
    /// The number of the record's line, from 0.
    pub position: u64,
    /// The number of its source among the program's, from 0.
    pub source: u32,
    /// Its time in milliseconds.
    pub time: i64,
    pub fields: Vals,
}
