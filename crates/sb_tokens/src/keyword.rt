//! The keywords of programs.
ghost use Rattle.std.specs.Prelude.{◌≡◌, Some, IfOk, IfSome, bytes_eq};
ghost use Rattle.std.specs.List.{find};
ghost use Rattle.sb_tokens.specs.Keyword.{keyword_text};

use sb_text::{NoMemory, Text};
use std::alloc::Global;

const KEYWORDS: [Keyword; 46] = [
    Keyword::Batch,
    Keyword::From,
    Keyword::Source,
    Keyword::Service,
    Keyword::Let,
    Keyword::Store,
    Keyword::Merge,
    Keyword::Map,
    Keyword::Filter,
    Keyword::FlatMap,
    Keyword::LeftJoin,
    Keyword::SumByKey,
    Keyword::Int,
    Keyword::Text,
    Keyword::Bool,
    Keyword::Pair,
    Keyword::Opt,
    Keyword::List,
    Keyword::If,
    Keyword::Then,
    Keyword::Else,
    Keyword::Or,
    Keyword::And,
    Keyword::Not,
    Keyword::It,
    Keyword::True,
    Keyword::False,
    Keyword::NoneOf,
    Keyword::SomeOf,
    Keyword::Empty,
    Keyword::Orelse,
    Keyword::Has,
    Keyword::Lower,
    Keyword::Words,
    Keyword::Len,
    Keyword::Starts,
    Keyword::Sum,
    Keyword::Min,
    Keyword::Max,
    Keyword::First,
    Keyword::Last,
    Keyword::Concat,
    Keyword::Set,
    Keyword::Top,
    Keyword::Cms,
    Keyword::Hll,
];

/// A word with a meaning of its own.
#[derive(Clone, Copy, PartialEq, Eq)]
pub enum Keyword {
    Batch,
    From,
    Source,
    Service,
    Let,
    Store,
    Merge,
    Map,
    Filter,
    FlatMap,
    LeftJoin,
    SumByKey,
    Int,
    Text,
    Bool,
    Pair,
    Opt,
    List,
    If,
    Then,
    Else,
    Or,
    And,
    Not,
    It,
    True,
    False,
    NoneOf,
    SomeOf,
    Empty,
    Orelse,
    Has,
    Lower,
    Words,
    Len,
    Starts,
    Sum,
    Min,
    Max,
    First,
    Last,
    Concat,
    Set,
    Top,
    Cms,
    Hll,
}

impl Keyword {
    ghost use Rattle.sb_tokens.specs.declared.keyword.Keyword.{Keyword};
    ghost use Rattle.sb_tokens.specs.Keyword.{keyword_text, keyword_of};

    /// The word as it is written.
    pub fn text(self) -> &'static str
        ensures { result.now ≡ keyword_text self }
    {
        match self {
            Keyword::Batch => "batch",
            Keyword::From => "from",
            Keyword::Source => "source",
            Keyword::Service => "service",
            Keyword::Let => "let",
            Keyword::Store => "store",
            Keyword::Merge => "merge",
            Keyword::Map => "map",
            Keyword::Filter => "filter",
            Keyword::FlatMap => "flatMap",
            Keyword::LeftJoin => "leftJoin",
            Keyword::SumByKey => "sumByKey",
            Keyword::Int => "int",
            Keyword::Text => "text",
            Keyword::Bool => "bool",
            Keyword::Pair => "pair",
            Keyword::Opt => "opt",
            Keyword::List => "list",
            Keyword::If => "if",
            Keyword::Then => "then",
            Keyword::Else => "else",
            Keyword::Or => "or",
            Keyword::And => "and",
            Keyword::Not => "not",
            Keyword::It => "it",
            Keyword::True => "true",
            Keyword::False => "false",
            Keyword::NoneOf => "none",
            Keyword::SomeOf => "some",
            Keyword::Empty => "empty",
            Keyword::Orelse => "orelse",
            Keyword::Has => "has",
            Keyword::Lower => "lower",
            Keyword::Words => "words",
            Keyword::Len => "len",
            Keyword::Starts => "starts",
            Keyword::Sum => "sum",
            Keyword::Min => "min",
            Keyword::Max => "max",
            Keyword::First => "first",
            Keyword::Last => "last",
            Keyword::Concat => "concat",
            Keyword::Set => "set",
            Keyword::Top => "top",
            Keyword::Cms => "cms",
            Keyword::Hll => "hll",
        }
    }

    /// The word as a text of its own.
    pub fn to_text(self, alloc: Global) -> Result<Text, NoMemory>
        ensures { IfOk result (λ text. text ≡ keyword_text self) }
    {
        Ok(Text::from_string(String::from_str(alloc, self.text())?))
    }

    /// The keyword that the bytes are.
    pub fn from_bytes(bytes: &[u8]) -> Option<Keyword>
        ensures value { result ≡ keyword_of bytes.now }
        ensures spelled { IfSome result (λ keyword. bytes.now ≡ keyword_text keyword) }
        ensures every { (keyword : Keyword) → bytes.now ≡ keyword_text keyword
            → result ≡ Some keyword }
    {
        find_keyword(&KEYWORDS, bytes)
    }
}

fn find_keyword(keywords: &[Keyword], bytes: &[u8]) -> Option<Keyword>
    ensures { result ≡ find (λ keyword. bytes_eq (keyword_text keyword) bytes.now) keywords.now }
{
    for keyword in keywords {
        if keyword.text().as_bytes() == bytes {
            return Some(*keyword);
        }
    }
    None
}
