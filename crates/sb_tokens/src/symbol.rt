//! The symbols of programs, the longest first.
ghost use Rattle.std.specs.Prelude.{◌≡◌, ◌==◌, ◌<◌, ◌≤◌, length, IfSome};
ghost use Rattle.std.specs.List.{find, starts_with};
ghost use Rattle.sb_tokens.specs.Symbol.{symbol_text};
ghost use Rattle.sb_tokens.specs.Front.{first_symbol};

// A longer one stands before those that it begins with.
const SYMBOLS: [Symbol; 21] = [
    Symbol::Equal,
    Symbol::Unequal,
    Symbol::AtMost,
    Symbol::AtLeast,
    Symbol::Arrow,
    Symbol::OpenParen,
    Symbol::CloseParen,
    Symbol::OpenBracket,
    Symbol::CloseBracket,
    Symbol::Comma,
    Symbol::Colon,
    Symbol::Dot,
    Symbol::Assign,
    Symbol::Less,
    Symbol::Greater,
    Symbol::Plus,
    Symbol::Minus,
    Symbol::Star,
    Symbol::Slash,
    Symbol::Percent,
    Symbol::Bar,
];

/// A symbol of one or two bytes.
#[derive(Clone, Copy, PartialEq, Eq)]
pub enum Symbol {
    OpenParen,
    CloseParen,
    OpenBracket,
    CloseBracket,
    Comma,
    Colon,
    Dot,
    Assign,
    Equal,
    Unequal,
    Less,
    AtMost,
    Greater,
    AtLeast,
    Plus,
    Minus,
    Star,
    Slash,
    Percent,
    Bar,
    Arrow,
}

impl Symbol {
    ghost use Rattle.sb_tokens.specs.Symbol.{symbol_text};

    /// The symbol as it is written.
    pub fn text(self) -> &'static str
        ensures { result.now ≡ symbol_text self }
    {
        match self {
            Symbol::OpenParen => "(",
            Symbol::CloseParen => ")",
            Symbol::OpenBracket => "[",
            Symbol::CloseBracket => "]",
            Symbol::Comma => ",",
            Symbol::Colon => ":",
            Symbol::Dot => ".",
            Symbol::Assign => "=",
            Symbol::Equal => "==",
            Symbol::Unequal => "!=",
            Symbol::Less => "<",
            Symbol::AtMost => "<=",
            Symbol::Greater => ">",
            Symbol::AtLeast => ">=",
            Symbol::Plus => "+",
            Symbol::Minus => "-",
            Symbol::Star => "*",
            Symbol::Slash => "/",
            Symbol::Percent => "%",
            Symbol::Bar => "|",
            Symbol::Arrow => "->",
        }
    }
}

/// The longest symbol at the front.
pub(crate) fn first_symbol(bytes: &[u8]) -> Option<Symbol>
    ensures value { result ≡ first_symbol bytes.now }
    ensures bounds { IfSome result (λ symbol. (0 < length (symbol_text symbol))
        × (length (symbol_text symbol) ≤ length bytes.now)) }
{
    find_symbol(&SYMBOLS, bytes)
}

fn find_symbol(symbols: &[Symbol], bytes: &[u8]) -> Option<Symbol>
    ensures { result ≡ find (λ symbol. starts_with ◌==◌ bytes.now (symbol_text symbol))
        symbols.now }
{
    for symbol in symbols {
        if bytes.starts_with(symbol.text().as_bytes()) {
            return Some(*symbol);
        }
    }
    None
}
