//! The codes of syntax errors.

/// Why a text is no program's.
#[derive(Clone, Copy, Debug, PartialEq, Eq)]
pub enum Code {
    /// No token begins here, or a word, an int or a text breaks its form.
    BadToken,
    /// No program goes on with this token.
    Unexpected,
    /// The text ends inside a program.
    End,
    /// The 257th token of a statement.
    Long,
    /// The token begins statement 257.
    Many,
}
