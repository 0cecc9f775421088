//! A place among the tokens of a text.
ghost use Rattle.std.specs.Prelude.{◌≡◌, option_map, IfOk};
ghost use Rattle.sb_tokens.specs.Keyword.{keyword_text};
ghost use Rattle.sb_tokens.specs.Lexed.{Lexed, lexed};
ghost use Rattle.sb_tokens.specs.View.{token_view};
ghost use Rattle.sb_syntax.specs.Cursor.{onto_next, IsNext};
ghost use Rattle.sb_syntax.specs.Programs.{begins_statement, code_at, code_of, fresh, is_done, offset_of, start_of};
ghost use Rattle.sb_syntax.specs.Reading as spec;
ghost use Rattle.sb_syntax.specs.Reading.{Reads};

use crate::fault::Fault;
use crate::statements::MAX_TOKENS;
use sb_grammar::Code;
use sb_text::{NoMemory, Text};
use sb_tokens::{Keyword, Symbol, Token, Tokens};
use std::alloc::Global;
use std::marker::Model;

/// The tokens of a text, of which the next is known, and how many more the statement may take.
#[derive(Drop)]
pub struct Cursor<'a> {
    tokens: Tokens<'a>,
    next: Next<'a>,
    room: usize,
}

#[derive(Clone, Copy)]
enum Next<'a> {
    Token(u64, Token<'a>),
    End,
    Bad(u64),
}

impl<'a> Model for Cursor<'a> {
    ghost use Rattle.sb_syntax.specs.Reading.{Input};
    ghost use Rattle.sb_syntax.specs.Cursor.{input_of, IsReady};

    ghost Value = { Input };

    ghost view = { input_of };

    ghost invariant = { IsReady };
}

impl<'a> Cursor<'a> {
    /// The tokens of a text, with room for a statement.
    pub fn new(bytes: &'a [u8]) -> Cursor<'a>
        ensures { result ≡ start_of (lexed bytes.now) }
    {
        let mut tokens = Tokens::new(bytes);
        let next = next_of(&mut tokens);
        Cursor {
            tokens,
            next,
            room: MAX_TOKENS,
        }
    }

    /// Whether the text ends here.
    #[tactic(auto, unfolding(crate::specs::Programs::is_done))]
    pub fn is_done(&self) -> bool
        ensures { result ≡ is_done self.now }
    {
        match self.next {
            Next::End => true,
            Next::Token(_, _) | Next::Bad(_) => false,
        }
    }

    /// Gives room for a whole statement.
    pub fn begin_statement(&mut self)
        ensures { self.new ≡ fresh self.old }
    {
        self.room = MAX_TOKENS;
    }

    /// The offset of the next token, in a text of this size.
    #[tactic(auto, unfolding(crate::specs::Programs::offset_of))]
    pub fn offset(&self, size: u64) -> u64
        ensures { result ≡ offset_of self.now size }
    {
        match self.next {
            Next::Token(offset, _) | Next::Bad(offset) => offset,
            Next::End => size,
        }
    }

    /// What a rule's fault here is called; `None` for want of memory.
    #[tactic(auto, unfolding(crate::specs::Programs::code_of))]
    pub fn code(&self, fault: Fault) -> Option<Code>
        ensures { result ≡ code_of fault self.now }
    {
        match fault {
            Fault::NoMemory | Fault::Deep => None,
            Fault::Ended => Some(self.end_code()),
            Fault::Misfit => Some(Code::Unexpected),
            Fault::Spent => Some(Code::Long),
        }
    }

    // Why no token is left.
    fn end_code(&self) -> Code
        ensures { result ≡ code_at self.now.places self.now.budget.ending }
    {
        match self.next {
            Next::Bad(_) => Code::BadToken,
            Next::Token(_, _) | Next::End => Code::End,
        }
    }

    /// Whether a statement begins with the next token.
    pub fn begins_statement(&self) -> bool
        ensures { result ≡ begins_statement (spec.ahead self.now) }
    {
        begins_statement(self.peek())
    }

    /// The next token.
    #[tactic(auto, unfolding(crate::specs::Reading::ahead))]
    pub fn peek(&self) -> Option<Token<'a>>
        ensures { option_map token_view result ≡ spec.ahead self.now }
    {
        match self.next {
            Next::Token(_, token) => Some(token),
            Next::End | Next::Bad(_) => None,
        }
    }

    /// Why the next token isn't taken.
    #[tactic(auto, unfolding(crate::specs::Reading::refusal))]
    pub fn refuse(&self) -> Fault
        ensures { result ≡ spec.refusal self.now }
    {
        match self.next {
            Next::Token(_, _) => Fault::Misfit,
            Next::End | Next::Bad(_) => Fault::Ended,
        }
    }

    /// Takes the next token; with no token left this does nothing but count.
    #[tactic(auto, unfolding(crate::specs::Reading::take_token))]
    pub fn take(&mut self) -> Result<(), Fault>
        ensures { Reads (spec.take_token self.old) result self.new }
    {
        if self.room == 0 {
            return Err(Fault::Spent);
        }
        self.room -= 1;
        self.next = next_of(&mut self.tokens);
        Ok(())
    }

    /// Whether this symbol is next.
    #[tactic(auto, unfolding(crate::specs::Reading::sees))]
    pub fn sees(&self, symbol: Symbol) -> bool
        ensures { result ≡ spec.sees symbol self.now }
    {
        is_symbol(symbol, self.peek())
    }

    /// Whether this keyword is next.
    #[tactic(auto, unfolding(crate::specs::Reading::sees_word))]
    pub fn sees_word(&self, word: Keyword) -> bool
        ensures { result ≡ spec.sees_word word self.now }
    {
        is_keyword(word, self.peek())
    }

    /// Takes this symbol.
    #[tactic(auto, unfolding(crate::specs::Reading::expect))]
    pub fn expect(&mut self, symbol: Symbol) -> Result<(), Fault>
        ensures { Reads (spec.expect symbol self.old) result self.new }
    {
        if self.sees(symbol) {
            self.take()
        } else {
            Err(self.refuse())
        }
    }

    /// Takes this keyword.
    #[tactic(auto, unfolding(crate::specs::Reading::expect_word))]
    pub fn expect_word(&mut self, word: Keyword) -> Result<(), Fault>
        ensures { Reads (spec.expect_word word self.old) result self.new }
    {
        if self.sees_word(word) {
            self.take()
        } else {
            Err(self.refuse())
        }
    }

    /// Takes an int.
    #[tactic(auto, unfolding(crate::specs::Reading::number))]
    pub fn number(&mut self) -> Result<u64, Fault>
        ensures { Reads (spec.number self.old) result self.new }
    {
        let Some(number) = int_in(self.peek()) else {
            return Err(self.refuse());
        };
        self.take()?;
        Ok(number)
    }

    /// Takes an int other than 0.
    #[tactic(auto, unfolding(crate::specs::Reading::positive))]
    pub fn positive(&mut self) -> Result<u64, Fault>
        ensures { Reads (spec.positive self.old) result self.new }
    {
        let Some(number) = positive_in(self.peek()) else {
            return Err(self.refuse());
        };
        self.take()?;
        Ok(number)
    }

    /// Takes a name.
    #[tactic(auto, unfolding(crate::specs::Reading::a_name))]
    pub fn name(&mut self, alloc: Global) -> Result<Text, Fault>
        ensures { Reads (spec.a_name self.old) result self.new }
    {
        let Some(name) = name_in(alloc, self.peek())? else {
            return Err(self.refuse());
        };
        self.take()?;
        Ok(name)
    }

    /// Takes a name, or a keyword as one.
    #[tactic(auto, unfolding(crate::specs::Reading::a_word))]
    pub fn word(&mut self, alloc: Global) -> Result<Text, Fault>
        ensures { Reads (spec.a_word self.old) result self.new }
    {
        let Some(word) = word_in(alloc, self.peek())? else {
            return Err(self.refuse());
        };
        self.take()?;
        Ok(word)
    }
}

fn begins_statement(token: Option<Token<'_>>) -> bool
    ensures { result ≡ begins_statement (option_map token_view token.entry) }
{
    match token {
        Some(Token::Keyword(Keyword::Source)) => true,
        Some(Token::Keyword(Keyword::Service)) => true,
        Some(Token::Keyword(Keyword::Let)) => true,
        Some(Token::Keyword(Keyword::Store)) => true,
        _ => false,
    }
}

fn is_symbol(symbol: Symbol, token: Option<Token<'_>>) -> bool
    ensures { result ≡ spec.is_symbol symbol (option_map token_view token.entry) }
{
    match token {
        Some(Token::Symbol(next)) => next == symbol,
        _ => false,
    }
}

fn is_keyword(word: Keyword, token: Option<Token<'_>>) -> bool
    ensures { result ≡ spec.is_keyword word (option_map token_view token.entry) }
{
    match token {
        Some(Token::Keyword(next)) => next == word,
        _ => false,
    }
}

fn int_in(token: Option<Token<'_>>) -> Option<u64>
    ensures { result ≡ spec.int_in (option_map token_view token.entry) }
{
    match token {
        Some(Token::Int(number)) => Some(number),
        _ => None,
    }
}

fn positive_in(token: Option<Token<'_>>) -> Option<u64>
    ensures { result ≡ spec.positive_in (option_map token_view token.entry) }
{
    match token {
        Some(Token::Int(0)) => None,
        Some(Token::Int(number)) => Some(number),
        _ => None,
    }
}

fn name_in(alloc: Global, token: Option<Token<'_>>) -> Result<Option<Text>, NoMemory>
    ensures { IfOk result (λ name. name ≡ spec.name_in (option_map token_view token.entry)) }
{
    match token {
        Some(Token::Name(name)) => Ok(Some(name.to_text(alloc)?)),
        _ => Ok(None),
    }
}

fn word_in(alloc: Global, token: Option<Token<'_>>) -> Result<Option<Text>, NoMemory>
    ensures { IfOk result (λ word. word ≡ spec.word_in (option_map token_view token.entry)) }
{
    match token {
        Some(Token::Name(name)) => Ok(Some(name.to_text(alloc)?)),
        Some(Token::Keyword(word)) => Ok(Some(keyword_as_text(alloc, word)?)),
        _ => Ok(None),
    }
}

/// A keyword as a name.
pub fn keyword_as_text(alloc: Global, word: Keyword) -> Result<Text, NoMemory>
    ensures { IfOk result (λ text. text ≡ keyword_text word) }
{
    let text = String::from_str(alloc, word.text())?;
    Ok(Text::from_string(text))
}

fn next_of<'a>(tokens: &mut Tokens<'a>) -> Next<'a>
    ensures places { onto_next result tokens.new.tokens ≡ tokens.old.tokens }
    ensures ending { tokens.new.ending ≡ tokens.old.ending }
    ensures ready { IsNext result tokens.new }
{
    match tokens.next_token() {
        Ok(Some((offset, token))) => Next::Token(offset, token),
        Ok(None) => Next::End,
        Err(bad) => Next::Bad(bad.offset),
    }
}
