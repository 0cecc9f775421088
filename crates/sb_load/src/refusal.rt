//! Refusals: why a command can't do its work.
ghost use Rattle.std.specs.Prelude.{◌≡◌};
ghost use Rattle.sb_load.specs.Refusals.{refusal_answer};
ghost use Rattle.sb_load.specs.Inputs.{check_refusal};
ghost use Rattle.sb_load.specs.Steps.{syntax_refusal, log_error_refusal};
ghost use Rattle.sb_load.specs.declared.refusal.Refusal.TheVariants as refused;

use crate::name::Name;
use sb_check::{CheckError, LineKind, LogError};
use sb_syntax::{Code, SyntaxError};

/// A file that a command names.
#[derive(Drop)]
pub enum Which {
    Program,
    Log,
    Script,
    /// The file of the service of this name.
    Service(Name),
}

/// What is wrong with a statement.
#[derive(Clone, Copy, PartialEq, Eq)]
pub enum CheckKind {
    Unknown,
    Twice,
    Mistyped,
    TooLarge,
    TooWide,
    NotAKey,
}

/// Why a command is refused. Lines, statements and fields count from 1.
#[derive(Drop)]
pub enum Refusal {
    /// A fault of the shelf at this file.
    Shelf(Which),
    NoMemory,
    /// The program has more than 65,536 bytes.
    ProgramLonger,
    /// The program's first wrong token.
    Syntax { offset: u64, code: Code },
    /// The program's first statement with a fault.
    Check { statement: u32, kind: CheckKind },
    /// The program's first store that can't be summed in any order.
    Order { store: Name },
    /// The log has more than 64 MiB.
    LogLonger,
    /// The log's first bad line.
    LogLine { line: u64, kind: LineKind },
    /// The log has more than 1,048,576 lines.
    LogTooMany,
    /// The log has more than 65,536 chunks.
    LogChunks,
    /// The script has more than 4 MiB.
    ScriptLonger,
    /// The script's first bad line.
    ScriptLine { line: u64 },
    /// A word gives a service that the program doesn't declare.
    ServiceUnknown,
    /// No word gives the file of this service.
    ServiceMissing { name: Name },
    /// The service's file has more than 16 MiB.
    ServiceLonger { name: Name },
    /// The service's first line that is no row.
    ServiceBad { name: Name, line: u64 },
    /// The service's first line whose key stands in an earlier one, `first`.
    ServiceTwice { name: Name, line: u64, first: u64 },
}

impl Refusal {
    /// The refusal of a program's text that isn't parsed.
    pub(crate) fn of_syntax(error: SyntaxError) -> Refusal
        ensures { result ≡ syntax_refusal error }
    {
        match error {
            SyntaxError::At { offset, code } => Refusal::Syntax { offset, code },
            SyntaxError::NoMemory => Refusal::NoMemory,
        }
    }

    /// The refusal of a program that isn't accepted.
    pub(crate) fn of_check(error: CheckError) -> Refusal
        ensures { result ≡ check_refusal error }
    {
        match error {
            CheckError::Unknown { statement } => check(statement, CheckKind::Unknown),
            CheckError::Twice { statement } => check(statement, CheckKind::Twice),
            CheckError::Mistyped { statement } => check(statement, CheckKind::Mistyped),
            CheckError::TooLarge { statement } => check(statement, CheckKind::TooLarge),
            CheckError::TooWide { statement } => check(statement, CheckKind::TooWide),
            CheckError::NotAKey { statement } => check(statement, CheckKind::NotAKey),
            CheckError::NoMemory => Refusal::NoMemory,
        }
    }

    /// The refusal of a log that isn't read.
    pub fn of_log(error: LogError) -> Refusal
        ensures { result ≡ log_error_refusal error }
    {
        match error {
            LogError::Line { line, kind } => Refusal::LogLine { line, kind },
            LogError::TooMany => Refusal::LogTooMany,
            LogError::NoMemory => Refusal::NoMemory,
        }
    }

    /// The status of the refusal.
    pub fn status(&self) -> u8
        ensures { result ≡ (refusal_answer self.now).status }
    {
        match self {
            Refusal::Shelf(_) => 3,
            Refusal::NoMemory => 5,
            Refusal::ProgramLonger
            | Refusal::Syntax { .. }
            | Refusal::Check { .. }
            | Refusal::Order { .. } => 6,
            Refusal::LogLonger
            | Refusal::LogLine { .. }
            | Refusal::LogTooMany
            | Refusal::LogChunks => 7,
            Refusal::ScriptLonger | Refusal::ScriptLine { .. } => 8,
            Refusal::ServiceUnknown
            | Refusal::ServiceMissing { .. }
            | Refusal::ServiceLonger { .. }
            | Refusal::ServiceBad { .. }
            | Refusal::ServiceTwice { .. } => 9,
        }
    }
}

fn check(statement: u32, kind: CheckKind) -> Refusal
    ensures { result ≡ refused.Check statement kind }
{
    Refusal::Check { statement, kind }
}
