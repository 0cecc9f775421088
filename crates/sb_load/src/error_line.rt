//! The error lines of refusals.
ghost use Rattle.std.specs.Prelude.{◌≡◌, ◌≤◌, ◌+◌, ◌++◌, codes, decimal, length};
ghost use Rattle.sb_load.specs.declared.refusal.Refusal.TheVariants as refused;
ghost use Rattle.sb_load.specs.Refusals.{check_text, code_text, kind_text, refusal_answer};

use crate::name::Name;
use crate::refusal::{CheckKind, Refusal, Which};
use arrayvec::ArrayString;
use itoa::Buffer;
use sb_check::LineKind;
use sb_syntax::Code;

/// An error line with its LF, in a fixed room.
pub type ErrorLine = ArrayString<160>;

impl Refusal {
    /// The error line of the refusal, with its LF. Takes no memory.
    pub fn line(&self) -> ErrorLine
        ensures { result.bytes ≡ (refusal_answer self.now).bytes }
    {
        match self {
            Refusal::Shelf(file) => shelf_line(file),
            Refusal::NoMemory => line_of("error 5 memory\n"),
            Refusal::ProgramLonger => line_of("error 6 longer\n"),
            Refusal::Syntax { offset, code } => {
                word_behind("error 6 syntax ", *offset, code_text(*code))
            }
            Refusal::Check { statement, kind } => {
                word_behind("error 6 check ", u64::from(*statement), check_text(*kind))
            }
            Refusal::Order { store } => named("error 6 order ", store, "\n"),
            Refusal::LogLonger => line_of("error 7 longer\n"),
            Refusal::LogLine { line, kind } => log_line(*line, *kind),
            Refusal::LogTooMany => line_of("error 7 0 TooMany\n"),
            Refusal::LogChunks => line_of("error 7 0 Chunks\n"),
            Refusal::ScriptLonger => line_of("error 8 longer\n"),
            Refusal::ScriptLine { line } => script_line(*line),
            Refusal::ServiceUnknown => line_of("error 9 unknown\n"),
            Refusal::ServiceMissing { name } => named("error 9 ", name, " missing\n"),
            Refusal::ServiceLonger { name } => named("error 9 ", name, " longer\n"),
            Refusal::ServiceBad { name, line } => bad_row_line(name, *line),
            Refusal::ServiceTwice { name, line, first } => twice_line(name, *line, *first),
        }
    }
}

fn shelf_line(file: &Which) -> ErrorLine
    ensures { result.bytes ≡ (refusal_answer (refused.Shelf file.now)).bytes }
{
    match file {
        Which::Program => line_of("error 3 shelf program\n"),
        Which::Log => line_of("error 3 shelf log\n"),
        Which::Script => line_of("error 3 shelf script\n"),
        Which::Service(name) => named("error 3 shelf service ", name, "\n"),
    }
}

fn log_line(line: u64, kind: LineKind) -> ErrorLine
    ensures { result.bytes ≡ (refusal_answer (refused.LogLine line kind)).bytes }
{
    match kind {
        LineKind::TooLong => word_behind("error 7 ", line, "TooLong"),
        LineKind::NoEnd => word_behind("error 7 ", line, "NoEnd"),
        LineKind::NoSource => word_behind("error 7 ", line, "NoSource"),
        LineKind::BadTime => word_behind("error 7 ", line, "BadTime"),
        LineKind::Early => word_behind("error 7 ", line, "Early"),
        LineKind::FarBatch => word_behind("error 7 ", line, "FarBatch"),
        LineKind::FieldCount => word_behind("error 7 ", line, "FieldCount"),
        LineKind::BadField { field } => field_line(line, field),
    }
}

fn field_line(line: u64, field: u32) -> ErrorLine
    ensures { result.bytes ≡ codes "error 7 " ++ (decimal line
        ++ (codes " BadField " ++ (decimal field ++ codes "\n"))) }
{
    let mut text = line_of("error 7 ");
    push_number(&mut text, line);
    push(&mut text, " BadField ");
    push_number(&mut text, u64::from(field));
    push(&mut text, "\n");
    text
}

fn script_line(line: u64) -> ErrorLine
    ensures { result.bytes ≡ codes "error 8 " ++ (decimal line ++ codes "\n") }
{
    let mut text = line_of("error 8 ");
    push_number(&mut text, line);
    push(&mut text, "\n");
    text
}

fn bad_row_line(name: &Name, line: u64) -> ErrorLine
    ensures { result.bytes ≡ codes "error 9 " ++ (name.now
        ++ (codes " " ++ (decimal line ++ codes " bad\n"))) }
{
    let mut text = line_of("error 9 ");
    push(&mut text, name.as_str());
    push(&mut text, " ");
    push_number(&mut text, line);
    push(&mut text, " bad\n");
    text
}

fn twice_line(name: &Name, line: u64, first: u64) -> ErrorLine
    ensures { result.bytes ≡ codes "error 9 " ++ (name.now ++ (codes " " ++ (decimal line
        ++ (codes " twice " ++ (decimal first ++ codes "\n"))))) }
{
    let mut text = line_of("error 9 ");
    push(&mut text, name.as_str());
    push(&mut text, " ");
    push_number(&mut text, line);
    push(&mut text, " twice ");
    push_number(&mut text, first);
    push(&mut text, "\n");
    text
}

// A number and a word behind it.
fn word_behind(front: &str, number: u64, word: &str) -> ErrorLine
    requires { length front.now + length word.now ≤ 100 }
    ensures { result.bytes ≡ front.now ++ (decimal number
        ++ (codes " " ++ (word.now ++ codes "\n"))) }
{
    let mut text = line_of(front);
    push_number(&mut text, number);
    push(&mut text, " ");
    push(&mut text, word);
    push(&mut text, "\n");
    text
}

// A name between two texts.
fn named(front: &str, name: &Name, behind: &str) -> ErrorLine
    requires { length front.now + length behind.now ≤ 96 }
    ensures { result.bytes ≡ front.now ++ (name.now ++ behind.now) }
{
    let mut text = line_of(front);
    push(&mut text, name.as_str());
    push(&mut text, behind);
    text
}

fn code_text(code: Code) -> &'static str
    ensures value { result.now ≡ code_text code }
    ensures length { length result.now ≤ 10 }
{
    match code {
        Code::BadToken => "BadToken",
        Code::Unexpected => "Unexpected",
        Code::End => "End",
        Code::Long => "Long",
        Code::Many => "Many",
    }
}

fn check_text(kind: CheckKind) -> &'static str
    ensures value { result.now ≡ check_text kind }
    ensures length { length result.now ≤ 10 }
{
    match kind {
        CheckKind::Unknown => "Unknown",
        CheckKind::Twice => "Twice",
        CheckKind::Mistyped => "Mistyped",
        CheckKind::TooLarge => "TooLarge",
        CheckKind::TooWide => "TooWide",
        CheckKind::NotAKey => "NotAKey",
    }
}

fn line_of(text: &str) -> ErrorLine
    requires { length text.now ≤ 160 }
    ensures { result.bytes ≡ text.now }
{
    match ArrayString::from(text) {
        Ok(line) => line,
        Err(_) => unreachable!(),
    }
}

fn push(line: &mut ErrorLine, text: &str)
    requires { length line.old.bytes + length text.now ≤ 160 }
    ensures { line.new.bytes ≡ line.old.bytes ++ text.now }
{
    match line.try_push_str(text) {
        Ok(()) => {}
        Err(_) => unreachable!(),
    }
}

fn push_number(line: &mut ErrorLine, number: u64)
    requires { length line.old.bytes ≤ 140 }
    ensures bytes { line.new.bytes ≡ line.old.bytes ++ decimal number }
    ensures length { length line.new.bytes ≤ length line.old.bytes + 20 }
{
    let mut digits = Buffer::new();
    push(line, digits.format(number));
}
